//! What an honest sender says next.
ghost use Rattle.std.specs.Prelude.{◌<◌, IfOk};
ghost use Rattle.wdt_receiver_fsm.specs.Turn.{Given};
ghost use Rattle.wdt_receiver_fsm.specs.Writes.{FitsPut};

use crate::dice::Dice;
use crate::frames::{header_of, settings_of};
use std::alloc::Global;
use wdt_codec::Frame;
use wdt_plain_receiver::{LANES, Plain, PlainAct, is_in, tree};
use wdt_receiver_fsm::{RecvIn, RecvState};
use wdt_units::{Block, Conn, Lane, NoMemory};

/// What becomes of a lane's act where the sender is honest and nothing goes wrong; None is the act of a lane
/// that hasn't begun.
pub fn answer_of(
    alloc: Global,
    dice: &mut Dice,
    plain: &Plain,
    lane: Lane,
    act: Option<PlainAct>,
) -> Result<RecvIn, NoMemory>
    requires { lane.0 < LANES }
    ensures { IfOk result (λ put. FitsPut (Given put)) }
{
    match act {
        None => Ok(RecvIn::Start),
        Some(PlainAct::Accept) => Ok(if dice.is_one_in(9) {
            RecvIn::NoLink
        } else {
            RecvIn::Linked
        }),
        Some(PlainAct::Read) => said(alloc, dice, plain, lane),
        Some(PlainAct::Park | PlainAct::Stop | PlainAct::TakePiece(_)) => Ok(RecvIn::Woken),
        Some(_) => Ok(RecvIn::Wrote),
    }
}

// What is read where the lane stands.
fn said(alloc: Global, dice: &mut Dice, plain: &Plain, lane: Lane) -> Result<RecvIn, NoMemory>
    requires { lane.0 < LANES }
    ensures { IfOk result (λ put. FitsPut (Given put)) }
{
    let stand = plain.lane(lane);
    match stand.state {
        RecvState::ReadSettings => {
            let conn = Conn(stand.conn.saturating_add(1));
            let settings = settings_of(lane, conn, !dice.is_one_in(4));
            Ok(RecvIn::Got(Frame::Settings(settings)))
        }
        RecvState::ReadNextCmd if !stand.is_sized => Ok(whole_size()),
        RecvState::ReadNextCmd => next_block(alloc, dice, plain),
        _ => Ok(RecvIn::Got(Frame::Done)),
    }
}

// What the whole tree has.
fn whole_size() -> RecvIn
    ensures { FitsPut (Given result) }
{
    RecvIn::Got(Frame::Size {
        files: tree::FILES as u32,
        bytes: tree::TOTAL,
    })
}

// The header of a block that is neither there nor on its way, or that there is none.
fn next_block(alloc: Global, dice: &mut Dice, plain: &Plain) -> Result<RecvIn, NoMemory>
    ensures { IfOk result (λ put. FitsPut (Given put)) }
{
    let taken = plain.taken()?;
    let first = dice.below(tree::FILES as u64) as usize;
    for step in 0..tree::FILES {
        let file = (first + step) % tree::FILES;
        if let Some((offset, length)) = missing(dice, plain, &taken, file) {
            let told = (tree::size_of(file), tree::stamp_of(file));
            return match header_of(alloc, file, told, offset, length)? {
                Some(header) => Ok(RecvIn::Got(Frame::Block(header))),
                None => Ok(RecvIn::Odd),
            };
        }
    }
    Ok(RecvIn::Got(Frame::Done))
}

// A part of a file of which no position is taken, from a random place on where one is free behind it.
fn missing(dice: &mut Dice, plain: &Plain, taken: &[Block], file: usize) -> Option<(u64, u32)> {
    let size = tree::size_of(file);
    let number = plain.known.number_of(file).unwrap_or(u32::MAX);
    if size == 0 {
        let is_there = plain.opening.names(number)
            || taken.iter().any(|block| block.file == number);
        return if is_there { None } else { Some((0, 0)) };
    }
    let offset = match first_free(taken, number, dice.below(size), size) {
        Some(offset) => offset,
        None => first_free(taken, number, 0, size)?,
    };
    Some((
        offset,
        free_length(taken, number, offset, size).min(length_of(dice)),
    ))
}

// How long a block is at most: often so that blocks fill a batch to the byte.
fn length_of(dice: &mut Dice) -> u32 {
    if dice.is_one_in(2) {
        4
    } else {
        dice.below(13) as u32 + 1
    }
}

// The first position of a file that isn't taken, from this one on.
fn first_free(taken: &[Block], number: u32, from: u64, size: u64) -> Option<u64> {
    for position in from..size {
        if !is_in(taken, number, position) {
            return Some(position);
        }
    }
    None
}

// How many positions in a row aren't taken, from this one on.
fn free_length(taken: &[Block], number: u32, from: u64, size: u64) -> u32 {
    let mut count: u32 = 0;
    for position in from..size {
        if is_in(taken, number, position) {
            return count;
        }
        count = count.saturating_add(1);
    }
    count
}
