//! What a lane isn't to be told where it stands, or what no sender may say.
ghost use Rattle.std.specs.Prelude.{◌<◌, IfOk};
ghost use Rattle.wdt_codec.specs.Frames.{Fits, FitsSettings};
ghost use Rattle.wdt_receiver_fsm.specs.Turn.{Given};
ghost use Rattle.wdt_receiver_fsm.specs.Writes.{FitsPut};

use crate::dice::Dice;
use crate::frames::{header_of, settings_of};
use std::alloc::Global;
use wdt_codec::{Frame, Mark, Marks, Settings};
use wdt_plain_receiver::{LANES, Plain, tree};
use wdt_ranges::Have;
use wdt_receiver_fsm::RecvIn;
use wdt_units::{Conn, Lane, NoMemory};

/// Any input.
pub fn stray(alloc: Global, dice: &mut Dice, plain: &Plain, lane: Lane) -> Result<RecvIn, NoMemory>
    requires { lane.0 < LANES }
    ensures { IfOk result (λ put. FitsPut (Given put)) }
{
    match dice.below(20) {
        0 => Ok(RecvIn::Start),
        1 => Ok(RecvIn::Linked),
        2 => Ok(RecvIn::NoLink),
        3 | 4 => Ok(RecvIn::Wrote),
        5 => Ok(RecvIn::Bad(dice.below(1_000) as u32)),
        6 | 7 => Ok(RecvIn::Woken),
        8 => Ok(RecvIn::Starved),
        9 => Ok(RecvIn::Odd),
        10 | 11 | 12 => Ok(RecvIn::Lost),
        _ => Ok(RecvIn::Got(frame(alloc, dice, plain, lane)?)),
    }
}

// Any frame.
fn frame(alloc: Global, dice: &mut Dice, plain: &Plain, lane: Lane) -> Result<Frame, NoMemory>
    requires { lane.0 < LANES }
    ensures { IfOk result (λ frame. Fits frame) }
{
    match dice.below(12) {
        0 | 1 | 2 => Ok(Frame::Settings(settings(dice, lane))),
        3 => Ok(Frame::Greeting(mark(dice))),
        4 => Ok(Frame::Chunks(Have::none(alloc))),
        5 => Ok(Frame::Size {
            files: dice.below(9) as u32,
            bytes: dice.below(99),
        }),
        6 | 7 | 8 => block(alloc, dice, plain),
        9 => Ok(Frame::Done),
        10 => Ok(Frame::ErrMarks(marks(dice))),
        _ => other(dice),
    }
}

fn other(dice: &mut Dice) -> Result<Frame, NoMemory>
    ensures { IfOk result (λ frame. Fits frame) }
{
    if dice.is_one_in(2) {
        Ok(Frame::Wait)
    } else {
        Ok(Frame::Abort(dice.below(256) as u8))
    }
}

// Settings of which any field may be wrong.
fn settings(dice: &mut Dice, lane: Lane) -> Settings
    requires { lane.0 < LANES }
    ensures { FitsSettings result }
{
    let right = settings_of(lane, Conn(dice.below(9) as u16 + 1), dice.is_one_in(2));
    match dice.below(6) {
        0 => Settings {
            version: 2,
            ..right
        },
        1 => Settings {
            session: dice.below(9),
            ..right
        },
        2 => settings_of(Lane(dice.below(LANES as u64) as u8), right.conn, right.ask),
        3 => Settings { lanes: 16, ..right },
        4 => Settings {
            block: dice.below(9) as u32 + 1,
            ..right
        },
        _ => right,
    }
}

fn mark(dice: &mut Dice) -> Mark
    ensures { Fits (Frame.Greeting result) }
{
    Mark {
        lane: Lane(dice.below(16) as u8),
        count: dice.below(9) as u32,
    }
}

fn marks(dice: &mut Dice) -> Marks
    ensures { Fits (Frame.ErrMarks result) }
{
    let mut marks = Marks::none();
    marks.push(mark(dice));
    marks
}

// Any part of a file, also one that is there or on its way. A file that is known may be told to have another
// size or stamp.
fn block(alloc: Global, dice: &mut Dice, plain: &Plain) -> Result<Frame, NoMemory>
    ensures { IfOk result (λ frame. Fits frame) }
{
    let file = dice.below(tree::FILES as u64) as usize;
    let size = tree::size_of(file);
    let is_known = plain.known.number_of(file).is_some();
    let told = if is_known && dice.is_one_in(3) {
        (
            size + dice.below(2),
            tree::stamp_of(file).saturating_add(dice.below(2)),
        )
    } else {
        (size, tree::stamp_of(file))
    };
    let offset = dice.below(told.0 + 1);
    let length = dice.below(told.0 - offset + 1) as u32;
    match header_of(alloc, file, told, offset, length)? {
        Some(header) => Ok(Frame::Block(header)),
        None => Ok(Frame::Done),
    }
}
