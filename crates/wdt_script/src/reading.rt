//! What one line says.
ghost use Rattle.std.specs.Prelude.{◌≡◌};
ghost use Rattle.wdt_script.specs.Events.{amount_of, event_for, event_of, is_passed, lane_of, read_line, steps_of};

use crate::event::Event;
use crate::lines::first_field;
use crate::numbers::{Numbers, numbers_of};
use crate::script::MAX_LINE;
use crate::word::{Word, word_of};
use wdt_units::Lane;

/// The greatest number of steps, and of calls of a disk, that a line names.
pub const MAX_STEPS: u32 = 1_000_000;

/// The greatest number of bytes and the greatest pick that a line names.
pub const MAX_AMOUNT: u64 = 4_294_967_295;

/// What a line says.
#[derive(Clone, Copy, Debug, PartialEq, Eq)]
pub enum Reading {
    /// The line is passed over.
    Passed,
    Says(Event),
    /// The line has no reading.
    Unread,
}

/// What a line says, without the byte that ends it.
pub fn read_line(line: &[u8], lanes: u8) -> Reading
    ensures { result ≡ read_line lanes line.now }
{
    if line.len() > MAX_LINE {
        return Reading::Unread;
    }
    if is_passed(line) {
        return Reading::Passed;
    }
    match event_of(line, lanes) {
        Some(event) => Reading::Says(event),
        None => Reading::Unread,
    }
}

// Whether a line is empty, or begins with `#`.
fn is_passed(line: &[u8]) -> bool
    ensures { result ≡ is_passed line.now }
{
    match line {
        [] => true,
        [first, ..] => *first == b'#',
    }
}

// The event of a word and the numbers behind it.
fn event_of(line: &[u8], lanes: u8) -> Option<Event>
    ensures { result ≡ event_of lanes line.now }
{
    let (word, fields) = first_field(line);
    let Some(word) = word_of(word) else {
        return None;
    };
    let numbers = match fields {
        Some(fields) => numbers_of(fields),
        None => Some(Numbers::Zero),
    };
    match numbers {
        Some(numbers) => event_for(lanes, word, numbers),
        None => None,
    }
}

// The forms of lines, one a row.
fn event_for(lanes: u8, word: Word, numbers: Numbers) -> Option<Event>
    ensures { result ≡ event_for lanes word numbers }
{
    match (word, numbers) {
        (Word::S, Numbers::One(lane)) => Some(Event::S(lane_of(lanes, lane)?, 1)),
        (Word::S, Numbers::Two(lane, times)) => {
            Some(Event::S(lane_of(lanes, lane)?, steps_of(times)?))
        }
        (Word::R, Numbers::One(lane)) => Some(Event::R(lane_of(lanes, lane)?, 1)),
        (Word::R, Numbers::Two(lane, times)) => {
            Some(Event::R(lane_of(lanes, lane)?, steps_of(times)?))
        }
        (Word::Cut, Numbers::Three(lane, down, up)) => {
            Some(Event::Cut(lane_of(lanes, lane)?, amount_of(down)?, amount_of(up)?))
        }
        (Word::Deny, Numbers::One(lane)) => Some(Event::Deny(lane_of(lanes, lane)?)),
        (Word::Refuse, Numbers::One(lane)) => Some(Event::Refuse(lane_of(lanes, lane)?)),
        (Word::Stop, Numbers::Two(calls, pick)) => {
            Some(Event::Stop(steps_of(calls)?, amount_of(pick)?))
        }
        (Word::Settle, Numbers::Zero) => Some(Event::Settle),
        (Word::Resume, Numbers::Zero) => Some(Event::Resume),
        _ => None,
    }
}

fn lane_of(lanes: u8, number: u64) -> Option<Lane>
    ensures { result ≡ lane_of lanes number }
{
    if number < u64::from(lanes) {
        Some(Lane(number as u8))
    } else {
        None
    }
}

fn steps_of(number: u64) -> Option<u32>
    ensures { result ≡ steps_of number }
{
    if 1 <= number && number <= u64::from(MAX_STEPS) {
        Some(number as u32)
    } else {
        None
    }
}

fn amount_of(number: u64) -> Option<u64>
    ensures { result ≡ amount_of number }
{
    if number <= MAX_AMOUNT {
        Some(number)
    } else {
        None
    }
}
