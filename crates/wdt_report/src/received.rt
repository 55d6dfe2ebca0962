//! What a receiver's history tells.
ghost use Rattle.std.specs.Prelude.{◌≡◌, ◌<◌, ◌^◌, length};
ghost use Rattle.wdt_report.specs.Received.{blocks_in, bytes_in, closed_in, one_closing, one_landing, one_taking, taken_in};
ghost use Rattle.wdt_report.specs.Tables.{HasBegunPlace, begun_noted, landing};

use crate::lanes::ALL_LANES;
use std::mem;
use wdt_receiver_fsm::RecvEvent;

/// What is counted of a receiver's history.
#[derive(Clone, Copy, Debug, PartialEq, Eq)]
pub struct Received {
    /// How many blocks landed.
    pub blocks: u64,
    /// How many bytes they have.
    pub bytes: u128,
    /// How many lanes were closed.
    pub closed: u64,
}

/// Counts a receiver's history.
pub fn count_received(history: &[RecvEvent]) -> Received
    ensures blocks { result.blocks ≡ blocks_in history.now }
    ensures bytes { result.bytes ≡ bytes_in history.now }
    ensures few_bytes { result.bytes < 2 ^ 96 }
    ensures closed { result.closed ≡ closed_in history.now }
{
    let mut begun = [0; ALL_LANES];
    let mut blocks = 0;
    let mut bytes: u128 = 0;
    let mut closed = 0;
    for event in history {
        blocks += one_landing(event);
        closed += one_closing(event);
        bytes += u128::from(note(&mut begun, event));
    }
    Received {
        blocks,
        bytes,
        closed,
    }
}

/// How many connections were taken.
pub fn count_takes(history: &[RecvEvent]) -> u64
    ensures { result ≡ taken_in history.now }
{
    let mut takes = 0;
    for event in history {
        takes += one_taking(event);
    }
    takes
}

// 1 for a connection.
fn one_taking(event: &RecvEvent) -> u64
    ensures { result ≡ one_taking event.now }
{
    match *event {
        RecvEvent::Take(..) => 1,
        _ => 0,
    }
}

// 1 for a block that landed.
fn one_landing(event: &RecvEvent) -> u64
    ensures { result ≡ one_landing event.now }
{
    match *event {
        RecvEvent::Land(_) => 1,
        _ => 0,
    }
}

// 1 for a lane that was closed.
fn one_closing(event: &RecvEvent) -> u64
    ensures { result ≡ one_closing event.now }
{
    match *event {
        RecvEvent::Close(_) => 1,
        _ => 0,
    }
}

// Notes an entry in the table, which has how many bytes each lane's begun block has, and answers how
// many bytes land by it.
fn note(begun: &mut [u32], event: &RecvEvent) -> u32
    requires all { length begun.old ≡ ALL_LANES }
    ensures noted { begun.new ≡ begun_noted begun.old event.now }
    ensures landing { result ≡ landing begun.old event.now }
    ensures place { HasBegunPlace begun.old event.now }
{
    match *event {
        RecvEvent::Begin(lane, block) => {
            begun[lane.0 as usize] = block.length;
            0
        }
        RecvEvent::Land(lane) => mem::replace(&mut begun[lane.0 as usize], 0),
        RecvEvent::Dropped(lane) => {
            begun[lane.0 as usize] = 0;
            0
        }
        _ => 0,
    }
}
