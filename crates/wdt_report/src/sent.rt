//! What a sender's history tells.
ghost use Rattle.std.specs.Prelude.{◌≡◌, ◌+◌, ◌-◌, ◌<◌, ◌^◌, length, slice_set, sum_by};
ghost use Rattle.wdt_report.specs.Sent.{connections_in, one_linked, requeued_in};
ghost use Rattle.wdt_report.specs.Tables.{HasPlace, count_of, cut, cut_once, noted, place, taken, taken_once};

use crate::lanes::ALL_LANES;
use wdt_sender_fsm::SendEvent;
use wdt_units::Lane;

/// What is counted of a sender's history.
#[derive(Clone, Copy, Debug, PartialEq, Eq)]
pub struct Sent {
    /// How many connections were made.
    pub connections: u64,
    /// How many blocks were taken off the lanes' lists.
    pub requeued: u64,
}

/// How many blocks are on a lane's list, and whether the lane is closed.
#[derive(Clone, Copy, Debug, PartialEq, Eq)]
pub struct Listed {
    pub count: u64,
    pub is_closed: bool,
}

impl Listed {
    const NONE: Listed = Listed {
        count: 0,
        is_closed: false,
    };
}

/// Counts a sender's history.
pub fn count_sent(history: &[SendEvent]) -> Sent
    ensures connections { result.connections ≡ connections_in history.now }
    ensures requeued { result.requeued ≡ requeued_in history.now }
{
    let mut lanes = [Listed::NONE; ALL_LANES];
    let mut connections = 0;
    let mut requeued = 0;
    for event in history {
        connections += one_linked(event);
        requeued += note(&mut lanes, event);
    }
    Sent {
        connections,
        requeued,
    }
}

// 1 for a connection.
fn one_linked(event: &SendEvent) -> u64
    ensures { result ≡ one_linked event.now }
{
    match *event {
        SendEvent::Linked(..) => 1,
        _ => 0,
    }
}

// Notes an entry in the table, and answers how many blocks it takes off a list.
fn note(lanes: &mut [Listed], event: &SendEvent) -> u64
    requires all { length lanes.old ≡ ALL_LANES }
    requires room { sum_by count_of lanes.old < 2 ^ 64 - 1 }
    ensures noted { lanes.new ≡ noted lanes.old event.now }
    ensures taken { result ≡ taken lanes.old event.now }
    ensures place { HasPlace lanes.old event.now }
{
    match *event {
        SendEvent::Claim(lane, _) => {
            claim(lanes, lane);
            0
        }
        SendEvent::Greet(lane, n) => {
            let is_closed = lanes[lane.0 as usize].is_closed;
            cut(lanes, lane, n, is_closed)
        }
        SendEvent::Global(_, lane, n) => cut_once(lanes, lane, n),
        _ => 0,
    }
}

// One more block is on the lane's list.
fn claim(lanes: &mut [Listed], lane: Lane)
    requires all { length lanes.old ≡ ALL_LANES }
    requires room { sum_by count_of lanes.old < 2 ^ 64 - 1 }
    ensures within { lane.0 < ALL_LANES }
    ensures claimed { lanes.new ≡ slice_set lanes.old lane.0 (record { count = (place lanes.old lane.0).count + 1; is_closed = (place lanes.old lane.0).is_closed }) }
{
    let listed = lanes[lane.0 as usize];
    lanes[lane.0 as usize] = Listed {
        count: listed.count + 1,
        is_closed: listed.is_closed,
    };
}

// The lane keeps at most the first n blocks. Answers how many were taken off.
fn cut(lanes: &mut [Listed], lane: Lane, n: u32, is_closed: bool) -> u64
    requires all { length lanes.old ≡ ALL_LANES }
    ensures cut { lanes.new ≡ cut lanes.old lane.0 n is_closed }
    ensures taken { result ≡ (place lanes.old lane.0).count - n }
{
    let listed = lanes[lane.0 as usize];
    let count = listed.count.min(u64::from(n));
    lanes[lane.0 as usize] = Listed { count, is_closed };
    listed.count - count
}

// The lane is closed, and keeps at most the first n blocks, unless it was closed before.
fn cut_once(lanes: &mut [Listed], lane: Lane, n: u32) -> u64
    requires all { length lanes.old ≡ ALL_LANES }
    ensures within { lane.0 < ALL_LANES }
    ensures cut { lanes.new ≡ cut_once lanes.old lane.0 n (place lanes.old lane.0).is_closed }
    ensures taken { result ≡ taken_once (place lanes.old lane.0) n (place lanes.old lane.0).is_closed }
{
    if lanes[lane.0 as usize].is_closed {
        return 0;
    }
    cut(lanes, lane, n, true)
}
