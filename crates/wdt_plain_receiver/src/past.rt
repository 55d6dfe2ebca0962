//! What a receiver's history says. Each question is answered by reading all of it again.
ghost use Rattle.std.specs.Prelude.{◌<◌};

use crate::lanes::{LANES, place_of};
use std::alloc::Global;
use wdt_codec::Settings;
use wdt_receiver_fsm::RecvEvent;
use wdt_units::{Block, Lane, LaneSet, MAX_LANES, NoMemory};

/// The blocks that landed on any lane, in order.
pub fn landed(alloc: Global, history: &[RecvEvent]) -> Result<Vec<Block>, NoMemory> {
    let mut blocks = Vec::new(alloc);
    let mut begun = [None; LANES as usize];
    for event in history {
        match event {
            RecvEvent::Begin(lane, block) => begun[place_of(*lane)] = Some(*block),
            RecvEvent::Dropped(lane) => begun[place_of(*lane)] = None,
            RecvEvent::Land(lane) => {
                if let Some(block) = begun[place_of(*lane)].take() {
                    blocks.push(block)?;
                }
            }
            _ => {}
        }
    }
    Ok(blocks)
}

/// The block that is begun on a lane.
pub fn begun(history: &[RecvEvent], lane: Lane) -> Option<Block> {
    let mut begun = None;
    for event in history {
        match event {
            RecvEvent::Begin(of, block) if *of == lane => begun = Some(*block),
            RecvEvent::Land(of) | RecvEvent::Dropped(of) if *of == lane => begun = None,
            _ => {}
        }
    }
    begun
}

/// How many blocks landed on a lane.
pub fn count_landed(history: &[RecvEvent], lane: Lane) -> u32 {
    let mut is_begun = false;
    let mut count: u32 = 0;
    for event in history {
        match event {
            RecvEvent::Begin(of, _) if *of == lane => is_begun = true,
            RecvEvent::Dropped(of) if *of == lane => is_begun = false,
            RecvEvent::Land(of) if *of == lane && is_begun => {
                is_begun = false;
                count = count.saturating_add(1);
            }
            _ => {}
        }
    }
    count
}

/// How many connections a lane took.
pub fn takes(history: &[RecvEvent], lane: Lane) -> usize {
    let of = |event: &&RecvEvent| matches!(event, RecvEvent::Take(of, _) if *of == lane);
    history.iter().filter(of).count()
}

/// How often a lane could take none.
pub fn failed_tries(history: &[RecvEvent], lane: Lane) -> usize {
    history
        .iter()
        .filter(|event| **event == RecvEvent::NoLink(lane))
        .count()
}

/// Whether a lane is idle.
pub fn is_idle(history: &[RecvEvent], lane: Lane) -> bool {
    let mut is_idle = false;
    for event in history {
        match event {
            RecvEvent::Idle(of) if *of == lane => is_idle = true,
            RecvEvent::Told(of, _) | RecvEvent::Dropped(of) if *of == lane => is_idle = false,
            _ => {}
        }
    }
    is_idle
}

/// Whether a lane was given up before the finish.
pub fn is_closed(history: &[RecvEvent], lane: Lane) -> bool {
    history.contains(&RecvEvent::Close(lane))
}

/// Whether a lane read the answer to the last word.
pub fn is_acked(history: &[RecvEvent], lane: Lane) -> bool {
    history.contains(&RecvEvent::Acked(lane))
}

/// Whether the finish has come.
pub fn has_finish(history: &[RecvEvent]) -> bool {
    history.contains(&RecvEvent::Finish)
}

/// The closed lanes of which a lane told since it took its connection.
fn told(history: &[RecvEvent], lane: Lane) -> LaneSet {
    let mut told = LaneSet::empty();
    for event in history {
        match event {
            RecvEvent::Take(of, _) if *of == lane => told = LaneSet::empty(),
            RecvEvent::Told(of, closed) if *of == lane => told = told.with(*closed),
            _ => {}
        }
    }
    told
}

/// Whether a lane that told of this closed one was idle again since, on the same connection.
fn is_confirmed(history: &[RecvEvent], closed: Lane) -> bool {
    let mut tellers = LaneSet::empty();
    let mut is_confirmed = false;
    for event in history {
        match event {
            RecvEvent::Told(of, told) if told.has(in_range(closed)) => {
                tellers = tellers.with(LaneSet::only(in_range(*of)))
            }
            RecvEvent::Idle(of) => {
                is_confirmed = is_confirmed || tellers.has(in_range(*of));
                tellers = tellers.without(LaneSet::only(in_range(*of)));
            }
            RecvEvent::Dropped(of) => tellers = tellers.without(LaneSet::only(in_range(*of))),
            _ => {}
        }
    }
    is_confirmed
}

// A lane that an end may have; each lane of a history is one.
fn in_range(lane: Lane) -> Lane
    ensures { result.0 < MAX_LANES }
{
    Lane(lane.0 % MAX_LANES)
}

/// The closed lanes of which a lane has still to tell.
pub fn untold(history: &[RecvEvent], lane: Lane) -> LaneSet {
    let told = told(history, lane);
    let mut untold = LaneSet::empty();
    for number in 0..LANES {
        let closed = Lane(number);
        if is_closed(history, closed) && !is_confirmed(history, closed) && !told.has(closed) {
            untold = untold.with(LaneSet::only(closed));
        }
    }
    untold
}

/// Whether the finish is ready: each lane is idle or closed, one is idle, and each closed one is confirmed.
pub fn is_ready(history: &[RecvEvent]) -> bool {
    let mut has_idle = false;
    for number in 0..LANES {
        let lane = Lane(number);
        if is_idle(history, lane) {
            has_idle = true;
        } else if !is_closed(history, lane) {
            return false;
        }
        if is_closed(history, lane) && !is_confirmed(history, lane) {
            return false;
        }
    }
    has_idle
}

/// The first settings that were read.
pub fn met(history: &[RecvEvent]) -> Option<Settings> {
    for event in history {
        if let RecvEvent::Met(_, settings) = event {
            return Some(*settings);
        }
    }
    None
}

/// How many files and bytes are sent in all, as it was first read.
pub fn sized(history: &[RecvEvent]) -> Option<(u32, u64)> {
    for event in history {
        if let RecvEvent::Sized(_, files, bytes) = event {
            return Some((*files, *bytes));
        }
    }
    None
}
