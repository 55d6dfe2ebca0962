//! What happened on the lanes, and what follows from it.
ghost use Rattle.std.specs.Prelude.{◌≡◌, ◌↔◌, ◌<◌, ◌≤◌, [], replicate, option_map, is_some, Some, None, IfOk, OnOk, IsTrue};
ghost use Rattle.std.specs.Result.{result_err};
ghost use Rattle.wdt_claims.specs.Places.{place_of};
ghost use Rattle.wdt_sender_fsm.specs.Faults.{count_fault};
ghost use Rattle.wdt_sender_fsm.specs.Places.{claims_of, least_of, queued, unfinished};
ghost use Rattle.wdt_sender_fsm.specs.PlainSender.{listed_blocks};
ghost use Rattle.wdt_sender_fsm.specs.SenderHistory.{past_of, end_of};
ghost use Rattle.wdt_sender_fsm.specs.Turn.{is_used_up};
ghost use Rattle.wdt_yard.specs.Tallies.{no_tally};

use crate::faults::kind_of;
use crate::tally::Tally;
use std::alloc::Global;
use std::marker::Model;
use wdt_history::{History, Place};
use wdt_queue::Queue;
use wdt_sender_fsm::{PeerKind, SendEvent};
use wdt_units::{Block, Lane, NoMemory};

/// The most entries of one step: one for each of 15 lanes that the receiver closed, and a claim; or two
/// others.
pub const STEP_ENTRIES: usize = 17;

/// The history of a sender's end, with what a step asks of it. It is seen as the history, the plan, and
/// the room that was made.
#[derive(Debug, Drop)]
pub struct Journal {
    pub(crate) planned: Option<Vec<Block>>,
    pub(crate) queue: Queue,
    pub(crate) claims: History,
    pub(crate) tallies: Vec<Tally>,
    pub(crate) has_finish: bool,
    pub(crate) events: Vec<SendEvent>,
}

impl Model for Journal {
    ghost use Rattle.wdt_yard.specs.Ledger.{Ledger};

    ghost Value = { Ledger };

    ghost use Rattle.wdt_yard.specs.Kept.{seen, IsJournal};

    ghost view = { seen };

    ghost invariant = { IsJournal };
}

impl Journal {
    /// The journal of an end that begins.
    pub fn new(alloc: Global, lanes: u8) -> Result<Journal, NoMemory>
        requires { lanes ≤ 16 }
        ensures lanes { IfOk result (λ journal. journal.lanes ≡ lanes) }
        ensures planned { IfOk result (λ journal. journal.planned ≡ None) }
        ensures history { IfOk result (λ journal. journal.history ≡ []) }
    {
        let queue = Queue::of(Vec::new(alloc))?;
        let claims = History::of(alloc, lanes)?;
        let tallies = new_tallies(alloc, lanes)?;
        Ok(Journal {
            planned: None,
            queue,
            claims,
            tallies,
            has_finish: false,
            events: Vec::new(alloc),
        })
    }

    /// Makes room for all that one step of a lane may note.
    pub fn prepare(&mut self, lane: Lane) -> Result<(), NoMemory>
        requires { lane.0 < self.old.lanes }
        ensures room { OnOk result (STEP_ENTRIES ≤ self.new.spare) }
        ensures ready { OnOk result (self.new.ready ≡ Some lane) }
        ensures lanes { self.new.lanes ≡ self.old.lanes }
        ensures planned { self.new.planned ≡ self.old.planned }
        ensures history { self.new.history ≡ self.old.history }
    {
        if self.events.reserve(STEP_ENTRIES).is_err() {
            return Err(NoMemory);
        }
        self.claims.prepare(lane)
    }

    /// How many lanes there are, at most 16.
    pub fn lanes(&self) -> u8
        ensures count { result ≡ self.now.lanes }
        ensures few { result ≤ 16 }
    {
        self.tallies.len() as u8
    }

    /// All that happened, in order.
    pub fn history(&self) -> &[SendEvent]
        ensures { result.now ≡ self.now.history }
    {
        &self.events
    }

    /// The blocks that are to be sent, once they are planned.
    pub fn planned(&self) -> Option<&[Block]>
        ensures { option_map (λ blocks. blocks.now) result ≡ self.now.planned }
    {
        match &self.planned {
            Some(blocks) => Some(blocks),
            None => None,
        }
    }

    /// How many connections a lane had.
    pub fn connections(&self, lane: Lane) -> u16
        requires { lane.0 < self.now.lanes }
        ensures { result ≡ (past_of self.now.history lane.0).connections }
    {
        self.tallies[lane.0 as usize].connections
    }

    /// Whether a lane had as many connections as it may have, or as many tries that failed.
    pub fn is_used_up(&self, lane: Lane) -> bool
        requires { lane.0 < self.now.lanes }
        ensures { result ≡ is_used_up (past_of self.now.history lane.0) }
    {
        self.tallies[lane.0 as usize].is_used_up()
    }

    /// Whether a lane answered the receiver's last word.
    pub fn is_acknowledged(&self, lane: Lane) -> bool
        requires { lane.0 < self.now.lanes }
        ensures { result ≡ (past_of self.now.history lane.0).is_acked }
    {
        self.tallies[lane.0 as usize].acknowledged
    }

    /// Whether the receiver has closed a lane.
    pub fn is_closed(&self, lane: Lane) -> bool
        requires { lane.0 < self.now.lanes }
        ensures { result ≡ is_some (past_of self.now.history lane.0).claims.closed }
    {
        self.claims.closed(lane)
    }

    /// Whether a lane read the receiver's last word.
    pub fn has_finish(&self) -> bool
        ensures { result ≡ (end_of self.now.history).has_finish }
    {
        self.has_finish
    }

    /// What is wrong with a count of a lane's blocks, if anything.
    pub fn check(&self, lane: Lane, count: u32) -> Result<(), PeerKind>
        requires { lane.0 < self.now.lanes }
        ensures { result_err result ≡ count_fault (past_of self.now.history lane.0).claims count }
    {
        match self.claims.check(lane, count) {
            Ok(()) => Ok(()),
            Err(fail) => Err(kind_of(fail)),
        }
    }

    /// Whether no block waits.
    pub fn is_empty(&self) -> bool
        ensures { IsTrue result ↔ (least_of (queued self.now.lanes (listed_blocks self.now.planned) self.now.history) ≡ None) }
    {
        self.queue.is_empty()
    }

    /// How many blocks wait or are being written.
    pub fn unfinished(&self) -> u32
        ensures { result ≡ unfinished self.now.lanes (listed_blocks self.now.planned) self.now.history }
    {
        self.queue.len() + self.claims.holding()
    }

    /// Where a block stands.
    pub fn place(&self, block: Block) -> Place
        ensures { result ≡ place_of block (claims_of self.now.lanes self.now.history) }
    {
        self.claims.place(block)
    }

    /// The history alone.
    pub fn into_history(self) -> Vec<SendEvent>
        ensures { result.items ≡ self.history }
    {
        self.events
    }
}

// The tallies of so many lanes that begin.
fn new_tallies(alloc: Global, lanes: u8) -> Result<Vec<Tally>, NoMemory>
    ensures { IfOk result (λ tallies. tallies.items ≡ replicate lanes no_tally) }
{
    let Ok(mut tallies) = Vec::with_capacity(alloc, lanes as usize) else {
        return Err(NoMemory);
    };
    for _ in 0..lanes {
        if tallies.push(Tally::NEW).is_err() {
            return Err(NoMemory);
        }
    }
    Ok(tallies)
}
