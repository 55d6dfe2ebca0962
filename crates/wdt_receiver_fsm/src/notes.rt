//! The notes of a receiver's end.
ghost use Rattle.std.specs.Prelude.{◌≡◌, ◌↔◌, ◌+◌, ◌<◌, ◌≤◌, ◌++◌, [], ◌∷◌, length, map, false, OnErr, OnOk, None};
ghost use Rattle.wdt_units.specs.declared.limits.TheConstants.{MAX_BLOCKS, MAX_LANES};
ghost use Rattle.wdt_sender_fsm.specs.Rules.{every};
ghost use Rattle.wdt_receiver_fsm.specs.PlainReceiver.{mark_of};
ghost use Rattle.wdt_receiver_fsm.specs.Ready.{is_closed, is_ready, untold};
ghost use Rattle.wdt_receiver_fsm.specs.ReceiverHistory.{end_of, past_of};
ghost use Rattle.wdt_receiver_fsm.specs.Sets.{set_of};
ghost use Rattle.wdt_receiver_fsm.specs.Turn.{is_used_up};
ghost use Rattle.wdt_receiver_fsm.specs.View.{is_done_in, no_notes};

use crate::RecvEvent;
use crate::common::Common;
use crate::tally::Tally;
use std::alloc::Global;
use std::marker::Model;
use wdt_codec::{Mark, Marks, Settings};
use wdt_funnel::Funnel;
use wdt_units::{Block, Conn, Lane, LaneSet, MAX_CONNECTIONS, MAX_TRIES, NoMemory};

/// The history of a receiver's end, seen as nothing else, with the room that was made for more. Each
/// question is answered without memory, in a time that doesn't depend on how much has happened.
#[derive(Debug, Drop)]
pub struct Notes {
    pub(crate) lanes: u8,
    pub(crate) events: Vec<RecvEvent>,
    pub(crate) tallies: [Tally; 16],
    pub(crate) funnel: Funnel,
    pub(crate) common: Common,
}

impl Model for Notes {
    ghost use Rattle.wdt_receiver_fsm.specs.View.{NotesView};

    ghost Value = { NotesView };

    ghost use Rattle.wdt_receiver_fsm.specs.Kept.{seen, IsNotes};

    ghost view = { seen };

    ghost invariant = { IsNotes };
}

impl Notes {
    /// The notes of an end of so many lanes, 1 to 16, at which nothing has happened. Takes no memory.
    pub fn of(alloc: Global, lanes: u8) -> Notes
        requires { lanes ≤ MAX_LANES }
        ensures { result ≡ no_notes lanes }
    {
        Notes {
            lanes,
            events: Vec::new(alloc),
            tallies: [Tally::NEW; 16],
            funnel: Funnel::of(lanes),
            common: Common::NEW,
        }
    }

    /// Makes room for so many more entries. `NoMemory` changes nothing.
    pub fn reserve(&mut self, more: usize) -> Result<(), NoMemory>
        ensures room { OnOk result (more ≤ self.new.room) }
        ensures same { self.new ≡ record self.old { room = self.new.room } }
        ensures unchanged { OnErr result (self.new ≡ self.old) }
    {
        if self.events.reserve(more).is_err() {
            return Err(NoMemory);
        }
        Ok(())
    }

    /// How many lanes there are, at most 16.
    pub fn lanes(&self) -> u8
        ensures count { result ≡ self.now.lanes }
        ensures few { result ≤ MAX_LANES }
    {
        self.lanes
    }

    /// All that happened, in order.
    pub fn history(&self) -> &[RecvEvent]
        ensures { result.now ≡ self.now.history }
    {
        &self.events
    }

    /// The history alone.
    pub fn into_history(self) -> Vec<RecvEvent>
        ensures { result.items ≡ self.history }
    {
        self.events
    }

    /// How many blocks have landed on a lane, at most `MAX_BLOCKS`.
    pub fn landed(&self, lane: Lane) -> u32
        requires { lane.0 < self.now.lanes }
        ensures count { result ≡ length (past_of self.now.history lane.0).landed }
        ensures few { result ≤ MAX_BLOCKS }
    {
        self.tallies[lane.0 as usize].landed
    }

    /// The block that is begun on a lane.
    pub fn begun(&self, lane: Lane) -> Option<Block>
        requires { lane.0 < self.now.lanes }
        ensures { result ≡ (past_of self.now.history lane.0).begun }
    {
        self.tallies[lane.0 as usize].begun
    }

    /// The number of a lane's next connection.
    pub fn next_take(&self, lane: Lane) -> Conn
        requires { lane.0 < self.now.lanes }
        ensures { result.0 ≡ (past_of self.now.history lane.0).takes + 1 }
    {
        Conn(self.tallies[lane.0 as usize].takes + 1)
    }

    /// Whether a lane took as many connections as it may have, or as many tries failed.
    pub fn is_used_up(&self, lane: Lane) -> bool
        requires { lane.0 < self.now.lanes }
        ensures { result ≡ is_used_up (past_of self.now.history lane.0) }
    {
        let tally = self.tallies[lane.0 as usize];
        tally.takes >= MAX_CONNECTIONS || tally.failed_tries >= MAX_TRIES
    }

    /// Whether a lane was given up before the finish.
    pub fn is_closed(&self, lane: Lane) -> bool
        requires { lane.0 < self.now.lanes }
        ensures { result ≡ is_closed self.now.history lane.0 }
    {
        self.tallies[lane.0 as usize].is_closed
    }

    /// Whether a lane is acknowledged or closed.
    pub fn is_done_with(&self, lane: Lane) -> bool
        requires { lane.0 < self.now.lanes }
        ensures { result ≡ is_done_in self.now.history lane.0 }
    {
        let tally = self.tallies[lane.0 as usize];
        tally.is_acked || tally.is_closed
    }

    /// Whether every lane is acknowledged or closed.
    pub fn all_done(&self) -> bool
        ensures { result ≡ every self.now.lanes (is_done_in self.now.history) }
    {
        for number in 0..self.lanes {
            if !self.is_done_with(Lane(number)) {
                return false;
            }
        }
        true
    }

    /// The first settings that were read.
    pub fn met(&self) -> Option<Settings>
        ensures { result ≡ (end_of self.now.history).met }
    {
        self.common.met
    }

    /// How many files and bytes are sent in all, as it was first read.
    pub fn sized(&self) -> Option<(u32, u64)>
        ensures { result ≡ (end_of self.now.history).sized }
    {
        self.common.sized
    }

    /// Whether everything has landed and is logged.
    pub fn has_finish(&self) -> bool
        ensures { result ≡ (end_of self.now.history).has_finish }
    {
        self.common.has_finish
    }

    /// Whether the finish is ready: every lane is idle or closed, one is idle, and each closed lane is
    /// confirmed.
    pub fn is_ready(&self) -> bool
        ensures { result ≡ is_ready self.now.lanes self.now.history }
    {
        self.funnel.ready()
    }

    /// Whether the finish would be ready if a lane became idle now.
    pub fn is_ready_with(&self, lane: Lane) -> bool
        requires { lane.0 < self.now.lanes }
        ensures { result ≡ is_ready self.now.lanes (self.now.history ++ RecvEvent.Idle lane ∷ []) }
    {
        let mut funnel = self.funnel;
        funnel.idle(lane);
        funnel.ready()
    }

    /// The closed lanes of which a lane has still to tell: what a `Told` of it names.
    pub fn untold(&self, lane: Lane) -> LaneSet
        requires { lane.0 < self.now.lanes }
        ensures { result ≡ set_of (untold self.now.lanes self.now.history lane.0) }
    {
        self.funnel.untold(lane)
    }

    /// The closed lanes of which a lane that is open has still to tell, rising, each with how many of
    /// its blocks have landed.
    pub fn marks_untold(&self, lane: Lane) -> Marks
        requires lane { lane.0 < self.now.lanes }
        requires still_open { is_closed self.now.history lane.0 ≡ false }
        ensures { result ≡ map (mark_of self.now.history) (untold self.now.lanes self.now.history lane.0) }
    {
        let untold = self.untold(lane);
        let mut marks = Marks::none();
        for number in 0..self.lanes {
            let other = Lane(number);
            if untold.has(other) {
                marks.push(Mark {
                    lane: other,
                    count: self.landed(other),
                });
            }
        }
        marks
    }
}
