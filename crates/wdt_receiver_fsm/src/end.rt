//! A receiver's end without its files: the lanes, the history and the answer.
ghost use Rattle.std.specs.Prelude.{◌≡◌, ◌+◌, ◌<◌, ◌≤◌, ◌++◌, [], ◌∷◌, length, map, replicate, true, false, IfOk, OnErr, OnOk, None, IsTrue};
ghost use Rattle.wdt_logfmt.specs.View.{have_of, is_view, named_files};
ghost use Rattle.wdt_sender_fsm.specs.Rules.{is_failure, starved};
ghost use Rattle.wdt_receiver_fsm.specs.PlainReceiver.{mark_of, new_lane};
ghost use Rattle.wdt_receiver_fsm.specs.Ready.{is_closed, is_ready, untold};
ghost use Rattle.wdt_receiver_fsm.specs.ReceiverHistory.{end_of, past_of};
ghost use Rattle.wdt_receiver_fsm.specs.Sets.{set_of};
ghost use Rattle.wdt_receiver_fsm.specs.Turn.{is_used_up};
ghost use Rattle.wdt_receiver_fsm.specs.Notable.{MayNote};
ghost use Rattle.wdt_receiver_fsm.specs.End.{IsSameEnd, lane_in, new_end, stands, with_note};

mod answers;
mod blocks;
mod failing;
mod listening;
mod settings;
mod waiting;

use crate::{Notes, RecvEvent, RecvLane, RecvState};
use answers::settle;
use std::alloc::Global;
use std::marker::Model;
use wdt_codec::{Marks, Settings};
use wdt_logfmt::LogView;
use wdt_ranges::Have;
use wdt_sender_fsm::EndAnswer;
use wdt_units::{Conn, Lane, LaneSet, MAX_LANES, NoMemory};

/// How many entries a step of a lane notes at most.
pub const STEP_ENTRIES: usize = 2;

/// A receiver's end without its files. It is seen as the lanes, the history, the answer, and the room
/// that was made for entries.
#[derive(Debug, Drop)]
pub struct RecvEnd {
    opening: LogView,
    batch: u64,
    lanes: Vec<RecvLane>,
    notes: Notes,
    answer: EndAnswer,
}

impl Model for RecvEnd {
    ghost use Rattle.wdt_receiver_fsm.specs.End.{EndView};

    ghost Value = { EndView };

    ghost use Rattle.wdt_receiver_fsm.specs.EndInside.{seen, IsRecvEnd};

    ghost view = { seen };

    ghost invariant = { IsRecvEnd };
}

impl RecvEnd {
    /// An end that begins: so many lanes, 1 to 16, behind what the log says as it is opened. From `batch`
    /// bytes on, what landed is to be logged.
    pub fn of(alloc: Global, opening: LogView, lanes: u8, batch: u64) -> Result<RecvEnd, NoMemory>
        requires few { lanes ≤ MAX_LANES }
        requires view { IsTrue (is_view (named_files opening.files.items)) }
        ensures { IfOk result (λ end. end ≡ new_end (named_files opening.files.items) batch lanes) }
    {
        let stands = new_lanes(alloc, lanes)?;
        Ok(RecvEnd {
            opening,
            batch,
            lanes: stands,
            notes: Notes::of(alloc, lanes),
            answer: EndAnswer::Going,
        })
    }

    /// Makes room for all that one step of a lane may note.
    pub fn prepare(&mut self) -> Result<(), NoMemory>
        ensures same { IsSameEnd self.old self.new }
        ensures room { OnOk result (STEP_ENTRIES ≤ self.new.room) }
    {
        self.notes.reserve(STEP_ENTRIES)
    }

    /// How a lane stands.
    pub fn lane(&self, lane: Lane) -> RecvLane
        requires { lane.0 < length self.now.lanes }
        ensures { result ≡ lane_in self.now lane.0 }
    {
        self.lanes[lane.0 as usize]
    }

    /// Whether the end has failed.
    pub fn has_failed(&self) -> bool
        ensures { result ≡ is_failure self.now.answer }
    {
        self.answer.is_failure()
    }

    /// Whether a lane had as many connections as it may have, or as many tries that failed.
    pub fn is_used_up(&self, lane: Lane) -> bool
        requires { lane.0 < length self.now.lanes }
        ensures { result ≡ is_used_up (past_of self.now.history lane.0) }
    {
        self.notes.is_used_up(lane)
    }

    /// The number of a lane's next connection.
    pub fn next_take(&self, lane: Lane) -> Conn
        requires { lane.0 < length self.now.lanes }
        ensures { result.0 ≡ (past_of self.now.history lane.0).takes + 1 }
    {
        self.notes.next_take(lane)
    }

    /// How many blocks have landed on a lane.
    pub fn landed(&self, lane: Lane) -> u32
        requires { lane.0 < length self.now.lanes }
        ensures { result ≡ length (past_of self.now.history lane.0).landed }
    {
        self.notes.landed(lane)
    }

    /// The first settings that were read.
    pub fn met(&self) -> Option<Settings>
        ensures { result ≡ (end_of self.now.history).met }
    {
        self.notes.met()
    }

    /// How many files and bytes are sent in all, as it was first read.
    pub fn sized(&self) -> Option<(u32, u64)>
        ensures { result ≡ (end_of self.now.history).sized }
    {
        self.notes.sized()
    }

    /// Whether the finish has come.
    pub fn has_finish(&self) -> bool
        ensures { result ≡ (end_of self.now.history).has_finish }
    {
        self.notes.has_finish()
    }

    /// Whether the finish is ready.
    pub fn is_ready(&self) -> bool
        ensures { result ≡ is_ready (length self.now.lanes) self.now.history }
    {
        self.notes.is_ready()
    }

    /// Whether the finish would be ready if a lane became idle now.
    pub fn is_ready_with(&self, lane: Lane) -> bool
        requires { lane.0 < length self.now.lanes }
        ensures { result ≡ is_ready (length self.now.lanes) (self.now.history ++ RecvEvent.Idle lane ∷ []) }
    {
        self.notes.is_ready_with(lane)
    }

    /// The closed lanes of which a lane has still to tell.
    pub fn untold(&self, lane: Lane) -> LaneSet
        requires { lane.0 < length self.now.lanes }
        ensures { result ≡ set_of (untold (length self.now.lanes) self.now.history lane.0) }
    {
        self.notes.untold(lane)
    }

    /// The same lanes, rising, each with how many of its blocks have landed.
    pub fn marks_untold(&self, lane: Lane) -> Marks
        requires lane { lane.0 < length self.now.lanes }
        requires still_open { is_closed self.now.history lane.0 ≡ false }
        ensures { result ≡ map (mark_of self.now.history) (untold (length self.now.lanes) self.now.history lane.0) }
    {
        self.notes.marks_untold(lane)
    }

    /// What the destination had as the log was opened.
    pub fn have(&self, alloc: Global) -> Result<Have, NoMemory>
        ensures { IfOk result (λ have. have ≡ have_of self.now.opening) }
    {
        self.opening.have(alloc)
    }

    /// What the log said as it was opened.
    pub fn opening(&self) -> &LogView
        ensures value { named_files (result.now).files.items ≡ self.now.opening }
        ensures view { IsTrue (is_view self.now.opening) }
    {
        &self.opening
    }

    /// From so many bytes on what landed is to be logged.
    pub fn batch(&self) -> u64
        ensures { result ≡ self.now.batch }
    {
        self.batch
    }

    /// How many lanes the end has.
    pub fn count(&self) -> u8
        ensures { result ≡ length self.now.lanes }
    {
        self.notes.lanes()
    }

    /// All that happened, in order.
    pub fn history(&self) -> &[RecvEvent]
        ensures { result.now ≡ self.now.history }
    {
        self.notes.history()
    }

    /// How the end fares.
    pub fn answer(&self) -> &EndAnswer
        ensures { result.now ≡ self.now.answer }
    {
        &self.answer
    }

    /// Notes an entry, for which there is room.
    pub fn note(&mut self, event: RecvEvent)
        requires room { 0 < self.old.room }
        requires allowed { MayNote (length self.old.lanes) self.old.history event }
        ensures { self.new ≡ with_note self.old event }
    {
        self.notes.note(event);
    }

    /// A lane stands so now, and the answer follows.
    pub fn stand(&mut self, lane: Lane, stand: RecvLane)
        requires { lane.0 < length self.old.lanes }
        ensures { self.new ≡ stands self.old lane.0 stand }
    {
        self.lanes[lane.0 as usize] = stand;
        settle(&mut self.answer, &self.lanes, &self.notes);
    }

    /// A lane goes on to a state.
    pub fn go(&mut self, lane: Lane, state: RecvState)
        requires { lane.0 < length self.old.lanes }
        ensures { self.new ≡ stands self.old lane.0 record (lane_in self.old lane.0) { state = state } }
    {
        let stand = self.lane(lane);
        self.stand(lane, RecvLane { state, ..stand });
    }

    /// The end fails with this answer.
    pub fn fail(&mut self, answer: EndAnswer)
        ensures { self.new ≡ record self.old { answer = answer } }
    {
        self.answer = answer;
    }

    /// Memory ran out: that is the answer, unless the end had one before.
    pub fn starve(&mut self)
        ensures { self.new ≡ record self.old { answer = starved self.old.answer } }
    {
        self.answer.starve();
    }

    /// The history and the answer.
    pub fn into_parts(self) -> (Vec<RecvEvent>, EndAnswer)
        ensures history { result.0.items ≡ self.history }
        ensures answer { result.1 ≡ self.answer }
    {
        (self.notes.into_history(), self.answer)
    }
}

// So many lanes that begin.
fn new_lanes(alloc: Global, lanes: u8) -> Result<Vec<RecvLane>, NoMemory>
    ensures { IfOk result (λ list. list.items ≡ replicate lanes new_lane) }
{
    let Ok(mut list) = Vec::with_capacity(alloc, lanes as usize) else {
        return Err(NoMemory);
    };
    for _ in 0..lanes {
        let lane = RecvLane {
            state: RecvState::Listen,
            ask: false,
            is_sized: false,
            has_waited: false,
            left: 0,
            conn: 0,
        };
        if list.push(lane).is_err() {
            return Err(NoMemory);
        }
    }
    Ok(list)
}
