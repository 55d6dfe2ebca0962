//! A sender's end, with room for what a step notes.
ghost use Rattle.std.specs.Prelude.{◌≡◌, ◌↔◌, ◌<◌, ◌≤◌, length, replicate, is_some, option_map, Some, None, IfOk, OnOk, IsTrue};
ghost use Rattle.std.specs.Result.{result_err};
ghost use Rattle.wdt_sender_fsm.specs.Faults.{count_fault};
ghost use Rattle.wdt_sender_fsm.specs.PlainSender.{block_place, lane_at, past_at, state_at, is_closed, least_queued, new_lane, opened, unfinished_blocks, with_lane, goes, failed};
ghost use Rattle.wdt_sender_fsm.specs.Rules.{is_failure, starved};
ghost use Rattle.wdt_sender_fsm.specs.Turn.{is_used_up};
ghost use Rattle.wdt_sender_fsm.specs.declared.states.SendState.TheVariants as states;

use crate::answers::settle;
use crate::journal::{Journal, STEP_ENTRIES};
use std::alloc::Global;
use std::marker::Model;
use wdt_history::Place;
use wdt_ranges::Have;
use wdt_sender_fsm::{EndAnswer, PeerKind, SendEvent, SendLane, SendState};
use wdt_tree::Manifest;
use wdt_units::{Block, Lane, MAX_BLOCK, MAX_FILES, NoMemory};

/// A sender's end. It is seen as the plain sender, and the room that was made.
#[derive(Debug, Drop)]
pub struct SendEnd {
    pub(crate) manifest: Manifest,
    pub(crate) block: u32,
    pub(crate) session: u64,
    pub(crate) have: Option<Have>,
    pub(crate) lanes: Vec<SendLane>,
    pub(crate) journal: Journal,
    pub(crate) answer: EndAnswer,
}

impl Model for SendEnd {
    ghost use Rattle.wdt_yard.specs.End.{EndView};

    ghost Value = { EndView };

    ghost use Rattle.wdt_yard.specs.EndInside.{seen, IsSendEnd};

    ghost view = { seen };

    ghost invariant = { IsSendEnd };
}

impl SendEnd {
    /// An end that begins.
    pub fn new(
        alloc: Global,
        manifest: Manifest,
        lanes: u8,
        block: u32,
        session: u64,
    ) -> Result<SendEnd, NoMemory>
        requires few { lanes ≤ 16 }
        requires some { 1 ≤ block }
        requires limit { block ≤ MAX_BLOCK }
        ensures { IfOk result (λ end. end.plain ≡ opened manifest block session (replicate lanes new_lane)) }
    {
        let journal = Journal::new(alloc, lanes)?;
        let lanes = new_lanes(alloc, lanes)?;
        Ok(SendEnd {
            manifest,
            block,
            session,
            have: None,
            lanes,
            journal,
            answer: EndAnswer::Going,
        })
    }

    /// Makes room for all that one step of a lane may note.
    pub fn prepare(&mut self, lane: Lane) -> Result<(), NoMemory>
        requires { lane.0 < length self.old.plain.lanes }
        ensures plain { self.new.plain ≡ self.old.plain }
        ensures room { OnOk result (STEP_ENTRIES ≤ self.new.spare) }
        ensures ready { OnOk result (self.new.ready ≡ Some lane) }
    {
        self.journal.prepare(lane)
    }

    /// The state of a lane.
    pub fn state(&self, lane: Lane) -> SendState
        requires { lane.0 < length self.now.plain.lanes }
        ensures { result ≡ state_at self.now.plain lane.0 }
    {
        self.lanes[lane.0 as usize].state
    }

    /// Whether a lane asked on its connection what the destination has.
    pub fn asked(&self, lane: Lane) -> bool
        requires { lane.0 < length self.now.plain.lanes }
        ensures { result ≡ (lane_at self.now.plain lane.0).ask }
    {
        self.lanes[lane.0 as usize].ask
    }

    /// Whether what the destination has is known.
    pub fn is_listed(&self) -> bool
        ensures { result ≡ is_some self.now.plain.have }
    {
        self.have.is_some()
    }

    /// Whether the end has failed.
    pub fn has_failed(&self) -> bool
        ensures { result ≡ is_failure self.now.plain.answer }
    {
        self.answer.is_failure()
    }

    /// How many files it sends, at most `MAX_FILES`.
    pub fn files(&self) -> u32
        ensures value { result ≡ length self.now.plain.manifest }
        ensures limit { result ≤ MAX_FILES }
    {
        self.manifest.count()
    }

    /// All that happened, in order.
    pub fn history(&self) -> &[SendEvent]
        ensures { result.now ≡ self.now.plain.history }
    {
        self.journal.history()
    }

    /// How the end fares.
    pub fn answer(&self) -> &EndAnswer
        ensures { result.now ≡ self.now.plain.answer }
    {
        &self.answer
    }

    /// Where a block stands.
    pub fn place(&self, block: Block) -> Place
        ensures { result ≡ block_place self.now.plain block }
    {
        self.journal.place(block)
    }

    /// The blocks that are to be sent, or None before they are planned.
    pub fn planned(&self) -> Option<&[Block]>
        ensures { option_map (λ blocks. blocks.now) result ≡ self.now.plain.planned }
    {
        self.journal.planned()
    }

    /// The history and the answer.
    pub fn into_parts(self) -> (Vec<SendEvent>, EndAnswer)
        ensures history { result.0.items ≡ self.plain.history }
        ensures answer { result.1 ≡ self.plain.answer }
    {
        (self.journal.into_history(), self.answer)
    }

    /// A lane stands so now, and the answer follows.
    pub fn stand(&mut self, lane: Lane, stand: SendLane)
        requires lane { lane.0 < length self.old.plain.lanes }
        requires dialing { stand.state ≡ states.Connect → (past_at self.old.plain lane.0).connections < 8 }
        ensures { self.new ≡ record self.old { plain = with_lane self.old.plain lane stand } }
    {
        self.lanes[lane.0 as usize] = stand;
        settle(&mut self.answer, &self.lanes, &self.journal);
    }

    /// A lane goes on to a state.
    pub fn go(&mut self, lane: Lane, state: SendState)
        requires lane { lane.0 < length self.old.plain.lanes }
        requires dialing { state ≡ states.Connect → (past_at self.old.plain lane.0).connections < 8 }
        ensures { self.new ≡ record self.old { plain = goes self.old.plain lane state } }
    {
        let ask = self.asked(lane);
        self.stand(lane, SendLane { state, ask });
    }

    /// The end fails with this answer.
    pub fn fail(&mut self, answer: EndAnswer)
        ensures { self.new ≡ record self.old { plain = failed self.old.plain answer } }
    {
        self.answer = answer;
    }

    /// Memory ran out: that is the answer, unless the end had one before.
    pub fn starve(&mut self)
        ensures { self.new ≡ record self.old { plain = failed self.old.plain (starved self.old.plain.answer) } }
    {
        self.answer.starve();
    }
}

// So many lanes that begin.
fn new_lanes(alloc: Global, lanes: u8) -> Result<Vec<SendLane>, NoMemory>
    ensures { IfOk result (λ list. list.items ≡ replicate lanes new_lane) }
{
    let Ok(mut list) = Vec::with_capacity(alloc, lanes as usize) else {
        return Err(NoMemory);
    };
    for _ in 0..lanes {
        let lane = SendLane {
            state: SendState::Connect,
            ask: false,
        };
        if list.push(lane).is_err() {
            return Err(NoMemory);
        }
    }
    Ok(list)
}
