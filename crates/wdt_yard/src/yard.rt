//! The yard: a sender's end as its lanes share it.
ghost use Rattle.std.specs.Prelude.{◌≡◌, ◌≢◌, ◌↔◌, ◌<◌, ◌≤◌, ℕ, length, replicate, option_map, is_some, true, false, OnErr, IfOk, IfErr};
ghost use Rattle.std.specs.List.{Contains};
ghost use Rattle.wdt_units.specs.declared.blocks.Block.{Block as PlainBlock};
ghost use Rattle.wdt_units.specs.declared.numbers.Lane.{Lane as PlainLane};
ghost use Rattle.wdt_claims.specs.declared.place.Place.TheVariants.{Confirmed};
ghost use Rattle.wdt_sender_fsm.specs.declared.answers.EndAnswer.TheVariants as answers;
ghost use Rattle.wdt_sender_fsm.specs.declared.answers.RefusedKind.{RefusedKind};
ghost use Rattle.wdt_sender_fsm.specs.declared.peers.PeerKind.{PeerKind};
ghost use Rattle.wdt_sender_fsm.specs.Causes.{Follows, HasNoLane, RefusesRightly, has_all_done};
ghost use Rattle.wdt_sender_fsm.specs.PlainSender.{HasPlaces, block_place, new_lane, opened, state_at};
ghost use Rattle.wdt_sender_fsm.specs.Rows.{row_of};
ghost use Rattle.wdt_sender_fsm.specs.Sender.{FitsIn, IsSender};
ghost use Rattle.wdt_sender_fsm.specs.Rules.{is_failure};
ghost use Rattle.wdt_sender_fsm.specs.SenderHistory.{end_of};
ghost use Rattle.wdt_sender_fsm.specs.Stops.{is_stop, is_through, stops};
ghost use Rattle.wdt_sender_fsm.specs.Turn.{send_turn};
ghost use Rattle.wdt_sender_fsm.specs.Writes.{FitsAct, IsLawful};
ghost use Rattle.wdt_yard.specs.Refused.{WasRefused};
ghost use Rattle.wdt_yard.specs.Turns.{takes_no_memory};

use crate::end::SendEnd;
use std::alloc::Global;
use std::marker::Model;
use wdt_history::Place;
use wdt_sender_fsm::{
    EndAnswer, SendAct, SendEvent, SendIn, SendState, answers_have_their_causes,
    blocks_keep_their_places, senders_stay_senders, steps_answer_rightly, steps_touch_their_lane,
};
use wdt_tree::Manifest;
use wdt_units::{Block, Lane, MAX_BLOCK, MAX_FILES, NoMemory};

/// A sender's end as its lanes share it. It is seen as the plain sender.
#[derive(Debug, Drop)]
pub struct Yard {
    end: SendEnd,
}

impl Model for Yard {
    ghost use Rattle.wdt_sender_fsm.specs.PlainSender.{PlainSender};

    ghost Value = { PlainSender };

    ghost use Rattle.wdt_yard.specs.Inside.{IsYard};

    ghost view = { λ y. y.end.plain };

    ghost invariant = { λ y. IsYard y.end.plain };
}

impl Yard {
    /// An end that begins: 1 to 16 lanes, and blocks of at most `block` bytes, 1 to 67,108,864.
    /// `session` is the number of the transfer.
    pub fn open(
        alloc: Global,
        manifest: Manifest,
        lanes: u8,
        block: u32,
        session: u64,
    ) -> Result<Yard, NoMemory>
        requires some_lanes { 1 ≤ lanes }
        requires few_lanes { lanes ≤ 16 }
        requires some_bytes { 1 ≤ block }
        requires limit { block ≤ MAX_BLOCK }
        ensures opened { IfOk result (λ yard. yard ≡ opened manifest block session (replicate lanes new_lane)) }
        ensures lawful { IfOk result (λ yard. IsSender yard) }
        ensures limits { IfOk result (λ yard. IsLawful yard) }
    {
        // The law: an end that begins is a sender's.
        senders_stay_senders();
        let _count = manifest.count();
        let end = SendEnd::new(alloc, manifest, lanes, block, session)?;
        Ok(Yard { end })
    }

    /// A step of a lane, which is handed what lies in the ranges of the grammar: the act and the plain
    /// sender behind it are the definition's, and the act lies in the grammar's ranges, too. `Err` is want of memory: it hands the input back, and
    /// nothing has changed. A step that notes nothing takes no memory, so `Starved` is never handed
    /// back.
    ///
    /// When a lane stops, why an end fails or refuses the tree, and where blocks stand is said in the
    /// words of `wdt_sender_fsm`: `specs/Stops`, `specs/Causes` and `specs/PlainSender`.
    pub fn step(&mut self, lane: Lane, put: SendIn) -> Result<SendAct, SendIn>
        requires lane { lane.0 < length self.old.lanes }
        requires fits { FitsIn put }
        ensures ok { IfOk result (λ act. send_turn self.old lane put ≡ (act, self.new)) }
        ensures err { IfErr result (λ back. (back ≡ put) × (self.new ≡ self.old)) }
        ensures free { OnErr result (takes_no_memory self.old lane.0 (row_of (state_at self.old lane.0) put) ≡ false) }
        ensures act { IfOk result (λ act. FitsAct self.old.manifest act) }
        ensures lanes { length self.new.lanes ≡ length self.old.lanes }
        ensures stops { IfOk result (λ act. is_stop act ≡ stops (state_at self.old lane.0) put (is_through self.new lane.0) (is_failure self.new.answer)) }
        ensures follows { IfOk result (λ _. Follows self.old lane put self.new) }
        ensures refused { IfOk result (λ _. RefusesRightly self.old lane put self.new) }
        ensures confirmed { (block : PlainBlock) → block_place self.old block ≡ Confirmed → block_place self.new block ≡ Confirmed }
        ensures places { HasPlaces self.new }
        ensures was { IsSender self.old }
        ensures lawful { IsSender self.new }
        ensures limits { IsLawful self.new }
    {
        // The laws: the end stays a sender's and has as many lanes as before, and why a step answers so.
        senders_stay_senders();
        steps_touch_their_lane();
        steps_answer_rightly();
        answers_have_their_causes();
        blocks_keep_their_places();
        match self.end.turn(lane, &put) {
            Ok(act) => Ok(act),
            Err(NoMemory) => Err(put),
        }
    }

    /// How many files it sends, 0 to 262,144.
    pub fn files(&self) -> u32
        ensures value { result ≡ length self.now.manifest }
        ensures limit { result ≤ MAX_FILES }
    {
        self.end.files()
    }

    /// All that happened, in order. It is the history of a sender within the limits.
    pub fn history(&self) -> &[SendEvent]
        ensures value { result.now ≡ self.now.history }
        ensures lawful { IsSender self.now }
        ensures limits { IsLawful self.now }
    {
        self.end.history()
    }

    /// How the end fares. The history and the lanes say exactly when it is done or has no lane left,
    /// and when the receiver failed it. Where it refuses the tree, a lane read what the tree isn't sent
    /// to, for that very reason, and nothing was planned; and no disk fails it. Every other failure has its
    /// cause in the step that it came of.
    pub fn answer(&self) -> &EndAnswer
        ensures value { result.now ≡ self.now.answer }
        ensures done { (self.now.answer ≡ answers.Done) ↔ (has_all_done self.now ≡ true) }
        ensures link { (self.now.answer ≡ answers.Link) ↔ HasNoLane self.now }
        ensures peer { (kind : PeerKind) → (self.now.answer ≡ answers.Peer kind) ↔ ((l : PlainLane) × Contains self.now.history (SendEvent.Peer l kind)) }
        ensures aborted { (code : ℕ) → (self.now.answer ≡ answers.Aborted code) ↔ ((l : PlainLane) × Contains self.now.history (SendEvent.Abort l code)) }
        ensures refused { (kind : RefusedKind) → self.now.answer ≡ answers.Refused kind → WasRefused self.now kind }
        ensures diskless { self.now.answer ≢ answers.Disk }
    {
        // The law: why an end has its answer.
        answers_have_their_causes();
        self.end.answer()
    }

    /// Where a lane stands.
    pub fn state(&self, lane: Lane) -> SendState
        requires { lane.0 < length self.now.lanes }
        ensures { result ≡ state_at self.now lane.0 }
    {
        self.end.state(lane)
    }

    /// Where a block stands.
    pub fn place(&self, block: Block) -> Place
        ensures { result ≡ block_place self.now block }
    {
        self.end.place(block)
    }

    /// The blocks that are to be sent, or None before a lane read what the destination has.
    pub fn planned(&self) -> Option<&[Block]>
        ensures value { option_map (λ blocks. blocks.now) result ≡ self.now.planned }
        ensures listed { is_some result ≡ (end_of self.now.history).is_listed }
    {
        self.end.planned()
    }

    /// The history and the answer, which are a sender's within the limits. Why it has that answer is
    /// said as `answer` says it.
    pub fn close(self) -> (Vec<SendEvent>, EndAnswer)
        ensures lawful { IsSender self }
        ensures limits { IsLawful self }
        ensures history { result.0.items ≡ self.history }
        ensures answer { result.1 ≡ self.answer }
        ensures done { (self.answer ≡ answers.Done) ↔ (has_all_done self ≡ true) }
        ensures link { (self.answer ≡ answers.Link) ↔ HasNoLane self }
        ensures peer { (kind : PeerKind) → (self.answer ≡ answers.Peer kind) ↔ ((l : PlainLane) × Contains self.history (SendEvent.Peer l kind)) }
        ensures aborted { (code : ℕ) → (self.answer ≡ answers.Aborted code) ↔ ((l : PlainLane) × Contains self.history (SendEvent.Abort l code)) }
        ensures refused { (kind : RefusedKind) → self.answer ≡ answers.Refused kind → WasRefused self kind }
        ensures diskless { self.answer ≢ answers.Disk }
    {
        // The law: why an end has its answer.
        answers_have_their_causes();
        self.end.into_parts()
    }
}
