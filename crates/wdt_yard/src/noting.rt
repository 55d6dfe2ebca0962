//! What an end notes in its journal.
ghost use Rattle.std.specs.Prelude.{◌≡◌, ◌<◌, [], ◌∷◌, length, Some, None, false, is_some, OnOk, OnErr, IfSome, IsTrue, MatchOption};
ghost use Rattle.std.specs.Result.{result_err};
ghost use Rattle.wdt_claims.specs.Blocks.{are_rising, HaveSameBlocks};
ghost use Rattle.wdt_sender_fsm.specs.Faults.{count_fault};
ghost use Rattle.wdt_sender_fsm.specs.PlainSender.{is_closed, least_queued, past_at, state_at};
ghost use Rattle.wdt_sender_fsm.specs.Turn.{introduces};
ghost use Rattle.wdt_sender_fsm.specs.declared.states.SendState.TheVariants as states;
ghost use Rattle.wdt_yard.specs.End.{with_note, AreOf};
ghost use Rattle.wdt_yard.specs.Ledger.{is_quiet};

use crate::answers::settle;
use crate::end::SendEnd;
use wdt_codec::{Frame, Mark, Settings};
use wdt_queue::Queue;
use wdt_ranges::Have;
use wdt_sender_fsm::{PeerKind, SendAct, SendEvent, SendLane, SendState};
use wdt_units::{Block, Lane};

impl SendEnd {
    /// Notes an entry that changes nothing of what is kept of the lanes.
    pub fn note(&mut self, event: SendEvent)
        requires quiet { IsTrue (is_quiet event) }
        requires room { 0 < self.old.spare }
        ensures { self.new ≡ with_note self.old event }
    {
        self.journal.note(event);
    }

    /// A connection of a lane couldn't be made.
    pub fn no_link(&mut self, lane: Lane)
        requires lane { lane.0 < length self.old.plain.lanes }
        requires room { 0 < self.old.spare }
        ensures { self.new ≡ with_note self.old (SendEvent.NoLink lane) }
    {
        self.journal.no_link(lane);
    }

    /// A lane's next connection stands: it says what the sender is.
    pub fn introduce(&mut self, lane: Lane) -> SendAct
        requires lane { lane.0 < length self.old.plain.lanes }
        requires room { 0 < self.old.spare }
        requires state { state_at self.old.plain lane.0 ≡ states.Connect }
        ensures { introduces self.old.plain lane ≡ (result, self.new.plain) }
    {
        let ask = !self.is_listed();
        let lanes = self.journal.lanes();
        let conn = self.journal.linked(lane);
        self.lanes[lane.0 as usize] = SendLane {
            state: SendState::SendSettings,
            ask,
        };
        settle(&mut self.answer, &self.lanes, &self.journal);
        SendAct::Write(Frame::Settings(Settings {
            version: 1,
            session: self.session,
            lane,
            lanes,
            conn,
            block: self.block,
            ask,
        }))
    }

    /// A lane answered the receiver's last word.
    pub fn acknowledge(&mut self, lane: Lane)
        requires lane { lane.0 < length self.old.plain.lanes }
        requires room { 0 < self.old.spare }
        ensures { self.new ≡ with_note self.old (SendEvent.Acked lane) }
    {
        self.journal.acknowledged(lane);
    }

    /// The receiver told how many blocks of a lane it has. A count that can't be right changes nothing.
    pub fn greet(&mut self, lane: Lane, count: u32) -> Result<(), PeerKind>
        requires lane { lane.0 < length self.old.plain.lanes }
        requires room { 0 < self.old.spare }
        requires still_open { is_closed self.old.plain lane.0 ≡ false }
        ensures fault { result_err result ≡ count_fault (past_at self.old.plain lane.0).claims count }
        ensures noted { OnOk result (self.new ≡ with_note self.old (SendEvent.Greet lane count)) }
        ensures unchanged { OnErr result (self.new ≡ self.old) }
    {
        self.journal.greet(lane, count)
    }

    /// A lane takes the least block that waits, if any does.
    pub fn claim(&mut self, lane: Lane) -> Option<Block>
        requires lane { lane.0 < length self.old.plain.lanes }
        requires room { 0 < self.old.spare }
        requires ready { self.old.ready ≡ Some lane }
        requires still_open { is_closed self.old.plain lane.0 ≡ false }
        ensures least { result ≡ least_queued self.old.plain }
        ensures noted { MatchOption result (self.new ≡ self.old) (λ block. self.new ≡ record (with_note self.old (SendEvent.Claim lane block)) { ready = None }) }
        ensures file { IfSome result (λ block. block.file < length self.old.plain.manifest) }
    {
        self.journal.claim(lane)
    }

    /// A lane has written its last block.
    pub fn sent(&mut self, lane: Lane)
        requires lane { lane.0 < length self.old.plain.lanes }
        requires room { 0 < self.old.spare }
        ensures noted { self.new ≡ with_note self.old (SendEvent.Sent lane) }
        ensures waiting { least_queued self.new.plain ≡ least_queued self.old.plain }
    {
        self.journal.sent(lane);
    }

    /// A lane read that the receiver has closed another, of whose blocks it has so many.
    pub fn close(&mut self, reader: Lane, mark: Mark)
        requires lane { mark.lane.0 < length self.old.plain.lanes }
        requires room { 0 < self.old.spare }
        requires right { (past_at self.old.plain mark.lane.0).claims.closed ≡ None → count_fault (past_at self.old.plain mark.lane.0).claims mark.count ≡ None }
        ensures { self.new ≡ with_note self.old (SendEvent.Global reader mark.lane mark.count) }
    {
        self.journal.close(reader, mark);
    }

    /// A lane read the receiver's last word: all blocks have landed.
    pub fn finish(&mut self, lane: Lane)
        requires room { 0 < self.old.spare }
        ensures { self.new ≡ with_note self.old (SendEvent.Finish lane) }
    {
        self.journal.finish(lane);
    }

    /// What the destination has is read, and the blocks that it lacks are planned.
    pub fn plan(&mut self, have: Have, blocks: Vec<Block>, queue: Queue)
        requires unlisted { self.old.plain.have ≡ None }
        requires rising { IsTrue (are_rising blocks.items) }
        requires files { AreOf (length self.old.plain.manifest) blocks.items }
        requires waiting { IsTrue (are_rising queue.waiting) }
        requires same { HaveSameBlocks queue.waiting blocks.items }
        requires full { queue.room ≡ 0 }
        ensures { self.new ≡ record self.old { plain = record self.old.plain { have = Some have; planned = Some blocks.items } } }
    {
        self.have = Some(have);
        self.journal.plan(blocks, queue);
    }
}
