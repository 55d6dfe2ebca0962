//! What a step notes.
ghost use Rattle.std.specs.Prelude.{◌≡◌, ◌+◌, ◌<◌, Some, None, false, is_some, OnOk, OnErr, IfSome, IsTrue, MatchOption};
ghost use Rattle.std.specs.Result.{result_err};
ghost use Rattle.wdt_claims.specs.Blocks.{are_rising, HaveSameBlocks};
ghost use Rattle.wdt_sender_fsm.specs.Faults.{count_fault};
ghost use Rattle.wdt_sender_fsm.specs.Places.{least_of, queued};
ghost use Rattle.wdt_sender_fsm.specs.PlainSender.{listed_blocks};
ghost use Rattle.wdt_sender_fsm.specs.SenderHistory.{past_of};
ghost use Rattle.wdt_yard.specs.Ledger.{is_quiet, with_entry};

use crate::faults::kind_of;
use crate::journal::Journal;
use wdt_codec::Mark;
use wdt_queue::Queue;
use wdt_sender_fsm::{PeerKind, SendEvent};
use wdt_units::{Block, Conn, Lane};

impl Journal {
    /// Notes an entry that changes nothing of what is kept of the lanes.
    pub fn note(&mut self, event: SendEvent)
        requires quiet { IsTrue (is_quiet event) }
        requires room { 0 < self.old.spare }
        ensures { self.new ≡ with_entry self.old event }
    {
        self.events.push_reserved(event);
    }

    /// A connection of a lane couldn't be made.
    pub fn no_link(&mut self, lane: Lane)
        requires lane { lane.0 < self.old.lanes }
        requires room { 0 < self.old.spare }
        ensures { self.new ≡ with_entry self.old (SendEvent.NoLink lane) }
    {
        self.tallies[lane.0 as usize].failed_tries += 1;
        self.events.push_reserved(SendEvent::NoLink(lane));
    }

    /// A lane's next connection stands. The answer is its number.
    pub fn linked(&mut self, lane: Lane) -> Conn
        requires lane { lane.0 < self.old.lanes }
        requires room { 0 < self.old.spare }
        requires few { (past_of self.old.history lane.0).connections < 8 }
        ensures conn { result.0 ≡ (past_of self.old.history lane.0).connections + 1 }
        ensures noted { self.new ≡ with_entry self.old (SendEvent.Linked lane result) }
    {
        let tally = &mut self.tallies[lane.0 as usize];
        tally.connections += 1;
        let conn = Conn(tally.connections);
        self.events.push_reserved(SendEvent::Linked(lane, conn));
        conn
    }

    /// A lane answered the receiver's last word.
    pub fn acknowledged(&mut self, lane: Lane)
        requires lane { lane.0 < self.old.lanes }
        requires room { 0 < self.old.spare }
        ensures { self.new ≡ with_entry self.old (SendEvent.Acked lane) }
    {
        self.tallies[lane.0 as usize].acknowledged = true;
        self.events.push_reserved(SendEvent::Acked(lane));
    }

    /// The receiver told how many blocks of a lane it has, and the others go back to the queue. A count
    /// that can't be right changes nothing.
    pub fn greet(&mut self, lane: Lane, count: u32) -> Result<(), PeerKind>
        requires lane { lane.0 < self.old.lanes }
        requires room { 0 < self.old.spare }
        requires still_open { is_some (past_of self.old.history lane.0).claims.closed ≡ false }
        ensures fault { result_err result ≡ count_fault (past_of self.old.history lane.0).claims count }
        ensures noted { OnOk result (self.new ≡ with_entry self.old (SendEvent.Greet lane count)) }
        ensures unchanged { OnErr result (self.new ≡ self.old) }
    {
        match self.claims.local(lane, count, &mut self.queue) {
            Ok(_) => {
                self.events.push_reserved(SendEvent::Greet(lane, count));
                Ok(())
            }
            Err(fail) => Err(kind_of(fail)),
        }
    }

    /// A lane takes the least block that waits, if any does.
    pub fn claim(&mut self, lane: Lane) -> Option<Block>
        requires lane { lane.0 < self.old.lanes }
        requires room { 0 < self.old.spare }
        requires ready { self.old.ready ≡ Some lane }
        requires still_open { is_some (past_of self.old.history lane.0).claims.closed ≡ false }
        ensures least { result ≡ least_of (queued self.old.lanes (listed_blocks self.old.planned) self.old.history) }
        ensures noted { MatchOption result (self.new ≡ self.old) (λ block. self.new ≡ record (with_entry self.old (SendEvent.Claim lane block)) { ready = None }) }
    {
        let block = self.queue.take()?;
        self.claims.claim(lane, block).unwrap();
        self.events.push_reserved(SendEvent::Claim(lane, block));
        Some(block)
    }

    /// A lane has written its last block.
    pub fn sent(&mut self, lane: Lane)
        requires lane { lane.0 < self.old.lanes }
        requires room { 0 < self.old.spare }
        ensures noted { self.new ≡ with_entry self.old (SendEvent.Sent lane) }
        ensures waiting { least_of (queued self.new.lanes (listed_blocks self.new.planned) self.new.history) ≡ least_of (queued self.old.lanes (listed_blocks self.old.planned) self.old.history) }
    {
        self.claims.sent(lane);
        self.events.push_reserved(SendEvent::Sent(lane));
    }

    /// A lane read that the receiver has closed another, of whose blocks it has so many. The others go
    /// back to the queue, unless the lane was closed before.
    pub fn close(&mut self, reader: Lane, mark: Mark)
        requires lane { mark.lane.0 < self.old.lanes }
        requires room { 0 < self.old.spare }
        requires right { (past_of self.old.history mark.lane.0).claims.closed ≡ None → count_fault (past_of self.old.history mark.lane.0).claims mark.count ≡ None }
        ensures { self.new ≡ with_entry self.old (SendEvent.Global reader mark.lane mark.count) }
    {
        // A lane that was closed before stays as it is, whatever is told of it.
        let _ = self.claims.global(mark.lane, mark.count, &mut self.queue);
        self.events
            .push_reserved(SendEvent::Global(reader, mark.lane, mark.count));
    }

    /// A lane read the receiver's last word: all blocks have landed.
    pub fn finish(&mut self, lane: Lane)
        requires room { 0 < self.old.spare }
        ensures { self.new ≡ with_entry self.old (SendEvent.Finish lane) }
    {
        self.claims.finish();
        self.has_finish = true;
        self.events.push_reserved(SendEvent::Finish(lane));
    }

    /// The blocks that are to be sent, and the queue of them.
    pub fn plan(&mut self, blocks: Vec<Block>, queue: Queue)
        requires unplanned { self.old.planned ≡ None }
        requires rising { IsTrue (are_rising blocks.items) }
        requires waiting { IsTrue (are_rising queue.waiting) }
        requires same { HaveSameBlocks queue.waiting blocks.items }
        requires full { queue.room ≡ 0 }
        ensures { self.new ≡ record self.old { planned = Some blocks.items } }
    {
        self.planned = Some(blocks);
        self.queue = queue;
    }
}
