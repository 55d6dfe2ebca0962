//! Blocks are taken and written.
ghost use Rattle.std.specs.Prelude.{◌≡◌, ◌<◌, ◌≤◌, [], ◌∷◌, length, string_bytes, false, Some, None, IfOk, OnErr};
ghost use Rattle.std.specs.String.{string_capacity};
ghost use Rattle.wdt_sender_fsm.specs.PlainSender.{goes, header_of, is_closed, noted};
ghost use Rattle.wdt_sender_fsm.specs.Turn.{next, next_by, reads};
ghost use Rattle.wdt_sender_fsm.specs.declared.states.SendState.TheVariants as states;

use crate::end::SendEnd;
use std::alloc::Global;
use wdt_codec::Frame;
use wdt_sender_fsm::{SendAct, SendEvent, SendState};
use wdt_units::{Block, Header, Lane, MAX_PATH, NoMemory};

impl SendEnd {
    /// What is sent in all is written: the lane takes a block, or says that nothing more is to come.
    pub fn size_written(&mut self, lane: Lane) -> Result<SendAct, NoMemory>
        requires lane { lane.0 < length self.old.plain.lanes }
        requires still_open { is_closed self.old.plain lane.0 ≡ false }
        ensures ok { IfOk result (λ act. next self.old.plain lane ≡ (act, self.new.plain)) }
        ensures err { OnErr result (self.new.plain ≡ self.old.plain) }
    {
        if self.journal.is_empty() {
            return Ok(self.say_done(lane));
        }
        let path = self.prepare_next(lane)?;
        Ok(self.next(lane, path))
    }

    /// A block is written: the lane takes the next.
    pub fn block_written(&mut self, lane: Lane) -> Result<SendAct, NoMemory>
        requires lane { lane.0 < length self.old.plain.lanes }
        requires still_open { is_closed self.old.plain lane.0 ≡ false }
        ensures ok { IfOk result (λ act. next (noted self.old.plain (SendEvent.Sent lane ∷ [])) lane ≡ (act, self.new.plain)) }
        ensures err { OnErr result (self.new.plain ≡ self.old.plain) }
    {
        if self.journal.is_empty() {
            self.prepare(lane)?;
            self.sent(lane);
            return Ok(self.say_done(lane));
        }
        let path = self.prepare_next(lane)?;
        self.sent(lane);
        Ok(self.next(lane, path))
    }

    /// It is written that nothing more is to come.
    pub fn done_written(&mut self, lane: Lane) -> Result<SendAct, NoMemory>
        requires { lane.0 < length self.old.plain.lanes }
        ensures ok { IfOk result (λ act. reads (goes (noted self.old.plain (SendEvent.Done lane ∷ [])) lane states.ReadReceiverCmd) ≡ (act, self.new.plain)) }
        ensures err { OnErr result (self.new.plain ≡ self.old.plain) }
    {
        self.prepare(lane)?;
        self.note(SendEvent::Done(lane));
        self.go(lane, SendState::ReadReceiverCmd);
        Ok(SendAct::Read)
    }

    /// Makes room for a step in which a block may wait: what it notes, and the path that is told of it.
    pub fn prepare_next(&mut self, lane: Lane) -> Result<String, NoMemory>
        requires { lane.0 < length self.old.plain.lanes }
        ensures plain { self.new.plain ≡ self.old.plain }
        ensures path { IfOk result (λ path. (string_bytes path ≡ []) × (MAX_PATH ≤ string_capacity path)) }
        ensures room { IfOk result (λ path. 17 ≤ self.new.spare) }
        ensures ready { IfOk result (λ path. self.new.ready ≡ Some lane) }
    {
        self.prepare(lane)?;
        let alloc: Global = *self.lanes.allocator();
        match String::with_capacity(alloc, MAX_PATH) {
            Ok(path) => Ok(path),
            Err(_) => Err(NoMemory),
        }
    }

    /// A lane takes the least block that waits, or says that nothing more is to come.
    pub fn next(&mut self, lane: Lane, path: String) -> SendAct
        requires lane { lane.0 < length self.old.plain.lanes }
        requires still_open { is_closed self.old.plain lane.0 ≡ false }
        requires room { 0 < self.old.spare }
        requires ready { self.old.ready ≡ Some lane }
        requires path { string_bytes path ≡ [] }
        requires fits { MAX_PATH ≤ string_capacity path }
        ensures { next self.old.plain lane ≡ (result, self.new.plain) }
    {
        match self.claim(lane) {
            None => self.say_done(lane),
            Some(block) => {
                let header = self.header(block, path);
                self.go(lane, SendState::SendBlocks);
                SendAct::SendBlock(header)
            }
        }
    }

    // A lane says that nothing more is to come.
    fn say_done(&mut self, lane: Lane) -> SendAct
        requires { lane.0 < length self.old.plain.lanes }
        ensures { next_by self.old.plain lane None ≡ (result, self.new.plain) }
    {
        self.go(lane, SendState::SendDone);
        SendAct::Write(Frame::Done)
    }

    // What is told of a block before its bytes.
    fn header(&self, block: Block, path: String) -> Header
        requires file { block.file < length self.now.plain.manifest }
        requires path { string_bytes path ≡ [] }
        requires fits { MAX_PATH ≤ string_capacity path }
        ensures { result ≡ header_of self.now.plain block }
    {
        let entry = self.manifest.entry(block.file);
        Header {
            path: entry.path.copy_to(path),
            size: entry.size,
            stamp: entry.stamp,
            offset: block.offset,
            length: block.length,
        }
    }
}
