//! The receiver's last word.
ghost use Rattle.std.specs.Prelude.{◌≡◌, ◌<◌, [], ◌∷◌, length, false, is_some, IfOk, OnErr};
ghost use Rattle.wdt_sender_fsm.specs.PlainSender.{noted};
ghost use Rattle.wdt_sender_fsm.specs.Rows.{Row, is_mute};
ghost use Rattle.wdt_sender_fsm.specs.Turn.{finished, finished_at_once, leaves};

use crate::end::SendEnd;
use wdt_codec::Frame;
use wdt_sender_fsm::{PeerKind, SendAct, SendEvent, SendState};
use wdt_units::{Lane, NoMemory};

// The first byte of a Done.
const DONE: u8 = 0x4C;

impl SendEnd {
    /// The receiver said its last word: everything has landed.
    pub fn read_done(&mut self, lane: Lane) -> Result<SendAct, NoMemory>
        requires { lane.0 < length self.old.plain.lanes }
        ensures ok { IfOk result (λ act. (row : Row) → is_mute row ≡ false → finished self.old.plain lane row ≡ (act, self.new.plain)) }
        ensures err { OnErr result (self.new.plain ≡ self.old.plain) }
    {
        let count = self.journal.unfinished();
        if count != 0 {
            return self.find_fault(lane, PeerKind::EarlyDone { count });
        }
        self.prepare(lane)?;
        self.finish(lane);
        self.go(lane, SendState::AnswerDone);
        Ok(SendAct::Write(Frame::Done))
    }

    /// The receiver answered the settings by its last word.
    pub fn read_done_at_once(&mut self, lane: Lane) -> Result<SendAct, NoMemory>
        requires { lane.0 < length self.old.plain.lanes }
        ensures ok { IfOk result (λ act. finished_at_once self.old.plain lane (is_some self.old.plain.have) ≡ (act, self.new.plain)) }
        ensures err { OnErr result (self.new.plain ≡ self.old.plain) }
    {
        if self.is_listed() {
            self.read_done(lane)
        } else {
            self.find_fault(
                lane,
                PeerKind::Unexpected {
                    state: SendState::ReadLocalCheckpoint.place(),
                    command: DONE,
                },
            )
        }
    }

    /// The receiver's last word is answered.
    pub fn answered(&mut self, lane: Lane) -> Result<SendAct, NoMemory>
        requires { lane.0 < length self.old.plain.lanes }
        ensures ok { IfOk result (λ act. leaves (noted self.old.plain (SendEvent.Acked lane ∷ [])) lane ≡ (act, self.new.plain)) }
        ensures err { OnErr result (self.new.plain ≡ self.old.plain) }
    {
        self.prepare(lane)?;
        self.acknowledge(lane);
        Ok(self.leave(lane))
    }
}
