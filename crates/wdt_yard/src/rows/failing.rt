//! How a lane ends, and how a failed end tells the other.
ghost use Rattle.std.specs.Prelude.{◌≡◌, ◌<◌, [], ◌∷◌, length, not, IfOk, OnErr};
ghost use Rattle.wdt_sender_fsm.specs.PlainSender.{failed, noted};
ghost use Rattle.wdt_sender_fsm.specs.Rules.{by_voice};
ghost use Rattle.wdt_sender_fsm.specs.Turn.{leaves, tells_failure};
ghost use Rattle.wdt_sender_fsm.specs.declared.answers.EndAnswer.TheVariants as answers;

use crate::end::SendEnd;
use wdt_codec::Frame;
use wdt_sender_fsm::{EndAnswer, PeerKind, SendAct, SendEvent, SendState};
use wdt_units::{Lane, NoMemory};

impl SendEnd {
    /// A lane ends.
    pub fn leave(&mut self, lane: Lane) -> SendAct
        requires { lane.0 < length self.old.plain.lanes }
        ensures { leaves self.old.plain lane ≡ (result, self.new.plain) }
    {
        self.go(lane, SendState::Ended);
        SendAct::Stop
    }

    /// A lane tells the receiver that the end has failed.
    pub fn tell_failure(&mut self, lane: Lane) -> SendAct
        requires { lane.0 < length self.old.plain.lanes }
        ensures { tells_failure self.old.plain lane ≡ (result, self.new.plain) }
    {
        let code = self.answer.code();
        self.go(lane, SendState::SendAbort);
        SendAct::Write(Frame::Abort(code))
    }

    /// On a failed end a lane ends, where nothing more can be told, and else tells the failure.
    pub fn give_up(&mut self, lane: Lane, is_mute: bool) -> SendAct
        requires { lane.0 < length self.old.plain.lanes }
        ensures { by_voice is_mute (leaves self.old.plain lane) (tells_failure self.old.plain lane) ≡ (result, self.new.plain) }
    {
        if is_mute {
            self.leave(lane)
        } else {
            self.tell_failure(lane)
        }
    }

    /// The end fails, and the lane gives up.
    pub fn fail_with(&mut self, lane: Lane, is_mute: bool, answer: EndAnswer) -> SendAct
        requires { lane.0 < length self.old.plain.lanes }
        ensures { by_voice is_mute (leaves (failed self.old.plain answer) lane) (tells_failure (failed self.old.plain answer) lane) ≡ (result, self.new.plain) }
    {
        self.fail(answer);
        self.give_up(lane, is_mute)
    }

    /// The receiver said what it may not say: the end fails, and the lane tells it.
    pub fn fault(&mut self, lane: Lane, kind: PeerKind) -> SendAct
        requires lane { lane.0 < length self.old.plain.lanes }
        requires room { 0 < self.old.spare }
        ensures { tells_failure (failed (noted self.old.plain (SendEvent.Peer lane kind ∷ [])) (answers.Peer kind)) lane ≡ (result, self.new.plain) }
    {
        self.note(SendEvent::Peer(lane, kind));
        self.fail(EndAnswer::Peer(kind));
        self.tell_failure(lane)
    }

    /// The receiver said what it may not say, and nothing else happened in the step.
    pub fn find_fault(&mut self, lane: Lane, kind: PeerKind) -> Result<SendAct, NoMemory>
        requires { lane.0 < length self.old.plain.lanes }
        ensures ok { IfOk result (λ act. tells_failure (failed (noted self.old.plain (SendEvent.Peer lane kind ∷ [])) (answers.Peer kind)) lane ≡ (act, self.new.plain)) }
        ensures err { OnErr result (self.new.plain ≡ self.old.plain) }
    {
        self.prepare(lane)?;
        Ok(self.fault(lane, kind))
    }

    /// The receiver has failed: so does the end, and there is nothing to tell.
    pub fn aborted(&mut self, lane: Lane, code: u8) -> Result<SendAct, NoMemory>
        requires { lane.0 < length self.old.plain.lanes }
        ensures ok { IfOk result (λ act. leaves (failed (noted self.old.plain (SendEvent.Abort lane code ∷ [])) (answers.Aborted code)) lane ≡ (act, self.new.plain)) }
        ensures err { OnErr result (self.new.plain ≡ self.old.plain) }
    {
        self.prepare(lane)?;
        self.note(SendEvent::Abort(lane, code));
        self.fail(EndAnswer::Aborted(code));
        Ok(self.leave(lane))
    }
}
