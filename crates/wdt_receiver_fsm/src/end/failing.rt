//! How a lane ends, and how a failed end tells the sender.
ghost use Rattle.std.specs.Prelude.{◌≡◌, ◌<◌, [], ◌∷◌, length, false, true, IfOk, OnErr};
ghost use Rattle.wdt_sender_fsm.specs.Rules.{by_voice};
ghost use Rattle.wdt_sender_fsm.specs.declared.answers.EndAnswer.TheVariants as answers;
ghost use Rattle.wdt_receiver_fsm.specs.PlainReceiver.{failed, noted};
ghost use Rattle.wdt_receiver_fsm.specs.Turn.{leaves, tells_failure};
ghost use Rattle.wdt_receiver_fsm.specs.End.{Books, IsSameEnd, plain_with};

use crate::{RecvAct, RecvEnd, RecvEvent, RecvState};
use wdt_codec::Frame;
use wdt_sender_fsm::{EndAnswer, PeerKind};
use wdt_units::{Lane, NoMemory};

impl RecvEnd {
    /// A lane ends.
    pub fn leave(&mut self, lane: Lane) -> RecvAct
        requires { lane.0 < length self.old.lanes }
        ensures { (books : Books) → leaves (plain_with self.old books) lane ≡ (result, plain_with self.new books) }
    {
        self.go(lane, RecvState::Ended);
        RecvAct::Stop
    }

    /// A lane tells the sender that the end has failed.
    pub fn tell_failure(&mut self, lane: Lane) -> RecvAct
        requires { lane.0 < length self.old.lanes }
        ensures { (books : Books) → tells_failure (plain_with self.old books) lane ≡ (result, plain_with self.new books) }
    {
        let code = self.answer().code();
        self.go(lane, RecvState::SendAbort);
        RecvAct::Write(Frame::Abort(code))
    }

    /// On a failed end a lane ends, where nothing more can be told, and else tells the failure.
    pub fn give_up(&mut self, lane: Lane, is_mute: bool) -> RecvAct
        requires { lane.0 < length self.old.lanes }
        ensures { (books : Books) → by_voice is_mute (leaves (plain_with self.old books) lane) (tells_failure (plain_with self.old books) lane) ≡ (result, plain_with self.new books) }
    {
        if is_mute {
            self.leave(lane)
        } else {
            self.tell_failure(lane)
        }
    }

    /// The end fails, and the lane tells it.
    pub fn fail_with(&mut self, lane: Lane, answer: EndAnswer) -> RecvAct
        requires { lane.0 < length self.old.lanes }
        ensures { (books : Books) → tells_failure (failed (plain_with self.old books) answer) lane ≡ (result, plain_with self.new books) }
    {
        self.fail(answer);
        self.tell_failure(lane)
    }

    /// The sender said what it may not say: the end fails, and the lane tells it.
    pub fn fault(&mut self, lane: Lane, kind: PeerKind) -> RecvAct
        requires lane { lane.0 < length self.old.lanes }
        requires room { 0 < self.old.room }
        ensures { (books : Books) → tells_failure (failed (noted (plain_with self.old books) (RecvEvent.Peer lane kind ∷ [])) (answers.Peer kind)) lane ≡ (result, plain_with self.new books) }
    {
        self.note(RecvEvent::Peer(lane, kind));
        self.fail_with(lane, EndAnswer::Peer(kind))
    }

    /// The sender said what it may not say, and nothing else happened in the step.
    pub fn find_fault(&mut self, lane: Lane, kind: PeerKind) -> Result<RecvAct, NoMemory>
        requires { lane.0 < length self.old.lanes }
        ensures ok { IfOk result (λ act. (books : Books) → tells_failure (failed (noted (plain_with self.old books) (RecvEvent.Peer lane kind ∷ [])) (answers.Peer kind)) lane
            ≡ (act, plain_with self.new books)) }
        ensures err { OnErr result (IsSameEnd self.old self.new) }
    {
        self.prepare()?;
        Ok(self.fault(lane, kind))
    }

    /// The sender has failed: so does the end, and there is nothing to tell.
    pub fn aborted(&mut self, lane: Lane, code: u8) -> Result<RecvAct, NoMemory>
        requires { lane.0 < length self.old.lanes }
        ensures ok { IfOk result (λ act. (books : Books) → leaves (failed (noted (plain_with self.old books) (RecvEvent.Abort lane code ∷ [])) (answers.Aborted code)) lane
            ≡ (act, plain_with self.new books)) }
        ensures err { OnErr result (IsSameEnd self.old self.new) }
    {
        self.prepare()?;
        self.note(RecvEvent::Abort(lane, code));
        self.fail(EndAnswer::Aborted(code));
        Ok(self.leave(lane))
    }
}
