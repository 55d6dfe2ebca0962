//! How a lane comes to the choice of an idle lane, how it waits, and the last word.
ghost use Rattle.std.specs.Prelude.{◌≡◌, ◌+◌, ◌<◌, ◌≤◌, [], ◌∷◌, length, false, IfOk, OnErr, Some};
ghost use Rattle.wdt_receiver_fsm.specs.PlainReceiver.{failed, goes, noted};
ghost use Rattle.wdt_receiver_fsm.specs.Ready.{is_closed, is_ready, untold};
ghost use Rattle.wdt_receiver_fsm.specs.Turn.{disk_fails, finishes_with, idles_lane, leaves, reads, says_done, tells_by, waited_lane, waits_by};
ghost use Rattle.wdt_sender_fsm.specs.declared.answers.EndAnswer.{EndAnswer};
ghost use Rattle.wdt_receiver_fsm.specs.declared.states.RecvState.TheVariants as states;
ghost use Rattle.wdt_receiver_fsm.specs.Idling.{idled, idled_history, row_of_way};
ghost use Rattle.wdt_receiver_fsm.specs.End.{Books, IsSameEnd, lane_in, plain_with};

use crate::{Idling, RecvAct, RecvEnd, RecvEvent, RecvLane, RecvState};
use wdt_codec::Frame;
use wdt_sender_fsm::{EndAnswer, PeerKind};
use wdt_units::{Lane, NoMemory};

impl RecvEnd {
    /// A lane comes to the choice of an idle lane.
    pub fn be_idle(&mut self, lane: Lane, way: Idling)
        requires lane { lane.0 < length self.old.lanes }
        requires room { 0 < self.old.room }
        ensures plain { (books : Books) → idled way (plain_with self.old books) lane ≡ plain_with self.new books }
        ensures lanes { length self.new.lanes ≡ length self.old.lanes }
        ensures room { self.old.room ≤ self.new.room + 1 }
    {
        match way {
            Idling::Done => self.idle(lane),
            Idling::WaitWritten => self.wait_written(lane),
            Idling::Woken => {}
        }
    }

    /// Whether the finish is ready once the lane has come to the choice.
    pub fn is_ready_by(&self, lane: Lane, way: Idling) -> bool
        requires { lane.0 < length self.now.lanes }
        ensures { result ≡ is_ready (length self.now.lanes) (idled_history way self.now.history lane) }
    {
        match way {
            Idling::Done => self.is_ready_with(lane),
            Idling::WaitWritten | Idling::Woken => self.is_ready(),
        }
    }

    // The sender said that nothing more is to come: the lane is idle, and the sender isn't told to wait yet.
    fn idle(&mut self, lane: Lane)
        requires lane { lane.0 < length self.old.lanes }
        requires room { 0 < self.old.room }
        ensures plain { (books : Books) → idles_lane (plain_with self.old books) lane ≡ plain_with self.new books }
        ensures lanes { length self.new.lanes ≡ length self.old.lanes }
        ensures room { self.old.room ≡ self.new.room + 1 }
    {
        let stand = waited(self.lane(lane), false);
        self.note(RecvEvent::Idle(lane));
        self.stand(lane, stand);
    }

    // It is written that the sender is to wait.
    fn wait_written(&mut self, lane: Lane)
        requires { lane.0 < length self.old.lanes }
        ensures plain { (books : Books) → waited_lane (plain_with self.old books) lane ≡ plain_with self.new books }
        ensures lanes { length self.new.lanes ≡ length self.old.lanes }
        ensures room { self.new.room ≡ self.old.room }
    {
        let stand = waited(self.lane(lane), true);
        self.stand(lane, stand);
    }

    /// The finish is ready once the lane has come to the choice, and all that landed is logged: it comes, and
    /// the last word is written; or what is there is otherwise than what was to be sent, which is told, and
    /// the lane isn't noted as idle.
    pub fn finish(&mut self, lane: Lane, way: Idling, short: Option<PeerKind>) -> RecvAct
        requires lane { lane.0 < length self.old.lanes }
        requires room { 2 ≤ self.old.room }
        ensures { (books : Books) → finishes_with self.old.history (idled way (plain_with self.old books) lane) lane (row_of_way way) short ≡ (result, plain_with self.new books) }
    {
        match short {
            Some(kind) => self.fall_short(lane, way, kind),
            None => {
                self.be_idle(lane, way);
                self.note(RecvEvent::Finish);
                self.say_done(lane)
            }
        }
    }

    // What is there is otherwise than what was to be sent.
    fn fall_short(&mut self, lane: Lane, way: Idling, kind: PeerKind) -> RecvAct
        requires lane { lane.0 < length self.old.lanes }
        requires room { 0 < self.old.room }
        ensures { (books : Books) → finishes_with self.old.history (idled way (plain_with self.old books) lane) lane (row_of_way way) (Some kind) ≡ (result, plain_with self.new books) }
    {
        self.come_unnoted(lane, way);
        self.fault(lane, kind)
    }

    // A lane comes to the choice of an end that fails, and it isn't noted.
    fn come_unnoted(&mut self, lane: Lane, way: Idling)
        requires { lane.0 < length self.old.lanes }
        ensures plain { (books : Books) (answer : EndAnswer) →
            failed (record (idled way (plain_with self.old books) lane) { history = self.old.history }) answer ≡ failed (plain_with self.new books) answer }
        ensures room { self.new.room ≡ self.old.room }
        ensures lanes { length self.new.lanes ≡ length self.old.lanes }
    {
        let stand = self.lane(lane);
        match way {
            Idling::Done => self.stand(lane, waited(stand, false)),
            Idling::WaitWritten => self.stand(lane, waited(stand, true)),
            Idling::Woken => {}
        }
    }

    /// The disk failed as all that landed was to be logged, once the lane has come to the choice.
    pub fn lose_disk(&mut self, lane: Lane, way: Idling) -> RecvAct
        requires lane { lane.0 < length self.old.lanes }
        requires room { 0 < self.old.room }
        ensures { (books : Books) → disk_fails (idled way (plain_with self.old books) lane) lane (row_of_way way) ≡ (result, plain_with self.new books) }
    {
        self.be_idle(lane, way);
        self.fail_with(lane, EndAnswer::Disk)
    }

    /// The last word is written.
    pub fn say_done(&mut self, lane: Lane) -> RecvAct
        requires { lane.0 < length self.old.lanes }
        ensures { (books : Books) → says_done (plain_with self.old books) lane ≡ (result, plain_with self.new books) }
    {
        self.go(lane, RecvState::SendDone);
        RecvAct::Write(Frame::Done)
    }

    /// The last word is written: the lane reads the answer.
    pub fn done_written(&mut self, lane: Lane) -> RecvAct
        requires { lane.0 < length self.old.lanes }
        ensures { (books : Books) → reads (goes (plain_with self.old books) lane.0 states.ReadAck) ≡ (result, plain_with self.new books) }
    {
        self.go(lane, RecvState::ReadAck);
        RecvAct::Read
    }

    /// The last word is answered: the lane is acknowledged, and ends.
    pub fn answered(&mut self, lane: Lane) -> Result<RecvAct, NoMemory>
        requires { lane.0 < length self.old.lanes }
        ensures ok { IfOk result (λ act. (books : Books) → leaves (noted (plain_with self.old books) (RecvEvent.Acked lane ∷ [])) lane ≡ (act, plain_with self.new books)) }
        ensures err { OnErr result (IsSameEnd self.old self.new) }
    {
        self.prepare()?;
        self.note(RecvEvent::Acked(lane));
        Ok(self.leave(lane))
    }

    /// The lane waits, where the sender was told to wait, and else tells it.
    pub fn wait(&mut self, lane: Lane) -> RecvAct
        requires { lane.0 < length self.old.lanes }
        ensures { (books : Books) → waits_by (plain_with self.old books) lane (lane_in self.old lane.0).has_waited ≡ (result, plain_with self.new books) }
    {
        if self.lane(lane).has_waited {
            self.go(lane, RecvState::WaitForFinish);
            return RecvAct::Park;
        }
        self.go(lane, RecvState::SendWait);
        RecvAct::Write(Frame::Wait)
    }

    /// A lane that is open tells of the closed lanes of which it has still to tell, where there are any, and
    /// else waits.
    pub fn tell_or_wait(&mut self, lane: Lane) -> RecvAct
        requires lane { lane.0 < length self.old.lanes }
        requires still_open { is_closed self.old.history lane.0 ≡ false }
        requires room { 0 < self.old.room }
        ensures { (books : Books) → tells_by (plain_with self.old books) lane (untold (length self.old.lanes) self.old.history lane.0) ≡ (result, plain_with self.new books) }
    {
        let marks = self.marks_untold(lane);
        if marks.items().is_empty() {
            return self.wait(lane);
        }
        let told = self.untold(lane);
        self.note(RecvEvent::Told(lane, told));
        self.go(lane, RecvState::SendGlobalCheckpoint);
        RecvAct::Write(Frame::ErrMarks(marks))
    }
}

// How a lane stands, once the sender was told to wait, or is to be told again.
fn waited(stand: RecvLane, has_waited: bool) -> RecvLane
    ensures { result ≡ record stand { has_waited = has_waited } }
{
    RecvLane {
        has_waited,
        ..stand
    }
}
