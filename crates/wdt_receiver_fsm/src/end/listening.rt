//! Connections: a lane waits for one, has one, and loses it.
ghost use Rattle.std.specs.Prelude.{◌≡◌, ◌<◌, [], ◌∷◌, length, true, IfOk, OnErr};
ghost use Rattle.wdt_units.specs.declared.limits.TheConstants.{MAX_CONNECTIONS, MAX_TRIES};
ghost use Rattle.wdt_receiver_fsm.specs.PlainReceiver.{noted};
ghost use Rattle.wdt_receiver_fsm.specs.ReceiverHistory.{end_of, past_of};
ghost use Rattle.wdt_receiver_fsm.specs.Turn.{drops, given_up, is_used_up, links, listen};
ghost use Rattle.wdt_receiver_fsm.specs.End.{Books, IsSameEnd, plain_with, with_note};

use crate::{RecvAct, RecvEnd, RecvEvent, RecvLane, RecvState};
use wdt_units::{Lane, NoMemory};

impl RecvEnd {
    /// A lane begins.
    pub fn begin(&mut self, lane: Lane) -> Result<RecvAct, NoMemory>
        requires { lane.0 < length self.old.lanes }
        ensures ok { IfOk result (λ act. (books : Books) → listen (plain_with self.old books) lane ≡ (act, plain_with self.new books)) }
        ensures err { OnErr result (IsSameEnd self.old self.new) }
    {
        self.prepare()?;
        Ok(self.listen(lane))
    }

    /// No connection of a lane could be taken.
    pub fn not_linked(&mut self, lane: Lane) -> Result<RecvAct, NoMemory>
        requires lane { lane.0 < length self.old.lanes }
        requires tries { (past_of self.old.history lane.0).failed_tries < MAX_TRIES }
        ensures ok { IfOk result (λ act. (books : Books) → listen (noted (plain_with self.old books) (RecvEvent.NoLink lane ∷ [])) lane ≡ (act, plain_with self.new books)) }
        ensures err { OnErr result (IsSameEnd self.old self.new) }
    {
        self.prepare()?;
        self.note(RecvEvent::NoLink(lane));
        Ok(self.listen(lane))
    }

    /// A lane's connection stands: it reads what the sender says of itself.
    pub fn linked(&mut self, lane: Lane) -> Result<RecvAct, NoMemory>
        requires lane { lane.0 < length self.old.lanes }
        requires takes { (past_of self.old.history lane.0).takes < MAX_CONNECTIONS }
        ensures ok { IfOk result (λ act. (books : Books) → links (plain_with self.old books) lane ≡ (act, plain_with self.new books)) }
        ensures err { OnErr result (IsSameEnd self.old self.new) }
    {
        self.prepare()?;
        let stand = RecvLane {
            state: RecvState::ReadSettings,
            is_sized: false,
            has_waited: false,
            ..self.lane(lane)
        };
        let conn = self.next_take(lane);
        self.note(RecvEvent::Take(lane, conn));
        self.stand(lane, stand);
        Ok(RecvAct::Read)
    }

    /// A lane's connection is lost, and with it the block that was begun.
    pub fn dropped(&mut self, lane: Lane) -> Result<RecvAct, NoMemory>
        requires { lane.0 < length self.old.lanes }
        ensures ok { IfOk result (λ act. (books : Books) → drops (plain_with self.old books) lane ≡ (act, plain_with self.new books)) }
        ensures err { OnErr result (IsSameEnd self.old self.new) }
    {
        self.prepare()?;
        let stand = RecvLane {
            is_sized: false,
            has_waited: false,
            left: 0,
            ..self.lane(lane)
        };
        self.note(RecvEvent::Dropped(lane));
        self.stand(lane, stand);
        Ok(self.listen(lane))
    }

    // A lane wants a further connection, or is given up.
    fn listen(&mut self, lane: Lane) -> RecvAct
        requires lane { lane.0 < length self.old.lanes }
        requires room { is_used_up (past_of self.old.history lane.0) ≡ true → 0 < self.old.room }
        ensures { (books : Books) → listen (plain_with self.old books) lane ≡ (result, plain_with self.new books) }
    {
        if self.is_used_up(lane) {
            self.note_given_up(lane);
            return self.leave(lane);
        }
        self.go(lane, RecvState::Listen);
        RecvAct::Accept
    }

    // A lane is given up: before the finish it is closed.
    fn note_given_up(&mut self, lane: Lane)
        requires lane { lane.0 < length self.old.lanes }
        requires room { 0 < self.old.room }
        ensures { self.new ≡ with_note self.old (given_up lane (end_of self.old.history).has_finish) }
    {
        if self.has_finish() {
            self.note(RecvEvent::Quit(lane));
        } else {
            self.note(RecvEvent::Close(lane));
        }
    }
}
