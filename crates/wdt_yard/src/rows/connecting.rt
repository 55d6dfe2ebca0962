//! Connections: they are made, lost, and made again.
ghost use Rattle.std.specs.Prelude.{◌≡◌, ◌<◌, [], ◌∷◌, length, true, IfOk, OnErr};
ghost use Rattle.wdt_sender_fsm.specs.PlainSender.{goes, noted, past_at, state_at};
ghost use Rattle.wdt_sender_fsm.specs.Turn.{introduces, is_used_up, leaves, reads, redial};
ghost use Rattle.wdt_sender_fsm.specs.declared.states.SendState.TheVariants as states;

use crate::end::SendEnd;
use wdt_sender_fsm::{SendAct, SendEvent, SendState};
use wdt_units::{Conn, Lane, NoMemory};

impl SendEnd {
    /// A lane begins.
    pub fn begin(&mut self, lane: Lane) -> Result<SendAct, NoMemory>
        requires { lane.0 < length self.old.plain.lanes }
        ensures ok { IfOk result (λ act. redial self.old.plain lane ≡ (act, self.new.plain)) }
        ensures err { OnErr result (self.new.plain ≡ self.old.plain) }
    {
        if self.journal.is_used_up(lane) {
            self.prepare(lane)?;
        }
        Ok(self.redial(lane))
    }

    /// A connection of a lane couldn't be made.
    pub fn not_linked(&mut self, lane: Lane) -> Result<SendAct, NoMemory>
        requires { lane.0 < length self.old.plain.lanes }
        ensures ok { IfOk result (λ act. redial (noted self.old.plain (SendEvent.NoLink lane ∷ [])) lane ≡ (act, self.new.plain)) }
        ensures err { OnErr result (self.new.plain ≡ self.old.plain) }
    {
        self.prepare(lane)?;
        self.no_link(lane);
        Ok(self.redial(lane))
    }

    /// A lane's connection is lost.
    pub fn dropped(&mut self, lane: Lane) -> Result<SendAct, NoMemory>
        requires { lane.0 < length self.old.plain.lanes }
        ensures ok { IfOk result (λ act. redial (noted self.old.plain (SendEvent.Lost lane ∷ [])) lane ≡ (act, self.new.plain)) }
        ensures err { OnErr result (self.new.plain ≡ self.old.plain) }
    {
        self.prepare(lane)?;
        self.note(SendEvent::Lost(lane));
        Ok(self.redial(lane))
    }

    /// A lane's connection stands.
    pub fn linked(&mut self, lane: Lane) -> Result<SendAct, NoMemory>
        requires lane { lane.0 < length self.old.plain.lanes }
        requires state { state_at self.old.plain lane.0 ≡ states.Connect }
        ensures ok { IfOk result (λ act. introduces self.old.plain lane ≡ (act, self.new.plain)) }
        ensures err { OnErr result (self.new.plain ≡ self.old.plain) }
    {
        self.prepare(lane)?;
        Ok(self.introduce(lane))
    }

    /// What the sender says of itself is written.
    pub fn settings_written(&mut self, lane: Lane) -> SendAct
        requires { lane.0 < length self.old.plain.lanes }
        ensures { reads (goes self.old.plain lane states.ReadLocalCheckpoint) ≡ (result, self.new.plain) }
    {
        self.go(lane, SendState::ReadLocalCheckpoint);
        SendAct::Read
    }

    // A lane wants a further connection, or is given up.
    fn redial(&mut self, lane: Lane) -> SendAct
        requires lane { lane.0 < length self.old.plain.lanes }
        requires room { is_used_up (past_at self.old.plain lane.0) ≡ true → 0 < self.old.spare }
        ensures { redial self.old.plain lane ≡ (result, self.new.plain) }
    {
        if self.journal.is_used_up(lane) {
            self.note(SendEvent::Quit(lane));
            return self.leave(lane);
        }
        let conn = Conn(self.journal.connections(lane) + 1);
        self.go(lane, SendState::Connect);
        SendAct::Dial(conn)
    }
}
