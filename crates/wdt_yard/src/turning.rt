//! A step of a lane.
ghost use Rattle.std.specs.Prelude.{◌≡◌, ◌<◌, length, false, IfOk, OnErr};
ghost use Rattle.wdt_sender_fsm.specs.PlainSender.{failed, is_closed, state_at};
ghost use Rattle.wdt_sender_fsm.specs.Rows.{Linked, Starved, row_of, shown};
ghost use Rattle.wdt_sender_fsm.specs.Rules.{starved};
ghost use Rattle.wdt_sender_fsm.specs.Turn.{ruled, send_turn, turn_row};
ghost use Rattle.wdt_sender_fsm.specs.declared.states.SendState.TheVariants as states;
ghost use Rattle.wdt_yard.specs.Turns.{notes_nothing, takes_no_memory};

use crate::end::SendEnd;
use wdt_sender_fsm::{EndAnswer, PeerKind, SendAct, SendIn, SendRow, row};
use wdt_units::{Lane, NoMemory};

impl SendEnd {
    /// A step of a lane. Want of memory changes nothing.
    pub fn turn(&mut self, lane: Lane, put: &SendIn) -> Result<SendAct, NoMemory>
        requires { lane.0 < length self.old.plain.lanes }
        ensures ok { IfOk result (λ act. send_turn self.old.plain lane put.now ≡ (act, self.new.plain)) }
        ensures err { OnErr result (self.new.plain ≡ self.old.plain) }
        ensures free { OnErr result (takes_no_memory self.old.plain lane.0 (row_of (state_at self.old.plain lane.0) put.now) ≡ false) }
    {
        let row = row(self.state(lane), put);
        if let SendRow::Starved { mute } = row {
            return Ok(self.starved(lane, mute));
        }
        self.ruled(lane, row)
    }

    // Memory ran out: the end fails unless it had an answer before, and the rules that come before the
    // table do the rest. No memory is taken.
    fn starved(&mut self, lane: Lane, mute: bool) -> SendAct
        requires { lane.0 < length self.old.plain.lanes }
        ensures { ruled (failed self.old.plain (starved self.old.plain.answer)) lane (Starved mute) ≡ (result, self.new.plain) }
    {
        self.starve();
        if self.journal.is_closed(lane) {
            return self.leave(lane);
        }
        if self.has_failed() {
            return self.give_up(lane, mute);
        }
        SendAct::Stop
    }

    // The rules that come before the table, in their order, and then the table.
    fn ruled(&mut self, lane: Lane, row: SendRow<'_>) -> Result<SendAct, NoMemory>
        requires lane { lane.0 < length self.old.plain.lanes }
        requires dials { shown row ≡ Linked → state_at self.old.plain lane.0 ≡ states.Connect }
        ensures ok { IfOk result (λ act. ruled self.old.plain lane (shown row.entry) ≡ (act, self.new.plain)) }
        ensures err { OnErr result (self.new.plain ≡ self.old.plain) }
        ensures free { OnErr result (takes_no_memory self.old.plain lane.0 (shown row.entry) ≡ false) }
    {
        if matches!(row, SendRow::Over) {
            return Ok(SendAct::Stop);
        }
        if self.journal.is_closed(lane) {
            return Ok(self.leave(lane));
        }
        if self.has_failed() {
            let is_mute = row.is_mute();
            return Ok(self.give_up(lane, is_mute));
        }
        self.served(lane, row)
    }

    // The table: on a sound end an open lane's row is done.
    fn served(&mut self, lane: Lane, row: SendRow<'_>) -> Result<SendAct, NoMemory>
        requires lane { lane.0 < length self.old.plain.lanes }
        requires dials { shown row ≡ Linked → state_at self.old.plain lane.0 ≡ states.Connect }
        requires still_open { is_closed self.old.plain lane.0 ≡ false }
        ensures ok { IfOk result (λ act. turn_row self.old.plain lane (shown row.entry) ≡ (act, self.new.plain)) }
        ensures err { OnErr result (self.new.plain ≡ self.old.plain) }
        ensures free { OnErr result (notes_nothing (shown row.entry) ≡ false) }
    {
        match row {
            SendRow::Over | SendRow::Starved { .. } | SendRow::Stray => Ok(SendAct::Stop),
            SendRow::Aborted(code) => self.aborted(lane, code),
            SendRow::BadFrame(at) => self.find_fault(lane, PeerKind::BadFrame { at }),
            SendRow::SourceLost { unwritten } => {
                Ok(self.fail_with(lane, !unwritten, EndAnswer::Source))
            }
            SendRow::Unexpected { state, command } => {
                self.find_fault(lane, PeerKind::Unexpected { state, command })
            }
            SendRow::Begin => self.begin(lane),
            SendRow::NotLinked => self.not_linked(lane),
            SendRow::Linked => self.linked(lane),
            SendRow::Dropped => self.dropped(lane),
            SendRow::SettingsWritten => Ok(self.settings_written(lane)),
            SendRow::Greeted(mark) => self.read_greeting(lane, mark),
            SendRow::DoneAtOnce => self.read_done_at_once(lane),
            SendRow::Listed(have) => self.read_chunks(lane, have),
            SendRow::SizeWritten => self.size_written(lane),
            SendRow::BlockWritten => self.block_written(lane),
            SendRow::DoneWritten => self.done_written(lane),
            SendRow::Waits => Ok(SendAct::Read),
            SendRow::Marked(marks) => self.read_err_marks(lane, marks),
            SendRow::Finished => self.read_done(lane),
            SendRow::Answered => self.answered(lane),
            SendRow::AbortWritten => Ok(self.leave(lane)),
        }
    }
}
