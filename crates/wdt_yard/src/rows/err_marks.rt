//! The receiver tells of lanes that it has closed.
ghost use Rattle.std.specs.Prelude.{◌≡◌, ◌+◌, ◌<◌, length, false, None, IfOk, OnErr};
ghost use Rattle.std.specs.Result.{result_err};
ghost use Rattle.wdt_sender_fsm.specs.Faults.{has_stranger, marks_fault};
ghost use Rattle.wdt_sender_fsm.specs.PlainSender.{is_closed, noted};
ghost use Rattle.wdt_sender_fsm.specs.Turn.{globals, marked};
ghost use Rattle.wdt_yard.specs.End.{AreThere};

use crate::end::SendEnd;
use wdt_codec::{Mark, Marks};
use wdt_sender_fsm::{PeerKind, SendAct, SendState};
use wdt_units::{Lane, NoMemory};

// The first byte of an Err.
const MARKS: u8 = 0x45;

impl SendEnd {
    /// The receiver told of lanes that it has closed: their blocks that it doesn't have go back to the
    /// queue, and the lane takes the least that waits. Nothing is taken over where anything is wrong.
    pub fn read_err_marks(&mut self, lane: Lane, marks: &Marks) -> Result<SendAct, NoMemory>
        requires lane { lane.0 < length self.old.plain.lanes }
        requires still_open { is_closed self.old.plain lane.0 ≡ false }
        ensures ok { IfOk result (λ act. marked self.old.plain lane marks.now ≡ (act, self.new.plain)) }
        ensures err { OnErr result (self.new.plain ≡ self.old.plain) }
    {
        let marks = marks.items();
        if self.has_stranger(lane, marks) {
            return self.find_fault(
                lane,
                PeerKind::Unexpected {
                    state: SendState::ReadReceiverCmd.place(),
                    command: MARKS,
                },
            );
        }
        if let Err(kind) = self.check_marks(marks) {
            return self.find_fault(lane, kind);
        }
        let path = self.prepare_next(lane)?;
        self.close_all(lane, marks);
        Ok(self.next(lane, path))
    }

    // Whether a mark is of a lane that isn't there, or of the lane that reads it.
    fn has_stranger(&self, reader: Lane, marks: &[Mark]) -> bool
        ensures { result ≡ has_stranger (length self.now.plain.lanes) reader.0 marks.now }
    {
        let lanes = self.lanes.len();
        marks.iter().any(|mark| lanes <= mark.lane.0 as usize || mark.lane.0 == reader.0)
    }

    // What is wrong with the first wrong count, before any is taken.
    fn check_marks(&self, marks: &[Mark]) -> Result<(), PeerKind>
        requires { AreThere (length self.now.plain.lanes) marks.now }
        ensures { result_err result ≡ marks_fault self.now.plain.history marks.now }
    {
        for mark in marks {
            if let Err(kind) = self.journal.check(mark.lane, mark.count) {
                return Err(kind);
            }
        }
        Ok(())
    }

    // The lanes are closed one after another.
    fn close_all(&mut self, reader: Lane, marks: &[Mark])
        requires there { AreThere (length self.old.plain.lanes) marks.now }
        requires right { marks_fault self.old.plain.history marks.now ≡ None }
        requires room { length marks.now < self.old.spare }
        ensures plain { self.new.plain ≡ noted self.old.plain (globals reader marks.now) }
        ensures room { self.old.spare ≡ self.new.spare + length marks.now }
        ensures ready { self.new.ready ≡ self.old.ready }
    {
        for mark in marks {
            self.close(reader, *mark);
        }
    }
}
