//! What an idle plain lane does next.
use crate::past;
use crate::plain::Plain;
use crate::rows::PlainAct;
use wdt_receiver_fsm::{RecvEvent, RecvState};
use wdt_sender_fsm::PeerKind;
use wdt_units::{Lane, NoMemory};

impl Plain {
    // Where the finish doesn't come, as something else is there than was told, the history is as it was before
    // the step.
    pub(crate) fn choose(&mut self, lane: Lane, before: usize) -> Result<PlainAct, NoMemory> {
        if past::has_finish(&self.history) {
            self.go(lane, RecvState::SendDone);
            return Ok(PlainAct::WriteDone);
        }
        if past::is_ready(&self.history) {
            return self.finish(lane, before);
        }
        let untold = past::untold(&self.history, lane);
        if !untold.is_empty() {
            self.note(RecvEvent::Told(lane, untold))?;
            self.go(lane, RecvState::SendGlobalCheckpoint);
            return Ok(PlainAct::WriteErrMarks(untold));
        }
        if self.lane(lane).has_waited {
            self.go(lane, RecvState::WaitForFinish);
            Ok(PlainAct::Park)
        } else {
            self.go(lane, RecvState::SendWait);
            Ok(PlainAct::WriteWait)
        }
    }

    fn finish(&mut self, lane: Lane, before: usize) -> Result<PlainAct, NoMemory> {
        if !self.flush()? {
            return Ok(self.lose_disk(lane));
        }
        let (files, bytes) = self.totals()?;
        if let Some((told_files, told_bytes)) = past::sized(&self.history) {
            if files != told_files || bytes != told_bytes {
                self.history.truncate(before);
                let kind = PeerKind::Short {
                    files,
                    bytes,
                    told_files,
                    told_bytes,
                };
                return self.fault(lane, kind);
            }
        }
        self.note(RecvEvent::Finish)?;
        self.go(lane, RecvState::SendDone);
        Ok(PlainAct::WriteDone)
    }
}
