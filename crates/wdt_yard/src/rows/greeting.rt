//! The receiver tells how many blocks of a lane it has.
ghost use Rattle.std.specs.Prelude.{◌≡◌, ◌<◌, [], ◌∷◌, length, false, IfOk, OnErr};
ghost use Rattle.wdt_sender_fsm.specs.PlainSender.{is_closed};
ghost use Rattle.wdt_sender_fsm.specs.Turn.{greeted, greeted_by, writes_size};

use crate::end::SendEnd;
use wdt_codec::{Frame, Mark};
use wdt_sender_fsm::{PeerKind, SendAct, SendState};
use wdt_units::{Lane, NoMemory};

// The first byte of a Greeting.
const GREETING: u8 = 0x47;

impl SendEnd {
    /// The receiver told how many blocks of a lane it has.
    pub fn read_greeting(&mut self, lane: Lane, mark: Mark) -> Result<SendAct, NoMemory>
        requires lane { lane.0 < length self.old.plain.lanes }
        requires still_open { is_closed self.old.plain lane.0 ≡ false }
        ensures ok { IfOk result (λ act. greeted self.old.plain lane mark ≡ (act, self.new.plain)) }
        ensures err { OnErr result (self.new.plain ≡ self.old.plain) }
    {
        self.prepare(lane)?;
        if mark.lane.0 != lane.0 {
            return Ok(self.fault(
                lane,
                PeerKind::Unexpected {
                    state: SendState::ReadLocalCheckpoint.place(),
                    command: GREETING,
                },
            ));
        }
        let ask = self.asked(lane);
        match self.greet(lane, mark.count) {
            Err(kind) => Ok(self.fault(lane, kind)),
            Ok(()) => Ok(self.read_on(lane, ask)),
        }
    }

    // A count was told: where the lane asked what the destination has, it reads that next.
    fn read_on(&mut self, lane: Lane, ask: bool) -> SendAct
        requires { lane.0 < length self.old.plain.lanes }
        ensures { greeted_by self.old.plain lane ask ≡ (result, self.new.plain) }
    {
        if ask {
            self.go(lane, SendState::ReadFileChunks);
            SendAct::Read
        } else {
            self.write_size(lane)
        }
    }

    /// A lane writes what is sent in all.
    pub fn write_size(&mut self, lane: Lane) -> SendAct
        requires { lane.0 < length self.old.plain.lanes }
        ensures { writes_size self.old.plain lane ≡ (result, self.new.plain) }
    {
        self.go(lane, SendState::SendSize);
        SendAct::Write(Frame::Size {
            files: self.manifest.count(),
            bytes: self.manifest.total(),
        })
    }
}
