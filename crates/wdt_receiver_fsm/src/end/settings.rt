//! What the sender says of itself and of all that it sends, and what it is answered.
ghost use Rattle.std.specs.Prelude.{◌≡◌, ◌<◌, [], ◌∷◌, length, true, IfOk, None, OnErr};
ghost use Rattle.wdt_receiver_fsm.specs.Frames.{settings_fault, size_fault};
ghost use Rattle.wdt_receiver_fsm.specs.PlainReceiver.{goes, with_lane};
ghost use Rattle.wdt_receiver_fsm.specs.ReceiverHistory.{end_of};
ghost use Rattle.wdt_receiver_fsm.specs.Turn.{greets, greets_by, lists_by, meets, reads, sizes, sizes_with};
ghost use Rattle.wdt_receiver_fsm.specs.declared.states.RecvState.TheVariants as states;
ghost use Rattle.wdt_receiver_fsm.specs.End.{Books, IsSameEnd, lane_in, plain_with, stands};

use crate::{RecvAct, RecvEnd, RecvEvent, RecvLane, RecvState};
use std::alloc::Global;
use wdt_codec::{Frame, Mark, Settings};
use wdt_sender_fsm::PeerKind;
use wdt_units::{Lane, NoMemory};

/// The version of the wire.
const VERSION: u16 = 1;

impl RecvEnd {
    /// The sender said what it is: it is answered, or refused for the least field that is wrong.
    pub fn read_settings(&mut self, lane: Lane, settings: Settings) -> Result<RecvAct, NoMemory>
        requires { lane.0 < length self.old.lanes }
        ensures ok { IfOk result (λ act. (books : Books) → greets (plain_with self.old books) lane settings ≡ (act, plain_with self.new books)) }
        ensures err { OnErr result (IsSameEnd self.old self.new) }
    {
        let conn = self.lane(lane).conn;
        match settings_fault(self.count(), self.met(), lane, conn, &settings) {
            Some(field) => self.find_fault(lane, PeerKind::BadSettings { field }),
            None => self.greet(lane, settings),
        }
    }

    /// It is written how many blocks have landed: where the sender asked, what the destination had is
    /// written, too.
    pub fn greeting_written(&mut self, alloc: Global, lane: Lane) -> Result<RecvAct, NoMemory>
        requires { lane.0 < length self.old.lanes }
        ensures ok { IfOk result (λ act. (books : Books) → lists_by (plain_with self.old books) lane (lane_in self.old lane.0).ask ≡ (act, plain_with self.new books)) }
        ensures err { OnErr result (IsSameEnd self.old self.new) }
    {
        if !self.lane(lane).ask {
            return Ok(self.read_on(lane));
        }
        let have = self.have(alloc)?;
        self.go(lane, RecvState::SendFileChunks);
        Ok(RecvAct::Write(Frame::Chunks(have)))
    }

    /// The lane reads what is to come next.
    pub fn read_on(&mut self, lane: Lane) -> RecvAct
        requires { lane.0 < length self.old.lanes }
        ensures { (books : Books) → reads (goes (plain_with self.old books) lane.0 states.ReadNextCmd) ≡ (result, plain_with self.new books) }
    {
        self.go(lane, RecvState::ReadNextCmd);
        RecvAct::Read
    }

    // The settings are right: after the finish the lane writes the last word, before it how many of its
    // blocks have landed.
    fn greet(&mut self, lane: Lane, settings: Settings) -> Result<RecvAct, NoMemory>
        requires { lane.0 < length self.old.lanes }
        ensures ok { IfOk result (λ act. (books : Books) → greets_by (meets (plain_with self.old books) lane settings) lane settings (end_of self.old.history).has_finish
            ≡ (act, plain_with self.new books)) }
        ensures err { OnErr result (IsSameEnd self.old self.new) }
    {
        self.prepare()?;
        let has_finish = self.has_finish();
        if self.met().is_some() {
            return Ok(self.answer_settings(lane, settings, has_finish));
        }
        self.note(RecvEvent::Met(lane, settings));
        Ok(self.answer_settings(lane, settings, has_finish))
    }

    // Settings that are noted, where they are the first, are answered.
    fn answer_settings(&mut self, lane: Lane, settings: Settings, has_finish: bool) -> RecvAct
        requires { lane.0 < length self.old.lanes }
        ensures { (books : Books) → greets_by (plain_with self.old books) lane settings has_finish ≡ (result, plain_with self.new books) }
    {
        if has_finish {
            self.stand_met(lane, RecvState::SendDone, &settings);
            return RecvAct::Write(Frame::Done);
        }
        let count = self.landed(lane);
        self.stand_met(lane, RecvState::SendLocalCheckpoint, &settings);
        RecvAct::Write(Frame::Greeting(Mark { lane, count }))
    }

    // The lane goes on to a state, and keeps what it was told.
    fn stand_met(&mut self, lane: Lane, state: RecvState, settings: &Settings)
        requires { lane.0 < length self.old.lanes }
        ensures { self.new ≡ stands self.old lane.0 record (lane_in self.old lane.0) { state = state; ask = settings.now.ask; conn = settings.now.conn.0 } }
    {
        let stand = RecvLane {
            state,
            ask: settings.ask,
            conn: settings.conn.0,
            ..self.lane(lane)
        };
        self.stand(lane, stand);
    }

    /// The sender told what is sent in all: the first totals are noted, and later ones have to be the same.
    pub fn read_size(&mut self, lane: Lane, files: u32, bytes: u64) -> Result<RecvAct, NoMemory>
        requires { lane.0 < length self.old.lanes }
        ensures ok { IfOk result (λ act. (books : Books) → sizes (plain_with self.old books) lane files bytes ≡ (act, plain_with self.new books)) }
        ensures err { OnErr result (IsSameEnd self.old self.new) }
    {
        match size_fault(self.sized(), files, bytes) {
            Some(kind) => self.find_fault(lane, kind),
            None => self.take_size(lane, files, bytes),
        }
    }

    // The totals are the first that were read, which are noted, or the same.
    fn take_size(&mut self, lane: Lane, files: u32, bytes: u64) -> Result<RecvAct, NoMemory>
        requires { lane.0 < length self.old.lanes }
        ensures ok { IfOk result (λ act. (books : Books) → sizes_with (plain_with self.old books) lane files bytes None ≡ (act, plain_with self.new books)) }
        ensures err { OnErr result (IsSameEnd self.old self.new) }
    {
        self.prepare()?;
        if self.sized().is_some() {
            return Ok(self.know_size(lane));
        }
        self.note(RecvEvent::Sized(lane, files, bytes));
        Ok(self.know_size(lane))
    }

    // The totals are known on the lane's connection: it reads on.
    fn know_size(&mut self, lane: Lane) -> RecvAct
        requires { lane.0 < length self.old.lanes }
        ensures { (books : Books) → reads (with_lane (plain_with self.old books) lane.0 record (lane_in self.old lane.0) { is_sized = true }) ≡ (result, plain_with self.new books) }
    {
        let stand = RecvLane {
            is_sized: true,
            ..self.lane(lane)
        };
        self.stand(lane, stand);
        RecvAct::Read
    }
}

// The least field that is wrong, where of so many lanes this one reads the settings, others were the
// first that were read, and this is the greatest number of a connection that was read on the lane.
fn settings_fault(
    lanes: u8,
    met: Option<Settings>,
    lane: Lane,
    conn: u16,
    settings: &Settings,
) -> Option<u8>
    ensures { result ≡ settings_fault lanes met lane.0 conn settings.now }
{
    let first = met.unwrap_or(*settings);
    if settings.version != VERSION {
        Some(1)
    } else if settings.session != first.session {
        Some(2)
    } else if settings.lane != lane {
        Some(3)
    } else if settings.lanes != lanes {
        Some(4)
    } else if settings.conn.0 <= conn {
        Some(5)
    } else if settings.block != first.block {
        Some(6)
    } else {
        None
    }
}

// The first totals were others.
fn size_fault(sized: Option<(u32, u64)>, told_files: u32, told_bytes: u64) -> Option<PeerKind>
    ensures { result ≡ size_fault sized told_files told_bytes }
{
    let (files, bytes) = sized?;
    if files == told_files && bytes == told_bytes {
        return None;
    }
    Some(PeerKind::SizesDiffer {
        files,
        bytes,
        told_files,
        told_bytes,
    })
}
