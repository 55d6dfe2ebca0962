//! A link over a wire.
ghost use Rattle.std.specs.Prelude.{◌≡◌, None, IfOk, IfErr, IfSome, IsErrOf, true, false, nat_lt, option_map};
ghost use Rattle.wdt_units.specs.Counts.{Rises};
ghost use Rattle.wdt_codec.specs.Frames.{Fits, spell};
ghost use Rattle.wdt_link.specs.Calls.{HasAlarm, HasFault, HasSlip, is_alarm};
ghost use Rattle.wdt_link.specs.Links.{EndsInFrame, EndsInPiece, faults_of};
ghost use Rattle.wdt_link.specs.Owing.{PieceFrom, is_piece_slip, owing_after};
ghost use Rattle.wdt_link.specs.Reasons.{IsBadOf, is_bad};
ghost use Rattle.wdt_link.specs.Saying.{is_whole, spelled};
ghost use Rattle.wdt_link.specs.Traffic.{Keeps, Receives, Sends};
ghost use Rattle.wdt_link.specs.Wires.{IsUnused, begun};

use crate::fails::{LinkFail, RecvFail, StreamFail};
use crate::link::Link;
use crate::owing::{alarms_behind, is_piece_slip, keep_block, next_place, path_room};
use crate::said::Said;
use crate::stream::Stream;
use crate::wire::ByteWire;
use std::alloc::Global;
use std::marker::{Model, PhantomData};
use wdt_codec::{Frame, encode};
use wdt_tree::{Run, Untold};
use wdt_units::{Failed, Header};

/// A link over a wire. Nothing is known of the bytes that come, so its run is one that tells nothing.
///
/// It tells its bytes exactly where the wire does. Its faults are those of the wire and its own: each
/// slip, and each call that the wire ends before it has what was asked for.
#[derive(Drop)]
pub struct ByteLink<W: ByteWire + Drop, N: Run = Untold> {
    alloc: Global,
    stream: Stream<W>,
    // What is written next, in memory that is used again.
    spelled: Vec<u8>,
    block: Option<Header>,
    faults: u64,
    alarms: u64,
    slips: u64,
    of: PhantomData<N>,
}

impl<W: ByteWire + Drop, N: Run> Model for ByteLink<W, N> {
    ghost use Rattle.std.specs.Prelude.{◌≡◌, None};
    ghost use Rattle.wdt_link.specs.Links.{ByteLinkView};
    ghost use Rattle.wdt_link.specs.Owing.{IsOwed};

    ghost Value = { ByteLinkView };

    ghost view = { λ s. record {
      told = s.stream.told;
      wire = s.stream.faults;
      own = s.faults;
      alarms = s.alarms;
      slips = s.slips;
      owing = record { block = s.block; owed = s.stream.owed };
    } };

    ghost invariant = { λ s. IsOwed s.block s.stream.owed × (N.told ≡ None) };
}

impl<W: ByteWire + Drop, N: Run> ByteLink<W, N> {
    /// A link over a wire that has carried nothing.
    pub fn over(alloc: Global, wire: W) -> ByteLink<W, N>
        requires silent { N.told ≡ None }
        requires unused { IfSome (W.told wire) IsUnused }
        ensures told { result.told ≡ option_map begun (W.told wire) }
        ensures wire { result.wire ≡ W.faults wire }
        ensures own { result.own ≡ 0 }
        ensures alarms { result.alarms ≡ 0 }
        ensures slips { result.slips ≡ 0 }
        ensures owing { result.owing ≡ record { block = None; owed = 0 } }
    {
        ByteLink {
            alloc,
            stream: Stream::over(alloc, wire),
            spelled: Vec::new(alloc),
            block: None,
            faults: 0,
            alarms: 0,
            slips: 0,
            of: PhantomData,
        }
    }

    /// The wire, once the link is done with.
    pub fn into_wire(self) -> W
        ensures sent { option_map (λ cable. cable.written) (W.told result) ≡ option_map (λ traffic. traffic.sent) self.told }
        ensures faults { W.faults result ≡ self.wire }
    {
        self.stream.into_wire()
    }

    /// How often a call failed, for the wire's failure or for one of the link's own.
    pub fn faults(&self) -> u64
        ensures { result ≡ faults_of self.now }
    {
        self.faults.saturating_add(self.stream.faults())
    }

    /// How often the other end was heard to fail.
    pub fn alarms(&self) -> u64
        ensures { result ≡ self.now.alarms }
    {
        self.alarms
    }

    /// How often a call asked for what can't come.
    pub fn slips(&self) -> u64
        ensures { result ≡ self.now.slips }
    {
        self.slips
    }

    // Writes bytes.
    fn put(&mut self, bytes: &[u8]) -> Result<(), LinkFail>
        ensures told { Keeps (Sends result bytes.now) self.old.told self.new.told }
        ensures fail { IfErr result (λ e. e ≡ LinkFail.Failed) }
        ensures cause { HasFault LinkFail.Failed result self.old.wire self.new.wire }
        ensures own { self.new.own ≡ self.old.own }
        ensures alarms { self.new.alarms ≡ self.old.alarms }
        ensures slips { self.new.slips ≡ self.old.slips }
        ensures owing { self.new.owing ≡ self.old.owing }
    {
        match self.stream.write(bytes) {
            Ok(()) => Ok(()),
            Err(Failed) => Err(LinkFail::Failed),
        }
    }

    // Writes a frame.
    fn put_frame(&mut self, frame: &Frame) -> Result<(), LinkFail>
        requires { Fits frame.now }
        ensures told { Keeps (Sends result (spell frame.now)) self.old.told self.new.told }
        ensures starved { IsErrOf result LinkFail.NoMemory → self.new.told ≡ self.old.told }
        ensures cause { HasFault LinkFail.Failed result self.old.wire self.new.wire }
        ensures own { self.new.own ≡ self.old.own }
        ensures alarms { self.new.alarms ≡ self.old.alarms }
        ensures slips { self.new.slips ≡ self.old.slips }
        ensures owing { self.new.owing ≡ self.old.owing }
    {
        self.spelled.clear();
        if encode(frame, &mut self.spelled).is_err() {
            return Err(LinkFail::NoMemory);
        }
        match self.stream.write(self.spelled.as_slice()) {
            Ok(()) => Ok(()),
            Err(Failed) => Err(LinkFail::Failed),
        }
    }

    // A failure of the link's own.
    fn fault(&mut self) -> RecvFail
        ensures failed { result ≡ RecvFail.Failed }
        ensures own { Rises self.old.own self.new.own }
        ensures wire { self.new.wire ≡ self.old.wire }
        ensures slips { self.new.slips ≡ self.old.slips }
        ensures alarms { self.new.alarms ≡ self.old.alarms }
        ensures owing { self.new.owing ≡ self.old.owing }
        ensures told { self.new.told ≡ self.old.told }
    {
        self.faults = self.faults.saturating_add(1);
        RecvFail::Failed
    }

    // A call that asks for what can't come.
    fn slip(&mut self) -> RecvFail
        ensures failed { result ≡ RecvFail.Failed }
        ensures own { Rises self.old.own self.new.own }
        ensures wire { self.new.wire ≡ self.old.wire }
        ensures slips { Rises self.old.slips self.new.slips }
        ensures alarms { self.new.alarms ≡ self.old.alarms }
        ensures owing { self.new.owing ≡ self.old.owing }
        ensures told { self.new.told ≡ self.old.told }
    {
        self.slips = self.slips.saturating_add(1);
        self.fault()
    }
}

impl<W: ByteWire + Drop, N: Run> Link<Said<N>> for ByteLink<W, N> {
    ghost told = { λ s. s.told };

    ghost faults = { faults_of };

    ghost alarms = { λ s. s.alarms };

    ghost slips = { λ s. s.slips };

    ghost owing = { λ s. s.owing };

    ghost mark = { λ s. 0 };

    fn send(&mut self, frame: Said<N>) -> Result<(), LinkFail>
        requires { is_whole frame ≡ true }
        ensures told { Keeps (Sends result (spelled frame)) self.old.told self.new.told }
        ensures starved { IsErrOf result LinkFail.NoMemory → self.new.told ≡ self.old.told }
        ensures cause { HasFault LinkFail.Failed result (faults_of self.old) (faults_of self.new) }
        ensures own { self.new.own ≡ self.old.own }
        ensures alarms { self.new.alarms ≡ self.old.alarms }
        ensures slips { self.new.slips ≡ self.old.slips }
        ensures owing { self.new.owing ≡ self.old.owing }
    {
        match frame.into_frame() {
            Some(frame) => self.put_frame(&frame),
            None => Ok(()),
        }
    }

    fn send_piece(&mut self, piece: Said<N>) -> Result<(), LinkFail>
        requires { is_whole piece ≡ false }
        ensures told { Keeps (Sends result (spelled piece)) self.old.told self.new.told }
        ensures starved { IsErrOf result LinkFail.NoMemory → self.new.told ≡ self.old.told }
        ensures cause { HasFault LinkFail.Failed result (faults_of self.old) (faults_of self.new) }
        ensures own { self.new.own ≡ self.old.own }
        ensures alarms { self.new.alarms ≡ self.old.alarms }
        ensures slips { self.new.slips ≡ self.old.slips }
        ensures owing { self.new.owing ≡ self.old.owing }
    {
        match piece.into_piece() {
            Some(bytes) => self.put(bytes.as_slice()),
            None => Ok(()),
        }
    }

    fn recv(&mut self) -> Result<Said<N>, RecvFail>
        ensures whole { IfOk result (λ said. is_whole said ≡ true) }
        ensures told { Keeps (Receives spelled result) self.old.told self.new.told }
        ensures starved { IsErrOf result RecvFail.NoMemory → self.new.told ≡ self.old.told }
        ensures owing { self.new.owing ≡ owing_after self.old.owing result }
        ensures bad { IfErr result (λ e. IsBadOf e self.old.told) }
        ensures cause { HasFault RecvFail.Failed result (faults_of self.old) (faults_of self.new) }
        ensures own { nat_lt 0 self.old.owing.owed ≡ false → (EndsInFrame self.old.told → ⊥) → self.new.own ≡ self.old.own }
        ensures alarms { HasAlarm (is_alarm result) self.old.alarms self.new.alarms }
        ensures slips { HasSlip RecvFail.Failed (nat_lt 0 self.old.owing.owed) result self.old.slips self.new.slips }
    {
        if self.stream.owed() > 0 {
            return Err(self.slip());
        }
        let Ok(room) = path_room(self.alloc) else {
            return Err(RecvFail::NoMemory);
        };
        match self.stream.next_frame() {
            Ok(frame) => {
                self.alarms = alarms_behind(self.alarms, &frame);
                keep_block(&mut self.block, &frame, room);
                Ok(Said::frame(frame))
            }
            Err(StreamFail::Failed) => Err(RecvFail::Failed),
            Err(StreamFail::Ended) => Err(self.fault()),
            Err(StreamFail::Bad { at }) => {
                self.alarms = self.alarms.saturating_add(1);
                Err(RecvFail::Bad { at })
            }
            Err(StreamFail::NoMemory) => Err(RecvFail::NoMemory),
        }
    }

    fn recv_piece(&mut self, count: u32) -> Result<Said<N>, RecvFail>
        ensures told { Keeps (Receives spelled result) self.old.told self.new.told }
        ensures starved { IsErrOf result RecvFail.NoMemory → self.new.told ≡ self.old.told }
        ensures owing { PieceFrom self.old.owing count result self.new.owing }
        ensures never_bad { IfErr result (λ e. is_bad e ≡ false) }
        ensures cause { HasFault RecvFail.Failed result (faults_of self.old) (faults_of self.new) }
        ensures own { is_piece_slip count self.old.owing.owed ≡ false → (EndsInPiece count self.old.told → ⊥) → self.new.own ≡ self.old.own }
        ensures alarms { self.new.alarms ≡ self.old.alarms }
        ensures slips { HasSlip RecvFail.Failed (is_piece_slip count self.old.owing.owed) result self.old.slips self.new.slips }
    {
        let owed = self.stream.owed();
        if is_piece_slip(count, owed) {
            return Err(self.slip());
        }
        let Ok((path, offset)) = next_place(&self.block, owed) else {
            return Err(RecvFail::NoMemory);
        };
        match self.stream.next_piece(count) {
            Ok(bytes) => Ok(Said::piece(path, offset, bytes)),
            Err(StreamFail::Failed) => Err(RecvFail::Failed),
            Err(StreamFail::Ended) => Err(self.fault()),
            Err(StreamFail::Bad { .. }) => Err(RecvFail::NoMemory),
            Err(StreamFail::NoMemory) => Err(RecvFail::NoMemory),
        }
    }
}
