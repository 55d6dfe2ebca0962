//! One end of a connection inside a process.
ghost use Rattle.std.specs.Prelude.{◌≡◌, ◌≤◌, [], None, IfOk, true, string_bytes};
ghost use Rattle.std.specs.String.{string_capacity};
ghost use Rattle.wdt_units.specs.Counts.{added};
ghost use Rattle.wdt_codec.specs.Frames.{Fits};
ghost use Rattle.wdt_link.specs.Calls.{HasFault};
ghost use Rattle.wdt_link.specs.Owing.{IsNextPart, IsOwed, owing_behind};
ghost use Rattle.wdt_pipes.specs.Pipes.{PipeView, unused};

use crossbeam_channel::{Receiver, SendError, Sender, bounded};
use std::alloc::Global;
use std::marker::Model;
use std::sync::Wait;
use wdt_codec::Frame;
use wdt_link::{
    Link, LinkFail, RecvFail, Said, alarms_behind, is_piece_slip, keep_block, path_room,
};
use wdt_tree::Run;
use wdt_units::{Header, MAX_PATH, NoMemory};

// How many frames and pieces may wait in one direction: enough that neither end waits for each one,
// and at most 2 MiB of pieces.
const CAPACITY: usize = 32;

/// One end of a connection inside a process. It tells no bytes. A call that waits ends, with a fault,
/// once the other end is hung up.
#[derive(Drop)]
pub struct PipeLink<R: Wait + Drop, N: Run> {
    rt: R,
    alloc: Global,
    out: Sender<Said<N>>,
    into: Receiver<Said<N>>,
    block: Option<Header>,
    owed: u32,
    faults: u64,
    alarms: u64,
    slips: u64,
}

impl<R: Wait + Drop, N: Run> Model for PipeLink<R, N> {
    ghost use Rattle.wdt_link.specs.Owing.{IsOwed};
    ghost use Rattle.wdt_pipes.specs.Pipes.{PipeView};

    ghost Value = { PipeView };

    ghost view = { λ s. record {
      faults = s.faults;
      alarms = s.alarms;
      slips = s.slips;
      owing = record { block = s.block; owed = s.owed };
    } };

    ghost invariant = { λ s. IsOwed s.block s.owed };
}

// The two ends of a new connection.
pub(crate) fn pair<R: Wait + Drop, N: Run>(
    alloc: Global,
    near: R,
    far: R,
) -> Result<(PipeLink<R, N>, PipeLink<R, N>), NoMemory>
    ensures near { IfOk result (λ ends. ends.0 ≡ unused) }
    ensures far { IfOk result (λ ends. ends.1 ≡ unused) }
{
    let Ok((down, from_down)) = bounded(alloc, CAPACITY) else {
        return Err(NoMemory);
    };
    let Ok((up, from_up)) = bounded(alloc, CAPACITY) else {
        return Err(NoMemory);
    };
    let near = PipeLink::over(near, alloc, down, from_up);
    let far = PipeLink::over(far, alloc, up, from_down);
    Ok((near, far))
}

// The last block, and what is owed of it, behind a frame.
fn keep(block: &mut Option<Header>, owed: &mut u32, frame: &Frame, room: String)
    requires empty { string_bytes room ≡ [] }
    requires fits { MAX_PATH ≤ string_capacity room }
    requires frame { Fits frame.now }
    requires owed { IsOwed block.old owed.old }
    ensures owing { record { block = block.new; owed = owed.new } ≡ owing_behind record { block = block.old; owed = owed.old } frame.now }
    ensures owed { IsOwed block.new owed.new }
{
    keep_block(block, frame, room);
    if let Frame::Block(header) = frame {
        *owed = header.length;
    }
}

// Whether it is the next piece of the last block, of that many bytes, where so many are owed.
fn is_next<N: Run>(block: &Option<Header>, owed: u32, said: &Said<N>, count: u32) -> bool
    requires { IsOwed block.now owed }
    ensures { result ≡ true → IsNextPart block.now owed count said.now }
{
    match block {
        Some(header) => said.is_part(
            &header.path,
            header.offset + u64::from(header.length - owed),
            count,
        ),
        None => false,
    }
}

impl<R: Wait + Drop, N: Run> PipeLink<R, N> {
    // An end over one channel each way.
    fn over(rt: R, alloc: Global, out: Sender<Said<N>>, into: Receiver<Said<N>>) -> PipeLink<R, N>
        ensures { result ≡ unused }
    {
        PipeLink {
            rt,
            alloc,
            out,
            into,
            block: None,
            owed: 0,
            faults: 0,
            alarms: 0,
            slips: 0,
        }
    }

    /// How often a call failed.
    pub fn faults(&self) -> u64
        ensures { result ≡ self.now.faults }
    {
        self.faults
    }

    /// How often the other end was heard to fail.
    pub fn alarms(&self) -> u64
        ensures { result ≡ self.now.alarms }
    {
        self.alarms
    }

    /// How often a call asked for what can't come.
    pub fn slips(&self) -> u64
        ensures { result ≡ self.now.slips }
    {
        self.slips
    }

    // A call that fails.
    fn fault(&mut self) -> RecvFail
        ensures failed { result ≡ RecvFail.Failed }
        ensures faults { self.new.faults ≡ added self.old.faults 1 }
        ensures alarms { self.new.alarms ≡ self.old.alarms }
        ensures slips { self.new.slips ≡ self.old.slips }
        ensures owing { self.new.owing ≡ self.old.owing }
    {
        self.faults = self.faults.saturating_add(1);
        RecvFail::Failed
    }

    // A call that asks for what can't come.
    fn slip(&mut self) -> RecvFail
        ensures failed { result ≡ RecvFail.Failed }
        ensures faults { self.new.faults ≡ added self.old.faults 1 }
        ensures alarms { self.new.alarms ≡ self.old.alarms }
        ensures slips { self.new.slips ≡ added self.old.slips 1 }
        ensures owing { self.new.owing ≡ self.old.owing }
    {
        self.slips = self.slips.saturating_add(1);
        self.fault()
    }

    // Moves a frame or a piece to the other end.
    fn put(&mut self, said: Said<N>) -> Result<(), LinkFail>
        ensures cause { HasFault LinkFail.Failed result self.old.faults self.new.faults }
        ensures alarms { self.new.alarms ≡ self.old.alarms }
        ensures slips { self.new.slips ≡ self.old.slips }
        ensures owing { self.new.owing ≡ self.old.owing }
    {
        match self.out.send(&self.rt, said) {
            Ok(()) => Ok(()),
            Err(SendError::Disconnected(_)) => {
                self.faults = self.faults.saturating_add(1);
                Err(LinkFail::Failed)
            }
            Err(SendError::OutOfMemory(_)) => Err(LinkFail::NoMemory),
        }
    }
}

impl<R: Wait + Drop, N: Run> Link<Said<N>> for PipeLink<R, N> {
    ghost use Rattle.std.specs.Prelude.{None};

    ghost told = { λ s. None };

    ghost faults = { λ s. s.faults };

    ghost alarms = { λ s. s.alarms };

    ghost slips = { λ s. s.slips };

    ghost owing = { λ s. s.owing };

    ghost mark = { λ s. 0 };

    fn send(&mut self, frame: Said<N>) -> Result<(), LinkFail> {
        self.put(frame)
    }

    fn send_piece(&mut self, piece: Said<N>) -> Result<(), LinkFail> {
        self.put(piece)
    }

    // A piece that comes where a frame is asked for is taken, and the call fails.
    fn recv(&mut self) -> Result<Said<N>, RecvFail> {
        if self.owed > 0 {
            return Err(self.slip());
        }
        let Ok(room) = path_room(self.alloc) else {
            return Err(RecvFail::NoMemory);
        };
        let Ok(said) = self.into.recv(&self.rt) else {
            return Err(self.fault());
        };
        let Some(frame) = said.into_frame() else {
            return Err(self.fault());
        };
        self.alarms = alarms_behind(self.alarms, &frame);
        keep(&mut self.block, &mut self.owed, &frame, room);
        Ok(Said::frame(frame))
    }

    // Anything but the next piece, of just that length, is taken, and the call fails.
    fn recv_piece(&mut self, count: u32) -> Result<Said<N>, RecvFail> {
        if is_piece_slip(count, self.owed) {
            return Err(self.slip());
        }
        let Ok(said) = self.into.recv(&self.rt) else {
            return Err(self.fault());
        };
        if !is_next(&self.block, self.owed, &said, count) {
            return Err(self.fault());
        }
        self.owed -= count;
        Ok(said)
    }
}
