//! One connection over TCP.
ghost use Rattle.std.specs.Prelude.{◌≡◌, None, IfOk, IfErr, IsErrOf, true, false, nat_lt};
ghost use Rattle.wdt_link.specs.Calls.{HasAlarm, HasFault, HasSlip, is_alarm};
ghost use Rattle.wdt_link.specs.Links.{faults_of};
ghost use Rattle.wdt_link.specs.Owing.{PieceFrom, is_piece_slip, owing_after};
ghost use Rattle.wdt_link.specs.Reasons.{IsBadOf, is_bad};
ghost use Rattle.wdt_link.specs.Saying.{is_whole, spelled};
ghost use Rattle.wdt_link.specs.Traffic.{Keeps, Receives, Sends};
ghost use Rattle.wdt_net.specs.Ends.{unused};

use crate::limits::silence;
use crate::reason::Reason;
use crate::watch::watch;
use crate::wire::TcpWire;
use std::alloc::Global;
use std::io;
use std::marker::Model;
use std::net::{SocketAddr, TcpStream};
use wdt_codec::Frame;
use wdt_link::{ByteLink, Link, LinkFail, RecvFail, Said};
use wdt_tree::{Run, Untold};

/// A link over a socket. A call fails where the other end is silent for too long, but for one: the
/// call behind a Wait waits without end, since by it the receiver says that it will be silent until
/// its other lanes are done. That a host has vanished is noticed there, too, where the system asks it.
#[derive(Drop)]
pub struct TcpLink<N: Run = Untold> {
    link: ByteLink<TcpWire, N>,
    // The link's own socket, for its options.
    socket: TcpStream,
    // Whether the last frame was a Wait.
    waits: bool,
}

impl<N: Run> Model for TcpLink<N> {
    ghost use Rattle.wdt_link.specs.Links.{ByteLinkView};

    ghost Value = { ByteLinkView };

    ghost view = { λ s. s.link };
}

impl<N: Run> TcpLink<N> {
    /// A link over a socket that was just connected to this address. What is written is sent at once.
    pub(crate) fn of(alloc: Global, stream: TcpStream, peer: SocketAddr) -> io::Result<TcpLink<N>>
        requires { N.told ≡ None }
        ensures { IfOk result (λ link. link ≡ unused) }
    {
        stream.set_nodelay(true)?;
        stream.set_read_timeout(Some(silence()))?;
        stream.set_write_timeout(Some(silence()))?;
        let socket = stream.try_clone()?;
        watch(&socket);
        Ok(TcpLink {
            link: ByteLink::over(alloc, TcpWire::of(stream, peer)),
            socket,
            waits: false,
        })
    }

    /// Why it failed last, once it is done with.
    pub(crate) fn into_reason(self) -> Option<Reason> {
        self.link.into_wire().into_reason()
    }

    /// How often a call failed.
    pub fn faults(&self) -> u64
        ensures { result ≡ faults_of self.now }
    {
        self.link.faults()
    }

    /// How often the other end was heard to fail.
    pub fn alarms(&self) -> u64
        ensures { result ≡ self.now.alarms }
    {
        self.link.alarms()
    }

    /// How often a call asked for what can't come.
    pub fn slips(&self) -> u64
        ensures { result ≡ self.now.slips }
    {
        self.link.slips()
    }

    // Gives the next read the time that it has. Where the system refuses, it has the time of the last.
    fn give_time(&mut self, waits: bool)
        ensures { self.new ≡ self.old }
    {
        if waits == self.waits {
            return;
        }
        let time = if waits { None } else { Some(silence()) };
        if self.socket.set_read_timeout(time).is_ok() {
            self.waits = waits;
        }
    }
}

// Whether it is a Wait.
fn is_wait<N: Run>(heard: &Result<Said<N>, RecvFail>) -> bool {
    match heard {
        Ok(said) => matches!(said.as_frame(), Some(Frame::Wait)),
        Err(_) => false,
    }
}

impl<N: Run> Link<Said<N>> for TcpLink<N> {
    ghost told = { λ s. s.told };

    ghost faults = { faults_of };

    ghost alarms = { λ s. s.alarms };

    ghost slips = { λ s. s.slips };

    ghost owing = { λ s. s.owing };

    ghost mark = { λ s. 0 };

    fn send(&mut self, frame: Said<N>) -> Result<(), LinkFail>
        requires { is_whole frame ≡ true }
        ensures told { Keeps (Sends result (spelled frame)) self.old.told self.new.told }
        ensures starved { IsErrOf result LinkFail.NoMemory → self.new.told ≡ self.old.told }
        ensures cause { HasFault LinkFail.Failed result (faults_of self.old) (faults_of self.new) }
        ensures own { self.new.own ≡ self.old.own }
        ensures alarms { self.new.alarms ≡ self.old.alarms }
        ensures slips { self.new.slips ≡ self.old.slips }
        ensures owing { self.new.owing ≡ self.old.owing }
    {
        self.link.send(frame)
    }

    fn send_piece(&mut self, piece: Said<N>) -> Result<(), LinkFail>
        requires { is_whole piece ≡ false }
        ensures told { Keeps (Sends result (spelled piece)) self.old.told self.new.told }
        ensures starved { IsErrOf result LinkFail.NoMemory → self.new.told ≡ self.old.told }
        ensures cause { HasFault LinkFail.Failed result (faults_of self.old) (faults_of self.new) }
        ensures own { self.new.own ≡ self.old.own }
        ensures alarms { self.new.alarms ≡ self.old.alarms }
        ensures slips { self.new.slips ≡ self.old.slips }
        ensures owing { self.new.owing ≡ self.old.owing }
    {
        self.link.send_piece(piece)
    }

    fn recv(&mut self) -> Result<Said<N>, RecvFail>
        ensures whole { IfOk result (λ said. is_whole said ≡ true) }
        ensures told { Keeps (Receives spelled result) self.old.told self.new.told }
        ensures starved { IsErrOf result RecvFail.NoMemory → self.new.told ≡ self.old.told }
        ensures owing { self.new.owing ≡ owing_after self.old.owing result }
        ensures bad { IfErr result (λ e. IsBadOf e self.old.told) }
        ensures cause { HasFault RecvFail.Failed result (faults_of self.old) (faults_of self.new) }
        ensures alarms { HasAlarm (is_alarm result) self.old.alarms self.new.alarms }
        ensures slips { HasSlip RecvFail.Failed (nat_lt 0 self.old.owing.owed) result self.old.slips self.new.slips }
    {
        let heard = self.link.recv();
        self.give_time(is_wait(&heard));
        heard
    }

    fn recv_piece(&mut self, count: u32) -> Result<Said<N>, RecvFail>
        ensures told { Keeps (Receives spelled result) self.old.told self.new.told }
        ensures starved { IsErrOf result RecvFail.NoMemory → self.new.told ≡ self.old.told }
        ensures owing { PieceFrom self.old.owing count result self.new.owing }
        ensures never_bad { IfErr result (λ e. is_bad e ≡ false) }
        ensures cause { HasFault RecvFail.Failed result (faults_of self.old) (faults_of self.new) }
        ensures alarms { self.new.alarms ≡ self.old.alarms }
        ensures slips { HasSlip RecvFail.Failed (is_piece_slip count self.old.owing.owed) result self.old.slips self.new.slips }
    {
        self.link.recv_piece(count)
    }
}
