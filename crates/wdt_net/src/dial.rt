//! Dialers over TCP.
ghost use Rattle.std.specs.Prelude.{◌≡◌, ◌<◌, None, IfOk, IfErr};
ghost use Rattle.wdt_link.specs.Calls.{HasFault};
ghost use Rattle.wdt_net.specs.Ends.{called, new_end, taking_back, unused};

use crate::end::End;
use crate::limits::{MOST_ADDRESSES, PAUSES, answer};
use crate::link::TcpLink;
use crate::reason::{NetFault, Reason};
use std::alloc::Global;
use std::io::{self, ErrorKind};
use std::marker::{Model, PhantomData};
use std::net::{Net, SocketAddr, TcpListener, TcpStream, ToSocketAddrs};
use std::thread;
use std::time::{Clock, Duration};
use wdt_link::{Dial, LinkFail};
use wdt_tree::{Run, Untold};
use wdt_units::Conn;

/// Connects to a port of a host. Where nobody is there a call tries again, with growing pauses of about
/// ten seconds in all, before it fails. It fails at once where the name has no address, and where an
/// address doesn't answer in its time.
#[derive(Drop)]
pub struct TcpDial<
    R: Net<Listener = TcpListener, Stream = TcpStream> + Clock + Drop,
    N: Run = Untold,
> {
    rt: R,
    alloc: Global,
    end: End,
    of: PhantomData<N>,
}

impl<R: Net<Listener = TcpListener, Stream = TcpStream> + Clock + Drop, N: Run> Model
    for TcpDial<R, N> {
    ghost use Rattle.std.specs.Prelude.{◌≡◌, None};
    ghost use Rattle.wdt_net.specs.Ends.{EndView};

    ghost Value = { EndView };

    ghost view = { λ s. s.end };

    ghost invariant = { λ s. N.told ≡ None };
}

impl<R: Net<Listener = TcpListener, Stream = TcpStream> + Clock + Drop, N: Run> TcpDial<R, N> {
    /// A dialer of which no call was made. `host` is a name or an address.
    pub fn to(rt: R, alloc: Global, host: String, port: u16) -> TcpDial<R, N>
        requires { N.told ≡ None }
        ensures { result ≡ new_end port }
    {
        TcpDial {
            rt,
            alloc,
            end: End::of(host, port),
            of: PhantomData,
        }
    }

    /// Why a call failed last, on it or on a link that it took back.
    pub fn fault(&self) -> Option<NetFault<'_>> {
        self.end.fault()
    }

    // A connection to an address.
    fn reach(&self, peer: SocketAddr) -> io::Result<TcpLink<N>>
        ensures { IfOk result (λ link. link ≡ unused) }
    {
        let stream = TcpStream::connect_timeout(&self.rt, &peer, answer())?;
        // Where nobody listens on a port of this machine, a socket may be given that very port for its
        // own end, and is then connected to itself.
        if stream.local_addr()? == peer {
            return Err(io::Error::from(ErrorKind::ConnectionRefused));
        }
        TcpLink::of(self.alloc, stream, peer)
    }

    // One try with each address of the host.
    fn try_once(&self) -> Result<TcpLink<N>, Reason>
        ensures { IfOk result (λ link. link ≡ unused) }
    {
        let peers = match self.end.place().to_socket_addrs(&self.rt) {
            Ok(peers) => peers,
            Err(error) => return Err(Reason::of("looking up", error)),
        };
        let mut last = io::Error::new(ErrorKind::NotFound, "it has no address");
        for peer in peers.take(MOST_ADDRESSES) {
            match self.reach(peer) {
                Ok(link) => return Ok(link),
                Err(error) => last = graver(last, error),
            }
        }
        Err(Reason::of("connecting to", last))
    }

    // Tries, and again after each pause where nobody is there yet.
    fn connect(&self) -> Result<TcpLink<N>, Reason>
        ensures { IfOk result (λ link. link ≡ unused) }
    {
        for pause in PAUSES {
            match self.try_once() {
                Err(reason) if reason.may_pass() => {
                    thread::sleep(&self.rt, Duration::from_millis(pause));
                }
                done => return done,
            }
        }
        self.try_once()
    }
}

// The later error, unless the earlier one is that an address didn't answer in its time: further tries
// would take too long.
fn graver(last: io::Error, error: io::Error) -> io::Error {
    if last.kind() == ErrorKind::TimedOut {
        return last;
    }
    error
}

impl<R: Net<Listener = TcpListener, Stream = TcpStream> + Clock + Drop, N: Run> Dial<N>
    for TcpDial<R, N> {
    ghost use Rattle.std.specs.Prelude.{None};

    type L = TcpLink<N>;

    ghost faults = { λ s. s.faults };

    ghost alarms = { λ s. s.alarms };

    ghost slips = { λ s. s.slips };

    ghost mark = { λ s. 0 };

    ghost out = { λ s. s.out };

    ghost talk = { λ s. None };

    fn dial(&mut self, _conn: Conn) -> Result<TcpLink<N>, LinkFail>
        requires { self.old.out ≡ 0 }
        ensures fresh { IfOk result (λ link. link ≡ unused) }
        ensures called { self.new ≡ called result self.old }
        ensures fail { IfErr result (λ e. e ≡ LinkFail.Failed) }
        ensures cause { HasFault LinkFail.Failed result self.old.faults self.new.faults }
    {
        match self.connect() {
            Ok(link) => {
                self.end.give();
                Ok(link)
            }
            Err(reason) => Err(self.end.fail(reason)),
        }
    }

    fn hang_up(&mut self, link: TcpLink<N>)
        requires { 0 < self.old.out }
        ensures { self.new ≡ taking_back link self.old }
    {
        self.end.take_back(link);
    }

    fn retire(&mut self)
        ensures { self.new ≡ self.old }
    {}
}
