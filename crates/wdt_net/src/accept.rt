//! Acceptors over TCP.
ghost use Rattle.std.specs.Prelude.{◌≡◌, ◌<◌, None, IfOk, IfErr};
ghost use Rattle.wdt_link.specs.Calls.{HasFault};
ghost use Rattle.wdt_net.specs.Ends.{called, new_end, taking_back, unused};

use crate::end::End;
use crate::link::TcpLink;
use crate::listening::{listen, next};
use crate::met::Met;
use crate::reason::{NetFault, Reason};
use std::alloc::Global;
use std::marker::{Model, PhantomData};
use std::net::{Net, TcpListener, TcpStream};
use std::sync::Wait;
use std::time::Clock;
use wdt_link::{Accept, LinkFail};
use wdt_tree::{Run, Untold};

/// Takes the connections that come to a port of a host, which it listens on from its first call on.
/// A call waits without end until any lane of the process has had a connection. From then on one that
/// nobody joins within about 15 seconds fails.
#[derive(Drop)]
pub struct TcpAccept<
    R: Net<Listener = TcpListener, Stream = TcpStream> + Clock + Wait + Drop,
    N: Run = Untold,
> {
    rt: R,
    alloc: Global,
    end: End,
    met: Met,
    // None before the first call, and once the lane makes no further call.
    listener: Option<TcpListener>,
    of: PhantomData<N>,
}

impl<R: Net<Listener = TcpListener, Stream = TcpStream> + Clock + Wait + Drop, N: Run> Model
    for TcpAccept<R, N> {
    ghost use Rattle.std.specs.Prelude.{◌≡◌, None};
    ghost use Rattle.wdt_net.specs.Ends.{EndView};

    ghost Value = { EndView };

    ghost view = { λ s. s.end };

    ghost invariant = { λ s. N.told ≡ None };
}

impl<R: Net<Listener = TcpListener, Stream = TcpStream> + Clock + Wait + Drop, N: Run> TcpAccept<
    R,
    N,
> {
    /// An acceptor of which no call was made. `host` is a name or an address of this machine.
    pub fn at(rt: R, alloc: Global, host: String, port: u16, met: Met) -> TcpAccept<R, N>
        requires { N.told ≡ None }
        ensures { result ≡ new_end port }
    {
        TcpAccept {
            rt,
            alloc,
            end: End::of(host, port),
            met,
            listener: None,
            of: PhantomData,
        }
    }

    /// Why a call failed last, on it or on a link that it took back.
    pub fn fault(&self) -> Option<NetFault<'_>> {
        self.end.fault()
    }

    // The next connection.
    fn join(&mut self) -> Result<TcpLink<N>, Reason>
        ensures unused { IfOk result (λ link. link ≡ unused) }
        ensures end { self.new ≡ self.old }
    {
        let listener = match self.listener.take() {
            Some(listener) => listener,
            None => listen(&self.rt, self.end.place())?,
        };
        let joined = next(&self.rt, &listener, &self.met);
        self.listener = Some(listener);
        let (stream, peer) = joined?;
        match TcpLink::of(self.alloc, stream, peer) {
            Ok(link) => Ok(link),
            Err(error) => Err(Reason::with("accepting", peer, error)),
        }
    }
}

impl<R: Net<Listener = TcpListener, Stream = TcpStream> + Clock + Wait + Drop, N: Run> Accept<N>
    for TcpAccept<R, N> {
    ghost use Rattle.std.specs.Prelude.{None};

    type L = TcpLink<N>;

    ghost faults = { λ s. s.faults };

    ghost alarms = { λ s. s.alarms };

    ghost slips = { λ s. s.slips };

    ghost mark = { λ s. 0 };

    ghost out = { λ s. s.out };

    ghost talk = { λ s. None };

    fn accept(&mut self) -> Result<TcpLink<N>, LinkFail>
        requires { self.old.out ≡ 0 }
        ensures fresh { IfOk result (λ link. link ≡ unused) }
        ensures called { self.new ≡ called result self.old }
        ensures fail { IfErr result (λ e. e ≡ LinkFail.Failed) }
        ensures cause { HasFault LinkFail.Failed result self.old.faults self.new.faults }
    {
        match self.join() {
            Ok(link) => {
                self.end.give();
                Ok(link)
            }
            Err(reason) => Err(self.end.fail(reason)),
        }
    }

    fn hang_up(&mut self, link: TcpLink<N>)
        requires { 0 < self.old.out }
        ensures { self.new ≡ taking_back link self.old }
    {
        self.end.take_back(link);
    }

    fn retire(&mut self)
        ensures { self.new ≡ self.old }
    {
        self.listener = None;
    }
}
