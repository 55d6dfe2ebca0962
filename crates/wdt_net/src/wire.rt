//! A socket as a wire.
ghost use Rattle.std.specs.Prelude.{◌≡◌, None};
ghost use Rattle.std.specs.Io.{ReadsAtMost};
ghost use Rattle.wdt_units.specs.Counts.{Rises};

use crate::reason::Reason;
use std::io::{self, Error, ErrorKind, Read, Write};
use std::net::{SocketAddr, TcpStream};
use wdt_link::ByteWire;
use wdt_units::Failed;

/// A connected socket. It keeps the reason of its last failure, and that the other end closed it.
#[derive(Drop)]
pub(crate) struct TcpWire {
    stream: TcpStream,
    peer: SocketAddr,
    faults: u64,
    reason: Option<Reason>,
}

impl TcpWire {
    /// Over a socket that is connected to this address.
    pub(crate) fn of(stream: TcpStream, peer: SocketAddr) -> TcpWire
        ensures { result.faults ≡ 0 }
    {
        TcpWire {
            stream,
            peer,
            faults: 0,
            reason: None,
        }
    }

    /// Why it failed last, once it is done with.
    pub(crate) fn into_reason(self) -> Option<Reason> {
        self.reason
    }

    // Counts a failure of the system's.
    fn fail(&mut self, doing: &'static str, error: Error) -> Failed
        ensures { Rises self.old.faults self.new.faults }
    {
        self.faults = self.faults.saturating_add(1);
        self.reason = Some(Reason::with(doing, self.peer, error));
        Failed
    }
}

// Reads, and again where a signal came between.
fn read_some(stream: &mut TcpStream, into: &mut [u8]) -> io::Result<usize>
    ensures { ReadsAtMost result into.new }
{
    for _ in 0..u64::MAX {
        match stream.read(into) {
            Err(error) if error.kind() == ErrorKind::Interrupted => {}
            done => return done,
        }
    }
    Err(Error::from(ErrorKind::Interrupted))
}

// The system tells a wait that was too long as one that it would begin.
fn in_words(error: Error) -> Error {
    if error.kind() == ErrorKind::WouldBlock {
        return Error::new(ErrorKind::TimedOut, "the other end was silent for too long");
    }
    error
}

impl ByteWire for TcpWire {
    ghost told = { λ _. None };

    ghost faults = { λ w. w.faults };

    fn write(&mut self, bytes: &[u8]) -> Result<(), Failed> {
        match self.stream.write_all(bytes) {
            Ok(()) => Ok(()),
            Err(error) => Err(self.fail("sending to", in_words(error))),
        }
    }

    fn read(&mut self, into: &mut [u8]) -> Result<usize, Failed> {
        match read_some(&mut self.stream, into) {
            Ok(0) => {
                let error = Error::new(ErrorKind::UnexpectedEof, "the other end hung up");
                self.reason = Some(Reason::with("receiving from", self.peer, error));
                Ok(0)
            }
            Ok(count) => Ok(count),
            Err(error) => Err(self.fail("receiving from", in_words(error))),
        }
    }

    fn faults(&self) -> u64 {
        self.faults
    }
}
