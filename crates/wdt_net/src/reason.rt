//! Why a call failed, in words for a person.
use std::fmt;
use std::io::{self, ErrorKind};
use std::net::SocketAddr;

/// What was being done, with whom where that is known, and the system's reason.
#[derive(Clone, Copy, Debug)]
pub(crate) struct Reason {
    doing: &'static str,
    peer: Option<SocketAddr>,
    error: io::Error,
}

impl Reason {
    /// The reason of a call that concerns the host and the port of its end.
    pub(crate) fn of(doing: &'static str, error: io::Error) -> Reason {
        Reason {
            doing,
            peer: None,
            error,
        }
    }

    /// The reason of a call on a connection.
    pub(crate) fn with(doing: &'static str, peer: SocketAddr, error: io::Error) -> Reason {
        Reason {
            doing,
            peer: Some(peer),
            error,
        }
    }

    /// Whether nobody is there yet: the same call may be well in a moment. Not so where the name has no
    /// address, or an address didn't answer in its time.
    pub(crate) fn may_pass(&self) -> bool {
        matches!(
            self.error.kind(),
            ErrorKind::ConnectionRefused
                | ErrorKind::ConnectionReset
                | ErrorKind::ConnectionAborted
                | ErrorKind::HostUnreachable
                | ErrorKind::NetworkUnreachable
        )
    }
}

/// What went wrong last at a dialer or an acceptor, or on a link that it took back: what was being done,
/// with which address, and the system's reason, on one line.
#[derive(Clone, Copy, Debug)]
pub struct NetFault<'a> {
    host: &'a str,
    port: u16,
    reason: Reason,
}

impl<'a> NetFault<'a> {
    /// The fault of an end of a host and a port.
    pub(crate) fn of(host: &'a str, port: u16, reason: Reason) -> NetFault<'a> {
        NetFault { host, port, reason }
    }
}

impl fmt::Display for NetFault<'_> {
    fn fmt<W: fmt::Write>(&self, f: &mut fmt::Formatter<W>) -> fmt::Result {
        let Reason { doing, peer, error } = self.reason;
        match peer {
            Some(peer) => write!(f, "{doing} {peer}: {error}"),
            None => {
                let host = self.host.escape_debug();
                let port = self.port;
                write!(f, "{doing} {host} port {port}: {error}")
            }
        }
    }
}
