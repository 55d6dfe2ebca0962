//! Waiting for a connection.
use crate::limits::{LOOKS, look};
use crate::met::Met;
use crate::reason::Reason;
use std::io::{Error, ErrorKind};
use std::net::{Net, SocketAddr, TcpListener, TcpStream};
use std::sync::Wait;
use std::thread;
use std::time::Clock;

/// Listens at a place. A look for a connection doesn't wait.
pub(crate) fn listen<R: Net<Listener = TcpListener, Stream = TcpStream>>(
    rt: &R,
    place: (&str, u16),
) -> Result<TcpListener, Reason> {
    let bound = TcpListener::bind(rt, place);
    let listener = bound.map_err(|error| Reason::of("listening on", error))?;
    match listener.set_nonblocking(true) {
        Ok(()) => Ok(listener),
        Err(error) => Err(Reason::of("listening on", error)),
    }
}

/// The next connection. Until any lane of the process has had one it waits without end, and from then
/// on about 15 seconds.
pub(crate) fn next<R: Clock + Wait>(
    rt: &R,
    listener: &TcpListener,
    met: &Met,
) -> Result<(TcpStream, SocketAddr), Reason> {
    let mut looks = 0;
    for _ in rt.forever() {
        match listener.accept() {
            Ok(joined) => {
                met.note();
                return Ok(joined);
            }
            Err(error) if error.kind() == ErrorKind::WouldBlock => {}
            Err(error) => return Err(Reason::of("accepting on", error)),
        }
        if met.is_noted() {
            if looks >= LOOKS {
                break;
            }
            looks += 1;
        }
        thread::sleep(rt, look());
    }
    let error = Error::new(ErrorKind::TimedOut, "nobody connected in time");
    Err(Reason::of("accepting on", error))
}
