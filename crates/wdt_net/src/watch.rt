//! Having the system ask a silent host whether it is still there.
use libc::net as c;
use std::net::TcpStream;
use std::os::fd::AsRawFd;

// Seconds of silence before the system asks.
const SILENT: i32 = 60;

// Seconds between two questions.
const BETWEEN: i32 = 10;

// So many questions without an answer end the connection: 110 seconds of silence in all.
const QUESTIONS: i32 = 5;

/// Has the system end the connection where the other host doesn't answer it any more. Where it refuses
/// one of the settings it keeps its own.
pub(crate) fn watch(stream: &TcpStream) {
    let fd = stream.as_raw_fd();
    let (socket, tcp) = (c::SOL_SOCKET, c::IPPROTO_TCP);
    unsafe {
        let _ = c::setsockopt(fd, tcp, c::TCP_KEEPIDLE, &option(SILENT), 4);
        let _ = c::setsockopt(fd, tcp, c::TCP_KEEPINTVL, &option(BETWEEN), 4);
        let _ = c::setsockopt(fd, tcp, c::TCP_KEEPCNT, &option(QUESTIONS), 4);
        let _ = c::setsockopt(fd, socket, c::SO_KEEPALIVE, &option(1), 4);
    }
}

// An option of four bytes.
fn option(number: i32) -> [u8; 16] {
    let mut value = [0; 16];
    value[..4].copy_from_slice(&number.to_ne_bytes());
    value
}
