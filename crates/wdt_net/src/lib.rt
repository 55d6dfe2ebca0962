//! Links over TCP, one connection for each lane, from PORT + lane to PORT + lane.
//!
//! A sender's lane gets its links from a `TcpDial`, a receiver's from a `TcpAccept`. Both are proved
//! against their traits and tell no bytes: what a socket carries is the trusted edge. Each failure of
//! the system counts a fault, and the last one is kept for a message: what was being done, with whom,
//! and the system's reason.
//!
//! Neither end waits for ever for one that is gone. Connecting, a read and a write each have their
//! limit, in `limits.rt`. Two waits have none: for the first connection of the whole process, and
//! that of a sender's lane which was told to wait until the others are done. There the system asks
//! whether the other host is still there.
#![tactic(auto)]

mod accept;
mod dial;
mod end;
mod ends;
mod limits;
mod link;
mod listening;
mod met;
mod reason;
#[cfg(test)]
mod tests;
mod watch;
mod wire;

pub use accept::TcpAccept;
pub use dial::TcpDial;
pub use ends::{tcp_accepts, tcp_dials};
pub use link::TcpLink;
pub use met::Met;
pub use reason::NetFault;
