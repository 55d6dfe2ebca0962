//! Links: what carries frames, and the pieces of blocks, between the two ends of a lane.
//!
//! A `Link` is one connection. What it carries is `Said`: a frame or a piece whose type says that it is
//! of the run's tree. A lane gets its links from a `Dial` or an `Accept`, one at a time, and hands each
//! back with its counts. Content is optional, as everywhere: a link may tell what was received and sent,
//! and every clause on bytes is said where it does.
//!
//! `ByteLink` is a link over a `ByteWire`, anything that carries bytes both ways, as a socket. Nothing
//! is known of what comes over one, so its run tells nothing. `MemWire` is a wire in memory, and
//! `MemDial` and `MemAccept` give links over a list of them.
#![tactic(auto)]

mod byte_link;
mod dialing;
mod fails;
mod link;
mod mem_dial;
mod mem_lines;
mod mem_wire;
mod owing;
mod said;
mod stream;
mod wire;

pub use byte_link::ByteLink;
pub use dialing::{Accept, Dial};
pub use fails::{LinkFail, RecvFail};
pub use link::Link;
pub use mem_dial::{MemAccept, MemDial};
pub use mem_wire::MemWire;
pub use owing::{alarms_behind, is_piece_slip, keep_block, next_place, path_room};
pub use said::{Said, Saying};
pub use wire::ByteWire;

#[cfg(test)]
mod tests;
