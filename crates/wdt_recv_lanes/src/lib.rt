//! The receiving end of a transfer as lanes, each a thread: turns at the end's machine, and the acts that
//! these give, performed on a connection.
//!
//! A receiver's lane is a loop of two calls. `Hub::turn` hands in what was heard and gives the next act;
//! `perform_recv` performs it, on the connection that the lane holds, and answers what was heard. The
//! sending end, in `wdt_lanes`, has the same form.
//!
//! What a lane is to write is said of the run by its type (`SaidRecv`), and so is what came over the
//! connection, as the link gave it (`Heard`).
#![tactic(auto)]

mod acts_on_link;
mod all_lanes;
mod heard;
mod kept_dock;
mod lane;
mod performing;
mod said_recv;
mod seats;
mod turning;

pub use all_lanes::{RecvEnd, recv_end};
pub use heard::Heard;
pub use kept_dock::{KeptDock, Start};
pub use performing::perform_recv;
pub use said_recv::SaidRecv;
