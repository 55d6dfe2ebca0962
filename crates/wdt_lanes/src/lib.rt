//! The lanes of an end, each a thread: turns at the end's machine, and the acts that these give,
//! performed on a connection.
//!
//! `send_end` runs a sender's lanes. Each is a loop of two calls: `Hub::turn` hands in what became of the
//! last act and gives the next; `perform_send` performs it, on the connection that the lane holds, and
//! answers what became of it. Every way out of the loop hangs up and retires the dialer, and a flag that
//! a lane sets comes with a count that rose.
//!
//! What a lane is to write, and what it read, is said of the run: `SaidSend` and `SaidIn` by their types,
//! and `KeptYard` by an invariant of the machine, so it holds whenever the lock is free.
//!
//! What serves the lanes of both ends is public, too: `run_all` runs a `Job` in a thread for each seat,
//! and `with_flag` makes a set of lanes of flags.
#![tactic(auto)]

mod acts_on_link;
mod all_lanes;
mod block;
mod job;
mod kept_yard;
mod lane;
mod lane_sets;
mod performing;
mod said_acts;
mod seats;

pub use all_lanes::{SendEnd, send_end};
pub use job::{Job, run_all};
pub use kept_yard::{Begin, KeptYard};
pub use lane_sets::with_flag;
pub use performing::perform_send;
pub use said_acts::{SaidIn, SaidSend};
