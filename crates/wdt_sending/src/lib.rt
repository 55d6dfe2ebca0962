//! A send over connections, and what it has in common with a copy and a receiver.
//!
//! `send_tree` lists a tree, opens a sender's end behind a hub, runs its lanes, each over a source and a
//! dialer of its own, and puts the report of its history. `list_first`, `open_sender`, `run_sender` and
//! `put_report` are the parts of this, for a copy that runs both ends side by side.
//!
//! `status_of` is what an end's answer comes to by what its lanes met, and `first_of` which of two ends'
//! statuses is told. Why a transfer ends as it does is `specs/Causes.antt`, what it leaves
//! `specs/Leaves.antt`, and what it prints `specs/Printed.antt`. Nothing here knows of a depot.
#![tactic(auto)]

mod carried;
mod judging;
mod listing;
mod opening;
mod reporting;
mod send_run;
mod sender_side;
mod sending;

pub use carried::{Carried, Parts};
pub use judging::{first_of, status_of};
pub use listing::{list_first, unrun};
pub use opening::{Sending, open_sender};
pub use reporting::{Report, put_report};
pub use send_run::send_tree;
pub use sender_side::{SenderSide, Sent, run_sender};
