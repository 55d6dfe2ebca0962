//! What the two ends of a copy did, in lines.
//!
//! `copy_lines` counts what the histories of both ends tell, session by session, and writes the seven
//! lines of a report; `send_lines` and `recv_lines` write those of one end alone. What is counted are definitions on the histories (`specs/Sent.antt`,
//! `specs/Received.antt`); the text is `specs/Lines.antt`. The counting goes over each history once, and
//! keeps a few numbers for each lane.
#![tactic(auto)]

mod kept;
mod lanes;
mod lines;
mod one_end;
mod received;
mod sent;
#[cfg(test)]
mod tests;

pub use lines::{Lines, copy_lines};
pub use one_end::{recv_lines, send_lines};
