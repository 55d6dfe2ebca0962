//! A copy of a source's tree over one lane.
//!
//! `rehearse` checks a listing, asks a receiving half what it has, plans the blocks, and sends them.
//! Each half spells its messages onto a list of bytes, and is given the bytes of the other half's list
//! and nothing else: what landed comes from the bytes that went down, and the plan from those that came
//! up. There is one lane, one connection and one session, and no log is read or written.
#![tactic(auto)]

mod fail;
mod reading;
mod receiver;
mod rehearsal;
mod replies;
mod report;
mod session;
mod storing;
#[cfg(test)]
mod tests;

pub use fail::RehearseFail;
pub use rehearsal::{Rehearsed, rehearse};
pub use report::Report;
