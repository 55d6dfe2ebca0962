//! Machines that the threads of an end share.
//!
//! `Hub` is the trait of everything behind which one `Machine` serves many lanes: each lane has a
//! pass, takes its turns by it, and waits by it until something has happened. Once all passes are
//! back, the hub gives the machine. `MutexHub` does it by a lock.
//!
//! A hub may tell what its passes know: the entries that their turns added, and the history that they
//! have seen. A lock tells nothing of what lies under it, so the passes of `MutexHub` tell no
//! history. What is known there is that each answer is the machine's, at some moment of a legal
//! history, and how many turns the passes made.
//!
//! Nothing is promised of when a lane gets its turn, nor that a lane which waits goes on.
#![tactic(auto)]

mod desk;
mod hub;
mod mutex;
mod pass;
#[cfg(test)]
mod tests;

pub use hub::{Hub, Unclosed};
pub use mutex::MutexHub;
pub use pass::MutexPass;
