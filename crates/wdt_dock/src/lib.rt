//! A receiver's end, as its lanes share it.
//!
//! What a step of a lane is, is a definition of `wdt_receiver_fsm`: a plain receiver, a lane and an input
//! have one plan, which is the act and the receiver behind it, or a program of calls on the disk with what
//! stands where one of them fails; `RecvEnd` there is the part of the end that has no files. Here are the rows
//! that have some. `specs/DockGood.antt` says when an end and its disk are good for a tree, and
//! `specs/Landed.antt` which of the blocks that landed are logged.
//!
//! The rows with files are functions over a depot, a log, a writer of blocks and an end. `specs/Desk.antt`
//! says what hangs together of these: what the writer is to log is what is logged of the blocks that landed,
//! and on each lane the same block is begun. Each row says which plan's end it comes to, that the ties stand
//! behind it, and that the end and its disk stay good for the tree.
//!
//! `Dock` is all of these, over a depot of its own (`specs/Dock.antt`): it opens a log and begins an end
//! behind what the log says, makes the steps of its lanes (`src/turning.rt` says which row is done), logs what
//! landed when it is asked to, and hands its depot back.
#![tactic(auto)]

mod beginning;
mod choosing;
mod dock;
mod dropping;
mod flushing;
mod logging;
mod opening;
mod serving;
mod taking;
mod turning;
mod wanting;

pub use dock::Dock;
pub use flushing::FlushFail;
pub use opening::DockFail;
