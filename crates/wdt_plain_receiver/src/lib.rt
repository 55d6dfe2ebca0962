//! A slow, plain receiver, beside which the real one is tried.
//!
//! `Plain` keeps the whole history as a list, and answers each question by reading it again: `past` has the
//! questions. `rows` has its steps in the order of the table, `reading` and `choosing` those behind a frame and
//! of an idle lane. `Disk` is what its files read, with the calls that fail by their number. It shares the
//! names of states, inputs and events with the real receiver, and nothing else. It has three lanes, knows the
//! files of one small tree alone (`tree`), and no limit on how much a transfer has, which none of its transfers
//! reaches.
#![tactic(auto)]

mod choosing;
mod disk;
mod lanes;
mod numbers;
pub mod past;
mod plain;
mod reading;
mod rows;
pub mod tree;

pub use disk::Disk;
pub use lanes::LANES;
pub use numbers::Numbers;
pub use plain::{Answer, Plain, PlainLog};
pub use rows::{PlainAct, is_in};
