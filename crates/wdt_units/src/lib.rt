//! The words that every crate of wdt shares.
//!
//! Paths (`Name`), the numbers of lanes, connections and blocks, the limits of a transfer, the two
//! narrow traits by which text comes in (`Input`) and goes out (`Sink`), and the trait of state that
//! lanes share (`Machine`).
//!
//! Each object from outside counts its faults by a number that never falls. Code that is generic
//! over such a trait can't raise it, so "this failure only where the count rose" refuses a body that
//! gives up by itself. Content is optional: an object in memory tells what it holds, a real file or
//! stream tells nothing, and a clause on content speaks only where it is told.
#![tactic(auto)]

mod blocks;
mod decimal;
mod failures;
mod inputs;
mod lanes;
mod limits;
mod machine;
mod numbers;
mod path;
mod scan;
mod sinks;

pub use blocks::{Block, Header};
pub use decimal::number_of;
pub use failures::{Failed, NoMemory};
pub use inputs::{FromRead, Input, MemInput};
pub use lanes::Lanes;
pub use limits::{
    DEFAULT_BATCH, DEFAULT_BLOCK, MAX_BATCH, MAX_BLOCK, MAX_BLOCKS, MAX_CONNECTIONS, MAX_FILE_SIZE,
    MAX_FILES, MAX_LANES, MAX_MARKS, MAX_PATH, MAX_SPANS, MAX_SPOTS, MAX_TOTAL, MAX_TRIES,
    MAX_WRITE_END, PIECE,
};
pub use machine::Machine;
pub use numbers::{Conn, Lane, LaneSet, Spot};
pub use path::{LOG_PATH, NEW_LOG_PATH, Name, NameFail, is_reserved};
pub use scan::{PathScan, scan_on};
pub use sinks::{MemSink, Sink, ToWrite};

#[cfg(test)]
mod tests;
