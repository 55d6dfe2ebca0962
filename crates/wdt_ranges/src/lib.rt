//! Sets of positions of a file, and what a destination has of a tree.
//!
//! A `Ranges` is a set of positions, kept as spans that rise and neither overlap nor touch. They
//! stand in chunks, so that a span is added anywhere in about the same time, however many there are.
//! A `Have` is a list of named files with what is covered of each.
#![tactic(auto)]

mod chunk;
mod chunks;
mod have;
mod iter;
mod joining;
mod ranges;
#[cfg(test)]
mod tests;

pub use have::{FileHave, Have};
pub use iter::Spans;
pub use ranges::{AddFail, Ranges, Span};
