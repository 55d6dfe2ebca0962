//! The blocks that wait to be sent.
//!
//! A `Queue` gives the least block first: by file, then by offset, then by length. It is seen as the
//! list of its blocks in that order, beside the number of blocks for which it has room left. A block
//! that was taken may be put back, since a connection was lost before it landed, and goes to its
//! place in the order.
//!
//! The room is made once. Neither taking a block nor putting one back takes memory.
#![tactic(auto)]

mod queue;

pub use queue::Queue;

#[cfg(test)]
mod tests;
