//! What each lane of a sender has claimed, and where each block stands.
//!
//! A `History` has a list of blocks for each lane, in the order in which the lane claimed them. A
//! checkpoint tells how many of them have landed: the local one when the lane connects again, the
//! global one over another lane, for a lane that the receiver has closed. The blocks behind that
//! count go back to the queue, and the others stay.
//!
//! No block stands in two lists, nor twice in one. So a block has one place: it is queued, held by
//! the lane that writes it, written but unconfirmed, or confirmed.
#![tactic(auto)]

mod history;
mod lane;
mod laws;

pub use history::History;
pub use laws::{a_listed_block_has_the_place_of_its_index, a_queued_block_is_in_no_list};
pub use wdt_claims::{CheckFail, Place};

#[cfg(test)]
mod tests;
