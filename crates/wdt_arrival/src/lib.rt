//! What stands at the destination once a receiver has finished.
//!
//! A receiver finishes where as many files are named and as many bytes are there as the sender told. This
//! crate has the law that follows: where those totals are a tree's and each image of the disk is good for
//! that tree, each file of the tree stands with its bytes, as it is read and in whatever a crash leaves. It
//! has definitions and laws alone (`specs/Arrival.antt`, `src/laws.rt`).
#![tactic(auto)]

mod laws;

pub use laws::{a_finish_is_whole, a_finished_tree_has_arrived};
