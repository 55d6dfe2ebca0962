//! What is still to be sent of a tree, as a list that can be computed.
//!
//! `specs/RestOf` writes the list down file for file and gap for gap. The first law of this crate is that
//! this list meets the condition on positions by which `wdt_tree` says what the rest is. The others say
//! that this list and what the destination has are together the tree, in files and in bytes
//! (`specs/Together`). Which files of a destination are the tree's stands in `specs/Fitting`, and why a
//! tree isn't sent to one in `specs/Refusal`, for the plan and for the sender's step.
#![tactic(auto)]

mod laws;

pub use laws::{
    landed_blocks_make_the_tree, nothing_left_is_all, rest_and_have_are_the_tree,
    the_rest_as_a_list,
};
