//! What the lanes of a sender have claimed: the words that its history, its table and its shared
//! state have in common.
//!
//! The definitions stand in `specs/`. `LaneWords` says what a lane has claimed and what each step
//! makes of it, `Claimed` what all lanes have claimed together, `Places` where a block stands (a
//! `Place`), `Checks` which checkpoint can't be right (a `CheckFail`), and `Blocks` how blocks are
//! ordered and counted. What others need of their laws is in `proofs/Shared.antt`.
#![tactic(auto)]

mod check;
mod laws;
mod place;

pub use check::CheckFail;
pub use laws::rising_blocks_are_one_list;
pub use place::Place;
