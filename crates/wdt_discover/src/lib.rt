//! What a sender has to send: the blocks that a destination still lacks of a tree.
//!
//! `plan` refuses a have that doesn't fit the tree and a tree with too many blocks; otherwise its
//! list is exactly the rest. `specs/Plan` says when there is no plan and why.
#![tactic(auto)]

mod fail;
mod laws;
mod pieces;
mod planning;
mod rest;
mod stale;
#[cfg(test)]
mod tests;

pub use fail::PlanFail;
pub use laws::the_least_is_refused;
pub use planning::plan;
