//! When a receiver may finish.
//!
//! A lane is idle once its sender said that it has nothing more to send. A lane that was given up is
//! closed, and the sender has to learn of it, since it sends the blocks of that lane again over
//! another: an idle lane tells of it, and isn't idle until the sender says again that it has nothing
//! more to send. By then the closed lane is confirmed. The finish is ready exactly where every lane is
//! idle or closed, at least one is idle, and every closed lane is confirmed.
//!
//! A `Funnel` keeps this for up to 16 lanes. It takes no memory, and each call does constant work.
#![tactic(auto)]

mod funnel;
mod laws;

pub use funnel::Funnel;
pub use laws::{a_barrier_goes_on, a_barrier_says_what_happened, what_is_confirmed_stays};

#[cfg(test)]
mod tests;
