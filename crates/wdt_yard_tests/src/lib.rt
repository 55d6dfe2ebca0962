//! What no clause of a sender's end says: worked steps of whole ends.
//!
//! `tests` has the table of all states by all inputs, on an end that is sound and on one that has failed,
//! and `testing` what its letters stand for.
#![tactic(auto)]

#[cfg(test)]
mod testing;
#[cfg(test)]
mod tests;
