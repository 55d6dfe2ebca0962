//! What no clause of running lanes of a receiver says: that they come to their end, and how worked transfers
//! fare.
#![tactic(auto)]

#[cfg(test)]
mod tests;
