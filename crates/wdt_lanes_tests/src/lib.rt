//! What no clause of running lanes says: that they come to their end, and how worked transfers fare.
#![tactic(auto)]

#[cfg(test)]
mod tests;
