//! What no clause of a receiver's end says: worked lives of its parts, and of whole ends.
//!
//! `table` has each state by each input, `peers` what a sender may not say, and `crashes` what a stop or a
//! failure leaves. `ends` has what their letters stand for.
#![tactic(auto)]

#[cfg(test)]
mod crashes;
#[cfg(test)]
mod ends;
#[cfg(test)]
mod notes;
#[cfg(test)]
mod peers;
#[cfg(test)]
mod table;
