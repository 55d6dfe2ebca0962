//! A sender's end: the state that its lanes share.
//!
//! A lane hands its input to `Yard::step`, and gets the act that it performs next. What a step is, is a
//! definition of `wdt_sender_fsm`: a plain sender, a lane and an input have one act and one plain sender
//! behind them. The yard is seen as that plain sender, and each step is the definition's.
//!
//! The definition reads everything off the history. The yard keeps beside it what a step asks for: each
//! lane's claims and tally, the blocks that wait in their order, whether the finish has come. That these
//! are what the history says is the journal's invariant, so no step looks at the history, nor at all
//! blocks. A step makes all its room before its first change; where memory runs out the input comes back
//! and nothing has changed.
#![tactic(auto)]

mod answers;
mod end;
mod faults;
mod journal;
mod machine;
mod notes;
mod noting;
mod planning;
mod rows;
mod tally;
mod turning;
mod yard;

pub use yard::Yard;
