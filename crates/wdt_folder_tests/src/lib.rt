//! What real folders do, which no clause says.
//!
//! The tests run over the system's files, through a runtime that notes each call, fails those that a
//! test names and puts another file in place of one that was looked at (`Watched`). So they see the
//! order of the calls, and that a stop lets none pass. Each test is a table of steps with what each
//! step answers and calls. Threads sync the system's own files alone (`thread_tests`).
#![tactic(auto)]

#[cfg(test)]
mod depot_tests;
#[cfg(test)]
mod script;
#[cfg(test)]
mod source_tests;
#[cfg(test)]
mod thread_tests;
#[cfg(test)]
mod watched;
