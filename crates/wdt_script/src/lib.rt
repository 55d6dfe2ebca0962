//! The script of a rehearsal: which steps are taken, and where connections and the receiver fail.
//!
//! `read_script` reads a text of lines. Each line is an event, or is passed over; a line that is
//! neither, or one too many, is named by its number. A line of an event is a word, and behind it up to
//! three numbers, with one space before each. `line_at` and `expected_at` say of a line that was named
//! what stands there and what was expected.
#![tactic(auto)]

mod event;
mod expected;
mod fail;
mod laws;
mod lines;
mod numbers;
mod reading;
mod script;
mod word;

pub use event::Event;
pub use expected::{expected_at, line_at};
pub use fail::ScriptFail;
pub use laws::{each_event_has_a_line, the_first_bad_line_is_named};
pub use script::{MAX_LINE, MAX_LINES, read_script};

#[cfg(test)]
mod tests;
