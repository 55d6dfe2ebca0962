//! The commands that wait for nobody: `rehearse`, `plan` and `log`.
//!
//! `tool` runs the command that the words are, over any source, depot and sink, and ends with a status.
//! On its contract the promises of these commands stand: what a run that is done leaves and prints, and
//! of each other status its cause. A command is a function that answers its lines or why it failed;
//! `tool` adds the last line, and puts all lines to the sink in one call.
#![tactic(auto)]

mod ending;
mod fail;
#[cfg(test)]
mod fixtures;
mod listing;
mod log;
mod log_lines;
mod plan;
mod plan_lines;
mod rehearsal;
mod report;
mod status;
mod stored;
#[cfg(test)]
mod tests;
mod top_call;

pub use ending::{end_failed, end_with};
pub use fail::CommandFail;
pub use listing::listed;
pub use report::last_line;
pub use status::{Status, Tooled};
pub use stored::stored_have;
pub use top_call::tool;
