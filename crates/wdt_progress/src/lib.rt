//! How a transfer goes on, for a person who waits for it: one line, drawn anew at most five times a second.
//!
//! `Progress` counts what has come and draws the line on standard error. `Watched` is a depot that counts
//! what is written into the depot behind it, `WatchedSource` a source that counts what is read of the source
//! behind it, and `Cleared` a sink that clears the line before it puts anything. To contracts they are what
//! is behind them: a transfer that is watched is the same transfer.
#![tactic(auto)]

mod cleared;
mod line;
mod progress;
#[cfg(test)]
mod tests;
mod watched;
mod watched_source;

pub use cleared::Cleared;
pub use line::{Come, Deed, Line};
pub use progress::Progress;
pub use watched::Watched;
pub use watched_source::WatchedSource;
