//! The transfer log over a depot.
//!
//! A log is opened once, and then batches are appended to it. An append writes the batch behind the
//! closed gate, syncs it, opens the gate by a write of one byte, and syncs that. So at each moment,
//! inside each write too, a crash leaves a log that means what was logged before, with the batch or
//! without it.
//!
//! `Log::open` makes a log where none is there: beside its place, and put there once it is on the
//! disk. After a failure of the depot a log is shut, and makes no call any more.
//!
//! `flush` appends a batch on other files, which are synced first: a batch may count only once a crash
//! leaves of its files what is read. It knows paths, entries and the log alone, and not which blocks they
//! are of or who wrote them.
#![tactic(auto)]

mod extending;
mod fail;
mod flushing;
mod log;
mod opening;
mod syncing;
#[cfg(test)]
mod tests;
mod writing;

pub use fail::LogFail;
pub use flushing::flush;
pub use log::Log;
pub use syncing::sync_all;
