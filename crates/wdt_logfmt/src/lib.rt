//! The bytes of the transfer log, and what they mean.
//!
//! A log is a header with a gate byte, and then batches of entries, each ending with the gate byte of
//! the next. A batch counts exactly where the gate byte before it is 1; any other gate byte ends the
//! log, and what stands behind it is never read. So a batch is written behind a closed gate, and
//! counts from the moment on in which that one byte is written.
//!
//! `read_log` gives the files that a log names with what is covered of each, or names the first byte
//! of the first part that has no reading. `write_batch` appends a batch with a closed gate behind it.
//! `specs/Meaning.antt` defines what the bytes mean, and `specs/Adding.antt` what an entry adds.
#![tactic(auto)]

mod entries;
mod entry;
mod fails;
mod files;
mod laws;
mod reading;
mod view;
mod writing;

pub use entry::LogEntry;
pub use fails::ReadLogFail;
pub use laws::{
    a_batch_may_come_in_parts, a_closed_gate_ends_a_log, a_new_file_gets_a_free_number,
    a_number_is_that_of_a_known_file, a_span_more_is_at_most_one_more,
    a_written_batch_is_read_again, an_entry_touches_its_file, blocks_are_logged_one_by_one,
    marks_follow_entries, what_has_room_can_land,
};
pub use reading::read_log;
pub use view::{LogFile, LogView};
pub use writing::write_batch;

#[cfg(test)]
mod tests;
