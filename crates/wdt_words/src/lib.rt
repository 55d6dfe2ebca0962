//! The words that a process is started with: which command or transfer they are, and what they name.
//!
//! `read_words` and `read_transfer` read them by hand: a command's name, the folders and the host with its
//! port that it takes, and its options. An option is a name with its value as the next
//! word; options stand in any order behind the names, and each at most once. Words that are no form of it
//! are answered with the first that is wrong and what was expected there.
#![tactic(auto)]

mod command;
mod forms;
mod misread;
mod named;
mod names;
mod numbers;
mod options;
mod remote;
#[cfg(test)]
mod tests;

pub use command::{Command, Transfer};
pub use forms::{command_of, read_transfer, read_words, transfer_of};
pub use misread::{Expected, Misread};
pub use named::{Named, folders_of};
pub use options::Options;
pub use remote::MAX_PORT;
