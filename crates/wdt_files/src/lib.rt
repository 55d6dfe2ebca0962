//! The files that a receiver knows, by number and by path, and what is there of each.
//!
//! A file is known once the log names it or a block of it begins; it is named once a block of it has
//! landed. `Files` are seen as the list of the known files by number and the list of the named ones
//! (`specs/PlainFiles.antt`), in the words in which the log speaks of them. Each call takes about the same
//! time, however many files and spans there are.
#![tactic(auto)]

mod files;
mod numbers;
mod opening;
mod slots;
#[cfg(test)]
mod tests;

pub use files::Files;
