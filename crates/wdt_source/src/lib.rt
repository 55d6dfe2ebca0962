//! Where files come from.
//!
//! `Source` is the trait of everything that lists files and gives their bytes; `MemSource` is one in
//! memory, which tells what it holds. A real folder tells nothing and is the trusted edge.
//!
//! A source counts its faults, and one that tells its tree also counts slips: reads for bytes that
//! the tree doesn't have. So no caller can make a source's faults itself.
#![tactic(auto)]

mod failure;
mod laws;
mod memory;
mod source;
mod tally;
#[cfg(test)]
mod tests;

pub use failure::SourceFail;
pub use laws::files_in_any_order_are_one_tree;
pub use memory::MemSource;
pub use source::Source;
