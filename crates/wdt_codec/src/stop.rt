//! Why a field can't be read.

/// Why there is no value yet.
#[derive(Clone, Copy, Debug, PartialEq, Eq)]
pub enum Stop {
    /// The bytes are a proper front of a spelling.
    NotYet,
    /// No spelling begins so; this many bytes stand from the bad one on.
    Bad(usize),
}
