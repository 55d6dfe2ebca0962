//! Why a script wasn't read.
use thiserror::Error;

/// Why a script wasn't read.
#[derive(Clone, Copy, Debug, PartialEq, Eq, Error)]
pub enum ScriptFail {
    /// This line, counted from 1, is the first that has no reading.
    #[error("bad script line {line}")]
    BadScript { line: u32 },
    #[error("out of memory")]
    NoMemory,
}
