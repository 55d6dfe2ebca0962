//! Why a trial ends before its time.
use std::alloc::{AllocError, AllocFailed};
use thiserror::Error;
use wdt_units::NoMemory;

/// In what the two receivers differ.
#[derive(Clone, Copy, Debug, PartialEq, Eq)]
pub enum Part {
    /// Whether the end begins.
    Opening,
    /// What the lane is to do next.
    Act,
    /// What the lane writes.
    Frame,
    /// Where a lane stands.
    State,
    /// What a lane takes of its block.
    Wanted,
    /// How the end fares.
    Answer,
    /// What happened.
    History,
    /// What a flush answers.
    Flush,
    /// Whether the machine went down.
    Stop,
    /// What the log says.
    Log,
    /// What a file reads.
    Bytes,
}

/// Why a trial ends before its time.
#[derive(Clone, Copy, Debug, PartialEq, Eq, Error)]
pub enum Halt {
    /// Memory ran out, which says nothing of the receivers.
    #[error("out of memory")]
    NoMemory,
    /// The receivers differ.
    #[error("the receivers differ in {0:?}")]
    Differs(Part),
}

impl From<NoMemory> for Halt {
    fn from(_: NoMemory) -> Halt {
        Halt::NoMemory
    }
}

impl From<AllocError> for Halt {
    fn from(_: AllocError) -> Halt {
        Halt::NoMemory
    }
}

impl<T: Drop> From<AllocFailed<T>> for Halt {
    fn from(_: AllocFailed<T>) -> Halt {
        Halt::NoMemory
    }
}

/// A trial goes on where this holds, and else ends by a difference.
pub fn agree(holds: bool, part: Part) -> Result<(), Halt> {
    if holds {
        Ok(())
    } else {
        Err(Halt::Differs(part))
    }
}
