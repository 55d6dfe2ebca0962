//! Why a source gave nothing.
ghost use Rattle.std.specs.Prelude.{◌≡◌};
ghost use Rattle.wdt_source.specs.declared.failure.SourceFail.TheVariants.{NoMemory as OutOfMemory};

use std::alloc::{AllocError, AllocFailed};
use thiserror::Error;
use wdt_units::NoMemory;

/// Why a source gave nothing.
#[derive(Clone, Copy, Debug, PartialEq, Eq, Error)]
pub enum SourceFail {
    /// The call failed, and the source has counted a fault.
    #[error("the source failed")]
    Failed,
    #[error("out of memory")]
    NoMemory,
}

impl From<AllocError> for SourceFail {
    ghost from_gives = { λ _ e. e ≡ OutOfMemory };

    fn from(_: AllocError) -> SourceFail {
        SourceFail::NoMemory
    }
}

impl<T: Drop> From<AllocFailed<T>> for SourceFail {
    ghost from_gives = { λ _ e. e ≡ OutOfMemory };

    fn from(_: AllocFailed<T>) -> SourceFail {
        SourceFail::NoMemory
    }
}

impl From<NoMemory> for SourceFail {
    ghost from_gives = { λ _ e. e ≡ OutOfMemory };

    fn from(_: NoMemory) -> SourceFail {
        SourceFail::NoMemory
    }
}
