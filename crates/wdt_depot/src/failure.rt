//! Why a depot did nothing, or not all.
ghost use Rattle.std.specs.Prelude.{◌≡◌};
ghost use Rattle.wdt_depot.specs.declared.failure.DepotFail.TheVariants.{NoMemory as OutOfMemory};

use std::alloc::{AllocError, AllocFailed};
use thiserror::Error;
use wdt_units::NoMemory;

/// Why a call of a depot did nothing, or not all.
#[derive(Clone, Copy, Debug, PartialEq, Eq, Error)]
pub enum DepotFail {
    /// The call failed, and the depot has counted a fault.
    #[error("the depot failed")]
    Failed,
    /// Nothing has changed.
    #[error("out of memory")]
    NoMemory,
}

impl From<AllocError> for DepotFail {
    ghost from_gives = { λ _ e. e ≡ OutOfMemory };

    fn from(_: AllocError) -> DepotFail {
        DepotFail::NoMemory
    }
}

impl<T: Drop> From<AllocFailed<T>> for DepotFail {
    ghost from_gives = { λ _ e. e ≡ OutOfMemory };

    fn from(_: AllocFailed<T>) -> DepotFail {
        DepotFail::NoMemory
    }
}

impl From<NoMemory> for DepotFail {
    ghost from_gives = { λ _ e. e ≡ OutOfMemory };

    fn from(_: NoMemory) -> DepotFail {
        DepotFail::NoMemory
    }
}
