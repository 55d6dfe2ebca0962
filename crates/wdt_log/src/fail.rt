//! Why a call on the log did nothing, or not all.
ghost use Rattle.std.specs.Prelude.{◌≡◌};
ghost use Rattle.wdt_log.specs.Answers.{of_depot, of_reading};
ghost use Rattle.wdt_log.specs.declared.fail.LogFail.TheVariants.{Disk as DiskFail, NoMemory as OutOfMemory};

use std::alloc::{AllocError, AllocFailed};
use thiserror::Error;
use wdt_depot::DepotFail;
use wdt_logfmt::ReadLogFail;
use wdt_units::{Failed, NoMemory};

/// Why a call on the log did nothing, or not all.
#[derive(Clone, Copy, Debug, PartialEq, Eq, Error)]
pub enum LogFail {
    /// The depot failed, and has counted a fault. The log is shut from then on.
    #[error("the disk failed")]
    Disk,
    /// The log that is there has no reading from this place on, counted in bytes from its start.
    #[error("bad log {at}")]
    BadLog { at: u64 },
    /// An earlier call on this log answered `Disk`.
    #[error("the log is shut, since a call on it failed")]
    Shut,
    /// The log means what it meant before.
    #[error("out of memory")]
    NoMemory,
}

impl From<DepotFail> for LogFail {
    ghost from_gives = { λ fail e. e ≡ of_depot fail };

    fn from(fail: DepotFail) -> LogFail {
        match fail {
            DepotFail::Failed => LogFail::Disk,
            DepotFail::NoMemory => LogFail::NoMemory,
        }
    }
}

impl From<Failed> for LogFail {
    ghost from_gives = { λ _ e. e ≡ DiskFail };

    fn from(_: Failed) -> LogFail {
        LogFail::Disk
    }
}

impl From<ReadLogFail> for LogFail {
    ghost from_gives = { λ fail e. e ≡ of_reading fail };

    fn from(fail: ReadLogFail) -> LogFail {
        match fail {
            ReadLogFail::BadLog { at } => LogFail::BadLog { at },
            ReadLogFail::NoMemory => LogFail::NoMemory,
        }
    }
}

impl From<NoMemory> for LogFail {
    ghost from_gives = { λ _ e. e ≡ OutOfMemory };

    fn from(_: NoMemory) -> LogFail {
        LogFail::NoMemory
    }
}

impl From<AllocError> for LogFail {
    ghost from_gives = { λ _ e. e ≡ OutOfMemory };

    fn from(_: AllocError) -> LogFail {
        LogFail::NoMemory
    }
}

impl<T: Drop> From<AllocFailed<T>> for LogFail {
    ghost from_gives = { λ _ e. e ≡ OutOfMemory };

    fn from(_: AllocFailed<T>) -> LogFail {
        LogFail::NoMemory
    }
}
