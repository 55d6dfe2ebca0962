//! Why a log wasn't read.
ghost use Rattle.std.specs.Prelude.{◌≡◌};
ghost use Rattle.wdt_logfmt.specs.declared.fails.ReadLogFail.TheVariants.{NoMemory as OutOfMemory};

use thiserror::Error;
use wdt_units::NoMemory;

/// Why a log wasn't read.
#[derive(Clone, Copy, Debug, PartialEq, Eq, Error)]
pub enum ReadLogFail {
    /// The header, a batch's length or an entry has no reading; its first byte stands at this place,
    /// counted from 0.
    #[error("bad log {at}")]
    BadLog { at: u64 },
    #[error("out of memory")]
    NoMemory,
}

impl From<NoMemory> for ReadLogFail {
    ghost from_gives = { λ _ e. e ≡ OutOfMemory };

    fn from(_: NoMemory) -> ReadLogFail {
        ReadLogFail::NoMemory
    }
}
