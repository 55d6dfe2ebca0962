//! Why there is no frame, and why there is no piece.
ghost use Rattle.std.specs.Prelude.{◌≡◌};
ghost use Rattle.wdt_codec.specs.Reading.{failed};
ghost use Rattle.wdt_codec.specs.declared.fails.ReadFail.TheVariants as fails;

use crate::stop::Stop;
use std::alloc::AllocFailed;
use thiserror::Error;
use wdt_units::NoMemory;

/// Why there is no frame at the front of the bytes.
#[derive(Clone, Copy, Debug, PartialEq, Eq, Error)]
pub enum NextFail {
    /// The bytes are a proper front of a frame's spelling.
    #[error("the frame isn't complete")]
    NotYet,
    /// The bytes before this place, counted from 0, are a proper front of a frame's spelling, and no
    /// spelling begins with those up to it.
    #[error("no frame begins so: the byte at {at} is bad")]
    Bad { at: u32 },
    #[error("out of memory")]
    NoMemory,
}

/// Why there is no piece of a block.
#[derive(Clone, Copy, Debug, PartialEq, Eq, Error)]
pub enum PieceFail {
    /// Too few bytes have come.
    #[error("the bytes of the block aren't there yet")]
    NotYet,
    #[error("out of memory")]
    NoMemory,
}

/// Why a field that takes memory can't be read.
#[derive(Clone, Copy, Debug, PartialEq, Eq)]
pub enum ReadFail {
    NoMemory,
    NotYet,
    /// No spelling begins so; this many bytes stand from the bad one on.
    Bad(usize),
}

impl From<Stop> for ReadFail {
    ghost from_gives = { λ s e. e ≡ failed s };

    fn from(stop: Stop) -> ReadFail {
        match stop {
            Stop::NotYet => ReadFail::NotYet,
            Stop::Bad(left) => ReadFail::Bad(left),
        }
    }
}

impl From<NoMemory> for ReadFail {
    ghost from_gives = { λ _ e. e ≡ fails.NoMemory };

    fn from(_: NoMemory) -> ReadFail {
        ReadFail::NoMemory
    }
}

impl<T: Drop> From<AllocFailed<T>> for ReadFail {
    ghost from_gives = { λ _ e. e ≡ fails.NoMemory };

    fn from(_: AllocFailed<T>) -> ReadFail {
        ReadFail::NoMemory
    }
}
