//! Why a writer did nothing, or not all.
ghost use Rattle.std.specs.Prelude.{◌≡◌};
ghost use Rattle.wdt_writer.specs.Answers.{of_depot};
ghost use Rattle.wdt_writer.specs.declared.fail.WriteFail.TheVariants.{NoMemory as OutOfMemory};

use std::alloc::{AllocError, AllocFailed};
use thiserror::Error;
use wdt_depot::DepotFail;
use wdt_units::NoMemory;

/// Why a writer did nothing, or not all.
#[derive(Clone, Copy, Debug, PartialEq, Eq, Error)]
pub enum WriteFail {
    /// The file is known with another size or stamp than is told of it. No call was made on the disk.
    #[error("the file has {size} bytes and stamp {stamp}, but {told_size} bytes and stamp {told_stamp} are told of it")]
    SizeDiffers {
        size: u64,
        stamp: u64,
        told_size: u64,
        told_stamp: u64,
    },
    /// A position of the block, the least such, is there already or on its way on another lane; 0 for an
    /// empty block whose file is. No call was made on the disk.
    #[error("position {offset} of the file is there already, or on its way")]
    Overlap {
        offset: u64,
    },
    /// There would be so many files, spans or bytes, more than a transfer may have. No call was made on the
    /// disk.
    #[error("{count} files, spans or bytes are more than a transfer may have")]
    OverLimit {
        count: u64,
    },
    /// The depot failed, and has counted a fault.
    #[error("the disk failed")]
    Disk,
    #[error("out of memory")]
    NoMemory,
}

impl From<DepotFail> for WriteFail {
    ghost from_gives = { λ fail e. e ≡ of_depot fail };

    fn from(fail: DepotFail) -> WriteFail {
        match fail {
            DepotFail::Failed => WriteFail::Disk,
            DepotFail::NoMemory => WriteFail::NoMemory,
        }
    }
}

impl From<NoMemory> for WriteFail {
    ghost from_gives = { λ _ e. e ≡ OutOfMemory };

    fn from(_: NoMemory) -> WriteFail {
        WriteFail::NoMemory
    }
}

impl From<AllocError> for WriteFail {
    ghost from_gives = { λ _ e. e ≡ OutOfMemory };

    fn from(_: AllocError) -> WriteFail {
        WriteFail::NoMemory
    }
}

impl<T: Drop> From<AllocFailed<T>> for WriteFail {
    ghost from_gives = { λ _ e. e ≡ OutOfMemory };

    fn from(_: AllocFailed<T>) -> WriteFail {
        WriteFail::NoMemory
    }
}
