//! What is wrong with a checkpoint.
use thiserror::Error;

/// Why a checkpoint can't be right.
#[derive(Clone, Copy, Debug, PartialEq, Eq, Error)]
pub enum CheckFail {
    /// The count of a lane that isn't closed is below its sure count, `low`, or above the length of
    /// its list, `high`.
    #[error("checkpoint {n} is outside {low} to {high}")]
    BadCheckpoint { n: u32, low: u32, high: u32 },
    /// The count of a closed lane isn't the one that closed it.
    #[error("checkpoint {n} of a closed lane was {before} before")]
    Differs { n: u32, before: u32 },
}
