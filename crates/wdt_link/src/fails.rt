//! Why a call of a link failed.
use thiserror::Error;

/// Why nothing, or not all, was sent, and why there is no connection.
#[derive(Clone, Copy, Debug, PartialEq, Eq, Error)]
pub enum LinkFail {
    /// The call failed, and a fault was counted.
    #[error("the connection failed")]
    Failed,
    /// Nothing was done.
    #[error("out of memory")]
    NoMemory,
}

/// Why nothing was received.
#[derive(Clone, Copy, Debug, PartialEq, Eq, Error)]
pub enum RecvFail {
    /// The call failed, and a fault was counted.
    #[error("the connection failed")]
    Failed,
    /// The bytes that come have no frame: those before this place, counted from 0, may begin one, and
    /// those up to it don't. An alarm was counted.
    #[error("no frame begins so: the byte at {at} is bad")]
    Bad { at: u32 },
    /// Nothing was taken.
    #[error("out of memory")]
    NoMemory,
}

/// Why nothing was taken of a stream.
#[derive(Clone, Copy, Debug, PartialEq, Eq)]
pub(crate) enum StreamFail {
    /// The wire failed.
    Failed,
    /// The wire gave no more bytes.
    Ended,
    /// The bytes have no frame.
    Bad { at: u32 },
    NoMemory,
}
