//! What the other end did wrong.
use thiserror::Error;

/// What the other end said that it may not say. An end that hears it fails.
#[derive(Clone, Copy, Debug, PartialEq, Eq, Error)]
pub enum PeerKind {
    /// The bytes that were read have no frame: the one at this place, counted from 0, is bad.
    #[error("no frame begins so: the byte at {at} is bad")]
    BadFrame {
        at: u32,
    },
    /// The frame has no place in the lane's state. The state is told by its place in its list, from 0,
    /// and the frame by its first byte.
    #[error("a frame of kind {command} may not come in state {state}")]
    Unexpected {
        state: u8,
        command: u8,
    },
    /// What the sender says of itself is wrong. The field is 1 for the version, 2 for the session, 3
    /// for the lane, 4 for the number of lanes, 5 for the connection's number, 6 for the block size.
    #[error("field {field} of the settings is wrong")]
    BadSettings {
        field: u8,
    },
    /// A lane's count is below what has surely landed, or above what was claimed.
    #[error("a count of {n} blocks where {low} to {high} are possible")]
    BadCheckpoint {
        n: u32,
        low: u32,
        high: u32,
    },
    /// A closed lane's count was told otherwise before.
    #[error("a count of {n} blocks where {before} was told before")]
    Differs {
        n: u32,
        before: u32,
    },
    /// The path at this place, counted from 0, doesn't come behind the one before it.
    #[error("the file list is out of order at {at}")]
    BadChunks {
        at: u32,
    },
    /// At this place, counted from 0, what the destination has was told otherwise before.
    #[error("the file list differs at {at} from the one told before")]
    ChunksDiffer {
        at: u32,
    },
    /// What is sent in all was told otherwise before: the first totals, and those that are told now.
    #[error("{told_files} files with {told_bytes} bytes where {files} with {bytes} were told before")]
    SizesDiffer {
        files: u32,
        bytes: u64,
        told_files: u32,
        told_bytes: u64,
    },
    /// This position of a block is there already, or is being sent on another lane.
    #[error("position {offset} of the block is sent twice")]
    Overlap {
        offset: u64,
    },
    /// The file has another size or stamp than is known: those that are known, and those that are told.
    #[error("a file of size {told_size} and stamp {told_stamp} where {size} and {stamp} are known")]
    SizeDiffers {
        size: u64,
        stamp: u64,
        told_size: u64,
        told_stamp: u64,
    },
    /// More than a limit allows: this is the number that passes it.
    #[error("{count} passes a limit")]
    OverLimit {
        count: u64,
    },
    /// The receiver said that everything has landed while so many blocks hadn't been sent whole.
    #[error("the receiver was done while {count} blocks were still to be sent")]
    EarlyDone {
        count: u32,
    },
    /// What has landed in the end isn't what was to be sent.
    #[error("{files} files with {bytes} bytes landed where {told_files} with {told_bytes} were told")]
    Short {
        files: u32,
        bytes: u64,
        told_files: u32,
        told_bytes: u64,
    },
}
