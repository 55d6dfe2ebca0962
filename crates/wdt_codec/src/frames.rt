//! The frames.
use crate::marks::Marks;
use wdt_ranges::Have;
use wdt_units::{Conn, Header, Lane};

/// A lane and a count of its blocks.
#[derive(Clone, Copy, Debug, PartialEq, Eq)]
pub struct Mark {
    /// 0 to 15.
    pub lane: Lane,
    /// How many blocks, 0 to 1,048,576.
    pub count: u32,
}

/// What a sender says of itself first on each connection.
#[derive(Clone, Copy, Debug, PartialEq, Eq)]
pub struct Settings {
    pub version: u16,
    /// The number of the transfer, the same on all its connections.
    pub session: u64,
    /// The connection's lane, below `lanes`.
    pub lane: Lane,
    /// How many lanes the sender has, 1 to 16.
    pub lanes: u8,
    /// The number of this connection on its lane, 1 or more.
    pub conn: Conn,
    /// The greatest length of a block, in bytes, 1 to 67,108,864.
    pub block: u32,
    /// Whether the sender wants to be told what the receiver has.
    pub ask: bool,
}

/// A frame.
#[derive(Debug, Drop)]
pub enum Frame {
    /// The sender's first frame on a connection.
    Settings(Settings),
    /// How many blocks of the lane the receiver has.
    Greeting(Mark),
    /// What the sender is going to send in all: files, 0 to 262,144, and bytes, 0 to 2^50.
    Size { files: u32, bytes: u64 },
    /// A block, whose bytes follow the frame: as many as the header's length says.
    Block(Header),
    /// Nothing more is to come.
    Done,
    /// What the receiver has: 0 to 262,144 files, with 0 to 1,310,720 spans in all.
    Chunks(Have),
    /// The receiver waits for other lanes.
    Wait,
    /// Lanes that are given up, 1 to 15 of them rising, and how many blocks of each the receiver has.
    ErrMarks(Marks),
    /// The end has failed, with this code.
    Abort(u8),
}
