//! Blocks: the units in which a tree is sent.
use crate::path::Name;

/// A part of a file, which is sent as one. The file is a number: at the sender its place in the
/// manifest, at the receiver the number that the receiver gave it.
#[derive(Clone, Copy, Debug, PartialEq, Eq, PartialOrd, Ord, Hash)]
pub struct Block {
    pub file: u32,
    /// Where the block begins in the file, in bytes.
    pub offset: u64,
    /// How many bytes it has: 0 only for an empty file.
    pub length: u32,
}

/// What is told of a block before its bytes.
#[derive(Debug, Drop)]
pub struct Header {
    pub path: Name,
    /// The size of the whole file, in bytes.
    pub size: u64,
    /// The file's stamp, its modification time.
    pub stamp: u64,
    /// Where the block begins in the file, in bytes.
    pub offset: u64,
    /// How many bytes the block has.
    pub length: u32,
}
