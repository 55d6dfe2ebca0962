//! Files as listed, as checked and as a whole.
use wdt_units::Name;

/// A file as a source lists it. Nothing is known of its path yet.
#[derive(Debug, Drop)]
pub struct RawEntry {
    pub path: Vec<u8>,
    /// In bytes.
    pub size: u64,
    /// The modification time, in nanoseconds since 1970, or 0 where it isn't told.
    pub stamp: u64,
}

/// A file of a manifest.
#[derive(Debug, Drop)]
pub struct Entry {
    pub path: Name,
    /// In bytes.
    pub size: u64,
    /// The modification time, in nanoseconds since 1970, or 0 where it isn't told.
    pub stamp: u64,
}

/// A whole file.
#[derive(Debug, Drop)]
pub struct Plain {
    pub path: Name,
    /// The modification time, in nanoseconds since 1970, or 0 where it isn't told.
    pub stamp: u64,
    pub bytes: Vec<u8>,
}
