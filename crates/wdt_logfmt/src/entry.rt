//! What a batch of the log says.
use wdt_units::Name;

/// One entry of a batch.
#[derive(Debug, Drop)]
pub enum LogEntry {
    /// A file is named, and gets its number, below 262,144. Nothing of it is covered yet.
    File {
        number: u32,
        path: Name,
        /// The size of the whole file, in bytes: at most 2^40.
        size: u64,
        /// The file's stamp, its modification time.
        stamp: u64,
    },
    /// Bytes of a named file are there for good.
    Covered {
        number: u32,
        /// Where they begin in the file.
        offset: u64,
        /// How many they are: 1 to 67,108,864.
        length: u32,
    },
}
