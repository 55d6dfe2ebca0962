//! The tree that the sender has: four files of few bytes.
ghost use Rattle.std.specs.Prelude.{◌≡◌, ◌≤◌, ◌<◌, length, IfOk, IfSome};

use std::alloc::Global;
use wdt_units::NoMemory;

/// How many files it has.
pub const FILES: usize = 4;

/// How many bytes all files have.
pub const TOTAL: u64 = 60;

/// The path of a file.
pub fn path_of(file: usize) -> &'static [u8] {
    match file {
        0 => b"a",
        1 => b"b",
        2 => b"c",
        _ => b"d",
    }
}

/// The file of a path.
pub fn file_of(path: &[u8]) -> Option<usize>
    ensures { IfSome result (λ file. file < FILES) }
{
    for file in 0..FILES {
        if path_of(file) == path {
            return Some(file);
        }
    }
    None
}

/// How many bytes a file has, at most 33.
pub fn size_of(file: usize) -> u64
    ensures { result ≤ 33 }
{
    match file {
        0 => 0,
        1 => 7,
        2 => 20,
        _ => 33,
    }
}

/// A file's stamp.
pub fn stamp_of(file: usize) -> u64 {
    1_000 + (file % FILES) as u64
}

/// The byte of a file at a position. No byte is 0, which is what a place reads that wasn't written.
pub fn byte_at(file: usize, position: u64) -> u8 {
    (1 + (file % FILES) as u64 * 50 + position % 50) as u8
}

/// So many bytes of a file from a position on.
pub fn bytes_of(alloc: Global, file: usize, offset: u64, count: u32) -> Result<Vec<u8>, NoMemory>
    ensures { IfOk result (λ bytes. length bytes.items ≡ count) }
{
    let mut bytes = Vec::new(alloc);
    for at in 0..count {
        bytes.push(byte_at(file, offset.saturating_add(u64::from(at))))?;
    }
    Ok(bytes)
}
