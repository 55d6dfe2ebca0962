//! The path of a block.
ghost use Rattle.std.specs.Prelude.{◌≡◌, ◌≤◌, length, take, drop, IfOk, OnOk, IsTrue};
ghost use Rattle.wdt_units.specs.Path.{is_lawful, is_reserved};
ghost use Rattle.wdt_codec.specs.Paths.{path_at};
ghost use Rattle.wdt_codec.specs.Reading.{Answers, except};

use crate::stop::Stop;
use wdt_units::{MAX_PATH, PathScan, is_reserved, scan_on};

/// The `count` bytes of a path that isn't one of the receiver's own.
pub fn free_path(bytes: &[u8], count: usize) -> Result<(&[u8], &[u8]), Stop>
    requires some { 1 ≤ count }
    requires most { count ≤ MAX_PATH }
    ensures reads { Answers (λ x. (x.0.now, x.1.now)) result (except is_reserved (path_at count) bytes.now) }
    ensures lawful { IfOk result (λ x. IsTrue (is_lawful x.0.now)) }
{
    scan_path(bytes, count)?;
    let (path, rest) = bytes.split_at(count);
    if is_reserved(path) {
        // A path beside this one differs in its last byte alone, so that byte is the bad one.
        return Err(Stop::Bad(rest.len() + 1));
    }
    Ok((path, rest))
}

/// The `count` bytes of a path.
pub fn any_path(bytes: &[u8], count: usize) -> Result<(&[u8], &[u8]), Stop>
    requires some { 1 ≤ count }
    requires most { count ≤ MAX_PATH }
    ensures reads { Answers (λ x. (x.0.now, x.1.now)) result (path_at count bytes.now) }
    ensures lawful { IfOk result (λ x. IsTrue (is_lawful x.0.now)) }
{
    scan_path(bytes, count)?;
    Ok(bytes.split_at(count))
}

// Byte by byte: the place where no path of `count` bytes begins so, or that more bytes are wanted.
fn scan_path(bytes: &[u8], count: usize) -> Result<(), Stop>
    ensures reads { Answers (λ _. (take count bytes.now, drop count bytes.now)) result (path_at count bytes.now) }
    ensures within { OnOk result (count ≤ length bytes.now) }
{
    let mut scan = PathScan::Start;
    for k in 0..count {
        if k >= bytes.len() {
            return Err(Stop::NotYet);
        }
        match scan_on(scan, bytes[k], count - 1 - k) {
            None => return Err(Stop::Bad(bytes.len() - k)),
            Some(after) => {
                scan = after;
            }
        }
    }
    Ok(())
}
