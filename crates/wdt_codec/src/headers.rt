//! What is told of a block before its bytes.
ghost use Rattle.std.specs.Prelude.{◌≡◌, ◌≤◌, ◌<◌, ◌^◌, min, length};
ghost use Rattle.wdt_codec.specs.Frames.{header_at};
ghost use Rattle.wdt_codec.specs.Reading.{Gives};

use crate::fails::ReadFail;
use crate::numbers::number;
use crate::paths::free_path;
use std::alloc::Global;
use wdt_units::{Header, MAX_BLOCK, MAX_FILE_SIZE, MAX_PATH, Name};

#[tactic(auto, unfolding(crate::specs::Frames::header_at))]
pub fn read_header(alloc: Global, bytes: &[u8]) -> Result<(Header, &[u8]), ReadFail>
    ensures { Gives (λ x. (x.0, x.1.now)) result (header_at bytes.now) }
{
    let (count, rest) = number(bytes, 2, 1, MAX_PATH as u64)?;
    let (path, rest) = free_path(rest, count as usize)?;
    let (size, rest) = number(rest, 8, 0, MAX_FILE_SIZE)?;
    let (stamp, rest) = number(rest, 8, 0, u64::MAX)?;
    let (offset, rest) = number(rest, 8, 0, size.saturating_sub(1))?;
    let most = (size - offset).min(MAX_BLOCK as u64);
    let (length, rest) = number(rest, 4, size.min(1), most)?;
    let path = Name::of_lawful(alloc, path)?;
    let header = Header {
        path,
        size,
        stamp,
        offset,
        length: length as u32,
    };
    Ok((header, rest))
}
