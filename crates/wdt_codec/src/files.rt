//! A file that a receiver names.
ghost use Rattle.std.specs.Prelude.{◌≡◌, ◌≤◌, ◌<◌, ◌+◌, ◌/◌, ◌^◌, min, length, IfOk};
ghost use Rattle.wdt_codec.specs.Chunks.{file_at};
ghost use Rattle.wdt_codec.specs.Reading.{Gives};
ghost use Rattle.wdt_ranges.specs.Files.{have_file};

use crate::fails::ReadFail;
use crate::numbers::number;
use crate::paths::any_path;
use crate::spans::read_spans;
use std::alloc::Global;
use wdt_ranges::FileHave;
use wdt_units::{MAX_FILE_SIZE, MAX_PATH, MAX_SPANS, Name};

/// A file, where room for so many spans is left.
#[tactic(auto, unfolding(crate::specs::Chunks::file_at))]
pub fn read_file(alloc: Global, bytes: &[u8], room: u32) -> Result<(FileHave, &[u8]), ReadFail>
    requires { room ≤ MAX_SPANS }
    ensures reads { Gives (λ x. (have_file x.0, x.1.now)) result (file_at room bytes.now) }
    ensures few { IfOk result (λ x. length x.0.spans ≤ room) }
{
    let (count, rest) = number(bytes, 2, 1, MAX_PATH as u64)?;
    let (path, rest) = any_path(rest, count as usize)?;
    let (size, rest) = number(rest, 8, 0, MAX_FILE_SIZE)?;
    let (stamp, rest) = number(rest, 8, 0, u64::MAX)?;
    let (count, rest) = number(rest, 4, 0, (room as u64).min((size + 1) / 2))?;
    let (spans, rest) = read_spans(alloc, rest, size, count)?;
    let path = Name::of_lawful(alloc, path)?;
    let file = FileHave {
        path,
        size,
        stamp,
        spans,
    };
    Ok((file, rest))
}
