//! What is counted: the blocks of a lane, and a transfer in all.
ghost use Rattle.std.specs.Prelude.{◌≡◌, ◌≤◌, ◌<◌, ◌+◌, ◌^◌, length, IfOk};
ghost use Rattle.wdt_codec.specs.Frames.{code_at, mark_at, size_at};
ghost use Rattle.wdt_codec.specs.Reading.{Answers};

use crate::frames::Mark;
use crate::numbers::number;
use crate::stop::Stop;
use wdt_units::{Lane, MAX_BLOCKS, MAX_FILES, MAX_TOTAL};

/// A mark whose lane is from `low` to `high`.
#[tactic(auto, unfolding(crate::specs::Frames::mark_at))]
pub fn read_mark(bytes: &[u8], low: u8, high: u8) -> Result<(Mark, &[u8]), Stop>
    requires ranged { low ≤ high }
    requires most { high ≤ 15 }
    ensures reads { Answers (λ x. (x.0, x.1.now)) result (mark_at low high bytes.now) }
    ensures ranged { IfOk result (λ x. (low ≤ x.0.lane.0) × (x.0.lane.0 ≤ high)) }
{
    let (lane, rest) = number(bytes, 1, low as u64, high as u64)?;
    let (count, rest) = number(rest, 4, 0, MAX_BLOCKS as u64)?;
    let mark = Mark {
        lane: Lane(lane as u8),
        count: count as u32,
    };
    Ok((mark, rest))
}

/// The files and the bytes of a Size.
#[tactic(auto, unfolding(crate::specs::Frames::size_at))]
pub fn read_size(bytes: &[u8]) -> Result<((u32, u64), &[u8]), Stop>
    ensures { Answers (λ x. (x.0, x.1.now)) result (size_at bytes.now) }
{
    let (files, rest) = number(bytes, 4, 0, MAX_FILES as u64)?;
    let (bytes, rest) = number(rest, 8, 0, MAX_TOTAL)?;
    Ok(((files as u32, bytes), rest))
}

/// The code of an Abort.
#[tactic(auto, unfolding(crate::specs::Frames::code_at))]
pub fn read_code(bytes: &[u8]) -> Result<(u8, &[u8]), Stop>
    ensures { Answers (λ x. (x.0, x.1.now)) result (code_at bytes.now) }
{
    let (code, rest) = number(bytes, 1, 0, 255)?;
    Ok((code as u8, rest))
}
