//! Blocks that are begun.
ghost use Rattle.std.specs.Prelude.{◌≡◌, ◌≤◌};
ghost use Rattle.wdt_writer.specs.PlainWriter.{part_of, place_of, whole};

use wdt_units::{Block, Lane, MAX_FILE_SIZE};

/// A block that is begun, and how many bytes of it are still to come.
#[derive(Clone, Copy, Debug, PartialEq, Eq)]
pub struct Part {
    pub block: Block,
    /// At most the length of the block.
    pub left: u32,
}

/// The block that is begun on a lane.
pub fn part_on(parts: &[Option<Part>], lane: Lane) -> Option<Part>
    ensures { result ≡ part_of parts.now lane.0 }
{
    match parts.get(lane.0 as usize) {
        Some(part) => *part,
        None => None,
    }
}

/// Where the next byte of a begun block goes in its file.
pub fn place_of(part: Part) -> u64
    requires left { part.left ≤ part.block.length }
    requires within { part.block.offset ≤ MAX_FILE_SIZE }
    ensures { result ≡ place_of part }
{
    part.block.offset + u64::from(part.block.length - part.left)
}

/// A block that begins.
pub fn whole(block: Block) -> Part
    ensures { result ≡ whole block }
{
    Part {
        block,
        left: block.length,
    }
}
