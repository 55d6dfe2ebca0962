//! What a writer answers without a change.
ghost use Rattle.std.specs.Prelude.{◌≡◌, length, map, option_map, sum_by, IfOk, IsTrue, Some};
ghost use Rattle.wdt_logfmt.specs.Batches.{is_known, numbers_of, path_at};
ghost use Rattle.wdt_logfmt.specs.Beginning.{known_at, length_of};
ghost use Rattle.wdt_logfmt.specs.Marks.{bytes_in};
ghost use Rattle.wdt_writer.specs.Kept.{told_of};
ghost use Rattle.wdt_writer.specs.PlainWriter.{marks, part_at};

use crate::landing::{bytes_with, named_with, numbers_of, paths_of};
use crate::parts::{part_on, place_of};
use crate::writer::Writer;
use std::alloc::Global;
use wdt_logfmt::LogEntry;
use wdt_units::{Block, Lane, Name, NoMemory};

impl Writer {
    /// What is to be logged of the blocks that landed since all was logged.
    pub fn pending(&self) -> &[LogEntry]
        ensures { result.now ≡ (self.now).pending }
    {
        &self.pending
    }

    /// The blocks that landed since all was logged, in the order in which they landed.
    pub fn unlogged(&self) -> &[Block]
        ensures { result.now ≡ (self.now).unlogged }
    {
        &self.unlogged
    }

    /// How many bytes the blocks have that landed since all was logged.
    pub fn unlogged_bytes(&self) -> u64
        ensures { result ≡ sum_by length_of (self.now).unlogged }
    {
        self.unlogged_bytes
    }

    /// The path, size and stamp of the known file of a number.
    pub fn file(&self, number: u32) -> (&Name, u64, u64)
        requires { IsTrue (is_known (self.now).known number) }
        ensures { known_at (self.now).known number ≡ Some (record { path = (result.0).now; size = result.1; stamp = result.2 }) }
    {
        self.files.file(number)
    }

    /// Of the block that is begun on a lane: the path of its file, where its next byte goes there, and how
    /// many bytes are left.
    pub fn begun(&self, lane: Lane) -> Option<(&Name, u64, u32)>
        ensures { option_map (λ told. ((told.0).now, told.1, told.2)) result ≡ option_map (told_of (self.now).known) (part_at self.now lane.0) }
    {
        let part = part_on(&self.parts, lane)?;
        let (path, _, _) = self.files.file(part.block.file);
        Some((path, place_of(part), part.left))
    }

    /// How many files are named, with all that landed.
    pub fn files(&self) -> u32
        ensures { result ≡ length (self.now).files }
    {
        named_with(&self.files, self.last)
    }

    /// How many bytes are there in all files together, with all that landed.
    pub fn bytes(&self) -> u64
        ensures { result ≡ bytes_in (marks self.now) }
    {
        bytes_with(&self.files, self.last)
    }

    /// The paths of the files of the blocks that landed since all was logged, by the numbers of the files,
    /// each once.
    pub fn dirty(&self, alloc: Global) -> Result<Vec<&Name>, NoMemory>
        ensures { IfOk result (λ paths. map (λ path. path.now) paths.items ≡ map (path_at (self.now).known) (numbers_of (self.now).unlogged)) }
    {
        let numbers = numbers_of(alloc, &self.unlogged)?;
        paths_of(alloc, &self.files, &numbers)
    }
}
