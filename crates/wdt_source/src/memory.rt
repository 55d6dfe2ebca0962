//! Files in memory.
ghost use Rattle.std.specs.Prelude.{◌≡◌, ◌<◌, ◌≤◌, ◌+◌, ◌^◌, vec_len, length, map, take, drop, slice_get, IfOk, IfSome, IfNone, IsOkUnless, Some, false, nat_le};
ghost use Rattle.wdt_units.specs.Counts.{Rises};
ghost use Rattle.wdt_tree.specs.Shown.{shown, entry_of_file};
ghost use Rattle.wdt_tree.specs.Listing.{entry_of};
ghost use Rattle.wdt_source.specs.Laws.{told_is_tree, told_is_listed};
ghost use Rattle.wdt_source.specs.Order.{tree_of};
ghost use Rattle.wdt_source.specs.Place.{file_at, is_of_path, IsPart, IsPlace};
ghost use Rattle.wdt_source.specs.Told.{is_within};

use crate::failure::SourceFail;
use crate::source::Source;
use crate::tally::Tally;
use std::alloc::Global;
use wdt_tree::{Plain, RawEntry};
use wdt_units::Name;

/// Files in memory. Calls are numbered from 1, but for those that are refused for memory, and those
/// whose numbers it is given fail; both calls are numbered together. A read for bytes that its files
/// don't have is a slip, counts a fault and fails, whether or not its number is among those. So does,
/// without a slip, a listing of 2^32 files or more.
#[derive(Debug, Drop)]
pub struct MemSource {
    files: Vec<Plain>,
    tally: Tally,
    // Where the last file was found: a hint, since any place that has the path will do.
    near: usize,
}

impl MemSource {
    ghost use Rattle.wdt_source.specs.Memory.{files_in, faults_in, schedule_in, slips_in};

    /// A source of these files, in any order. It tells their tree where they are one, and lists them as
    /// they are handed in. All counts begin at 0.
    pub fn of(files: Vec<Plain>, fails: Vec<u32>) -> MemSource
        ensures files { files_in result ≡ map shown files.items }
        ensures faults { faults_in result ≡ 0 }
        ensures slips { slips_in result ≡ 0 }
        ensures schedule { schedule_in result ≡ record { fails = fails.items; calls = 0 } }
    {
        MemSource {
            files,
            tally: Tally::of(fails),
            near: 0,
        }
    }
}

fn listing(alloc: Global, files: &Vec<Plain>) -> Result<Vec<RawEntry>, SourceFail>
    ensures listed { IfOk result (λ raw. map entry_of raw.items ≡ map entry_of_file (map shown files.now.items)) }
    ensures count { IfOk result (λ raw. vec_len raw ≡ vec_len files.now) }
    ensures fail { IsOkUnless result SourceFail.NoMemory }
{
    let mut raw = Vec::with_capacity(alloc, files.len())?;
    for file in files {
        raw.push(RawEntry {
            path: Vec::from_slice(alloc, file.path.bytes())?,
            size: file.bytes.len() as u64,
            stamp: file.stamp,
        })?;
    }
    Ok(raw)
}

// Whether the file at a place has that path.
fn is_at(files: &Vec<Plain>, place: usize, path: &Name) -> bool
    ensures { result ≡ is_of_path path.now (slice_get (map shown files.now.items) place) }
{
    match files.get(place) {
        Some(file) => file.path.bytes() == path.bytes(),
        None => false,
    }
}

// The first place of that path.
fn first_of(files: &Vec<Plain>, path: &Name) -> Option<usize>
    ensures { IsPlace (map shown files.now.items) path.now result }
{
    files
        .iter()
        .position(|file| file.path.bytes() == path.bytes())
}

// A place of that path: files that are read one after the other stand near the last place.
fn place_of(files: &Vec<Plain>, path: &Name, near: usize) -> Option<usize>
    ensures { IsPlace (map shown files.now.items) path.now result }
{
    if is_at(files, near, path) {
        return Some(near);
    }
    let next = near.saturating_add(1);
    if is_at(files, next, path) {
        return Some(next);
    }
    first_of(files, path)
}

// As many bytes of a file at an offset, where they are within it.
fn part(file: &Plain, offset: u64, count: usize) -> Option<&[u8]>
    ensures some { IfSome result (λ bytes. (length bytes.now ≡ count)
        × (offset + count ≤ length file.now.bytes.items)
        × (bytes.now ≡ take (length bytes.now) (drop offset file.now.bytes.items))) }
    ensures none { IfNone result (nat_le (offset + count) (length file.now.bytes.items) ≡ false) }
{
    let start = usize::try_from(offset).ok()?;
    let end = start.checked_add(count)?;
    file.bytes.get(start..end)
}

// As many bytes of the file at a place from an offset on, where they are within it.
fn part_at(files: &Vec<Plain>, place: Option<usize>, offset: u64, count: usize) -> Option<&[u8]>
    ensures some { IfSome result (λ bytes. (length bytes.now ≡ count)
        × IsPart (file_at (map shown files.now.items) place) offset bytes.now) }
    ensures none { IfNone result (is_within (file_at (map shown files.now.items) place) offset count ≡ false) }
{
    part(files.get(place?)?, offset, count)
}

impl Source for MemSource {
    ghost use Rattle.wdt_source.specs.Memory.{files_in, faults_in, schedule_in, slips_in};

    ghost told = { λ s. tree_of (files_in s) };

    ghost listing = { λ s. Some (map entry_of_file (files_in s)) };

    ghost faults = { λ s. faults_in s };

    ghost slips = { λ s. slips_in s };

    ghost schedule = { λ s. Some (schedule_in s) };

    fn list(&mut self, alloc: Global) -> Result<Vec<RawEntry>, SourceFail> {
        if self.files.len() > u32::MAX as usize {
            return Err(self.tally.fail(false));
        }
        if self.tally.is_due() {
            return Err(self.tally.fail(false));
        }
        let raw = listing(alloc, &self.files)?;
        self.tally.end();
        Ok(raw)
    }

    fn read_exact_at(
        &mut self,
        path: &Name,
        offset: u64,
        into: &mut [u8],
    ) -> Result<(), SourceFail> {
        let place = place_of(&self.files, path, self.near);
        self.near = place.unwrap_or(self.near);
        let Some(bytes) = part_at(&self.files, place, offset, into.len()) else {
            return Err(self.tally.fail(true));
        };
        if self.tally.is_due() {
            return Err(self.tally.fail(false));
        }
        into.copy_from_slice(bytes);
        self.tally.end();
        Ok(())
    }

    ghost told_is_tree = { λ s. told_is_tree (files_in s) };

    ghost told_is_listed = { λ s. told_is_listed (files_in s) };
}
