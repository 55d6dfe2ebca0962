//! The block that landed last, and how it is laid over its file.
ghost use Rattle.std.specs.Prelude.{◌≡◌, ◌++◌, length, map, option_to_list, IfOk, IsTrue, None, OnErr, OnOk};
ghost use Rattle.std.specs.List.{list_all};
ghost use Rattle.wdt_logfmt.specs.Batches.{block_entries, file_entry, is_known, numbers_of, path_at};
ghost use Rattle.wdt_logfmt.specs.Marks.{bytes_in, marked_of};
ghost use Rattle.wdt_files.specs.PlainFiles.{AreLawful};
ghost use Rattle.wdt_writer.specs.Kept.{CanBeLaid, for_good, laid};

use std::alloc::Global;
use std::collections::BTreeSet;
use wdt_files::Files;
use wdt_logfmt::LogEntry;
use wdt_units::{Block, Lane, Name, NoMemory};

/// What stood before a landing.
#[derive(Clone, Copy, Debug)]
pub struct Stood {
    /// Where the block was begun.
    pub lane: Lane,
    /// How many entries were to be logged.
    pub entries: usize,
    /// How many blocks were to be logged.
    pub blocks: usize,
    /// How many bytes these had.
    pub bytes: u64,
}

/// The block that landed last, while it isn't laid over the spans of its file.
#[derive(Clone, Copy, Debug)]
pub struct Last {
    pub block: Block,
    /// What stood before it landed, while that can be taken back.
    pub before: Option<Stood>,
}

/// Lays the block that landed last over its file. After want of memory nothing has changed.
pub fn settle(files: &mut Files, last: &mut Option<Last>) -> Result<(), NoMemory>
    requires lays { CanBeLaid files.old last.old }
    requires lawful { AreLawful files.old }
    ensures laid { OnOk result (files.new ≡ laid files.old last.old) }
    ensures last { OnOk result (last.new ≡ None) }
    ensures lawful { OnOk result (AreLawful files.new) }
    ensures files { OnErr result (files.new ≡ files.old) }
    ensures kept { OnErr result (last.new ≡ last.old) }
{
    let Some(waiting) = *last else {
        return Ok(());
    };
    files.land(waiting.block)?;
    *last = None;
    Ok(())
}

/// The last landing can't be taken back any more.
pub fn keep_landed(last: &mut Option<Last>)
    ensures { last.new ≡ for_good last.old }
{
    if let Some(waiting) = last {
        waiting.before = None;
    }
}

/// How many files are named with the block that landed last.
pub fn named_with(files: &Files, last: Option<Last>) -> u32
    requires lays { CanBeLaid files.now last }
    requires lawful { AreLawful files.now }
    ensures { result ≡ length (laid files.now last).named }
{
    let Some(last) = last else {
        return files.named();
    };
    if files.is_named(last.block.file) {
        return files.named();
    }
    files.named() + 1
}

/// How many bytes are there with the block that landed last.
pub fn bytes_with(files: &Files, last: Option<Last>) -> u64
    requires lays { CanBeLaid files.now last }
    requires lawful { AreLawful files.now }
    ensures { result ≡ bytes_in (map marked_of (laid files.now last).named) }
{
    let Some(last) = last else {
        return files.bytes();
    };
    files.bytes() + u64::from(last.block.length)
}

/// Appends what is to be logged of a block that lands next. After want of memory nothing has changed.
pub fn append_entries(
    files: &Files,
    block: Block,
    pending: &mut Vec<LogEntry>,
) -> Result<(), NoMemory>
    requires known { IsTrue (is_known files.now.known block.file) }
    ensures entries { OnOk result (pending.new.items ≡ pending.old.items ++ block_entries files.now.known files.now.named block) }
    ensures unchanged { OnErr result (pending.new.items ≡ pending.old.items) }
{
    let naming = naming_entry(files, block.file)?;
    if pending.reserve(2).is_err() {
        return Err(NoMemory);
    }
    if let Some(entry) = naming {
        pending.push_reserved(entry);
    }
    if block.length > 0 {
        pending.push_reserved(LogEntry::Covered {
            number: block.file,
            offset: block.offset,
            length: block.length,
        });
    }
    Ok(())
}

// The entry that names a known file, where it isn't named yet.
fn naming_entry(files: &Files, number: u32) -> Result<Option<LogEntry>, NoMemory>
    requires { IsTrue (is_known files.now.known number) }
    ensures { IfOk result (λ entry. option_to_list entry ≡ file_entry files.now.known files.now.named number) }
{
    if files.is_named(number) {
        return Ok(None);
    }
    let (path, size, stamp) = files.file(number);
    let path = path.copy()?;
    Ok(Some(LogEntry::File {
        number,
        path,
        size,
        stamp,
    }))
}

/// The numbers of the files of blocks, rising and each once.
pub fn numbers_of(alloc: Global, blocks: &[Block]) -> Result<Vec<u32>, NoMemory>
    ensures { IfOk result (λ numbers. numbers.items ≡ numbers_of blocks.now) }
{
    let numbers = set_of_numbers(alloc, blocks)?;
    Ok(numbers.iter().copied().collect(alloc)?)
}

fn set_of_numbers(alloc: Global, blocks: &[Block]) -> Result<BTreeSet<u32>, NoMemory>
    ensures { IfOk result (λ numbers. numbers.keys ≡ numbers_of blocks.now) }
{
    let mut numbers = BTreeSet::new(alloc);
    let mut left = blocks.len();
    while left > 0 {
        left -= 1;
        let block = blocks[left];
        numbers.insert(block.file)?;
    }
    Ok(numbers)
}

/// The paths of known files, by their numbers.
pub fn paths_of<'a>(
    alloc: Global,
    files: &'a Files,
    numbers: &[u32],
) -> Result<Vec<&'a Name>, NoMemory>
    requires { IsTrue (list_all (is_known files.now.known) numbers.now) }
    ensures { IfOk result (λ paths. map (λ path. path.now) paths.items ≡ map (path_at files.now.known) numbers.now) }
{
    let mut paths = Vec::new(alloc);
    for number in numbers {
        let (path, _, _) = files.file(*number);
        if paths.push(path).is_err() {
            return Err(NoMemory);
        }
    }
    Ok(paths)
}
