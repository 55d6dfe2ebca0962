//! The rest of a tree: how many blocks it has, and which.
ghost use Rattle.std.specs.Prelude.{◌≡◌, ℕ, ◌++◌, ◌<◌, ◌≤◌, ◌^◌, [], get_or, length, map, is_some, IfOk, IfSome, IsTrue, MatchOption};
ghost use Rattle.wdt_units.specs.Have.{is_named};
ghost use Rattle.wdt_ranges.specs.declared.have.FileHave.{FileHave};
ghost use Rattle.wdt_ranges.specs.Files.{have_file, is_in_order};
ghost use Rattle.wdt_ranges.specs.Spans.{plain_span, are_apart};
ghost use Rattle.wdt_rest.specs.RestOf.{spans_of, gaps_in, is_new_empty, file_rest, rest_of};

use crate::pieces::{count_pieces, push, push_pieces};
use std::alloc::Global;
use wdt_ranges::{FileHave, Ranges, Span};
use wdt_tree::{Entry, Manifest};
use wdt_units::{Block, MAX_FILE_SIZE, Name, NoMemory};

// How many blocks the rest has.
pub fn count_rest(
    alloc: Global,
    manifest: &Manifest,
    files: &[FileHave],
    block: u32,
) -> Result<u64, NoMemory>
    requires order { IsTrue (is_in_order (map have_file files.now)) }
    requires some { 0 < block }
    ensures { IfOk result (λ count. count ≡ length (rest_of manifest.now (map have_file files.now) block)) }
{
    let mut count = 0;
    for at in 0..manifest.count() {
        count += count_file(alloc, manifest.entry(at), files, block)?;
    }
    Ok(count)
}

// The blocks of the rest.
pub fn list_rest(
    alloc: Global,
    manifest: &Manifest,
    files: &[FileHave],
    block: u32,
) -> Result<Vec<Block>, NoMemory>
    requires order { IsTrue (is_in_order (map have_file files.now)) }
    requires some { 0 < block }
    ensures { IfOk result (λ blocks. blocks.items ≡ rest_of manifest.now (map have_file files.now) block) }
{
    let mut blocks = Vec::new(alloc);
    for at in 0..manifest.count() {
        push_file(alloc, manifest.entry(at), at, files, block, &mut blocks)?;
    }
    Ok(blocks)
}

// How many blocks of a file the rest has.
fn count_file(alloc: Global, entry: &Entry, files: &[FileHave], block: u32) -> Result<u64, NoMemory>
    requires order { IsTrue (is_in_order (map have_file files.now)) }
    requires size { entry.now.size ≤ MAX_FILE_SIZE }
    requires some { 0 < block }
    ensures count { IfOk result (λ count. (file : ℕ) → count ≡ length (file_rest (map have_file files.now) block file entry.now)) }
    ensures few { IfOk result (λ count. count ≤ MAX_FILE_SIZE) }
{
    if is_new_empty(entry, files) {
        return Ok(1);
    }
    let gaps = gaps_in(alloc, entry, files)?;
    Ok(count_pieces(&gaps, block))
}

// Appends the blocks of a file that the rest has.
fn push_file(
    alloc: Global,
    entry: &Entry,
    file: u32,
    files: &[FileHave],
    block: u32,
    blocks: &mut Vec<Block>,
) -> Result<(), NoMemory>
    requires order { IsTrue (is_in_order (map have_file files.now)) }
    requires size { entry.now.size ≤ MAX_FILE_SIZE }
    requires some { 0 < block }
    ensures { IfOk result (λ _. blocks.new.items ≡ blocks.old.items ++ file_rest (map have_file files.now) block file entry.now) }
{
    if is_new_empty(entry, files) {
        let empty = Block {
            file,
            offset: 0,
            length: 0,
        };
        return push(empty, blocks);
    }
    let gaps = gaps_in(alloc, entry, files)?;
    push_pieces(&gaps, file, block, blocks)
}

// Whether a file is empty and isn't named.
fn is_new_empty(entry: &Entry, files: &[FileHave]) -> bool
    requires { IsTrue (is_in_order (map have_file files.now)) }
    ensures { result ≡ is_new_empty (map have_file files.now) entry.now }
{
    entry.size == 0 && named(files, &entry.path).is_none()
}

// The positions of a file that aren't covered.
fn gaps_in(alloc: Global, entry: &Entry, files: &[FileHave]) -> Result<Vec<Span>, NoMemory>
    requires order { IsTrue (is_in_order (map have_file files.now)) }
    requires size { entry.now.size ≤ MAX_FILE_SIZE }
    ensures gaps { IfOk result (λ gaps. map plain_span gaps.items ≡ gaps_in (map have_file files.now) entry.now) }
    ensures apart { IfOk result (λ gaps. IsTrue (are_apart (map plain_span gaps.items))) }
{
    match named(files, &entry.path) {
        Some(at) => files[at].spans.gaps(entry.size),
        None => Ranges::none(alloc).gaps(entry.size),
    }
}

// The place of the file of a path, where it is named.
fn named(files: &[FileHave], path: &Name) -> Option<usize>
    requires { IsTrue (is_in_order (map have_file files.now)) }
    ensures named { is_some result ≡ is_named (map have_file files.now) path.now }
    ensures within { IfSome result (λ at. at < length files.now) }
    ensures spans { MatchOption result (spans_of (map have_file files.now) path.now ≡ []) (λ at. (file : FileHave) → spans_of (map have_file files.now) path.now ≡ (get_or files.now at file).spans) }
{
    match files.binary_search_by(|file| file.path.bytes().cmp(path.bytes())) {
        Ok(at) => Some(at),
        Err(_) => None,
    }
}
