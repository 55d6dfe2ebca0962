//! A listing that was checked.
ghost use Rattle.std.specs.Prelude.{◌≡◌, ◌≢◌, ℕ, ◌+◌, ◌<◌, ◌≤◌, ◌^◌, true, List, length, map, slice_get, sum_by, vec_len, option_map, is_some, IfOk, OnOk, IfErr, IfSome, IsTrue, MatchOption, IsPermutation};
ghost use Rattle.std.specs.List.{list_any};
ghost use Rattle.wdt_tree.specs.declared.manifest.ManifestFail.{ManifestFail};
ghost use Rattle.wdt_tree.specs.declared.manifest.ManifestFail.TheVariants.{NoMemory as OutOfMemory};
ghost use Rattle.wdt_tree.specs.Listing.{entry_of, fault_of, has_path, is_entry, is_in_order, is_twice, path_of, size_of, IsAccepted, IsFirstFault, IsManifest, IsRefused, IsSortedByPath, NoFaultBefore, NoneTwiceBefore, Orders, Refuses};

use crate::entry::{Entry, RawEntry};
use std::alloc::{AllocError, AllocFailed, Global};
use std::collections::BTreeSet;
use std::marker::Model;
use thiserror::Error;
use wdt_units::{MAX_FILE_SIZE, MAX_FILES, MAX_TOTAL, Name, NameFail, NoMemory};

/// Why a listing is no manifest. A place counts from 0, in the list as handed in.
#[derive(Clone, Copy, Debug, PartialEq, Eq, Error)]
pub enum ManifestFail {
    /// There are more than 262,144 files.
    #[error("too many files {count}")]
    TooMany { count: u32 },
    /// The path is not lawful.
    #[error("bad path {at}")]
    BadPath { at: u32 },
    /// The path is that of one of the receiver's own files.
    #[error("reserved {at}")]
    Reserved { at: u32 },
    /// The file has more than 2^40 bytes, or the files up to it have more than 2^50 together.
    #[error("too large {at}")]
    TooLarge { at: u32 },
    /// The path stands at an earlier place, too.
    #[error("twice {at}")]
    Twice { at: u32 },
    #[error("out of memory")]
    NoMemory,
}

impl From<AllocError> for ManifestFail {
    ghost from_gives = { λ _ e. e ≡ OutOfMemory };

    fn from(_: AllocError) -> ManifestFail {
        ManifestFail::NoMemory
    }
}

impl<T: Drop> From<AllocFailed<T>> for ManifestFail {
    ghost from_gives = { λ _ e. e ≡ OutOfMemory };

    fn from(_: AllocFailed<T>) -> ManifestFail {
        ManifestFail::NoMemory
    }
}

/// The files of a tree, in the order of the bytes of their paths.
#[derive(Debug, Drop)]
pub struct Manifest {
    entries: Vec<Entry>,
    total: u64,
}

impl Model for Manifest {
    ghost use Rattle.std.specs.Prelude.{◌≡◌, List, sum_by};
    ghost use Rattle.wdt_tree.specs.declared.entry.Entry.{Entry};
    ghost use Rattle.wdt_tree.specs.Listing.{size_of, IsManifest};

    ghost Value = { List Entry };

    ghost view = { λ m. m.entries.items };

    ghost invariant = { λ m. IsManifest m.entries.items × (m.total ≡ sum_by size_of m.entries.items) };
}

impl Manifest {
    /// The manifest of a listing. Any refusal but `NoMemory` is the listing's: too many files, else
    /// the first file with which something is wrong, else the first path that stood earlier, too.
    pub fn check(alloc: Global, raw: Vec<RawEntry>) -> Result<Manifest, ManifestFail>
        requires { vec_len raw < 2 ^ 32 }
        ensures entries { IfOk result (λ m. Orders (map entry_of raw.items) m) }
        ensures accepted { OnOk result (IsAccepted (map entry_of raw.items)) }
        ensures refused { IfErr result (λ e. e ≢ OutOfMemory → IsRefused (map entry_of raw.items) e) }
        // Unless memory runs out, a listing that is refused is refused for just that.
        ensures refuses { (fail : ManifestFail) → IsRefused (map entry_of raw.items) fail → Refuses result fail }
    {
        if raw.len() > MAX_FILES as usize {
            return Err(ManifestFail::TooMany {
                count: raw.len() as u32,
            });
        }
        let (mut entries, total) = scanned(alloc, &raw)?;
        if let Some(at) = first_double(alloc, &entries)? {
            return Err(ManifestFail::Twice { at });
        }
        sort(&mut entries)?;
        Ok(Manifest { entries, total })
    }

    /// How many files there are, at most `MAX_FILES`.
    pub fn count(&self) -> u32
        ensures count { result ≡ length self.now }
        ensures limit { result ≤ MAX_FILES }
        ensures lawful { IsManifest self.now }
    {
        self.entries.len() as u32
    }

    /// How many bytes the files have together, at most `MAX_TOTAL`.
    pub fn total(&self) -> u64
        ensures total { result ≡ sum_by size_of self.now }
        ensures limit { result ≤ MAX_TOTAL }
    {
        self.total
    }

    /// The file at a place in the order of the paths.
    pub fn entry(&self, at: u32) -> &Entry
        requires { at < length self.now }
        ensures entry { slice_get self.now at ≡ Some result.now }
        ensures lawful { IsTrue (is_entry result.now) }
    {
        &self.entries[at as usize]
    }

    /// The place of the file of a path in the order of the paths, or None where no file has it.
    pub fn find(&self, path: &Name) -> Option<u32>
        ensures place { IfSome result (λ at. option_map path_of (slice_get self.now at) ≡ Some path.now) }
        ensures found { is_some result ≡ list_any (has_path path.now) self.now }
    {
        match self
            .entries
            .binary_search_by(|entry| entry.path.bytes().cmp(path.bytes()))
        {
            Ok(at) => Some(at as u32),
            Err(_) => None,
        }
    }

    /// The same manifest in memory of its own.
    pub fn copy(&self) -> Result<Manifest, NoMemory>
        ensures { IfOk result (λ m. m ≡ self.now) }
    {
        let mut entries = Vec::with_capacity(*self.entries.allocator(), self.entries.len())?;
        for entry in &self.entries {
            entries.push(Entry {
                path: entry.path.copy()?,
                size: entry.size,
                stamp: entry.stamp,
            })?;
        }
        Ok(Manifest {
            entries,
            total: self.total,
        })
    }
}

// The files of a listing in its order, and how many bytes they have together.
fn scanned(alloc: Global, raw: &[RawEntry]) -> Result<(Vec<Entry>, u64), ManifestFail>
    requires { length raw.now ≤ MAX_FILES }
    ensures entries { IfOk result (λ r. r.0.items ≡ map entry_of raw.now) }
    ensures total { IfOk result (λ r. r.1 ≡ sum_by size_of (map entry_of raw.now)) }
    ensures fits { IfOk result (λ r. r.1 ≤ MAX_TOTAL) }
    ensures right { OnOk result (NoFaultBefore (map entry_of raw.now) (length raw.now)) }
    ensures fault { IfErr result (λ e. e ≢ OutOfMemory → IsFirstFault (map entry_of raw.now) e) }
{
    let mut entries = Vec::with_capacity(alloc, raw.len())?;
    let mut total = 0;
    let mut at = 0;
    for listed in raw {
        let entry = checked(alloc, listed, at, total)?;
        total += entry.size;
        at += 1;
        entries.push(entry)?;
    }
    Ok((entries, total))
}

// The entry at a place, behind files of this total.
fn checked(alloc: Global, raw: &RawEntry, at: u32, total: u64) -> Result<Entry, ManifestFail>
    requires { total ≤ MAX_TOTAL }
    ensures entry { IfOk result (λ entry. entry ≡ entry_of raw.now) }
    ensures accepted { OnOk result (fault_of at total (entry_of raw.now) ≡ None) }
    ensures refused { IfErr result (λ e. e ≢ OutOfMemory → fault_of at total (entry_of raw.now) ≡ Some e) }
{
    let path = match Name::read(alloc, &raw.path) {
        Ok(path) => path,
        Err(NameFail::Bad) => return Err(ManifestFail::BadPath { at }),
        Err(NameFail::NoMemory) => return Err(ManifestFail::NoMemory),
    };
    if path.reserved() {
        return Err(ManifestFail::Reserved { at });
    }
    if raw.size > MAX_FILE_SIZE || total + raw.size > MAX_TOTAL {
        return Err(ManifestFail::TooLarge { at });
    }
    Ok(Entry {
        path,
        size: raw.size,
        stamp: raw.stamp,
    })
}

// The first place whose path stands at an earlier place, too.
fn first_double(alloc: Global, entries: &[Entry]) -> Result<Option<u32>, ManifestFail>
    requires { length entries.now ≤ MAX_FILES }
    ensures none { IfOk result (λ found. MatchOption found (NoneTwiceBefore entries.now (length entries.now)) (NoneTwiceBefore entries.now)) }
    ensures here { IfOk result (λ found. IfSome found (λ at. (at < length entries.now) × (is_twice entries.now at ≡ true))) }
    ensures memory { IfErr result (λ e. e ≡ OutOfMemory) }
{
    let mut seen = BTreeSet::new(alloc);
    let mut at = 0;
    for entry in entries {
        if !seen.insert(entry.path.text())? {
            return Ok(Some(at));
        }
        at += 1;
    }
    Ok(None)
}

// Sorts entries by the bytes of their paths.
fn sort(entries: &mut Vec<Entry>) -> Result<(), AllocError>
    ensures permutation { IsPermutation entries.old.items entries.new.items }
    ensures sorted { OnOk result (IsSortedByPath entries.new.items) }
{
    entries.sort_by(|a, b| a.path.bytes().cmp(b.path.bytes()))?;
    Ok(())
}
