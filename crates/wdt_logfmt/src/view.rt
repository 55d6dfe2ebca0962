//! What a log says.
ghost use Rattle.std.specs.Prelude.{◌≡◌, map, IfOk, OnOk, IsPermutation, IsTrue};
ghost use Rattle.wdt_ranges.specs.Files.{have_file, is_in_order};
ghost use Rattle.wdt_logfmt.specs.Sorting.{IsSortedByPath};
ghost use Rattle.wdt_logfmt.specs.View.{have_of, have_of_file, is_view, named_files};

use std::alloc::Global;
use wdt_ranges::{FileHave, Have};
use wdt_units::NoMemory;

/// A file that a log names, with what is covered of it.
#[derive(Debug, Drop)]
pub struct LogFile {
    /// The number by which the entries call the file, below 262,144.
    pub number: u32,
    pub have: FileHave,
}

/// What a log says. The files rise by number, and no path stands twice.
#[derive(Debug, Drop)]
pub struct LogView {
    pub files: Vec<LogFile>,
    /// The place of the gate byte that ends the log, in bytes from its start.
    pub end: u64,
}

impl LogView {
    /// What the destination has by this log: the files in the order of their paths.
    pub fn have(&self, alloc: Global) -> Result<Have, NoMemory>
        requires { IsTrue (is_view (named_files self.now.files.items)) }
        ensures have { IfOk result (λ have. have ≡ have_of (named_files self.now.files.items)) }
        ensures in_order { IfOk result (λ have. IsTrue (is_in_order have)) }
    {
        let mut files = copies(alloc, &self.files)?;
        sort(&mut files)?;
        Ok(Have::of(files))
    }
}

fn copies(alloc: Global, files: &[LogFile]) -> Result<Vec<FileHave>, NoMemory>
    ensures { IfOk result (λ copies. map have_file copies.items ≡ map have_of_file (named_files files.now)) }
{
    let mut copies = Vec::new(alloc);
    for file in files {
        let copy = file.have.copy()?;
        if copies.push(copy).is_err() {
            return Err(NoMemory);
        }
    }
    Ok(copies)
}

// Sorts files by the bytes of their paths.
fn sort(files: &mut Vec<FileHave>) -> Result<(), NoMemory>
    ensures permutation { IsPermutation files.old.items files.new.items }
    ensures sorted { OnOk result (IsSortedByPath files.new.items) }
{
    match files.sort_by(|a, b| a.path.bytes().cmp(b.path.bytes())) {
        Ok(()) => Ok(()),
        Err(_) => Err(NoMemory),
    }
}
