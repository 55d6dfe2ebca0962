//! What a destination has of a tree.
ghost use Rattle.std.specs.Prelude.{◌≡◌, ◌^◌, ◌<◌, [], length, map, vec_len, IfOk};
ghost use Rattle.wdt_units.specs.Tree.{is_before};
ghost use Rattle.wdt_ranges.specs.Files.{have_file, is_in_order};

use crate::ranges::Ranges;
use std::alloc::Global;
use std::marker::Model;
use wdt_units::{Name, NoMemory};

/// A file that a destination names, and what is covered of it.
#[derive(Debug, Drop)]
pub struct FileHave {
    pub path: Name,
    /// The size of the whole file, in bytes.
    pub size: u64,
    /// The file's stamp, its modification time.
    pub stamp: u64,
    /// The positions whose bytes are there.
    pub spans: Ranges,
}

/// What a destination has of a tree, seen as the list of its files.
#[derive(Debug, Drop)]
pub struct Have {
    files: Vec<FileHave>,
}

impl Model for Have {
    ghost use Rattle.std.specs.Prelude.{◌<◌, ◌^◌, List, map, vec_len};
    ghost use Rattle.wdt_units.specs.Have.{HaveFile};
    ghost use Rattle.wdt_ranges.specs.Files.{have_file};

    ghost Value = { List HaveFile };

    ghost view = { λ h. map have_file h.files.items };

    ghost invariant = { λ h. vec_len h.files < 2 ^ 32 };
}

impl FileHave {
    /// The same in memory of its own.
    pub fn copy(&self) -> Result<FileHave, NoMemory>
        ensures { IfOk result (λ copy. have_file copy ≡ have_file self.now) }
    {
        Ok(FileHave {
            path: self.path.copy()?,
            size: self.size,
            stamp: self.stamp,
            spans: self.spans.copy()?,
        })
    }
}

impl Have {
    /// A have that names no file.
    pub fn none(alloc: Global) -> Have
        ensures { result ≡ [] }
    {
        Have {
            files: Vec::new(alloc),
        }
    }

    /// The have of these files, in the order that they come in. There are fewer than 2^32.
    pub fn of(files: Vec<FileHave>) -> Have
        requires { vec_len files < 2 ^ 32 }
        ensures { result ≡ map have_file files.items }
    {
        Have { files }
    }

    /// The files, fewer than 2^32.
    pub fn files(&self) -> &[FileHave]
        ensures value { map have_file result.now ≡ self.now }
        ensures few { length result.now < 2 ^ 32 }
    {
        &self.files
    }

    /// Whether each path comes before the next by its bytes.
    pub fn in_order(&self) -> bool
        ensures { result ≡ is_in_order self.now }
    {
        is_in_order(&self.files)
    }

    /// The same have in memory of its own.
    pub fn copy(&self) -> Result<Have, NoMemory>
        ensures { IfOk result (λ copy. copy ≡ self.now) }
    {
        let Ok(mut files) = Vec::with_capacity(*self.files.allocator(), self.files.len()) else {
            return Err(NoMemory);
        };
        for file in &self.files {
            let copy = file.copy()?;
            if files.push(copy).is_err() {
                return Err(NoMemory);
            }
        }
        Ok(Have { files })
    }
}

// Whether each path comes before the next by its bytes.
fn is_in_order(files: &[FileHave]) -> bool
    ensures { result ≡ is_in_order (map have_file files.now) }
{
    for at in 1..files.len() {
        if !is_before(&files[at - 1].path, &files[at].path) {
            return false;
        }
    }
    true
}

fn is_before(path: &Name, other: &Name) -> bool
    ensures { result ≡ is_before path.now other.now }
{
    path.bytes().cmp(other.bytes()).is_lt()
}
