//! A folder as a source.
//!
//! It tells nothing of what it holds: this is the trusted edge, proved only against the trait.
ghost use Rattle.std.specs.Prelude.{◌≡◌, None};
ghost use Rattle.wdt_units.specs.Counts.{Rises};
ghost use Rattle.wdt_source.specs.declared.failure.SourceFail.TheVariants.{Failed};

use crate::files::open;
use crate::names::odd_name;
use crate::paths::{joined, shown};
use crate::trouble::{Fault, Trouble};
use std::alloc::Global;
use std::fs;
use std::io::{self, ErrorKind};
use std::os::unix::fs::FileExt;
use std::rt::Files;
use std::time::{SystemTime, UNIX_EPOCH};
use wdt_source::{Source, SourceFail};
use wdt_tree::RawEntry;
use wdt_units::{Name, is_reserved};

/// The regular files of a folder and of those below it. Links, sockets, pipes and devices are
/// skipped, and so is what stands at the receiver's own paths `.wlog` and `.wlog.new`, at the root
/// alone. Whatever has taken the place of a file since the listing isn't read: that is a fault.
#[derive(Drop)]
pub struct FolderSource<R: Files + AllocGlobal + Clone + Drop> {
    rt: R,
    root: String,
    opened: Option<Opened<R::File>>,
    faults: u64,
    fault: Option<Fault>,
}

// The file that was read last stays open.
#[derive(Drop)]
struct Opened<F: Drop> {
    path: Name,
    file: F,
}

impl<R: Files + AllocGlobal + Clone + Drop> FolderSource<R> {
    ghost use Rattle.wdt_folder.specs.SourceFaults.{source_faults};

    /// A source of the files below a folder. Nothing is read yet.
    pub fn at(rt: R, root: String) -> FolderSource<R>
        ensures { source_faults result ≡ 0 }
    {
        FolderSource {
            rt,
            root,
            opened: None,
            faults: 0,
            fault: None,
        }
    }

    /// What went wrong last.
    pub fn fault(&self) -> Option<&Fault> {
        self.fault.as_ref()
    }

    /// The path at a place of the listing, for a message: the folder is listed again. None where
    /// that fails, or where the folder has fewer files by now.
    pub fn path_at(&self, alloc: Global, at: u32) -> Option<String> {
        let mut raw = self.list_all(alloc).ok()?;
        if (at as usize) < raw.len() {
            return String::from_utf8(raw.swap_remove(at as usize).path).ok();
        }
        None
    }

    fn list_all(&self, alloc: Global) -> Result<Vec<RawEntry>, Trouble> {
        let mut raw = Vec::new(alloc);
        let mut folders = Vec::new(alloc);
        folders.push(String::new(alloc))?;
        for _ in 0..u64::MAX {
            let Some(folder) = folders.pop() else {
                break;
            };
            self.list_folder(alloc, folder.as_str(), &mut folders, &mut raw)?;
        }
        Ok(raw)
    }

    // The files of one folder, and the folders in it, by their paths below the root.
    fn list_folder(
        &self,
        alloc: Global,
        folder: &str,
        folders: &mut Vec<String>,
        raw: &mut Vec<RawEntry>,
    ) -> Result<(), Trouble> {
        let full = joined(alloc, self.root.as_str(), folder)?;
        let entries = match fs::read_dir(&self.rt, full.as_str()) {
            Ok(entries) => entries,
            Err(reason) => return Err(Trouble::of("listing", full, reason)),
        };
        for entry in entries {
            let entry = match entry {
                Ok(entry) => entry,
                Err(reason) if reason.kind() == ErrorKind::InvalidFilename => {
                    let name = odd_name(&self.rt, alloc, full.as_str());
                    return Err(Trouble::Fault(Some(Fault::of_name(full, name, reason))));
                }
                Err(reason) => return Err(Trouble::of("listing", full, reason)),
            };
            let path = joined(alloc, folder, entry.file_name())?;
            if is_reserved(path.as_bytes()) {
                continue;
            }
            match entry.metadata() {
                Ok(about) if about.is_dir() => folders.push(path)?,
                Ok(about) if about.is_file() => raw.push(RawEntry {
                    path: path.into_bytes(),
                    size: about.len(),
                    stamp: stamp(about.modified()),
                })?,
                Ok(_) => {}
                Err(reason) => {
                    let full = joined(alloc, self.root.as_str(), path.as_str())?;
                    return Err(Trouble::of("looking at", full, reason));
                }
            }
        }
        Ok(())
    }

    fn read(&mut self, path: &Name, offset: u64, into: &mut [u8]) -> Result<(), Trouble>
    where
        R::File: FileExt,
        ensures faults { self.new.faults ≡ self.old.faults }
    {
        self.open(path)?;
        let read = match &self.opened {
            Some(opened) => opened.file.read_exact_at(into, offset),
            None => Err(io::Error::from(ErrorKind::NotFound)),
        };
        match read {
            Ok(()) => Ok(()),
            Err(reason) => {
                let full = shown(*self.root.allocator(), self.root.as_str(), path.text());
                Err(Trouble::of("reading", full, reason))
            }
        }
    }

    // Has the file at a path open.
    fn open(&mut self, path: &Name) -> Result<(), Trouble>
        ensures faults { self.new.faults ≡ self.old.faults }
    {
        if let Some(opened) = &self.opened {
            if opened.path.bytes() == path.bytes() {
                return Ok(());
            }
        }
        let full = joined(*self.root.allocator(), self.root.as_str(), path.text())?;
        let path = path.copy()?;
        match open(&self.rt, full.as_str(), false) {
            Ok(Some(file)) => {
                self.opened = Some(Opened { path, file });
                Ok(())
            }
            Ok(None) => Err(Trouble::of("reading", full, io::Error::from(ErrorKind::NotFound))),
            Err(reason) => Err(Trouble::of("reading", full, reason)),
        }
    }

    fn fail(&mut self, fault: Option<Fault>) -> SourceFail
        ensures failed { result ≡ Failed }
        ensures counted { Rises self.old.faults self.new.faults }
    {
        self.faults = self.faults.saturating_add(1);
        self.fault = fault;
        SourceFail::Failed
    }
}

impl<R: Files + AllocGlobal + Clone + Drop> Source for FolderSource<R>
where
    R::File: FileExt,
{
    ghost use Rattle.wdt_folder.specs.SourceFaults.{source_faults};

    ghost told = { λ _. None };

    ghost listing = { λ _. None };

    ghost faults = { λ s. source_faults s };

    ghost slips = { λ _. 0 };

    fn list(&mut self, alloc: Global) -> Result<Vec<RawEntry>, SourceFail> {
        match self.list_all(alloc) {
            Ok(raw) if raw.len() < 4_294_967_296 => Ok(raw),
            // No folder has so many files: this keeps their count within a u32.
            Ok(_) => Err(SourceFail::NoMemory),
            Err(Trouble::Fault(fault)) => Err(self.fail(fault)),
            Err(Trouble::NoMemory) => Err(SourceFail::NoMemory),
        }
    }

    fn read_exact_at(
        &mut self,
        path: &Name,
        offset: u64,
        into: &mut [u8],
    ) -> Result<(), SourceFail> {
        match self.read(path, offset, into) {
            Ok(()) => Ok(()),
            Err(Trouble::Fault(fault)) => Err(self.fail(fault)),
            Err(Trouble::NoMemory) => Err(SourceFail::NoMemory),
        }
    }

    ghost told_is_tree = { λ _. tt };

    ghost told_is_listed = { λ _. tt };
}

// Nanoseconds since 1970, or 0 where they aren't told.
fn stamp(modified: io::Result<SystemTime>) -> u64 {
    let Ok(time) = modified else {
        return 0;
    };
    match time.duration_since(UNIX_EPOCH) {
        Ok(since) => u64::try_from(since.as_nanos()).unwrap_or(0),
        Err(_) => 0,
    }
}
