// The system calls behind a depot of files below a folder.
ghost use Rattle.std.specs.Prelude.{◌≤◌, ◌<◌, ◌+◌, ◌^◌, length, IfOk, IsErr};

use crate::files::{make, open, open_again, read_on, rename, renew, write_on};
use crate::folders::Folders;
use crate::handle::Due;
use crate::handles::Handles;
use crate::paths::{joined, trimmed};
use crate::syncs::Syncs;
use crate::trouble::{Fault, Trouble};
use std::alloc::AllocError;
use std::fs::OpenFile;
use std::io::{self, ErrorKind};
use std::mem;
use std::os::unix::fs::FileExt;
use std::rt::Files;
use wdt_depot::MAX_END;
use wdt_units::{Name, Spot};

// Where the log is, and a new one before it is put there.
const LOG: &str = ".wlog";

const NEW_LOG: &str = ".wlog.new";

// What is known of the log in this session.
#[derive(Drop)]
enum Log {
    Unmet,
    // It was there before, and wasn't synced yet. A copy of it will be made at this path.
    Found(String),
    // All of it was synced in this session, or will be.
    Own,
}

// A folder, the files below it that are open, and what is known of the folders below it.
#[derive(Drop)]
pub struct Folder<R: Files + AllocGlobal + Clone + Drop, S: Drop> {
    rt: R,
    syncs: S,
    root: String,
    handles: Handles<R::File>,
    folders: Folders,
    log: Log,
    // A sync has failed. What was written may be lost, and a later sync may answer Ok for it.
    is_spoilt: bool,
}

impl<R: Files + AllocGlobal + Clone + Drop, S: Syncs<R::File> + Drop> Folder<R, S>
where
    R::File: FileExt,
{
    pub fn at(rt: R, root: String, syncs: S) -> Folder<R, S> {
        let alloc = rt.alloc();
        Folder {
            rt,
            syncs,
            root,
            handles: Handles::none(alloc),
            folders: Folders::none(alloc),
            log: Log::Unmet,
            is_spoilt: false,
        }
    }

    // Forgets all that is known and open, as a new session begins.
    pub fn reopen(&mut self) {
        let alloc = self.rt.alloc();
        self.handles.close_all();
        self.folders = Folders::none(alloc);
        self.log = Log::Unmet;
        self.is_spoilt = false;
    }

    fn full(&self, path: &str) -> Result<String, AllocError> {
        joined(self.rt.alloc(), trimmed(self.root.as_str()), path)
    }

    // Whether the folder of a file is there.
    fn reach(&mut self, full: &str, makes: bool) -> Result<bool, Trouble> {
        let alloc = self.rt.alloc();
        let root = trimmed(self.root.as_str());
        self.folders.reach(&self.rt, alloc, root, full, makes)
    }

    // Where the open file of a path is: None where no file is there.
    pub fn look(&mut self, path: &Name) -> Result<Option<usize>, Trouble> {
        let full = self.full(path.text())?;
        if let Some(at) = self.handles.find(full.as_str()) {
            return Ok(Some(at));
        }
        self.make_room()?;
        if !self.reach(full.as_str(), false)? {
            return Ok(None);
        }
        match open(&self.rt, full.as_str(), false) {
            Ok(Some(file)) => {
                self.meet_log(path)?;
                Ok(Some(self.handles.keep(full, file, false)))
            }
            Ok(None) => Ok(None),
            Err(reason) => Err(Trouble::of("opening", full, reason)),
        }
    }

    // Where the open file of a path is, which has to be there.
    pub fn find(&mut self, path: &Name) -> Result<usize, Trouble> {
        match self.look(path)? {
            Some(at) => Ok(at),
            None => {
                let reason = io::Error::from(ErrorKind::NotFound);
                Err(Trouble::of("opening", self.full(path.text())?, reason))
            }
        }
    }

    // A log that is there before this session made one.
    fn meet_log(&mut self, path: &Name) -> Result<(), AllocError> {
        if path.text() == LOG && matches!(self.log, Log::Unmet) {
            self.log = Log::Found(self.full(NEW_LOG)?);
        }
        Ok(())
    }

    fn own_log(&mut self, path: &Name) {
        if path.text() == LOG {
            self.log = Log::Own;
        }
    }

    // Makes room for one more open file. The one that is closed for it is synced before, where it has to
    // be, and so are all others of which a sync is due.
    fn make_room(&mut self) -> Result<(), Trouble> {
        if let Some(at) = self.handles.surplus() {
            if self.handles.is_due(at) {
                self.settle_all()?;
            }
            self.handles.close(at);
        }
        self.handles.reserve()?;
        Ok(())
    }

    pub fn enter(&mut self, spot: Spot, at: usize) {
        self.handles.enter(spot, at);
    }

    pub fn leave(&mut self, spot: Spot) {
        self.handles.leave(spot);
    }

    // A new empty file stands at the path, and stays open. All memory is taken before it is made. A sync
    // of the file that stood there isn't due any more.
    pub fn make(&mut self, path: &Name) -> Result<(), Trouble> {
        self.sound()?;
        self.settle_before(path)?;
        let full = self.full(path.text())?;
        self.make_room()?;
        self.reach(full.as_str(), true)?;
        match make(&self.rt, full.as_str()) {
            Ok(file) => {
                self.folders.list(full.as_str());
                self.handles.keep(full, file, true);
                self.own_log(path);
                Ok(())
            }
            Err(reason) => {
                // The file that stood there may be gone.
                self.handles.forget(full.as_str());
                Err(Trouble::of("making", full, reason))
            }
        }
    }

    pub fn length(&mut self, spot: Spot) -> Result<u64, Trouble> {
        let alloc = self.rt.alloc();
        let handle = self.handles.of(spot)?;
        match handle.file.metadata() {
            Ok(about) => Ok(about.len()),
            Err(reason) => Err(Trouble::at(alloc, "reading", handle.full.as_str(), reason)),
        }
    }

    pub fn read_at(&mut self, spot: Spot, offset: u64, into: &mut [u8]) -> Result<usize, Trouble>
        ensures { IfOk result (λ n. n ≤ length into.new) }
    {
        let alloc = self.rt.alloc();
        let handle = self.handles.of(spot)?;
        match read_on(&handle.file, offset, into) {
            Ok(count) => Ok(count),
            Err(reason) => Err(Trouble::at(alloc, "reading", handle.full.as_str(), reason)),
        }
    }

    // Writes the bytes. A file that was open for reading alone is opened again first.
    pub fn write_at(
        &mut self,
        spot: Spot,
        path: &Name,
        offset: u64,
        bytes: &[u8],
    ) -> Result<(), Trouble>
        ensures { 2 ^ 41 < offset + length bytes.now → IsErr result }
    {
        self.sound()?;
        self.settle_before(path)?;
        let alloc = self.rt.alloc();
        let handle = self.handles.of(spot)?;
        let full = handle.full.as_str();
        if offset > MAX_END || bytes.len() as u64 > MAX_END - offset {
            let reason = io::Error::from(ErrorKind::FileTooLarge);
            return Err(Trouble::at(alloc, "writing", full, reason));
        }
        if !handle.writes {
            match open_again(&self.rt, full, &handle.file) {
                Ok(file) => handle.file = file,
                Err(reason) => return Err(Trouble::at(alloc, "opening", full, reason)),
            }
            handle.writes = true;
        }
        if handle.due < Due::Written {
            handle.due = Due::Written;
        }
        match write_on(&handle.file, offset, bytes) {
            Ok(()) => Ok(()),
            Err(reason) => Err(Trouble::at(alloc, "writing", handle.full.as_str(), reason)),
        }
    }

    // Notes that a sync of a file was asked for, or syncs a log. It takes no memory but for a fault's text.
    pub fn sync(&mut self, spot: Spot, path: &Name) -> Result<(), Option<Fault>> {
        if self.is_spoilt {
            return Err(None);
        }
        let at = self.handles.place_of(spot);
        let synced = if path.reserved() {
            self.sync_log(at, path)
        } else {
            self.handles.note(self.rt.alloc(), at)
        };
        self.is_spoilt = synced.is_err();
        match synced {
            Ok(()) => Ok(()),
            Err(fault) => Err(Some(fault)),
        }
    }

    // Syncs a log, and before it all that was noted and all entries of folders that aren't stable.
    fn sync_log(&mut self, at: usize, path: &Name) -> Result<(), Fault> {
        let alloc = self.rt.alloc();
        self.handles.settle(alloc, &mut self.syncs)?;
        if path.text() == LOG {
            self.renew_log(at)?;
        }
        self.folders.sync(&self.rt, alloc)?;
        self.handles.sync(alloc, at)
    }

    // Puts a copy of the log that was there before this session in its place. Where the sync of an
    // earlier session failed, the system may show bytes that aren't on the disk, and take them for
    // stable; those of a new file it can't.
    fn renew_log(&mut self, at: usize) -> Result<(), Fault> {
        let alloc = self.rt.alloc();
        let Log::Found(beside) = mem::replace(&mut self.log, Log::Own) else {
            return Ok(());
        };
        self.handles.forget(beside.as_str());
        let Some(handle) = self.handles.get(at) else {
            return Ok(());
        };
        let full = handle.full.as_str();
        match renew(&self.rt, full, beside.as_str(), &handle.file) {
            Ok(file) => {
                self.folders.list(full);
                handle.file = file;
                handle.writes = true;
                Ok(())
            }
            Err(reason) => Err(Fault::at(alloc, "syncing", full, reason)),
        }
    }

    // Renames a file behind all that is to be stable before, and makes that stable, too. All memory is
    // taken before it is renamed.
    pub fn put_in_place(&mut self, from: &Name, to: &Name) -> Result<(), Trouble> {
        self.settle()?;
        let source = self.full(from.text())?;
        let target = self.full(to.text())?;
        self.reach(source.as_str(), false)?;
        self.reach(target.as_str(), true)?;
        if let Err(reason) = rename(&self.rt, source.as_str(), target.as_str()) {
            return Err(Trouble::of("putting in place", source, reason));
        }
        self.folders.list(source.as_str());
        self.folders.list(target.as_str());
        self.handles.rename(source.as_str(), target);
        self.own_log(to);
        self.settle_entries()
    }

    // Before anything is done to a log, all that it may speak of is stable.
    fn settle_before(&mut self, path: &Name) -> Result<(), Trouble> {
        if path.reserved() {
            self.settle()?;
        }
        Ok(())
    }

    // Syncs the files that were noted, and all entries of folders that aren't stable.
    fn settle(&mut self) -> Result<(), Trouble> {
        self.sound()?;
        let synced = self.handles.settle(self.rt.alloc(), &mut self.syncs);
        self.judge(synced)?;
        self.settle_entries()
    }

    // Syncs all files to which something was written. Behind a sync that failed none is tried.
    fn settle_all(&mut self) -> Result<(), Trouble> {
        self.sound()?;
        let alloc = self.rt.alloc();
        let synced = self
            .handles
            .settle_from(alloc, &mut self.syncs, Due::Written);
        self.judge(synced)
    }

    fn settle_entries(&mut self) -> Result<(), Trouble> {
        let alloc = self.rt.alloc();
        let synced = self.folders.sync(&self.rt, alloc);
        self.judge(synced)
    }

    // Nothing is changed any more once a sync has failed.
    fn sound(&self) -> Result<(), Trouble> {
        if self.is_spoilt {
            return Err(Trouble::Fault(None));
        }
        Ok(())
    }

    // A sync that failed spoils the folder.
    fn judge(&mut self, synced: Result<(), Fault>) -> Result<(), Trouble> {
        match synced {
            Ok(()) => Ok(()),
            Err(fault) => {
                self.is_spoilt = true;
                Err(Trouble::Fault(Some(fault)))
            }
        }
    }
}
