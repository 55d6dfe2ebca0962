//! A folder as a depot.
//!
//! It tells nothing of what it holds: this is the trusted edge, proved only against the trait.
ghost use Rattle.std.specs.Prelude.{◌≡◌, map, None, OnOk, OnErr, IfOk, IsErr, IsErrOf, IsSome, false, IsTrue};
ghost use Rattle.wdt_depot.specs.Spots.{entered_view};
ghost use Rattle.wdt_depot.specs.State.{Counts, IsCounted, IsKept, OnlyLooks, counted, path_of};
ghost use Rattle.wdt_folder.specs.Untold.{is_barred, untold};

use crate::folder::Folder;
use crate::syncs::Syncs;
use crate::trouble::{Fault, Trouble};
use std::os::unix::fs::FileExt;
use std::rt::Files;
use wdt_depot::{Depot, DepotFail, Entered, Health, drop_spot, path_at, push_spot};
use wdt_units::{Failed, Name, Spot};

/// Files below a folder, as a depot. It tells nothing of what it holds.
///
/// The folders of a file are made with the file, and the root too. A link, a folder or a pipe at a
/// file's path is a fault, and so is a link on the way to it. But `make` unlinks a file or a link that
/// stands at its path, so what the link leads to and the file's other names stay as they are.
///
/// A sync of a file is noted alone, unless the file was synced and nothing was written to it since. All
/// noted files are synced together, as `Syncs` says, and with them the entries of folders, before `.wlog`
/// or `.wlog.new` is made, written or synced next, or any file put in place; one that fails there fails
/// that call, which does nothing else then. So a log never speaks of bytes, or of a file that was made,
/// that a crash may take. Nothing else is to count on a sync before.
///
/// Once a sync has failed, each later changing call fails until `reopen`, which drops what was noted.
/// The first sync of a log that was there before puts a copy of it in its place, which is made at
/// `.wlog.new`: what is read of it might not be on the disk.
///
/// At most 256 files stay open, those that were used lately, so nobody else may change the folder
/// meanwhile.
#[derive(Drop)]
pub struct FolderDepot<R: Files + AllocGlobal + Clone + Drop, S: Drop> {
    pub(crate) health: Health,
    pub(crate) spots: Vec<Entered>,
    pub(crate) folder: Folder<R, S>,
    fault: Option<Fault>,
}

impl<R: Files + AllocGlobal + Clone + Drop, S: Syncs<R::File> + Drop> FolderDepot<R, S>
where
    R::File: FileExt,
{
    ghost use Rattle.wdt_folder.specs.FolderState.{folder_state};
    ghost use Rattle.wdt_folder.specs.Untold.{fresh};

    /// A depot of the files below a folder, which need not be there, and how they are to be synced. Nothing
    /// is touched yet, and no memory is taken.
    pub fn at(rt: R, root: String, syncs: S) -> FolderDepot<R, S>
        ensures { folder_state result ≡ fresh }
    {
        let alloc = rt.alloc();
        FolderDepot {
            health: Health::of(Vec::new(alloc)),
            spots: Vec::new(alloc),
            folder: Folder::at(rt, root, syncs),
            fault: None,
        }
    }

    /// What went wrong last, but for stops.
    pub fn fault(&self) -> Option<&Fault> {
        self.fault.as_ref()
    }

    // Whether a stop bars a changing call: it has struck, or strikes the call.
    fn is_barred(&self) -> bool
        ensures { result ≡ is_barred self.now.health }
    {
        if self.health.is_down() {
            return true;
        }
        matches!(self.health.armed, Some((1, _)))
    }

    // Counts what a stop bars.
    fn bar(&mut self) -> Result<(), DepotFail>
        requires { IsTrue (is_barred self.old.health) }
        ensures failed { result ≡ Err DepotFail.Failed }
        ensures memory { IsKept result (folder_state self.old) (folder_state self.new) }
        ensures stop { IsCounted result (folder_state self.old) (folder_state self.new) }
        ensures spots { (folder_state self.new).spots ≡ (folder_state self.old).spots }
        ensures counts { Counts (IsErrOf result DepotFail.Failed) (folder_state self.old) (folder_state self.new) }
    {
        if self.health.is_down() {
            return Err(self.health.fault());
        }
        match self.health.armed {
            Some((_, pick)) => Err(self.health.strike(pick)),
            None => Err(self.health.fault()),
        }
    }

    // Counts a changing call by how it went.
    fn settle(&mut self, done: Result<(), Trouble>) -> Result<(), DepotFail>
        requires { is_barred self.old.health ≡ false }
        ensures failed { IsErr done → IsErr result }
        ensures memory { IsKept result (folder_state self.old) (folder_state self.new) }
        ensures stop { IsCounted result (folder_state self.old) (folder_state self.new) }
        ensures up { OnOk result (self.new.health.struck ≡ None) }
        ensures spots { (folder_state self.new).spots ≡ (folder_state self.old).spots }
        ensures counts { Counts (IsErrOf result DepotFail.Failed) (folder_state self.old) (folder_state self.new) }
    {
        match done {
            Ok(()) => {
                self.health.count();
                Ok(())
            }
            Err(Trouble::NoMemory) => Err(DepotFail::NoMemory),
            Err(Trouble::Fault(fault)) => {
                self.note(fault);
                self.health.count();
                Err(self.health.own_fault(false))
            }
        }
    }

    // Keeps the words of a fault that has some.
    fn note(&mut self, fault: Option<Fault>)
        ensures { folder_state self.new ≡ folder_state self.old }
    {
        if fault.is_some() {
            self.fault = fault;
        }
    }

    // A call that looks, behind a stop that has struck.
    fn down<T>(&mut self) -> Result<T, DepotFail>
        requires { IsSome self.old.health.struck }
        ensures failed { result ≡ Err DepotFail.Failed }
        ensures looks { OnlyLooks (folder_state self.old) (folder_state self.new) }
        ensures memory { IsKept result (folder_state self.old) (folder_state self.new) }
        ensures spots { (folder_state self.new).spots ≡ (folder_state self.old).spots }
        ensures counts { Counts (IsErrOf result DepotFail.Failed) (folder_state self.old) (folder_state self.new) }
    {
        Err(self.health.fault())
    }

    // A call that looked and found trouble.
    fn miss<T>(&mut self, trouble: Trouble) -> Result<T, DepotFail>
        requires { self.old.health.struck ≡ None }
        ensures failed { IsErr result }
        ensures looks { OnlyLooks (folder_state self.old) (folder_state self.new) }
        ensures memory { IsKept result (folder_state self.old) (folder_state self.new) }
        ensures spots { (folder_state self.new).spots ≡ (folder_state self.old).spots }
        ensures counts { Counts (IsErrOf result DepotFail.Failed) (folder_state self.old) (folder_state self.new) }
    {
        match trouble {
            Trouble::NoMemory => Err(DepotFail::NoMemory),
            Trouble::Fault(fault) => {
                self.note(fault);
                Err(self.health.own_fault(false))
            }
        }
    }
}

// The path of an entered spot.
fn path_in(spots: &Vec<Entered>, spot: Spot) -> &Name
    requires { IsSome (path_of spot.0 (map entered_view spots.now.items)) }
{
    match path_at(spots, spot) {
        Some(path) => path,
        None => unreachable!(),
    }
}

impl<R: Files + AllocGlobal + Clone + Drop, S: Syncs<R::File> + Drop> Depot for FolderDepot<R, S>
where
    R::File: FileExt,
{
    ghost use Rattle.wdt_folder.specs.FolderState.{folder_state};

    ghost state = { λ d. folder_state d };

    fn make(&mut self, path: &Name) -> Result<(), DepotFail> {
        if self.is_barred() {
            return self.bar();
        }
        let done = self.folder.make(path);
        self.settle(done)
    }

    fn enter(&mut self, path: &Name) -> Result<Option<Spot>, DepotFail> {
        if self.health.is_down() {
            return self.down();
        }
        match self.folder.look(path) {
            Ok(None) => Ok(None),
            Ok(Some(at)) => match push_spot(&mut self.spots, path) {
                Ok(spot) => {
                    self.folder.enter(spot, at);
                    Ok(Some(spot))
                }
                Err(_) => Err(DepotFail::NoMemory),
            },
            Err(trouble) => self.miss(trouble),
        }
    }

    fn need(&mut self, path: &Name) -> Result<Spot, DepotFail> {
        if self.health.is_down() {
            return self.down();
        }
        match self.folder.find(path) {
            Ok(at) => match push_spot(&mut self.spots, path) {
                Ok(spot) => {
                    self.folder.enter(spot, at);
                    Ok(spot)
                }
                Err(_) => Err(DepotFail::NoMemory),
            },
            Err(trouble) => self.miss(trouble),
        }
    }

    fn leave(&mut self, spot: Spot) {
        self.folder.leave(spot);
        drop_spot(&mut self.spots, spot);
    }

    fn length(&mut self, spot: Spot) -> Result<u64, DepotFail> {
        if self.health.is_down() {
            return self.down();
        }
        match self.folder.length(spot) {
            Ok(length) => Ok(length),
            Err(trouble) => self.miss(trouble),
        }
    }

    fn read_at(&mut self, spot: Spot, offset: u64, into: &mut [u8]) -> Result<usize, DepotFail> {
        if self.health.is_down() {
            return self.down();
        }
        match self.folder.read_at(spot, offset, into) {
            Ok(count) => Ok(count),
            Err(trouble) => self.miss(trouble),
        }
    }

    fn write_at(&mut self, spot: Spot, offset: u64, bytes: &[u8]) -> Result<(), DepotFail> {
        if self.is_barred() {
            return self.bar();
        }
        let path = path_in(&self.spots, spot);
        let done = self.folder.write_at(spot, path, offset, bytes);
        self.settle(done)
    }

    fn sync(&mut self, spot: Spot) -> Result<(), Failed> {
        if self.is_barred() {
            return match self.bar() {
                Ok(()) => Ok(()),
                Err(_) => Err(Failed),
            };
        }
        let path = path_in(&self.spots, spot);
        match self.folder.sync(spot, path) {
            Ok(()) => {
                self.health.count();
                Ok(())
            }
            Err(fault) => {
                self.note(fault);
                self.health.count();
                let _ = self.health.own_fault(false);
                Err(Failed)
            }
        }
    }

    fn put_in_place(&mut self, from: &Name, to: &Name) -> Result<(), DepotFail> {
        if self.is_barred() {
            return self.bar();
        }
        let done = self.folder.put_in_place(from, to);
        self.settle(done)
    }

    ghost sound = { λ _. tt };

    ghost spots_stand = { λ _. tt };
}
