// What is done to the files of a store. A call that is refused for memory changes nothing.
ghost use Rattle.std.specs.Prelude.{◌≡◌, ℕ, if◌then◌else◌, ◌+◌, ◌≤◌, ◌<◌, ◌^◌, List, [], ◌++◌, length, map, OnErr, OnOk, IsOkUnless, Some, None, false};
ghost use Rattle.std.specs.Str.{bytes_eq};
ghost use Rattle.wdt_depot.specs.Disk.{made, placed, synced_at, wrote};
ghost use Rattle.wdt_depot.specs.Memory.{IsSynced, KeepsPaths, KeepsPathsBut, shelf_of, told_in};
ghost use Rattle.wdt_depot.specs.Moments.{OneStep};
ghost use Rattle.wdt_depot.specs.Slots.{next_of};

use crate::failure::DepotFail;
use crate::memory::content::{new_place, sync_place, write_place};
use crate::memory::index::{point, unpoint};
use crate::memory::store::Store;
use crate::memory::taken::Taken;
use std::alloc::Global;
use std::collections::BTreeMap;
use wdt_units::Name;

fn one_if(test: bool) -> usize
    ensures { result ≡ (if test then 1 else 0) }
{
    if test { 1 } else { 0 }
}

impl Store {
    // A store of no files.
    #[tactic(auto, unfolding(crate::specs::View::index_of))]
    pub fn new(alloc: Global) -> Store
        ensures index { (shelf_of result).index ≡ (λ path. None) }
        ensures slots { (shelf_of result).slots ≡ [] }
        ensures taken { result.taken.items ≡ [] }
    {
        Store {
            alloc,
            index: BTreeMap::new(alloc),
            places: Vec::new(alloc),
            taken: Vec::new(alloc),
            owed: 0,
        }
    }

    // Writes to a place.
    pub fn write_one(&mut self, at: usize, offset: usize, piece: &[u8]) -> Result<(), DepotFail>
        requires within { at < length self.old.places.items }
        requires fits { offset + length piece.now < 2 ^ 64 }
        ensures told { (path : List ℕ) → (shelf_of self.old).index path ≡ Some at → OnOk result (told_in self.new ≡ next_of (wrote path offset piece.now (told_in self.old).now) (told_in self.old)) }
        ensures err { OnErr result (told_in self.new ≡ told_in self.old) }
        ensures memory { IsOkUnless result DepotFail.NoMemory }
        ensures index { self.new.index ≡ self.old.index }
    {
        self.taken.reserve(self.owed + 2)?;
        let place = &mut self.places[at];
        let was_clean = place.pending.is_empty();
        match write_place(place, self.alloc, offset, piece) {
            Err(_) => Err(DepotFail::NoMemory),
            Ok(()) => {
                self.owed += one_if(was_clean);
                self.taken.push_reserved(Taken::Wrote(at));
                Ok(())
            }
        }
    }

    // Syncs a place. It takes no memory.
    pub fn sync_one(&mut self, at: usize)
        requires { at < length self.old.places.items }
        ensures told { (path : List ℕ) → (shelf_of self.old).index path ≡ Some at → IsSynced path (told_in self.old) (told_in self.new) }
        ensures index { self.new.index ≡ self.old.index }
    {
        let place = &mut self.places[at];
        if place.pending.is_empty() {
            return;
        }
        let changes = sync_place(place, self.alloc);
        self.taken.push_reserved(Taken::Synced(at, changes));
        self.owed -= 1;
    }

    // Makes an empty file at a path, in a place of its own.
    pub fn make_one(&mut self, path: &Name) -> Result<(), DepotFail>
        ensures told { OnOk result (told_in self.new ≡ next_of (made path.now (told_in self.old).now) (told_in self.old)) }
        ensures err { OnErr result (told_in self.new ≡ told_in self.old) }
        ensures memory { IsOkUnless result DepotFail.NoMemory }
        ensures paths { KeepsPaths (shelf_of self.old).index (shelf_of self.new).index }
    {
        let name = path.copy()?;
        self.taken.reserve(self.owed + 1)?;
        self.places.reserve(1)?;
        let at = self.places.len();
        match point(&mut self.index, self.alloc, path, at) {
            Err(_) => Err(DepotFail::NoMemory),
            Ok(before) => {
                let place = new_place(self.alloc, Vec::new(self.alloc));
                self.places.push_reserved(place);
                self.taken.push_reserved(Taken::Made(name, before));
                Ok(())
            }
        }
    }

    // Takes the file at a place from its path to another one.
    pub fn place_one(&mut self, from: &Name, to: &Name, at: usize) -> Result<(), DepotFail>
        requires there { (shelf_of self.old).index from.now ≡ Some at }
        requires differ { bytes_eq from.now to.now ≡ false }
        ensures told { OnOk result (told_in self.new ≡ next_of (placed from.now to.now (told_in self.old).now) (told_in self.old)) }
        ensures err { OnErr result (told_in self.new ≡ told_in self.old) }
        ensures memory { IsOkUnless result DepotFail.NoMemory }
        ensures paths { KeepsPathsBut from.now (shelf_of self.old).index (shelf_of self.new).index }
    {
        let source = from.copy()?;
        let target = to.copy()?;
        self.taken.reserve(self.owed + 1)?;
        match point(&mut self.index, self.alloc, to, at) {
            Err(_) => Err(DepotFail::NoMemory),
            Ok(before) => {
                unpoint(&mut self.index, from);
                self.taken
                    .push_reserved(Taken::Placed(source, target, at, before));
                Ok(())
            }
        }
    }

    // Takes the file at a place from its path to another one, which may be the same.
    pub fn move_one(&mut self, from: &Name, to: &Name, at: usize) -> Result<(), DepotFail>
        requires { (shelf_of self.old).index from.now ≡ Some at }
        ensures step { OnOk result (OneStep (λ d e. e ≡ placed from.now to.now d) (Some (told_in self.old)) (Some (told_in self.new))) }
        ensures err { OnErr result (told_in self.new ≡ told_in self.old) }
        ensures memory { IsOkUnless result DepotFail.NoMemory }
        ensures paths { KeepsPathsBut from.now (shelf_of self.old).index (shelf_of self.new).index }
    {
        if from.bytes() == to.bytes() {
            return Ok(());
        }
        self.place_one(from, to, at)
    }
}
