// How a depot in memory begins, and what a test sees of it.
ghost use Rattle.std.specs.Prelude.{◌≡◌, [], map, option_map, IfOk, OnOk};
ghost use Rattle.wdt_depot.specs.Plains.{plain_disk, with_plain};
ghost use Rattle.wdt_tree.specs.Shown.{shown};
ghost use Rattle.wdt_depot.specs.Disk.{seen_of};
ghost use Rattle.wdt_depot.specs.MemState.{disk_in, fresh_state, mem_state};
ghost use Rattle.wdt_depot.specs.Memory.{told_in};

use crate::failure::DepotFail;
use crate::health::Health;
use crate::memory::MemDepot;
use crate::memory::content::new_place;
use crate::memory::index::{place_of, point};
use crate::memory::store::Store;
use std::alloc::Global;
use wdt_tree::Plain;
use wdt_units::{Name, NoMemory};

// Adds a file that is on the disk.
fn add_file(store: &mut Store, file: Plain) -> Result<(), DepotFail>
    requires { store.old.taken.items ≡ [] }
    ensures disk { OnOk result ((told_in store.new).now ≡ with_plain (shown file) (told_in store.old).now) }
    ensures taken { OnOk result (store.new.taken.items ≡ []) }
{
    let Plain {
        path,
        stamp: _,
        bytes,
    } = file;
    store.places.reserve(1)?;
    let at = store.places.len();
    match point(&mut store.index, store.alloc, &path, at) {
        Err(_) => Err(DepotFail::NoMemory),
        Ok(_) => {
            let place = new_place(store.alloc, bytes);
            store.places.push_reserved(place);
            Ok(())
        }
    }
}

impl MemDepot {
    /// A depot with these files, all of them on the disk. Their paths differ; else the first file of
    /// a path stands. Nothing is armed, no spot is entered, and all counts are 0. The changing calls of
    /// the numbers in `fails` fail by themselves, from 1.
    pub fn of(alloc: Global, files: Vec<Plain>, fails: Vec<u32>) -> Result<MemDepot, NoMemory>
        ensures { IfOk result (λ depot. mem_state depot ≡ fresh_state (plain_disk (map shown files.items)) fails.items) }
    {
        let mut store = Store::new(alloc);
        let mut left = files;
        while let Some(file) = left.pop() {
            if add_file(&mut store, file).is_err() {
                return Err(NoMemory);
            }
        }
        Ok(MemDepot {
            store,
            health: Health::of(fails),
            spots: Vec::new(alloc),
        })
    }

    /// The bytes of the file at a path as they are read, or None where no file is there.
    pub fn shown(&self, path: &Name) -> Option<&[u8]>
        ensures { option_map (λ bytes. bytes.now) result ≡ seen_of (disk_in self.now) path.now }
    {
        match place_of(&self.store.index, path) {
            None => None,
            Some(place) => Some(&self.store.places[place].bytes),
        }
    }
}
