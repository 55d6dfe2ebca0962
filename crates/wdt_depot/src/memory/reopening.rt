// What a reopening makes of the files of a store. It takes no memory.
ghost use Rattle.std.specs.Prelude.{◌≡◌, ◌⊎◌, ◌<◌, length, map, slice_set, Some};
ghost use Rattle.wdt_depot.specs.Disk.{HasImagesOf};
ghost use Rattle.wdt_depot.specs.Memory.{shelf_of, told_in};
ghost use Rattle.wdt_depot.specs.Moments.{Since};
ghost use Rattle.wdt_depot.specs.Picks.{picked_disk};
ghost use Rattle.wdt_depot.specs.Slots.{after_reopen, disk_of, next_of, slot_at};

use crate::memory::content::{Left, reopen_place};
use crate::memory::store::Store;
use crate::memory::taken::Taken;

// Leaves of one file the bytes that the pick takes.
fn reopen_one(store: &mut Store, at: usize, pick: u64)
    requires { at < length store.old.places.items }
    ensures slots { (shelf_of store.new).slots ≡ slice_set (shelf_of store.old).slots at (after_reopen pick (slot_at at (shelf_of store.old).slots)) }
    ensures told { (told_in store.new ≡ told_in store.old) ⊎ (told_in store.new ≡ next_of (disk_of (shelf_of store.new)) (told_in store.old)) }
    ensures index { store.new.index ≡ store.old.index }
{
    let place = &mut store.places[at];
    if place.pending.is_empty() {
        return;
    }
    let Left { low, tail, changes } = reopen_place(place, store.alloc, pick);
    store
        .taken
        .push_reserved(Taken::Reopened(at, low, tail, changes));
    store.owed -= 1;
}

// Leaves of each file the bytes that the pick takes, all synced.
pub fn reopen_all(store: &mut Store, pick: u64)
    ensures now { (told_in store.new).now ≡ picked_disk (told_in store.old).now pick }
    ensures since { Since (HasImagesOf (told_in store.old).now) (Some (told_in store.old)) (Some (told_in store.new)) }
    ensures index { store.new.index ≡ store.old.index }
{
    for at in 0..store.places.len() {
        reopen_one(store, at, pick);
    }
}
