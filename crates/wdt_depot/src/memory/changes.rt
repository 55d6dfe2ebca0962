// The changing calls of a depot in memory, apart from its spots. A stop comes first, then what can't
// be done, then the calls that fail by their numbers.
ghost use Rattle.std.specs.Prelude.{◌≡◌, ℕ, ◌+◌, ◌<◌, ◌^◌, nat_lt, ◌&&◌, List, length, false, IsErr, IsErrOf, OnErr, Some};
ghost use Rattle.wdt_depot.specs.Disk.{made, placed, synced_at, wrote};
ghost use Rattle.wdt_depot.specs.Health.{state_of};
ghost use Rattle.wdt_depot.specs.Memory.{KeepsPaths, KeepsPathsBut, shelf_of, told_in};
ghost use Rattle.wdt_depot.specs.Outcome.{Outcome};
ghost use Rattle.wdt_depot.specs.Programs.{torn_write, when_odd};
ghost use Rattle.wdt_depot.specs.State.{is_behind, is_far, is_past_end, lacks};
ghost use Rattle.wdt_depot.specs.Slots.{file_of};
ghost use Rattle.wdt_depot.specs.View.{slot_view};

use crate::depot::MAX_END;
use crate::failure::DepotFail;
use crate::health::Health;
use crate::memory::index::place_of;
use crate::memory::place::Place;
use crate::memory::store::Store;
use wdt_units::{MAX_FILE_SIZE, Name};

// A file is made, where a stop strikes it by an odd pick.
pub fn make_parts(store: &mut Store, health: &mut Health, path: &Name) -> Result<(), DepotFail>
    ensures outcome { (es : List (ℕ × List ℕ)) →
        Outcome false false (made path.now) (when_odd (made path.now)) result (state_of (told_in store.old) health.old es) (state_of (told_in store.new) health.new es) }
    ensures paths { KeepsPaths (shelf_of store.old).index (shelf_of store.new).index }
{
    let turn = health.turn();
    if !turn.is_whole() {
        return health.end(turn);
    }
    store.make_one(path)?;
    health.end(turn)
}

// A file is put in place, where a stop strikes it by an odd pick. From and to the same path there is
// nothing to do.
pub fn place_parts(
    store: &mut Store,
    health: &mut Health,
    from: &Name,
    to: &Name,
) -> Result<(), DepotFail>
    ensures outcome { (es : List (ℕ × List ℕ)) →
        Outcome (lacks from.now (told_in store.old).now) (lacks from.now (told_in store.old).now) (placed from.now to.now)
        (when_odd (placed from.now to.now)) result (state_of (told_in store.old) health.old es) (state_of (told_in store.new) health.new es) }
    ensures paths { KeepsPathsBut from.now (shelf_of store.old).index (shelf_of store.new).index }
{
    let turn = health.turn();
    let Some(at) = place_of(&store.index, from) else {
        return Err(health.refuse(turn, true));
    };
    if !turn.is_whole() {
        return health.end(turn);
    }
    store.move_one(from, to, at)?;
    health.end(turn)
}

// A write, also where a stop strikes it: what the crash leaves is by the pick.
pub fn write_parts(
    store: &mut Store,
    health: &mut Health,
    at: usize,
    offset: u64,
    bytes: &[u8],
) -> Result<(), DepotFail>
    requires within { at < length store.old.places.items }
    ensures outcome { (path : List ℕ) (es : List (ℕ × List ℕ)) → (shelf_of store.old).index path ≡ Some at →
        Outcome (is_past_end offset (length bytes.now)) (is_far path offset (length bytes.now) (told_in store.old).now) (wrote path offset bytes.now)
        (torn_write path offset bytes.now) result (state_of (told_in store.old) health.old es) (state_of (told_in store.new) health.new es) }
    ensures past_end { 2 ^ 41 < offset + length bytes.now → IsErr result × told_in store.new ≡ told_in store.old }
    ensures index { store.new.index ≡ store.old.index }
{
    let turn = health.turn();
    if is_past_end(offset, bytes.len()) {
        let far = is_behind(&store.places[at], offset);
        return Err(health.refuse(turn, far));
    }
    if !turn.reaches_disk() {
        return health.end(turn);
    }
    store.write_one(at, offset as usize, bytes)?;
    health.end(turn)
}

// Whether a write would end above the greatest end.
fn is_past_end(offset: u64, count: usize) -> bool
    ensures { result ≡ is_past_end offset count }
{
    offset > MAX_END || count as u64 > MAX_END - offset
}

// Whether a place is above both the greatest size and the file's length.
fn is_behind(place: &Place, offset: u64) -> bool
    ensures { result ≡ (nat_lt (2 ^ 40) offset && is_behind offset (Some (file_of (slot_view place.now)))) }
{
    if offset <= MAX_FILE_SIZE {
        return false;
    }
    offset > place.bytes.len() as u64
}

// A sync, but not where a stop strikes it. It takes no memory, so it never answers the want of it.
pub fn sync_parts(store: &mut Store, health: &mut Health, at: usize) -> Result<(), DepotFail>
    requires { at < length store.old.places.items }
    ensures outcome { (path : List ℕ) (es : List (ℕ × List ℕ)) → (shelf_of store.old).index path ≡ Some at →
        Outcome false false (synced_at path) (λ pick d. d) result (state_of (told_in store.old) health.old es) (state_of (told_in store.new) health.new es) }
    ensures memory { IsErrOf result DepotFail.NoMemory → ⊥ }
    ensures kept { OnErr result (told_in store.new ≡ told_in store.old) }
    ensures index { store.new.index ≡ store.old.index }
{
    let turn = health.turn();
    if !turn.goes() {
        return health.end(turn);
    }
    store.sync_one(at);
    health.end(turn)
}
