// Which bytes a pick leaves of a file.
ghost use Rattle.std.specs.Prelude.{◌≡◌, ℕ, ◌+◌, ◌%◌, ◌<◌, if◌then◌else◌, length, map, slice_index};
ghost use Rattle.wdt_depot.specs.Picks.{is_settled, picked_bytes};
ghost use Rattle.wdt_depot.specs.Slots.{before_all, file_with, range_of, undo_change};
ghost use Rattle.wdt_depot.specs.Changes.{change_view};

use crate::memory::bytes::{fill, put_within};
use crate::memory::place::Overwrite;

// The picks that leave a file as at its last sync, and as it was written.
const AS_SYNCED: u64 = 0;

const AS_WRITTEN: u64 = 1;

// Takes a write back.
fn take_back(bytes: &mut Vec<u8>, change: &Overwrite)
    ensures { bytes.new.items ≡ undo_change (change_view change.now) bytes.old.items }
{
    bytes.truncate(change.size);
    put_within(bytes, change.offset, &change.before);
}

// Takes all of the writes back, the newest first.
fn take_all_back(bytes: &mut Vec<u8>, pending: &[Overwrite])
    ensures { bytes.new.items ≡ before_all (map change_view pending.now) bytes.old.items }
{
    for done in 0..pending.len() {
        take_back(bytes, &pending[pending.len() - 1 - done]);
    }
}

// Fills what isn't on the disk.
fn fill_unsettled(bytes: &mut [u8], pending: &[Overwrite], synced: usize, pick: u64)
    ensures { (k : ℕ) → k < length bytes.old → slice_index bytes.new k ≡ (if is_settled synced (map range_of (map change_view pending.now)) k then slice_index bytes.old k else (pick + k) % 256) }
{
    for change in pending {
        let end = change.offset.saturating_add(change.count).min(bytes.len());
        fill(bytes, change.offset, end, pick);
    }
    let end = bytes.len();
    fill(bytes, synced, end, pick);
}

// Makes the bytes those that the pick takes.
pub fn pick_bytes(bytes: &mut Vec<u8>, pending: &[Overwrite], synced: usize, pick: u64)
    requires { synced ≡ length (before_all (map change_view pending.now) bytes.old.items) }
    ensures { bytes.new.items ≡ picked_bytes pick (file_with bytes.old.items (map change_view pending.now)) }
{
    if pick == AS_SYNCED {
        take_all_back(bytes, pending);
        return;
    }
    if pick == AS_WRITTEN {
        return;
    }
    fill_unsettled(bytes, pending, synced, pick);
}
