// What is done to one file in memory.
ghost use Rattle.std.specs.Prelude.{◌≡◌, ◌+◌, ◌<◌, ◌^◌, ◌++◌, [], length, take, map, OnErr, OnOk};
ghost use Rattle.wdt_depot.specs.Changes.{change_view};
ghost use Rattle.wdt_depot.specs.Slots.{after_reopen, after_sync, after_write};
ghost use Rattle.wdt_depot.specs.View.{slot_view};

use crate::memory::bytes::{overwritten, put_bytes};
use crate::memory::picking::pick_bytes;
use crate::memory::place::{Overwrite, Place};
use std::alloc::{AllocError, Global};
use std::mem;

// What a reopening took away: the bytes from `low` on, and what was pending.
pub struct Left {
    pub low: usize,
    pub tail: Vec<u8>,
    pub changes: Vec<Overwrite>,
}

// A file of which nothing is pending.
pub fn new_place(alloc: Global, bytes: Vec<u8>) -> Place
    ensures { slot_view result ≡ record { bytes = bytes.items; pending = [] } }
{
    let size = bytes.len();
    Place {
        bytes,
        pending: Vec::new(alloc),
        synced: size,
        low: size,
        spare: Vec::new(alloc),
    }
}

// Writes, and keeps what it overwrote.
pub fn write_place(
    place: &mut Place,
    alloc: Global,
    offset: usize,
    piece: &[u8],
) -> Result<(), AllocError>
    requires { offset + length piece.now < 2 ^ 64 }
    ensures ok { OnOk result (slot_view place.new ≡ after_write offset piece.now (slot_view place.old)) }
    ensures err { OnErr result (slot_view place.new ≡ slot_view place.old) }
{
    let size = place.bytes.len();
    let count = piece.len();
    let end = offset + count;
    let low = place.low.min(offset);
    let before = overwritten(alloc, &place.bytes, offset, end)?;
    place.pending.reserve(1)?;
    place.spare.reserve(size.max(end) - low)?;
    put_bytes(&mut place.bytes, offset, piece)?;
    place.low = low;
    place.pending.push_reserved(Overwrite {
        offset,
        count,
        before,
        size,
    });
    Ok(())
}

// Syncs, and hands out what was pending.
pub fn sync_place(place: &mut Place, alloc: Global) -> Vec<Overwrite>
    ensures place { slot_view place.new ≡ after_sync (slot_view place.old) }
    ensures changes { map change_view result.items ≡ (slot_view place.old).pending }
{
    let size = place.bytes.len();
    place.synced = size;
    place.low = size;
    place.spare = Vec::new(alloc);
    mem::replace(&mut place.pending, Vec::new(alloc))
}

// Leaves the bytes that the pick takes, all synced, and hands out what takes that back.
pub fn reopen_place(place: &mut Place, alloc: Global, pick: u64) -> Left
    ensures place { slot_view place.new ≡ after_reopen pick (slot_view place.old) }
    ensures changes { map change_view result.changes.items ≡ (slot_view place.old).pending }
    ensures back { take result.low place.new.bytes.items ++ result.tail.items ≡ place.old.bytes.items }
{
    let low = place.low;
    let mut tail = mem::replace(&mut place.spare, Vec::new(alloc));
    // There is room for them.
    let _ = tail.extend_from_slice(&place.bytes[low..]);
    pick_bytes(&mut place.bytes, &place.pending, place.synced, pick);
    let size = place.bytes.len();
    place.synced = size;
    place.low = size;
    let changes = mem::replace(&mut place.pending, Vec::new(alloc));
    Left { low, tail, changes }
}
