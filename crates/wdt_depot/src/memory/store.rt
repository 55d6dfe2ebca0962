// The files of a disk in memory.
ghost use Rattle.std.specs.Prelude.{◌≡◌, ℕ, ◌+◌, ◌≤◌, ◌<◌, ◌^◌, List, [], length, map, vec_len, vec_capacity, OnErr, OnOk, IsOkUnless, Some};
ghost use Rattle.wdt_depot.specs.Slots.{IsOnce, IsWithin, owed_of};
ghost use Rattle.wdt_depot.specs.View.{index_of, slot_view};

use crate::memory::place::Place;
use crate::memory::taken::Taken;
use std::alloc::Global;
use std::collections::BTreeMap;

// The place of each path, the files by their places, what takes each changing call back, and how many
// files have writes that aren't synced: so many entries more there is room for.
#[derive(Debug, Drop)]
pub struct Store {
    pub alloc: Global,
    pub index: BTreeMap<String, usize>,
    pub places: Vec<Place>,
    pub taken: Vec<Taken>,
    pub owed: usize,
    pub ghost owes: { owed ≡ owed_of (map slot_view places.items) },
    pub ghost room: { vec_len taken + owed ≤ vec_capacity taken },
    pub ghost within: { IsWithin (index_of index) (length places.items) },
    pub ghost once: { IsOnce (index_of index) },
}
