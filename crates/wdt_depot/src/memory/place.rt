// A file in memory.
ghost use Rattle.std.specs.Prelude.{◌≡◌, map, vec_len, vec_capacity};
ghost use Rattle.wdt_depot.specs.Slots.{IsPlace};
ghost use Rattle.wdt_depot.specs.Changes.{change_view};

// A write that isn't synced: its range, what it overwrote, and the file's length before it.
#[derive(Debug, Drop)]
pub struct Overwrite {
    pub offset: usize,
    pub count: usize,
    pub before: Vec<u8>,
    pub size: usize,
}

// A file. Its length at the last sync is `synced`; below `low` nothing is pending, and `spare` has room
// for the bytes from there on, so that a reopening takes no memory.
#[derive(Debug, Drop)]
pub struct Place {
    pub bytes: Vec<u8>,
    pub pending: Vec<Overwrite>,
    pub synced: usize,
    pub low: usize,
    pub spare: Vec<u8>,
    pub ghost kept: { IsPlace bytes.items (map change_view pending.items) synced low (vec_capacity spare) },
    pub ghost empty: { vec_len spare ≡ 0 },
}
