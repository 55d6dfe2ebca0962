//! Sets of the lanes that have a flag.
ghost use Rattle.std.specs.Prelude.{◌≡◌, ◌<◌, ◌++◌, ◌∷◌, [], Bool, List, length};
ghost use Rattle.wdt_lanes.specs.LaneLists.{HasFlags};

use wdt_units::{Lane, LaneSet, MAX_LANES};

/// The set with the next lane, where that one has a flag: a set of so many flags is one of one more.
pub fn with_flag(set: LaneSet, lane: Lane, flag: bool) -> LaneSet
    requires { lane.0 < MAX_LANES }
    ensures { (flags : List Bool) → length flags ≡ lane.0 → HasFlags set flags → HasFlags result (flags ++ flag ∷ []) }
{
    if flag {
        set.with(LaneSet::only(lane))
    } else {
        set
    }
}
