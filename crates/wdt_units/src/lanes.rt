//! The lanes of a set, one after another.
ghost use Rattle.std.specs.Prelude.{◌≡◌, ◌≤◌};
ghost use Rattle.std.specs.Iterator.{YieldsFirst, item_count};

use crate::limits::MAX_LANES;
use crate::numbers::{Lane, LaneSet};

/// The lanes of a set that are still to come, the least first.
#[derive(Debug, Drop)]
pub struct Lanes {
    set: LaneSet,
    at: u8,
}

impl Lanes {
    ghost use Rattle.wdt_units.specs.LanesOf.{lanes_left, lanes_of};

    // All the lanes of a set.
    pub(crate) fn of(set: LaneSet) -> Lanes
        ensures { lanes_left result ≡ lanes_of set }
    {
        Lanes { set, at: 0 }
    }
}

impl Iterator for Lanes {
    ghost use Rattle.wdt_units.specs.LanesOf.{lanes_left};

    type Item = Lane;

    ghost next_gives = { YieldsFirst lanes_left };

    ghost remaining = { item_count lanes_left };

    fn next(&mut self) -> Option<Lane> {
        for at in self.at..MAX_LANES {
            if self.set.has(Lane(at)) {
                self.at = at + 1;
                return Some(Lane(at));
            }
        }
        self.at = MAX_LANES;
        None
    }
}
