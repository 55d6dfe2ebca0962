//! Small numbers that must not be mixed up.
ghost use Rattle.std.specs.Prelude.{◌≡◌, ◌==◌, ◌<◌, ◌≤◌};
ghost use Rattle.wdt_units.specs.LaneSets.{first_lanes, has_lane, lanes_with, lanes_without, no_lanes, only_lane};
ghost use Rattle.wdt_units.specs.LanesOf.{lanes_left, lanes_of};

use crate::lanes::Lanes;
use crate::limits::MAX_LANES;

/// A lane: one sender thread, the receiver thread of the same number, and the connection between
/// them. Lanes count from 0; an end has 1 to 16.
#[derive(Clone, Copy, Debug, PartialEq, Eq, PartialOrd, Ord, Hash)]
pub struct Lane(pub u8);

/// The number of a connection on its lane, from 1.
#[derive(Clone, Copy, Debug, PartialEq, Eq, PartialOrd, Ord, Hash)]
pub struct Conn(pub u16);

/// A set of lanes: bit l stands for lane l.
#[derive(Clone, Copy, Debug, PartialEq, Eq, Hash)]
pub struct LaneSet(pub u16);

impl LaneSet {
    /// The set of no lane.
    pub fn empty() -> LaneSet
        ensures { result ≡ no_lanes }
    {
        LaneSet(0)
    }

    /// The set of one lane.
    pub fn only(lane: Lane) -> LaneSet
        requires { lane.0 < MAX_LANES }
        ensures { result ≡ only_lane lane.0 }
    {
        LaneSet(1 << lane.0)
    }

    /// The set of the first so many lanes.
    pub fn first(count: u8) -> LaneSet
        requires { count ≤ MAX_LANES }
        ensures { result ≡ first_lanes count }
    {
        let above: u32 = 1 << count;
        LaneSet((above - 1) as u16)
    }

    /// Whether a lane is in the set.
    pub fn has(self, lane: Lane) -> bool
        requires { lane.0 < MAX_LANES }
        ensures { result ≡ has_lane self lane.0 }
    {
        (self.0 >> lane.0) & 1 == 1
    }

    /// Whether no lane is in the set.
    pub fn is_empty(self) -> bool
        ensures { result ≡ (self.0 == 0) }
    {
        self.0 == 0
    }

    /// The lanes of the set, the least first.
    pub fn lanes(self) -> Lanes
        ensures { lanes_left result ≡ lanes_of self }
    {
        Lanes::of(self)
    }

    /// The lanes that are in this set or in the other.
    #[tactic(auto, unfolding(crate::specs::LaneSets::lanes_with))]
    pub fn with(self, other: LaneSet) -> LaneSet
        ensures { result ≡ lanes_with self other }
    {
        LaneSet(self.0 | other.0)
    }

    /// The lanes of this set that aren't in the other.
    pub fn without(self, other: LaneSet) -> LaneSet
        ensures { result ≡ lanes_without self other }
    {
        LaneSet(self.0 & !other.0)
    }
}

/// A place among the files that a depot holds open.
#[derive(Clone, Copy, Debug, PartialEq, Eq, Hash)]
pub struct Spot(pub u16);
