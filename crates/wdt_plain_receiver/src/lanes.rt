//! The lanes of an end.
ghost use Rattle.std.specs.Prelude.{◌<◌};

use wdt_units::Lane;

/// How many lanes the end has.
pub const LANES: u8 = 3;

/// The place of a lane in a list of all lanes.
pub fn place_of(lane: Lane) -> usize
    ensures { result < LANES }
{
    lane.0 as usize % LANES as usize
}
