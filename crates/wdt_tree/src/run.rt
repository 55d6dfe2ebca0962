//! What a whole run is told of.
ghost use Rattle.std.specs.Prelude.{Option, None};
ghost use Rattle.wdt_tree.specs.Told.{ToldRun};

use std::marker::Brand;

/// The tree that a run copies and what the destination has of it. Contracts see it, and no code
/// computes it; it may be untold. A type parameter `N: Run` lets links and ends say that what they
/// carry is of this tree.
pub trait Run {
    ghost told: { Option ToldRun };
}

/// A run that tells nothing, as over sockets.
#[derive(Clone, Copy, Debug, PartialEq, Eq)]
pub struct Untold;

impl Run for Untold {
    ghost told = { None };
}

/// A run that is picked where it is known: code that is generic over `N: Run` is called with `Brand`.
impl Run for Brand {
    ghost told = { None };
}
