//! The pass of a lane at a hub over a lock.
ghost use Rattle.std.specs.Prelude.{◌≡◌};
ghost use Rattle.wdt_gate.specs.Passes.{LanePass};

use std::marker::Model;
use std::sync::ledger::{Ledger, Share};
use wdt_units::Lane;

/// The right of one lane to take turns at the hub of this ledger.
///
/// It keeps the machine's count as it last saw it. Its share of the ledger is the number of its turns,
/// which stands in proofs alone.
#[derive(Drop)]
pub struct MutexPass<L: Ledger> {
    pub(crate) lane: u8,
    pub(crate) seen: u64,
    pub(crate) share: Share<L>,
}

impl<L: Ledger> Model for MutexPass<L> {
    ghost use Rattle.std.specs.Prelude.{◌≡◌, ◌<◌};
    ghost use Rattle.wdt_gate.specs.Passes.{LanePass};

    ghost Value = { LanePass };

    ghost view = { λ p. record { lane = p.lane; seen = p.seen; turns = p.share.amount } };

    ghost invariant = { λ p. (p.lane < L.parts) × (p.share.parts ≡ 1) };
}

impl<L: Ledger> MutexPass<L> {
    /// The lane whose turns these are.
    pub fn lane(&self) -> Lane
        ensures { result.0 ≡ self.now.lane }
    {
        Lane(self.lane)
    }
}
