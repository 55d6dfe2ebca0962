//! What every hub promises.
ghost use Rattle.std.specs.Prelude.{◌≡◌, ◌≢◌, ◌≤◌, ℕ, Bool, Option, IfOk, IfErr, All, map, IsTrue};
ghost use Rattle.wdt_units.specs.Lanes.{loose};
ghost use Rattle.wdt_gate.specs.Told.{Told, HasTurned, HasLooked, Stands, IsWhole, upto};

use wdt_units::Machine;

/// There was no memory to close the hub. The hub and its passes come back as they were.
#[derive(Drop)]
pub struct Unclosed<H, P> {
    pub hub: H,
    pub passes: Vec<P>,
}

/// A machine that lanes share, each by its pass.
pub trait Hub<M: Machine>: Sized {
    /// The right of one lane to take turns.
    type Pass;

    /// How many lanes there are.
    ghost lanes: { Self → ℕ };

    /// The pass is one of this hub.
    ghost has: { Self → Self.Pass → Type 0 };

    /// The lane of a pass.
    ghost lane: { Self.Pass → ℕ };

    /// The machine's count that a pass saw last.
    ghost seen: { Self.Pass → ℕ };

    /// Whether every pass tells what it knows.
    ghost tells: { Bool };

    /// What a pass tells.
    ghost told: { Self.Pass → Option (Told M.Entry M.Stand) };

    /// One turn of the pass's lane. It waits while other lanes take theirs.
    ///
    /// `Err` is want of memory: it hands the input back, and the machine's history is as it was.
    fn turn(&self, pass: &mut Self::Pass, put: M::Put) -> Result<M::Act, M::Put>
        requires has { has self.now pass.old }
        requires fits { M.fits put }
        ensures pass { has self.now pass.new × (lane pass.new ≡ lane pass.old) }
        ensures ok { IfOk result (λ act. HasTurned M.lane_of M.legal M.turned (lane pass.old) put act (told pass.old) (told pass.new)) }
        ensures err { IfErr result (λ back. (back ≡ put) × HasLooked M.legal (told pass.old) (told pass.new)) };

    /// Waits until the machine's count isn't the one that the pass saw last. The pass has then seen
    /// the count that ended the wait.
    fn wait_for_more(&self, pass: &mut Self::Pass)
        requires { has self.now pass.old }
        ensures pass { has self.now pass.new × (lane pass.new ≡ lane pass.old) }
        ensures more { seen pass.new ≢ seen pass.old }
        ensures told { told pass.new ≡ told pass.old };

    /// The machine, once the passes of all lanes have come back, in the order of the lanes.
    ///
    /// `Err` is want of memory, and hands hub and passes back as they were.
    fn close(self, passes: Vec<Self::Pass>) -> Result<M, Unclosed<Self, Self::Pass>>
        requires passes { All (has self) passes.items }
        requires all { map lane passes.items ≡ upto 0 (lanes self) }
        ensures legal { IfOk result (λ machine. M.legal (M.history machine)) }
        ensures told { IfOk result (λ machine. All (λ pass. Stands M.history M.lane_of M.stand machine (lane pass) (told pass)) passes.items) }
        ensures loose { IfOk result (λ machine. loose M.lane_of (M.history machine) ≤ 1) }
        ensures whole { IfOk result (λ machine. IsTrue tells → IsWhole M.history M.lane_of machine (lanes self) (map told passes.items)) }
        ensures err { IfErr result (λ back. (back.hub ≡ self) × (back.passes.items ≡ passes.items)) };
}
