//! State that lanes share.
ghost use Rattle.std.specs.Prelude.{◌≡◌, ◌≢◌, ℕ, ◌+◌, ◌≤◌, List, ◌++◌, length, Option, IfOk, IfErr};
ghost use Rattle.wdt_units.specs.Lanes.{loose, AllOf, Below};

use crate::numbers::Lane;

/// State that the lanes of an end share, and that changes by their turns.
///
/// Whoever shares it, say under a lock, knows these things of each turn: what it added to the
/// history, that it left the other lanes' stands alone, and how the lane's input and stand led to the
/// answer.
pub trait Machine {
    /// What a lane hands in.
    type Put;

    /// What a lane is to do next.
    type Act;

    /// What the history is a list of.
    type Entry;

    /// What the machine keeps of one lane alone.
    type Stand;

    /// What may be handed in.
    ghost fits: { Self.Put → Type 0 };

    /// How many lanes there are, where that is known.
    ghost lanes: { Self → Option ℕ };

    /// All that has happened, in order.
    ghost history: { Self → List Self.Entry };

    /// The lane of an entry, where it has one.
    ghost lane_of: { Self.Entry → Option ℕ };

    /// What the machine keeps of a lane. No other lane's turn changes it.
    ghost stand: { Self → ℕ → Self.Stand };

    /// The histories that may be.
    ghost legal: { List Self.Entry → Type 0 };

    /// What a turn may do: its lane and input, the history and the lane's stand before it, its answer,
    /// its new entries, and the lane's stand behind it.
    ghost turned: { ℕ → Self.Put → List Self.Entry → Self.Stand → Self.Act → List Self.Entry → Self.Stand → Type 0 };

    /// What `count` answers.
    ghost counted: { Self → ℕ };

    /// One turn of a lane. `Err` is want of memory: it hands the input back, and the history and the
    /// lane's stand stay.
    fn turn(&mut self, lane: Lane, put: Self::Put) -> Result<Self::Act, Self::Put>
        requires lane { Below (lanes self.old) lane.0 }
        requires fits { fits put }
        ensures ok { IfOk result (λ act. (more : List Self.Entry) × (history self.new ≡ history self.old ++ more) × AllOf lane_of lane.0 more × (counted self.old + length more ≤ counted self.new) × turned lane.0 put (history self.old) (stand self.old lane.0) act more (stand self.new lane.0)) }
        ensures err { IfErr result (λ back. (back ≡ put) × (history self.new ≡ history self.old) × (stand self.new lane.0 ≡ stand self.old lane.0) × (counted self.new ≡ counted self.old)) }
        ensures others { (other : ℕ) → other ≢ lane.0 → stand self.new other ≡ stand self.old other }
        ensures lanes { lanes self.new ≡ lanes self.old }
        ensures legal { legal (history self.new) };

    /// A number that never falls, and rises with each entry of the history. A lane that waits looks at
    /// it.
    fn count(&self) -> u64
        ensures count { result ≡ counted self.now }
        ensures legal { legal (history self.now) };

    /// A legal history has at most one entry without a lane.
    ghost one_loose: { (h : List Self.Entry) → legal h → loose lane_of h ≤ 1 };
}
