//! What a wire keeps of a connection's history.
ghost use Rattle.std.specs.Prelude.{ℕ, ◌≤◌, length, List};
ghost use Rattle.wdt_wire.specs.Connection.{Direction, Holds, cut, new_direction, taking, write};
ghost use Rattle.wdt_wire.specs.Ways.{PlainWay, behind, cut_way, new_way, with_bytes};

/// A direction of a wire holds just what a connection's history leaves to be taken: what was taken is a
/// front of what was written, and behind a cut neither passes its limit. Does nothing: its contract is
/// for callers' proofs.
pub fn ways_are_of_connections()
    ensures new { Holds new_direction new_way }
    ensures written { (d : Direction) (way : PlainWay) (bytes : List ℕ) → Holds d way → Holds (write bytes d) (with_bytes bytes way) }
    ensures taken { (d : Direction) (way : PlainWay) (n owed : ℕ) → n ≤ length way.untaken → Holds d way → Holds (taking n d) (behind n owed way) }
    ensures cut { (d : Direction) (way : PlainWay) (n : ℕ) → Holds d way → Holds (cut n d) (cut_way n way) }
{}
