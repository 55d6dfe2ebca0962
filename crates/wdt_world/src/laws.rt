//! What a wire shows of a connection by messages.
ghost use Rattle.std.specs.Prelude.{◌≡◌, ℕ, ◌≤◌, ◌&&◌, not, Bool, List, false, map, true};
ghost use Rattle.std.specs.List.{flat_map};
ghost use Rattle.wdt_codec.specs.declared.frames.Frame.{Frame};
ghost use Rattle.wdt_wire.specs.declared.side.Side.TheVariants.{Down, Up};
ghost use Rattle.wdt_wire.specs.declared.taken.Taken.{Taken};
ghost use Rattle.wdt_wire.specs.Wires.{FindsFrame, FindsPiece, PlainWire, can_write, cut_wire, left_by, new_wire, written};
ghost use Rattle.wdt_pact.specs.Bytes.{spell_up};
ghost use Rattle.wdt_pact.specs.Each.{Each};
ghost use Rattle.wdt_pact.specs.Links.{Link, cut_link, is_cut, new_link, with_sent};
ghost use Rattle.wdt_world.specs.Finding.{BeginsWithFrame, BeginsWithPiece, FoundDown, FoundUp};
ghost use Rattle.wdt_world.specs.Said.{FitsSaid, Said, message_of, written_as};
ghost use Rattle.wdt_world.specs.Shown.{IsAnswer, ShowsLink};

use wdt_codec::streams_have_one_reading;

/// A wire that shows a connection shows it behind each call: what is written is said there, and works where
/// it does there; what is found is the message at the front, exactly where that can be taken whole; and what
/// is cut, and who has left, is so there. Does nothing: its contract is for callers' proofs.
pub fn wires_show_connections()
    ensures begins { ShowsLink false false new_wire new_link }
    ensures wrote_down { (s r : Bool) (wire : PlainWire) (link : Link) (said : List Said) → Each FitsSaid said → ShowsLink s r wire link
        → ShowsLink s r (written wire Down (flat_map written_as said)) record link { down = with_sent link.down (map message_of said) } }
    ensures wrote_up { (s r : Bool) (wire : PlainWire) (link : Link) (frames : List Frame) → Each IsAnswer frames → ShowsLink s r wire link
        → ShowsLink s r (written wire Up (spell_up frames)) record link { up = with_sent link.up frames } }
    ensures works_down { (s r : Bool) (wire : PlainWire) (link : Link) → ShowsLink s r wire link → can_write wire Down ≡ (not (is_cut link.down) && not r) }
    ensures works_up { (s r : Bool) (wire : PlainWire) (link : Link) → ShowsLink s r wire link → can_write wire Up ≡ (not (is_cut link.up) && not s) }
    ensures found_up { (s r : Bool) (old new : PlainWire) (link : Link) (taken : Taken) → ShowsLink s r old link → s ≡ false → FindsFrame Up taken old new → FoundUp s r taken new link }
    ensures found_down { (s r : Bool) (old new : PlainWire) (link : Link) (taken : Taken) → ShowsLink s r old link → r ≡ false → BeginsWithFrame link.down.sent
        → FindsFrame Down taken old new → FoundDown s r taken new link }
    ensures found_piece { (s r : Bool) (old new : PlainWire) (link : Link) (n : ℕ) (taken : Taken) → ShowsLink s r old link → r ≡ false → 1 ≤ n → BeginsWithPiece n link.down.sent
        → FindsPiece Down n taken old new → FoundDown s r taken new link }
    ensures cuts { (s r : Bool) (wire : PlainWire) (link : Link) (down up : ℕ) → ShowsLink s r wire link → ShowsLink s r (cut_wire down up wire) (cut_link down up link) }
    ensures sender_leaves { (s r : Bool) (wire : PlainWire) (link : Link) → ShowsLink s r wire link → ShowsLink true r (left_by wire Down) link }
    ensures receiver_leaves { (s r : Bool) (wire : PlainWire) (link : Link) → ShowsLink s r wire link → ShowsLink s true (left_by wire Up) link }
{
    streams_have_one_reading();
}
