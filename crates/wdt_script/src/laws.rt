//! What the grammar says of whole scripts.
ghost use Rattle.std.specs.Prelude.{◌≡◌, ℕ, ◌≤◌, List, Ok, Err, Some};
ghost use Rattle.wdt_units.specs.declared.limits.TheConstants.{MAX_LANES};
ghost use Rattle.wdt_script.specs.declared.event.Event.{Event};
ghost use Rattle.wdt_script.specs.Events.{event_of};
ghost use Rattle.wdt_script.specs.Lines.{lines_of};
ghost use Rattle.wdt_script.specs.Script.{script_of};
ghost use Rattle.wdt_script.specs.Spelling.{Fits, spell};
ghost use Rattle.wdt_script.specs.Unread.{AreRead, IsFirstUnread};

/// A script that is refused names its first line without a reading, and each line of one that is read
/// has one. Does nothing: its contract is for callers' proofs.
pub fn the_first_bad_line_is_named()
    ensures bad { (lanes : ℕ) (bytes : List ℕ) (n : ℕ) → script_of lanes bytes ≡ Err n → IsFirstUnread lanes (lines_of bytes) n }
    ensures read { (lanes : ℕ) (bytes : List ℕ) (events : List Event) → script_of lanes bytes ≡ Ok events → AreRead lanes (lines_of bytes) }
{}

/// Each event that may be has a line that says it. Does nothing: its contract is for callers' proofs.
pub fn each_event_has_a_line()
    ensures { (lanes : ℕ) (event : Event) → lanes ≤ MAX_LANES → Fits lanes event → event_of lanes (spell event) ≡ Some event }
{}
