//! Laws of what the specifications of this crate define. The functions do nothing: their contracts
//! are the laws.
ghost use Rattle.std.specs.Prelude.{◌≡◌, ◌≤◌, ◌<◌, ◌++◌, ℕ, List, true};
ghost use Rattle.wdt_units.specs.LaneSets.{has_lane};
ghost use Rattle.wdt_funnel.specs.Barrier.{Barrier, barrier_from, barrier_of, is_open, set_at, untold};
ghost use Rattle.wdt_funnel.specs.Happenings.{Happening, AreOn, has_named, is_closed, is_confirmed, is_heard, is_idle, is_ready, is_telling, is_untold};

/// A barrier says of each lane what its history says: which lanes are idle, closed, heard, told of
/// and untold, and whether the finish is ready.
pub fn a_barrier_says_what_happened()
    ensures idle { (lanes : ℕ) (history : List Happening) (l : ℕ) → lanes ≤ 16 → AreOn lanes history → has_lane (barrier_of lanes history).idle l ≡ is_idle history l }
    ensures closed { (lanes : ℕ) (history : List Happening) (l : ℕ) → lanes ≤ 16 → AreOn lanes history → has_lane (barrier_of lanes history).closed l ≡ is_closed history l }
    ensures heard { (lanes : ℕ) (history : List Happening) (l : ℕ) → lanes ≤ 16 → AreOn lanes history → has_lane (barrier_of lanes history).heard l ≡ is_heard history l }
    ensures named { (lanes : ℕ) (history : List Happening) (l c : ℕ) → lanes ≤ 16 → AreOn lanes history → has_lane (set_at (barrier_of lanes history).named l) c ≡ has_named history l c }
    ensures telling { (lanes : ℕ) (history : List Happening) (l c : ℕ) → lanes ≤ 16 → AreOn lanes history → has_lane (set_at (barrier_of lanes history).telling l) c ≡ is_telling history l c }
    ensures untold { (lanes : ℕ) (history : List Happening) (l c : ℕ) → lanes ≤ 16 → AreOn lanes history → has_lane (untold (barrier_of lanes history) l) c ≡ is_untold history l c }
    ensures ready { (lanes : ℕ) (history : List Happening) → lanes ≤ 16 → AreOn lanes history → is_open (barrier_of lanes history) ≡ is_ready lanes history }
{}

/// A history that grows by some happenings.
pub fn a_barrier_goes_on()
    ensures { (lanes : ℕ) (history more : List Happening) → barrier_of lanes (history ++ more) ≡ barrier_from (barrier_of lanes history) more }
{}

/// A closed lane stays closed, and a confirmed one confirmed.
pub fn what_is_confirmed_stays()
    ensures closed { (history more : List Happening) (c : ℕ) → is_closed history c ≡ true → is_closed (history ++ more) c ≡ true }
    ensures confirmed { (history more : List Happening) (c : ℕ) → is_confirmed history c ≡ true → is_confirmed (history ++ more) c ≡ true }
{}
