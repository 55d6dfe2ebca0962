//! Laws of what the specifications of this crate define. The functions do nothing: their contracts
//! are the laws.
ghost use Rattle.std.specs.Prelude.{◌≡◌, ◌↔◌, ℕ, true, List, Option, Some};
ghost use Rattle.wdt_units.specs.Have.{HaveFile};
ghost use Rattle.wdt_tree.specs.declared.entry.Entry.{Entry};
ghost use Rattle.wdt_ranges.specs.Files.{is_in_order};
ghost use Rattle.wdt_discover.specs.declared.fail.PlanFail.TheVariants.{Stale};
ghost use Rattle.wdt_discover.specs.Least.{IsLeastStale};
ghost use Rattle.wdt_discover.specs.Plan.{refusal};

/// A file is refused exactly where it is the one of the least path among those that the tree lacks or
/// has with another size or stamp.
pub fn the_least_is_refused()
    ensures { (entries : List Entry) (have : List HaveFile) (most : ℕ) (path : List ℕ) (logged : ℕ × ℕ) (found : Option (ℕ × ℕ)) → is_in_order have ≡ true
        → (refusal entries have most ≡ Some (Stale path logged found)) ↔ IsLeastStale entries have path logged found }
{}
