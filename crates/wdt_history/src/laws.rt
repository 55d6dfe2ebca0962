//! Laws of what the specifications of this crate define. The functions do nothing: their contracts
//! are the laws.
ghost use Rattle.std.specs.Prelude.{◌≡◌, ◌↔◌, ℕ, List, Some, slice_get};
ghost use Rattle.wdt_units.specs.declared.blocks.Block.{Block};
ghost use Rattle.wdt_claims.specs.LaneWords.{Claims};
ghost use Rattle.wdt_claims.specs.declared.place.Place.TheVariants.{Queued};
ghost use Rattle.wdt_claims.specs.Claimed.{count_kept, lane_at, AreLanes};
ghost use Rattle.wdt_claims.specs.Places.{place_at, place_of};

/// A block that stands in a lane's list has the place of its index there.
pub fn a_listed_block_has_the_place_of_its_index()
    ensures { (lanes : List Claims) (lane index : ℕ) (block : Block) → AreLanes lanes → slice_get (lane_at lanes lane).kept index ≡ Some block
        → place_of block lanes ≡ place_at (lane_at lanes lane) index }
{}

/// A block is queued exactly where it stands in no lane's list.
pub fn a_queued_block_is_in_no_list()
    ensures { (lanes : List Claims) (block : Block) → (place_of block lanes ≡ Queued) ↔ (count_kept block lanes ≡ 0) }
{}
