//! Laws of what the specifications of this crate define. The functions do nothing: their contracts
//! are the laws.
ghost use Rattle.std.specs.Prelude.{◌≡◌, ℕ, ◌<◌, List, []};
ghost use Rattle.wdt_units.specs.Have.{HaveFile};
ghost use Rattle.wdt_units.specs.declared.blocks.Block.{Block};
ghost use Rattle.wdt_tree.specs.declared.entry.Entry.{Entry};
ghost use Rattle.wdt_tree.specs.Cuts.{cuts};
ghost use Rattle.wdt_tree.specs.Rest.{IsRest};

/// Where the destination has nothing, the rest of a tree is the whole of it: each file from its
/// start in whole blocks and a shorter last one, and an empty file in one block without a byte.
pub fn cuts_are_the_rest()
    ensures { (entries : List Entry) (most : ℕ) → 0 < most → IsRest entries [] most (cuts most entries) }
{}

/// What is to be sent is one list: the conditions on its positions leave no choice where whole
/// blocks have at least one byte.
pub fn the_rest_is_one_list()
    ensures { (entries : List Entry) (have : List HaveFile) (most : ℕ) (xs ys : List Block) → 0 < most → IsRest entries have most xs → IsRest entries have most ys → xs ≡ ys }
{}
