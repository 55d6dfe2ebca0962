//! Laws of what the specifications of this crate define. The functions do nothing: their contracts
//! are the laws.
ghost use Rattle.std.specs.Prelude.{◌≡◌, ℕ, ◌<◌, true, List, []};
ghost use Rattle.wdt_units.specs.Have.{HaveFile};
ghost use Rattle.wdt_units.specs.declared.blocks.Block.{Block};
ghost use Rattle.wdt_claims.specs.Blocks.{HaveSameBlocks};
ghost use Rattle.wdt_tree.specs.declared.entry.Entry.{Entry};
ghost use Rattle.wdt_tree.specs.Listing.{is_in_order};
ghost use Rattle.wdt_tree.specs.Rest.{IsRest};
ghost use Rattle.wdt_rest.specs.RestOf.{IsHave, rest_of};
ghost use Rattle.wdt_rest.specs.Together.{AreTogether, FitsTree, IsAll};

/// The list is the rest: where the have's paths rise and each file's spans are a set, the list's
/// blocks rise, hold exactly the missing positions and are cut as the rest is. A have may name files
/// that the tree lacks, and its spans may end past a file's end: the list doesn't mind.
pub fn the_rest_as_a_list()
    ensures { (entries : List Entry) (have : List HaveFile) (most : ℕ) → 0 < most → IsHave have → IsRest entries have most (rest_of entries have most) }
{}

/// What a destination has and what is still to be sent are together the tree: the covered bytes and
/// the blocks' bytes are the tree's, each file is named or has a block, and the named files and the
/// other files that have a block are as many as the tree's. The blocks are cut to any size above 0.
pub fn rest_and_have_are_the_tree()
    ensures { (entries : List Entry) (have : List HaveFile) (most : ℕ) → 0 < most → is_in_order entries ≡ true → FitsTree entries have → AreTogether entries have (rest_of entries have most) }
{}

/// The same of the blocks in any order, as they land.
pub fn landed_blocks_make_the_tree()
    ensures { (entries : List Entry) (have : List HaveFile) (most : ℕ) (blocks : List Block) → 0 < most → is_in_order entries ≡ true → FitsTree entries have
        → HaveSameBlocks (rest_of entries have most) blocks → AreTogether entries have blocks }
{}

/// A have to which nothing is still to be sent has as many files and bytes as the tree.
pub fn nothing_left_is_all()
    ensures { (entries : List Entry) (have : List HaveFile) (most : ℕ) → 0 < most → is_in_order entries ≡ true → FitsTree entries have → IsRest entries have most [] → IsAll entries have }
{}
