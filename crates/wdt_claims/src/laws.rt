//! Laws of what the specifications of this crate define. The functions do nothing: their contracts
//! are the laws.
ghost use Rattle.std.specs.Prelude.{◌≡◌, List, IsTrue};
ghost use Rattle.wdt_units.specs.declared.blocks.Block.{Block};
ghost use Rattle.wdt_claims.specs.Blocks.{are_rising, HaveSameBlocks};

/// Blocks in rising order are determined by how often each stands among them.
pub fn rising_blocks_are_one_list()
    ensures { (xs ys : List Block) → IsTrue (are_rising xs) → IsTrue (are_rising ys) → HaveSameBlocks xs ys → xs ≡ ys }
{}
