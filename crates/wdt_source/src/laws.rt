//! A law of what the specifications of this crate define. The function does nothing: its contract is
//! the law.
ghost use Rattle.std.specs.Prelude.{◌≡◌, List, Some, IsTrue};
ghost use Rattle.std.specs.List.Sorted.{IsPermutation};
ghost use Rattle.wdt_units.specs.Tree.{File, is_tree};
ghost use Rattle.wdt_source.specs.Order.{tree_of};

/// Files are told as a tree exactly where they are the files of that tree, in whatever order.
pub fn files_in_any_order_are_one_tree()
    ensures told { (tree files : List File) → IsTrue (is_tree tree) → IsPermutation tree files → tree_of files ≡ Some tree }
    ensures only { (tree files : List File) → tree_of files ≡ Some tree → IsTrue (is_tree tree) × IsPermutation tree files }
{}
