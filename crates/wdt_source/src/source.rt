//! The trait of everything that files are copied from.
ghost use Rattle.std.specs.Prelude.{◌≡◌, ◌<◌, ◌^◌, ℕ, List, length, map, not, vec_len, Option, None, option_map, IfSome, IfOk, IsErrOf, OnOk, IsTrue};
ghost use Rattle.wdt_units.specs.Schedule.{Schedule};
ghost use Rattle.wdt_units.specs.Tree.{File, is_tree};
ghost use Rattle.wdt_tree.specs.declared.entry.Entry.{Entry};
ghost use Rattle.wdt_tree.specs.Listing.{entry_of};
ghost use Rattle.wdt_source.specs.Told.{IsRead, is_within_file, ByNumber, IsListed, HasFault, HasSlip, after_call, is_too_long};

use crate::failure::SourceFail;
use std::alloc::Global;
use wdt_tree::RawEntry;
use wdt_units::Name;

/// A source of files.
pub trait Source {
    /// The files of its tree in the order of their paths, where told.
    ghost told: { Self → Option (List File) };

    /// What `list` gives, where told. A source that tells a tree tells a listing of it, in some
    /// order; one whose files are no tree may tell its listing alone; a real folder tells neither.
    ghost listing: { Self → Option (List Entry) };

    /// How often a call failed. The count stops at 2^64 less 1.
    ghost faults: { Self → ℕ };

    /// How often a read was for bytes that the told tree doesn't have. It stops at 2^64 less 1.
    ghost slips: { Self → ℕ };

    /// Which calls fail by themselves, where it is told, by their numbers from 1. Both calls are
    /// numbered together, but for those that are refused for memory.
    ghost schedule: { Self → Option Schedule } = { λ _. None };

    /// The files that there are, each once, in any order: fewer than 2^32. After want of memory the
    /// source is as it was.
    fn list(&mut self, alloc: Global) -> Result<Vec<RawEntry>, SourceFail>
        ensures listed { IfOk result (λ raw. IfSome (listing self.old) (λ entries. map entry_of raw.items ≡ entries)) }
        ensures few { IfOk result (λ raw. vec_len raw < 2 ^ 32) }
        ensures told { told self.new ≡ told self.old }
        ensures listing { listing self.new ≡ listing self.old }
        ensures cause { HasFault result (faults self.old) (faults self.new) }
        ensures kept { (IsErrOf result SourceFail.Failed → ⊥) → faults self.new ≡ faults self.old }
        ensures slips { slips self.new ≡ slips self.old }
        ensures number { schedule self.new ≡ option_map (after_call result) (schedule self.old) }
        ensures fails { ByNumber (is_too_long (listing self.old)) result (schedule self.old) };

    /// The bytes of a file from an offset on: fills the whole slice. A read that isn't within its
    /// file fails. After want of memory the source is as it was.
    fn read_exact_at(&mut self, path: &Name, offset: u64, into: &mut [u8]) -> Result<(), SourceFail>
        ensures bytes { OnOk result (IfSome (told self.old) (λ files. IsRead files path.now offset into.new)) }
        ensures told { told self.new ≡ told self.old }
        ensures listing { listing self.new ≡ listing self.old }
        ensures cause { HasFault result (faults self.old) (faults self.new) }
        ensures kept { (IsErrOf result SourceFail.Failed → ⊥) → faults self.new ≡ faults self.old }
        ensures slips { IfSome (told self.old) (λ files. HasSlip (is_within_file files path.now offset (length into.new)) result (slips self.old) (slips self.new)) }
        ensures number { schedule self.new ≡ option_map (after_call result) (schedule self.old) }
        ensures fails { IfSome (told self.old) (λ files. ByNumber (not (is_within_file files path.now offset (length into.new))) result (schedule self.old)) };

    /// What is told is a tree.
    ghost told_is_tree: { (s : Self) → IfSome (told s) (λ files. IsTrue (is_tree files)) };

    /// A told tree is listed.
    ghost told_is_listed: { (s : Self) → IsListed (told s) (listing s) };
}
