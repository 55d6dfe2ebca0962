//! The calls of a depot, and what they leave on a disk.
ghost use Rattle.std.specs.Prelude.{◌≡◌, ◌+◌, ◌<◌, ◌^◌, ◌++◌, false, length, IfOk, IfSome, IsSome, None, OnOk, OnErr, IsErr, IsErrOf, MatchOption, is_ok};
ghost use Rattle.wdt_depot.specs.Disk.{IsSoundDisk, made, wrote, synced_at, placed};
ghost use Rattle.wdt_depot.specs.Moments.{IfTold, OneStep, MayDo};
ghost use Rattle.wdt_depot.specs.Programs.{Calls, IsQuiet, Ran, drive_of, looking, run_make, run_write, run_sync, run_place};
ghost use Rattle.wdt_depot.specs.State.{State, ByNumber, Counts, IfFileAt, IsCounted, IsEntered, IsKept, NotEntered, NumberedBy, OnlyLooks, OnlyWhere, Reads, SlipsWhere, SpotsStand, at_spot, counted, entered, is_far, is_past_end, lacks, needed, path_of, without};

use crate::failure::DepotFail;
use wdt_units::{Failed, Name, Spot};

/// No write may end above this place of a file: 2^41 bytes.
pub const MAX_END: u64 = 2_199_023_255_552;

/// Files by their paths. The changing calls are `make`, `write_at`, `sync` and `put_in_place`.
///
/// A call on a spot is for one that is entered. A depot that is handed to another crate has no spot
/// entered, and is handed back so.
pub trait Depot {
    /// What is told of the disk, the stop, the entered spots, the counts, and which changing calls fail
    /// by themselves. The counts stop at 2^64 less 1.
    ghost state: { Self → State };

    /// An empty file stands at the path, in place of a file that stood there; its folders are made.
    /// A call that fails did this or nothing.
    fn make(&mut self, path: &Name) -> Result<(), DepotFail>
        ensures step { OneStep (MayDo (made path.now) result) (state self.old).told (state self.new).told }
        ensures exact { Ran (run_make path.now) result (state self.old) (state self.new) }
        ensures memory { IsKept result (state self.old) (state self.new) }
        ensures stop { IsCounted result (state self.old) (state self.new) }
        ensures up { OnOk result ((state self.new).stop.struck ≡ None) }
        ensures spots { (state self.new).spots ≡ (state self.old).spots }
        ensures counts { Counts (IsErrOf result DepotFail.Failed) (state self.old) (state self.new) }
        ensures slips { (state self.new).slips ≡ (state self.old).slips }
        ensures number { ByNumber (λ d. false) result (state self.old) (state self.new) };

    /// Enters the file at the path: None where no file is there. Fewer than 32 spots are entered.
    fn enter(&mut self, path: &Name) -> Result<Option<Spot>, DepotFail>
        requires { length (state self.old).spots < 32 }
        ensures found { IfOk result (λ spot. IfTold (λ t. MatchOption spot (t.now path.now ≡ None) (λ _. IsSome (t.now path.now))) (state self.old).told) }
        ensures spots { (state self.new).spots ≡ (state self.old).spots ++ entered result path.now }
        ensures fresh { IfOk result (λ found. IfSome found (λ spot. path_of spot.0 (state self.old).spots ≡ None)) }
        ensures looks { OnlyLooks (state self.old) (state self.new) }
        ensures exact { Ran looking result (state self.old) (state self.new) }
        ensures memory { IsKept result (state self.old) (state self.new) }
        ensures up { OnOk result ((state self.new).stop.struck ≡ None) }
        ensures counts { Counts (IsErrOf result DepotFail.Failed) (state self.old) (state self.new) }
        ensures slips { (state self.new).slips ≡ (state self.old).slips }
        ensures fails { OnlyWhere (λ d. false) result (state self.old) (state self.new) };

    /// Enters the file at the path, which has to be there: where none is, the call counts a fault and
    /// a slip and fails. Fewer than 32 spots are entered.
    fn need(&mut self, path: &Name) -> Result<Spot, DepotFail>
        requires { length (state self.old).spots < 32 }
        ensures found { OnOk result (IfTold (λ t. IsSome (t.now path.now)) (state self.old).told) }
        ensures spots { (state self.new).spots ≡ (state self.old).spots ++ needed result path.now }
        ensures fresh { IfOk result (λ spot. path_of spot.0 (state self.old).spots ≡ None) }
        ensures looks { OnlyLooks (state self.old) (state self.new) }
        ensures exact { Ran looking result (state self.old) (state self.new) }
        ensures memory { IsKept result (state self.old) (state self.new) }
        ensures up { OnOk result ((state self.new).stop.struck ≡ None) }
        ensures counts { Counts (IsErrOf result DepotFail.Failed) (state self.old) (state self.new) }
        ensures slips { SlipsWhere (lacks path.now) result (IsErrOf result DepotFail.Failed) (state self.old) (state self.new) }
        ensures fails { OnlyWhere (lacks path.now) result (state self.old) (state self.new) };

    /// Leaves a spot. It can't fail.
    fn leave(&mut self, spot: Spot)
        requires { IsEntered spot.0 (state self.old) }
        ensures { state self.new ≡ record (state self.old) { spots = without spot.0 (state self.old).spots } };

    /// How many bytes the file has.
    fn length(&mut self, spot: Spot) -> Result<u64, DepotFail>
        requires { IsEntered spot.0 (state self.old) }
        ensures length { IfOk result (λ n. IfFileAt (λ f. n ≡ length f.seen) (at_spot spot.0 (state self.old)) (state self.old)) }
        ensures looks { OnlyLooks (state self.old) (state self.new) }
        ensures exact { Ran looking result (state self.old) (state self.new) }
        ensures memory { IsKept result (state self.old) (state self.new) }
        ensures up { OnOk result ((state self.new).stop.struck ≡ None) }
        ensures spots { (state self.new).spots ≡ (state self.old).spots }
        ensures counts { Counts (IsErrOf result DepotFail.Failed) (state self.old) (state self.new) }
        ensures slips { (state self.new).slips ≡ (state self.old).slips }
        ensures fails { OnlyWhere (λ d. false) result (state self.old) (state self.new) };

    /// Reads as many bytes as the file has from the offset on, up to the slice's length, into the
    /// front of the slice, and answers how many.
    fn read_at(&mut self, spot: Spot, offset: u64, into: &mut [u8]) -> Result<usize, DepotFail>
        requires { IsEntered spot.0 (state self.old) }
        ensures bytes { IfOk result (λ n. Reads (state self.old) (at_spot spot.0 (state self.old)) offset n into.old into.new) }
        ensures looks { OnlyLooks (state self.old) (state self.new) }
        ensures exact { Ran looking result (state self.old) (state self.new) }
        ensures memory { IsKept result (state self.old) (state self.new) }
        ensures up { OnOk result ((state self.new).stop.struck ≡ None) }
        ensures spots { (state self.new).spots ≡ (state self.old).spots }
        ensures counts { Counts (IsErrOf result DepotFail.Failed) (state self.old) (state self.new) }
        ensures slips { (state self.new).slips ≡ (state self.old).slips }
        ensures fails { OnlyWhere (λ d. false) result (state self.old) (state self.new) };

    /// Writes the bytes at the offset; a gap before them is filled with 0. Until a sync, a crash may
    /// leave any bytes there. A write that would end above `MAX_END` counts a fault, changes nothing
    /// and fails; it is a slip where it begins above both 2^40 and the file's length.
    fn write_at(&mut self, spot: Spot, offset: u64, bytes: &[u8]) -> Result<(), DepotFail>
        requires { IsEntered spot.0 (state self.old) }
        ensures step { OneStep (MayDo (wrote (at_spot spot.0 (state self.old)) offset bytes.now) result) (state self.old).told (state self.new).told }
        ensures past_end { 2 ^ 41 < offset + length bytes.now → IsErr result × (state self.new).told ≡ (state self.old).told }
        ensures exact { Ran (run_write (at_spot spot.0 (state self.old)) offset bytes.now) result (state self.old) (state self.new) }
        ensures memory { IsKept result (state self.old) (state self.new) }
        ensures stop { IsCounted result (state self.old) (state self.new) }
        ensures up { OnOk result ((state self.new).stop.struck ≡ None) }
        ensures spots { (state self.new).spots ≡ (state self.old).spots }
        ensures counts { Counts (IsErrOf result DepotFail.Failed) (state self.old) (state self.new) }
        ensures slips { SlipsWhere (is_far (at_spot spot.0 (state self.old)) offset (length bytes.now)) result (IsErrOf result DepotFail.Failed) (state self.old) (state self.new) }
        ensures number { ByNumber (λ d. is_past_end offset (length bytes.now)) result (state self.old) (state self.new) };

    /// After it a crash leaves what is read. It takes no memory. One that fails leaves the disk as it
    /// was: what was pending still is.
    fn sync(&mut self, spot: Spot) -> Result<(), Failed>
        requires { IsEntered spot.0 (state self.old) }
        ensures step { OneStep (MayDo (synced_at (at_spot spot.0 (state self.old))) result) (state self.old).told (state self.new).told }
        ensures kept { OnErr result ((state self.new).told ≡ (state self.old).told) }
        ensures exact { IsQuiet (state self.old) (state self.new) → Calls (run_sync (at_spot spot.0 (state self.old))) (is_ok result) (drive_of (state self.old)) (drive_of (state self.new)) }
        ensures stop { (state self.new).stop ≡ counted (state self.old).stop }
        ensures up { OnOk result ((state self.new).stop.struck ≡ None) }
        ensures spots { (state self.new).spots ≡ (state self.old).spots }
        ensures counts { Counts (IsErr result) (state self.old) (state self.new) }
        ensures slips { (state self.new).slips ≡ (state self.old).slips }
        ensures number { NumberedBy (λ d. false) (IsErr result) ⊥ (state self.old) (state self.new) };

    /// The file at `from` stands at `to` alone. Neither path is entered. A call that fails did this or
    /// nothing. Where no file is at `from` it counts a fault and a slip, changes nothing and fails.
    fn put_in_place(&mut self, from: &Name, to: &Name) -> Result<(), DepotFail>
        requires source { NotEntered from.now (state self.old) }
        requires target { NotEntered to.now (state self.old) }
        ensures found { OnOk result (IfTold (λ t. IsSome (t.now from.now)) (state self.old).told) }
        ensures step { OneStep (MayDo (placed from.now to.now) result) (state self.old).told (state self.new).told }
        ensures exact { Ran (run_place from.now to.now) result (state self.old) (state self.new) }
        ensures memory { IsKept result (state self.old) (state self.new) }
        ensures stop { IsCounted result (state self.old) (state self.new) }
        ensures up { OnOk result ((state self.new).stop.struck ≡ None) }
        ensures spots { (state self.new).spots ≡ (state self.old).spots }
        ensures counts { Counts (IsErrOf result DepotFail.Failed) (state self.old) (state self.new) }
        ensures slips { SlipsWhere (lacks from.now) result (IsErrOf result DepotFail.Failed) (state self.old) (state self.new) }
        ensures number { ByNumber (lacks from.now) result (state self.old) (state self.new) };

    /// What is told keeps the disk model, so that what is read is an image.
    ghost sound: { (depot : Self) → IfTold (λ t. IsSoundDisk t.now) (state depot).told };

    /// The file of each entered spot stands.
    ghost spots_stand: { (depot : Self) → SpotsStand (state depot) };
}
