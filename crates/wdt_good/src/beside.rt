//! Calls on files beside the log, which keep the log at rest and each image good for what was logged.
ghost use Rattle.std.specs.Prelude.{◌≡◌, ◌≤◌, ℕ, false, [], List, IsErrOf, IsSome, OnOk, None, length};
ghost use Rattle.std.specs.Str.{bytes_eq};
ghost use Rattle.wdt_units.specs.Tree.{File};
ghost use Rattle.wdt_depot.specs.Disk.{made, wrote};
ghost use Rattle.wdt_depot.specs.Moments.{IfTold, MayDo, OneStep, Run};
ghost use Rattle.wdt_depot.specs.Programs.{Ran, both, looking, run_make, run_sync};
ghost use Rattle.wdt_depot.specs.State.{Counts};
ghost use Rattle.wdt_logfmt.specs.View.{NamedFile, names};
ghost use Rattle.wdt_good.specs.Calls.{run_piece};
ghost use Rattle.wdt_good.specs.Changing.{MayWrite};
ghost use Rattle.wdt_good.specs.Good.{log_path};
ghost use Rattle.wdt_good.specs.LogState.{LogOf};
ghost use Rattle.wdt_good.specs.Logged.{AllFit, GoodSince};
ghost use Rattle.wdt_good.specs.Sweeping.{Keeps, Syncs};

use wdt_depot::{Depot, DepotFail};
use wdt_units::{MAX_FILE_SIZE, Name};

/// Writes bytes to the file at a path that isn't the log's. Where nothing that is covered is written,
/// each image is good for what was logged, also where the call fails.
///
/// `Failed` comes only where the depot counted a fault, and after `NoMemory` nothing has changed.
pub fn write_beside<D: Depot>(
    depot: &mut D,
    path: &Name,
    offset: u64,
    bytes: &[u8],
) -> Result<(), DepotFail>
    requires other { bytes_eq path.now log_path ≡ false }
    requires spots { (D.state depot.old).spots ≡ [] }
    ensures images { (version : ℕ) (T : List File) (fs : List NamedFile) (end size : ℕ) →
        IfTold (λ t. LogOf version fs end t.now) (D.state depot.old).told → IfTold (λ t. AllFit T t.now) (D.state depot.old).told →
        IfTold (λ t. MayWrite path.now size offset (length bytes.now) fs t.now) (D.state depot.old).told →
        GoodSince T [] (D.state depot.old).told (D.state depot.new).told }
    ensures log { (version : ℕ) (fs : List NamedFile) (end : ℕ) → IfTold (λ t. LogOf version fs end t.now) (D.state depot.old).told →
        IfTold (λ t. LogOf version fs end t.now) (D.state depot.new).told }
    ensures step { OneStep (MayDo (wrote path.now offset bytes.now) result) (D.state depot.old).told (D.state depot.new).told }
    ensures exact { Ran (run_piece path.now offset bytes.now) result (D.state depot.old) (D.state depot.new) }
    ensures slips { offset ≤ MAX_FILE_SIZE → IfTold (λ t. IsSome (t.now path.now) → (D.state depot.new).slips ≡ (D.state depot.old).slips) (D.state depot.old).told }
    ensures memory { IsErrOf result DepotFail.NoMemory → (D.state depot.new).told ≡ (D.state depot.old).told }
    ensures up { OnOk result ((D.state depot.new).stop.struck ≡ None) }
    ensures spots { (D.state depot.new).spots ≡ [] }
    ensures counts { Counts (IsErrOf result DepotFail.Failed) (D.state depot.old) (D.state depot.new) }
{
    let spot = depot.need(path)?;
    let result = depot.write_at(spot, offset, bytes);
    depot.leave(spot);
    result
}

/// Makes a file at a path that isn't the log's. Where the log doesn't name it, each image is good for
/// what was logged, also where the call fails.
///
/// `Failed` comes only where the depot counted a fault, and after `NoMemory` nothing has changed.
pub fn make_beside<D: Depot>(depot: &mut D, path: &Name) -> Result<(), DepotFail>
    requires other { bytes_eq path.now log_path ≡ false }
    requires spots { (D.state depot.old).spots ≡ [] }
    ensures images { (version : ℕ) (T : List File) (fs : List NamedFile) (end : ℕ) →
        IfTold (λ t. LogOf version fs end t.now) (D.state depot.old).told → IfTold (λ t. AllFit T t.now) (D.state depot.old).told →
        names fs path.now ≡ false → GoodSince T [] (D.state depot.old).told (D.state depot.new).told }
    ensures log { (version : ℕ) (fs : List NamedFile) (end : ℕ) → IfTold (λ t. LogOf version fs end t.now) (D.state depot.old).told →
        IfTold (λ t. LogOf version fs end t.now) (D.state depot.new).told }
    ensures step { OneStep (MayDo (made path.now) result) (D.state depot.old).told (D.state depot.new).told }
    ensures exact { Ran (run_make path.now) result (D.state depot.old) (D.state depot.new) }
    ensures memory { IsErrOf result DepotFail.NoMemory → (D.state depot.new).told ≡ (D.state depot.old).told }
    ensures up { OnOk result ((D.state depot.new).stop.struck ≡ None) }
    ensures spots { (D.state depot.new).spots ≡ [] }
    ensures counts { Counts (IsErrOf result DepotFail.Failed) (D.state depot.old) (D.state depot.new) }
    ensures slips { (D.state depot.new).slips ≡ (D.state depot.old).slips }
{
    depot.make(path)
}

/// Syncs the file at a path that isn't the log's. The log and all that is read stay, and no image is
/// new, also where the call fails; after it a crash leaves of the file what is read.
///
/// `Failed` comes only where the depot counted a fault, and after `NoMemory` nothing has changed.
pub fn sync_beside<D: Depot>(depot: &mut D, path: &Name) -> Result<(), DepotFail>
    requires other { bytes_eq path.now log_path ≡ false }
    requires spots { (D.state depot.old).spots ≡ [] }
    ensures synced { Run Keeps (Syncs result path.now) (D.state depot.old).told (D.state depot.new).told }
    ensures exact { Ran (both looking (run_sync path.now)) result (D.state depot.old) (D.state depot.new) }
    ensures slips { IfTold (λ t. IsSome (t.now path.now) → (D.state depot.new).slips ≡ (D.state depot.old).slips) (D.state depot.old).told }
    ensures memory { IsErrOf result DepotFail.NoMemory → (D.state depot.new).told ≡ (D.state depot.old).told }
    ensures up { OnOk result ((D.state depot.new).stop.struck ≡ None) }
    ensures spots { (D.state depot.new).spots ≡ [] }
    ensures counts { Counts (IsErrOf result DepotFail.Failed) (D.state depot.old) (D.state depot.new) }
{
    let file = depot.need(path)?;
    let synced = depot.sync(file);
    depot.leave(file);
    match synced {
        Ok(()) => Ok(()),
        Err(_) => Err(DepotFail::Failed),
    }
}
