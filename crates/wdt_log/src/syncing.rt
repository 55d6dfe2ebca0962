//! Files are synced, one after another.
ghost use Rattle.std.specs.Prelude.{◌≡◌, false, [], map, IfErr, IsErrOf, OnOk};
ghost use Rattle.std.specs.Str.{bytes_eq};
ghost use Rattle.wdt_depot.specs.Moments.{IfTold, Run};
ghost use Rattle.wdt_depot.specs.State.{Counts};
ghost use Rattle.wdt_good.specs.Good.{Each, log_path};
ghost use Rattle.wdt_good.specs.Sweeping.{Keeps, Swept};
ghost use Rattle.wdt_log.specs.Answers.{IsOfDepot, RanLog};
ghost use Rattle.wdt_good.specs.Calls.{run_syncs};
ghost use Rattle.wdt_log.specs.Flushing.{AllStand};

use crate::fail::LogFail;
use wdt_depot::Depot;
use wdt_good::sync_beside;
use wdt_units::Name;

/// Syncs the files at these paths, none of which is the log's: each is entered, synced and left, in the
/// order of the list, up to the first that fails. With no path no call is made.
///
/// The log and all that is read stay, and no image is new, also where a call fails. At `Ok` a crash
/// leaves of each of the files what is read. `Disk` comes only where the depot counted a fault.
pub fn sync_all<D: Depot>(depot: &mut D, paths: &[&Name]) -> Result<(), LogFail>
    requires others { Each (λ path. bytes_eq path log_path ≡ false) (map (λ p. p.now) paths.now) }
    requires spots { (D.state depot.old).spots ≡ [] }
    ensures kept { Run Keeps Keeps (D.state depot.old).told (D.state depot.new).told }
    ensures synced { OnOk result (Run Keeps (Swept (map (λ p. p.now) paths.now)) (D.state depot.old).told (D.state depot.new).told) }
    ensures never { IfErr result (λ fail. IsOfDepot fail) }
    ensures exact { RanLog (run_syncs (map (λ p. p.now) paths.now)) result (D.state depot.old) (D.state depot.new) }
    ensures spots { (D.state depot.new).spots ≡ [] }
    ensures counts { Counts (IsErrOf result LogFail.Disk) (D.state depot.old) (D.state depot.new) }
    ensures slips { IfTold (λ t. AllStand (map (λ p. p.now) paths.now) t.now → (D.state depot.new).slips ≡ (D.state depot.old).slips) (D.state depot.old).told }
{
    for path in paths {
        sync_beside(depot, *path)?;
    }
    Ok(())
}
