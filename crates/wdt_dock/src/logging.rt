//! What landed is logged.
ghost use Rattle.std.specs.Prelude.{◌≡◌, ◌<◌, ◌≤◌, ◌^◌, false, [], ◌∷◌, List, filter, length, IfErr, IsErrOf, None, OnErr, OnOk};
ghost use Rattle.wdt_units.specs.declared.limits.TheConstants.{MAX_BLOCKS};
ghost use Rattle.wdt_units.specs.Tree.{File};
ghost use Rattle.wdt_depot.specs.Moments.{IfTold};
ghost use Rattle.wdt_depot.specs.State.{Counts};
ghost use Rattle.wdt_good.specs.Logged.{GoodSince};
ghost use Rattle.wdt_log.specs.Answers.{IsOfDepot, RanLog};
ghost use Rattle.wdt_log.specs.OpenLog.{RestsIn};
ghost use Rattle.wdt_log.specs.Flushing.{ReadsStand};
ghost use Rattle.wdt_receiver_fsm.specs.Batched.{is_filled};
ghost use Rattle.wdt_receiver_fsm.specs.Logging.{all_logged, flush_calls};
ghost use Rattle.wdt_dock.specs.Booked.{IsBooked, KnownStand};
ghost use Rattle.wdt_dock.specs.Desk.{AreBooks, books_of, plain_of};
ghost use Rattle.wdt_receiver_fsm.specs.End.{EndView};

use std::alloc::Global;
use wdt_depot::Depot;
use wdt_log::{Log, LogFail, flush};
use wdt_writer::Writer;

/// Logs all that landed: its files are synced, and one batch is appended to the log. Where nothing is to
/// be logged, no call is made.
///
/// `Disk` comes only where the depot counted a fault. After any failure nothing has changed but the disk,
/// and after `NoMemory` the log is at rest if it was.
pub fn log_all<D: Depot>(
    alloc: Global,
    depot: &mut D,
    log: &mut Log,
    writer: &mut Writer,
) -> Result<(), LogFail>
    requires books { AreBooks log.old writer.old }
    requires few { length (filter is_filled (writer.old).unlogged) ≤ MAX_BLOCKS }
    requires open { (log.old).shut ≡ false }
    requires spots { (D.state depot.old).spots ≡ [] }

    // At each moment, inside each call too, each image is good for the tree and for what was logged
    // before; also where a call fails.
    ensures images { (T : List File) → IfTold (λ t. IsBooked T log.old writer.old t.now) (D.state depot.old).told →
        GoodSince T [] (D.state depot.old).told (D.state depot.new).told }

    ensures plain { OnOk result ((e : EndView) → plain_of e log.new writer.new ≡ all_logged (plain_of e log.old writer.old)) }
    ensures known { (writer.new).known ≡ (writer.old).known }
    ensures files { (writer.new).files ≡ (writer.old).files }
    ensures parts { (writer.new).parts ≡ (writer.old).parts }
    ensures books { AreBooks log.new writer.new }
    ensures logged { OnOk result (RestsIn log.old (D.state depot.old) → RestsIn log.new (D.state depot.new)) }
    ensures open { OnOk result ((log.new).shut ≡ false) }

    ensures meaning { OnErr result ((log.new).meaning ≡ (log.old).meaning) }
    ensures kept { OnErr result (writer.new ≡ writer.old) }
    ensures memory { IsErrOf result LogFail.NoMemory → RestsIn log.old (D.state depot.old) → RestsIn log.new (D.state depot.new) }
    ensures still_open { IsErrOf result LogFail.NoMemory → (log.new).shut ≡ false }

    ensures some { OnErr result ((writer.old).unlogged ≡ [] → ⊥) }
    ensures never { IfErr result (λ fail. IsOfDepot fail) }
    ensures reads { ReadsStand (D.state depot.old).told (D.state depot.new).told }
    ensures exact { (e : EndView) → RanLog (flush_calls (plain_of e log.old writer.old)) result (D.state depot.old) (D.state depot.new) }
    ensures spots { (D.state depot.new).spots ≡ [] }
    ensures counts { Counts (IsErrOf result LogFail.Disk) (D.state depot.old) (D.state depot.new) }
    ensures slips { RestsIn log.old (D.state depot.old) →
        IfTold (λ t. KnownStand (writer.old).known t.now → (D.state depot.new).slips ≡ (D.state depot.old).slips) (D.state depot.old).told }
{
    if writer.unlogged().is_empty() {
        return Ok(());
    }
    let paths = writer.dirty(alloc)?;
    flush(alloc, depot, log, &paths, writer.pending())?;
    drop(paths);
    writer.logged();
    Ok(())
}
