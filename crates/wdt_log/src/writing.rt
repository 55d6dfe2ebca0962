//! The calls of an append, each by what it adds to the next one: the view, the log's file, the order of
//! batch and gate, and the sync.
ghost use Rattle.std.specs.Prelude.{◌≡◌, ◌⊎◌, ◌+◌, ◌<◌, ◌≤◌, ◌^◌, false, [], length, IfErr, IsErrOf, IsTrue, None, OnErr, OnOk, Some};
ghost use Rattle.wdt_depot.specs.Moments.{IfTold, Run};
ghost use Rattle.wdt_depot.specs.State.{IsEntered, at_spot, is_far};
ghost use Rattle.wdt_logfmt.specs.Adding.{all_added};
ghost use Rattle.wdt_logfmt.specs.Spelling.{closed_batch, spell_all, written_version, AllFit};
ghost use Rattle.wdt_logfmt.specs.View.{is_view, meaning_of, named_files};
ghost use Rattle.wdt_good.specs.Calls.{run_append, run_four, run_put};
ghost use Rattle.wdt_good.specs.Good.{log_path};
ghost use Rattle.wdt_log.specs.Answers.{RanLog, UsesDepot};
ghost use Rattle.wdt_log.specs.OpenLog.{Continues};
ghost use Rattle.wdt_log.specs.Others.{SlipsStandAt};
ghost use Rattle.wdt_log.specs.Stages.{IsPut, IsStage, Leaves, Puts};

use crate::extending::{lay_all, touched};
use crate::fail::LogFail;
use std::alloc::Global;
use wdt_depot::Depot;
use wdt_logfmt::{LogEntry, LogView, write_batch};
use wdt_units::{Name, Spot};

/// Appends a batch to the log of this view, which is at this path, and extends the view by it.
pub fn append_to_view<D: Depot>(
    alloc: Global,
    depot: &mut D,
    log: &Name,
    view: &mut LogView,
    batch: &[LogEntry],
) -> Result<(), LogFail>
    requires small { length (spell_all batch.now) < 2 ^ 32 }
    requires view { IsTrue (is_view (named_files (view.old).files.items)) }
    requires room { (view.old).end < 2 ^ 63 }
    requires continues { Continues written_version (named_files (view.old).files.items) batch.now }
    requires path { log.now ≡ log_path }
    requires spots { (D.state depot.old).spots ≡ [] }
    ensures moments { Run (IsStage (view.old).end (closed_batch batch.now)) (Leaves result (view.old).end (closed_batch batch.now)) (D.state depot.old).told (D.state depot.new).told }
    ensures spelled { OnOk result (AllFit batch.now) }
    ensures fits { AllFit batch.now ⊎ (D.state depot.new ≡ D.state depot.old) }
    ensures files { OnOk result (all_added written_version (named_files (view.old).files.items) batch.now ≡ Some (named_files (view.new).files.items)) }
    ensures end { OnOk result ((view.new).end ≡ (view.old).end + length (closed_batch batch.now)) }
    ensures room { OnOk result ((view.new).end < 2 ^ 63) }
    ensures view { OnOk result (IsTrue (is_view (named_files (view.new).files.items))) }
    ensures depot { UsesDepot result (D.state depot.old) (D.state depot.new) }
    ensures unchanged { OnErr result (meaning_of view.new ≡ meaning_of view.old) }
    ensures exact { RanLog (run_append (view.old).end (closed_batch batch.now)) result (D.state depot.old) (D.state depot.new) }
    ensures slips { SlipsStandAt log_path ((view.old).end + 1) (D.state depot.old) (D.state depot.new) }
{
    let mut bytes = Vec::new(alloc);
    write_batch(batch, &mut bytes)?;
    let touched = touched(alloc, &view.files, batch)?;
    view.files.reserve(touched.len())?;
    append_to_file(depot, log, view.end, &bytes)?;
    lay_all(&mut view.files, touched);
    view.end += bytes.len() as u64;
    Ok(())
}

// Appends a batch to the log at this path, which is looked for.
fn append_to_file<D: Depot>(
    depot: &mut D,
    log: &Name,
    end: u64,
    batch: &[u8],
) -> Result<(), LogFail>
    requires path { log.now ≡ log_path }
    requires spots { (D.state depot.old).spots ≡ [] }
    requires room { end < 2 ^ 63 }
    ensures moments { Run (IsStage end batch.now) (Leaves result end batch.now) (D.state depot.old).told (D.state depot.new).told }
    ensures short { OnOk result (end + 1 + length batch.now ≤ 2 ^ 41) }
    ensures exact { RanLog (run_append end batch.now) result (D.state depot.old) (D.state depot.new) }
    ensures depot { UsesDepot result (D.state depot.old) (D.state depot.new) }
    ensures slips { SlipsStandAt log_path (end + 1) (D.state depot.old) (D.state depot.new) }
{
    let spot = depot.need(log)?;
    let result = append_at_gate(depot, spot, end, batch);
    depot.leave(spot);
    result
}

// Appends a batch to the log of this spot by four calls. The gate opens in one write of one byte, once
// the batch behind it is on the disk.
fn append_at_gate<D: Depot>(
    depot: &mut D,
    spot: Spot,
    end: u64,
    batch: &[u8],
) -> Result<(), LogFail>
    requires entered { IsEntered spot.0 (D.state depot.old) }
    requires path { at_spot spot.0 (D.state depot.old) ≡ log_path }
    requires room { end < 2 ^ 63 }
    ensures moments { Run (IsStage end batch.now) (Leaves result end batch.now) (D.state depot.old).told (D.state depot.new).told }
    ensures short { OnOk result (end + 1 + length batch.now ≤ 2 ^ 41) }
    ensures exact { RanLog (run_four end batch.now) result (D.state depot.old) (D.state depot.new) }
    ensures depot { UsesDepot result (D.state depot.old) (D.state depot.new) }
    ensures slips { SlipsStandAt log_path (end + 1) (D.state depot.old) (D.state depot.new) }
{
    put_synced(depot, spot, end + 1, batch)?;
    put_synced(depot, spot, end, &[1])
}

/// Writes the bytes to the file of this spot, and syncs them.
pub fn put_synced<D: Depot>(
    depot: &mut D,
    spot: Spot,
    offset: u64,
    bytes: &[u8],
) -> Result<(), LogFail>
    requires entered { IsEntered spot.0 (D.state depot.old) }
    ensures moments { Run (IsPut (at_spot spot.0 (D.state depot.old)) offset bytes.now) (Puts result (at_spot spot.0 (D.state depot.old)) offset bytes.now)
        (D.state depot.old).told (D.state depot.new).told }
    ensures short { OnOk result (offset + length bytes.now ≤ 2 ^ 41) }
    ensures exact { RanLog (run_put (at_spot spot.0 (D.state depot.old)) offset bytes.now) result (D.state depot.old) (D.state depot.new) }
    ensures depot { UsesDepot result (D.state depot.old) (D.state depot.new) }
    ensures slips { IfTold (λ t. is_far (at_spot spot.0 (D.state depot.old)) offset (length bytes.now) t.now ≡ false → (D.state depot.new).slips ≡ (D.state depot.old).slips) (D.state depot.old).told }
{
    depot.write_at(spot, offset, bytes)?;
    depot.sync(spot)?;
    Ok(())
}
