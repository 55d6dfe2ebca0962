//! Opening a log, and making one.
ghost use Rattle.std.specs.Prelude.{◌≡◌, ◌<◌, ◌^◌, false, [], List, None, Ok, Some, IfErr, IfOk, IsErrOf, IsTrue, MatchOption, OnErr, OnOk};
ghost use Rattle.wdt_units.specs.Path.{is_lawful};
ghost use Rattle.wdt_units.specs.Tree.{File};
ghost use Rattle.wdt_depot.specs.Disk.{seen_of, synced_at};
ghost use Rattle.wdt_depot.specs.Moments.{IfTold, Run};
ghost use Rattle.wdt_depot.specs.State.{Counts, IfFileAt, IsEntered, at_spot};
ghost use Rattle.wdt_logfmt.specs.Spelling.{written_version};
ghost use Rattle.wdt_logfmt.specs.View.{is_view, meaning_of, named_files};
ghost use Rattle.wdt_good.specs.Calls.{run_look, run_making, run_reading};
ghost use Rattle.wdt_good.specs.Good.{log_path, new_log_path};
ghost use Rattle.wdt_good.specs.LogState.{LogOf, SaysAs};
ghost use Rattle.wdt_good.specs.Logged.{AllFit, GoodSince};
ghost use Rattle.wdt_log.specs.Answers.{IsOpeningFail, RanLog, RanOpening, UsesDepot};
ghost use Rattle.wdt_log.specs.Opening.{IsMaking, IsSyncing, Makes, Syncs};
ghost use Rattle.wdt_log.specs.Others.{OthersStand, SlipsStand};

use crate::fail::LogFail;
use crate::writing::put_synced;
use std::alloc::Global;
use wdt_depot::{Depot, read_whole};
use wdt_logfmt::{LogView, read_log};
use wdt_units::{Name, Spot};

/// The bytes of a log that names no file: the header, and a closed gate.
const EMPTY: [u8; 7] = *b"WDTL\0\x01\0";

/// What the log at this path says. Where no log is there, one is made at the second path, and put
/// there.
pub fn find<D: Depot>(
    alloc: Global,
    depot: &mut D,
    log: &Name,
    new: &Name,
) -> Result<LogView, LogFail>
    requires path { log.now ≡ log_path }
    requires new_path { new.now ≡ new_log_path }
    requires spots { (D.state depot.old).spots ≡ [] }
    ensures images { (T : List File) → IfTold (λ t. AllFit T t.now) (D.state depot.old).told → GoodSince T [] (D.state depot.old).told (D.state depot.new).told }
    ensures logged { IfOk result (λ view. IfTold (λ t. LogOf written_version (meaning_of view).files (meaning_of view).end t.now) (D.state depot.new).told) }
    ensures says { IfOk result (λ view. IfTold (λ t. SaysAs (seen_of t.now) (meaning_of view).files) (D.state depot.old).told) }
    ensures view { IfOk result (λ view. IsTrue (is_view (named_files view.files.items))) }
    ensures room { IfOk result (λ view. view.end < 2 ^ 63) }
    ensures refused { IfErr result (λ fail. IsOpeningFail (D.state depot.old).told fail) }
    ensures others { OthersStand (D.state depot.old).told (D.state depot.new).told }
    ensures exact { RanOpening result (D.state depot.old) (D.state depot.new) }
    ensures up { OnOk result ((D.state depot.new).stop.struck ≡ None) }
    ensures spots { (D.state depot.new).spots ≡ [] }
    ensures counts { Counts (IsErrOf result LogFail.Disk) (D.state depot.old) (D.state depot.new) }
    ensures slips { SlipsStand (D.state depot.old) (D.state depot.new) }
{
    let found = read(alloc, depot, log)?;
    match found {
        Some(bytes) => {
            let view = read_log(alloc, &bytes)?;
            Ok(view)
        }
        None => make(alloc, depot, log, new),
    }
}

// The bytes of the log that is there, synced.
fn read<D: Depot>(alloc: Global, depot: &mut D, log: &Name) -> Result<Option<Vec<u8>>, LogFail>
    requires path { log.now ≡ log_path }
    requires spots { (D.state depot.old).spots ≡ [] }
    ensures bytes { IfOk result (λ found. IfTold (λ t. MatchOption found (t.now log_path ≡ None) (λ bytes. seen_of t.now log_path ≡ Some bytes.items)) (D.state depot.old).told) }
    ensures none { IfOk result (λ found. MatchOption found ((D.state depot.new).told ≡ (D.state depot.old).told)
        (λ _. Run IsSyncing (λ d x. x ≡ synced_at log_path d) (D.state depot.old).told (D.state depot.new).told)) }
    ensures moments { Run IsSyncing IsSyncing (D.state depot.old).told (D.state depot.new).told }
    ensures exact { RanLog run_look result (D.state depot.old) (D.state depot.new) }
    ensures depot { UsesDepot result (D.state depot.old) (D.state depot.new) }
    ensures slips { (D.state depot.new).slips ≡ (D.state depot.old).slips }
{
    let Some(spot) = depot.enter(log)? else {
        return Ok(None);
    };
    let result = read_synced(alloc, depot, spot);
    depot.leave(spot);
    Ok(Some(result?))
}

fn read_synced<D: Depot>(alloc: Global, depot: &mut D, spot: Spot) -> Result<Vec<u8>, LogFail>
    requires entered { IsEntered spot.0 (D.state depot.old) }
    requires path { at_spot spot.0 (D.state depot.old) ≡ log_path }
    ensures bytes { IfOk result (λ bytes. IfFileAt (λ f. f.seen ≡ bytes.items) log_path (D.state depot.old)) }
    ensures moments { Run IsSyncing (Syncs result) (D.state depot.old).told (D.state depot.new).told }
    ensures exact { RanLog run_reading result (D.state depot.old) (D.state depot.new) }
    ensures depot { UsesDepot result (D.state depot.old) (D.state depot.new) }
    ensures slips { (D.state depot.new).slips ≡ (D.state depot.old).slips }
{
    depot.sync(spot)?;
    let bytes = read_whole(alloc, depot, spot)?;
    Ok(bytes)
}

// Makes a log that names no file, beside its place, and puts it there once it is on the disk.
fn make<D: Depot>(alloc: Global, depot: &mut D, log: &Name, new: &Name) -> Result<LogView, LogFail>
    requires path { log.now ≡ log_path }
    requires new_path { new.now ≡ new_log_path }
    requires spots { (D.state depot.old).spots ≡ [] }
    ensures moments { Run IsMaking (Makes result) (D.state depot.old).told (D.state depot.new).told }
    ensures view { IfOk result (λ view. meaning_of view ≡ record { files = []; end = 6 }) }
    ensures exact { RanLog run_making result (D.state depot.old) (D.state depot.new) }
    ensures depot { UsesDepot result (D.state depot.old) (D.state depot.new) }
    ensures slips { SlipsStand (D.state depot.old) (D.state depot.new) }
{
    depot.make(new)?;
    let spot = depot.need(new)?;
    let result = put_synced(depot, spot, 0, &EMPTY);
    depot.leave(spot);
    result?;
    depot.put_in_place(new, log)?;
    let files = Vec::new(alloc);
    Ok(LogView { files, end: 6 })
}
