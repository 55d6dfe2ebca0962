//! The flush.
ghost use Rattle.std.specs.Prelude.{◌≡◌, ◌⊎◌, ◌+◌, ◌<◌, ◌^◌, false, [], List, length, map, IfErr, IsErrOf, IsTrue, None, OnErr, OnOk, Some};
ghost use Rattle.std.specs.Str.{bytes_eq};
ghost use Rattle.wdt_units.specs.Tree.{File};
ghost use Rattle.wdt_depot.specs.Moments.{IfTold};
ghost use Rattle.wdt_depot.specs.State.{Counts};
ghost use Rattle.wdt_logfmt.specs.Adding.{all_added};
ghost use Rattle.wdt_logfmt.specs.Spelling.{closed_batch, spell_all};
ghost use Rattle.wdt_logfmt.specs.View.{NamedFile};
ghost use Rattle.wdt_good.specs.Batch.{forgotten_of};
ghost use Rattle.wdt_good.specs.Good.{Each, log_path};
ghost use Rattle.wdt_good.specs.Logged.{GoodSince};
ghost use Rattle.wdt_log.specs.Answers.{IsNotBad, RanLog};
ghost use Rattle.wdt_log.specs.OpenLog.{Continues, RestsIn};
ghost use Rattle.wdt_good.specs.Calls.{run_flush};
ghost use Rattle.wdt_log.specs.Flushing.{AllStand, HasLanded, ReadsStand};

use crate::fail::LogFail;
use crate::log::Log;
use crate::syncing::sync_all;
use std::alloc::Global;
use wdt_depot::Depot;
use wdt_logfmt::LogEntry;
use wdt_units::Name;

/// Syncs the files at these paths, none of which is the log's, and then appends the batch, which
/// continues what the log means lawfully and has fewer than 2^32 bytes. The depot is the one on which
/// the log was opened.
///
/// An empty batch is appended, too: where nothing is to be logged, no flush is to be made.
///
/// `Disk` comes only where the depot counted a fault; it shuts the log where the append failed. `Shut`
/// comes only where the log was shut before. After any failure the log means what it meant before, and
/// unless it is shut, it is at rest if it was.
pub fn flush<D: Depot>(
    alloc: Global,
    depot: &mut D,
    log: &mut Log,
    paths: &[&Name],
    batch: &[LogEntry],
) -> Result<(), LogFail>
    requires others { Each (λ path. bytes_eq path log_path ≡ false) (map (λ p. p.now) paths.now) }
    requires small { length (spell_all batch.now) < 2 ^ 32 }
    requires continues { Continues (log.old).version (log.old).meaning.files batch.now }
    requires spots { (D.state depot.old).spots ≡ [] }

    // At each moment, inside each call too, each image is good for the tree and for what was logged
    // before; also where a call fails.
    ensures images { (T : List File) (gs : List NamedFile) →
        IfTold (λ t. HasLanded T log.old (map (λ p. p.now) paths.now) gs batch.now t.now) (D.state depot.old).told →
        GoodSince T (forgotten_of batch.now) (D.state depot.old).told (D.state depot.new).told }

    ensures files { OnOk result (all_added (log.old).version (log.old).meaning.files batch.now ≡ Some (log.new).meaning.files) }
    ensures end { OnOk result ((log.new).meaning.end ≡ (log.old).meaning.end + length (closed_batch batch.now)) }

    ensures version { (log.new).version ≡ (log.old).version }
    ensures unchanged { OnErr result ((log.new).meaning ≡ (log.old).meaning) }
    ensures rests { (log.new).shut ≡ false → RestsIn log.old (D.state depot.old) → RestsIn log.new (D.state depot.new) }

    ensures shut { IsErrOf result LogFail.Shut → IsTrue (log.old).shut }
    ensures open { OnOk result ((log.old).shut ≡ false) }
    ensures shuts { IsTrue (log.new).shut → (IsTrue (log.old).shut ⊎ IsErrOf result LogFail.Disk) }
    ensures stays_shut { IsTrue (log.old).shut → IsTrue (log.new).shut }
    ensures not_bad { IfErr result (λ fail. IsNotBad fail) }

    ensures reads { ReadsStand (D.state depot.old).told (D.state depot.new).told }
    ensures exact { (IsTrue (log.old).shut → ⊥) → RanLog (run_flush (map (λ p. p.now) paths.now) (log.old).meaning.end (closed_batch batch.now)) result (D.state depot.old) (D.state depot.new) }
    ensures up { OnOk result ((D.state depot.new).stop.struck ≡ None) }
    ensures spots { (D.state depot.new).spots ≡ [] }
    ensures counts { Counts (IsErrOf result LogFail.Disk) (D.state depot.old) (D.state depot.new) }
    ensures slips { RestsIn log.old (D.state depot.old) →
        IfTold (λ t. AllStand (map (λ p. p.now) paths.now) t.now → (D.state depot.new).slips ≡ (D.state depot.old).slips) (D.state depot.old).told }
{
    sync_all(depot, paths)?;
    log.append(alloc, depot, batch)
}
