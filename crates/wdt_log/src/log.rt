//! An open log.
ghost use Rattle.std.specs.Prelude.{◌≡◌, ◌⊎◌, ◌↔◌, ◌+◌, ◌<◌, ◌^◌, false, [], List, length, IfErr, IfOk, IsErrOf, IsTrue, None, OnErr, OnOk, Some};
ghost use Rattle.wdt_units.specs.Tree.{File};
ghost use Rattle.wdt_depot.specs.Disk.{seen_of};
ghost use Rattle.wdt_depot.specs.Moments.{IfTold};
ghost use Rattle.wdt_depot.specs.State.{Counts};
ghost use Rattle.wdt_logfmt.specs.Adding.{all_added};
ghost use Rattle.wdt_logfmt.specs.Spelling.{closed_batch, spell_all, written_version};
ghost use Rattle.wdt_logfmt.specs.View.{NamedFile, is_view, meaning_of, named_files};
ghost use Rattle.wdt_good.specs.Batch.{forgotten_of};
ghost use Rattle.wdt_good.specs.Calls.{run_append};
ghost use Rattle.wdt_good.specs.LogState.{IsReady, SaysAs};
ghost use Rattle.wdt_good.specs.Logged.{AllFit, GoodSince};
ghost use Rattle.wdt_log.specs.Answers.{IsNotBad, IsOpeningFail, RanLog, RanOpening};
ghost use Rattle.wdt_log.specs.OpenLog.{Continues, RestsIn};
ghost use Rattle.wdt_log.specs.Others.{OthersStand, SlipsStand};

use crate::fail::LogFail;
use crate::opening::find;
use crate::writing::append_to_view;
use std::alloc::Global;
use std::marker::Model;
use wdt_depot::Depot;
use wdt_logfmt::{LogEntry, LogView};
use wdt_units::Name;

/// The path of the log.
const LOG: [u8; 5] = *b".wlog";

/// Where a new log is written, before it is put in place.
const NEW_LOG: [u8; 9] = *b".wlog.new";

/// An open log, seen as what it means and whether a call on it failed.
#[derive(Debug, Drop)]
pub struct Log {
    view: LogView,
    // A call on this log answered `Disk`.
    shut: bool,
    // Where the log is, and where a new one is written. The names are kept, so that no later call
    // takes memory for them.
    path: Name,
    new_path: Name,
}

impl Model for Log {
    ghost use Rattle.std.specs.Prelude.{◌≡◌, ◌<◌, ◌^◌, IsTrue};
    ghost use Rattle.wdt_logfmt.specs.Spelling.{written_version};
    ghost use Rattle.wdt_logfmt.specs.View.{is_view, meaning_of, named_files};
    ghost use Rattle.wdt_good.specs.Good.{log_path, new_log_path};
    ghost use Rattle.wdt_log.specs.OpenLog.{OpenLog};

    ghost Value = { OpenLog };

    ghost view = { λ l. record { version = written_version; meaning = meaning_of l.view; shut = l.shut } };

    ghost invariant = { λ l. IsTrue (is_view (named_files l.view.files.items)) × (l.view.end < 2 ^ 63) × (l.path ≡ log_path) × (l.new_path ≡ new_log_path) };
}

impl Log {
    /// Opens the log of the depot, after a sync of it. Where none is there, one is made that names no
    /// file. The log is at `.wlog`, and a new one is written at `.wlog.new` before it is put there.
    ///
    /// `Disk` comes only where the depot counted a fault. `BadLog` names the earliest part of the log
    /// that has no reading, and comes exactly where there is one. After `NoMemory` calls that were made
    /// may stand, and the log means what it meant before.
    pub fn open<D: Depot>(alloc: Global, depot: &mut D) -> Result<Log, LogFail>
        requires spots { (D.state depot.old).spots ≡ [] }

        // At each moment, inside each write too, each image is good for the tree and for what was
        // logged before; also where a call fails.
        ensures images { (T : List File) → IfTold (λ t. AllFit T t.now) (D.state depot.old).told → GoodSince T [] (D.state depot.old).told (D.state depot.new).told }

        ensures logged { IfOk result (λ log. RestsIn log (D.state depot.new)) }
        ensures says { IfOk result (λ log. IfTold (λ t. SaysAs (seen_of t.now) log.meaning.files) (D.state depot.old).told) }
        ensures open { IfOk result (λ log. log.shut ≡ false) }
        ensures version { IfOk result (λ log. log.version ≡ written_version) }
        ensures refused { IfErr result (λ fail. IsOpeningFail (D.state depot.old).told fail) }
        ensures others { OthersStand (D.state depot.old).told (D.state depot.new).told }
        ensures exact { RanOpening result (D.state depot.old) (D.state depot.new) }
        ensures up { OnOk result ((D.state depot.new).stop.struck ≡ None) }
        ensures spots { (D.state depot.new).spots ≡ [] }
        ensures counts { Counts (IsErrOf result LogFail.Disk) (D.state depot.old) (D.state depot.new) }
        ensures slips { SlipsStand (D.state depot.old) (D.state depot.new) }
    {
        let path = Name::of_lawful(alloc, &LOG)?;
        let new_path = Name::of_lawful(alloc, &NEW_LOG)?;
        let view = find(alloc, depot, &path, &new_path)?;
        Ok(Log {
            view,
            shut: false,
            path,
            new_path,
        })
    }

    /// What the log means.
    pub fn view(&self) -> &LogView
        ensures meaning { meaning_of result.now ≡ (self.now).meaning }
        ensures view { IsTrue (is_view (named_files (result.now).files.items)) }
    {
        &self.view
    }

    /// Appends a batch of entries, which continue the view lawfully and have fewer than 2^32 bytes
    /// together. The depot is the one on which the log was opened.
    ///
    /// The cost grows with the batch and the spans of the files that it touches, and not with the view.
    /// Only a new file whose number is below others moves those in the list.
    ///
    /// `Disk` comes only where the depot counted a fault, and shuts the log. `Shut` comes exactly where
    /// the log is shut, and no call is made then. After `NoMemory` the log means what it meant before.
    pub fn append<D: Depot>(
        &mut self,
        alloc: Global,
        depot: &mut D,
        batch: &[LogEntry],
    ) -> Result<(), LogFail>
        requires small { length (spell_all batch.now) < 2 ^ 32 }
        requires continues { Continues (self.old).version (self.old).meaning.files batch.now }
        requires spots { (D.state depot.old).spots ≡ [] }

        // At each moment, inside each write too, each image is good for the tree and for what was
        // logged before; also where a call fails.
        ensures images { (T : List File) (gs : List NamedFile) → RestsIn self.old (D.state depot.old) →
            IfTold (λ t. IsReady (self.old).version T (self.old).meaning.files gs batch.now t.now) (D.state depot.old).told →
            GoodSince T (forgotten_of batch.now) (D.state depot.old).told (D.state depot.new).told }

        ensures logged { OnOk result (RestsIn self.old (D.state depot.old) → RestsIn self.new (D.state depot.new)) }
        ensures files { OnOk result (all_added (self.old).version (self.old).meaning.files batch.now ≡ Some (self.new).meaning.files) }
        ensures end { OnOk result ((self.new).meaning.end ≡ (self.old).meaning.end + length (closed_batch batch.now)) }

        ensures version { (self.new).version ≡ (self.old).version }
        ensures unchanged { OnErr result ((self.new).meaning ≡ (self.old).meaning) }
        ensures memory { IsErrOf result LogFail.NoMemory → RestsIn self.old (D.state depot.old) → RestsIn self.old (D.state depot.new) }

        ensures shut { IsErrOf result LogFail.Shut ↔ IsTrue (self.old).shut }
        ensures shuts { IsTrue (self.new).shut ↔ (IsTrue (self.old).shut ⊎ IsErrOf result LogFail.Disk) }
        ensures untouched { IsTrue (self.old).shut → D.state depot.new ≡ D.state depot.old }
        ensures not_bad { IfErr result (λ fail. IsNotBad fail) }

        ensures others { OthersStand (D.state depot.old).told (D.state depot.new).told }
        ensures exact { (IsTrue (self.old).shut → ⊥) → RanLog (run_append (self.old).meaning.end (closed_batch batch.now)) result (D.state depot.old) (D.state depot.new) }
        ensures up { OnOk result ((D.state depot.new).stop.struck ≡ None) }
        ensures spots { (D.state depot.new).spots ≡ [] }
        ensures counts { Counts (IsErrOf result LogFail.Disk) (D.state depot.old) (D.state depot.new) }
        ensures slips { RestsIn self.old (D.state depot.old) → SlipsStand (D.state depot.old) (D.state depot.new) }
    {
        if self.shut {
            return Err(LogFail::Shut);
        }
        match append_to_view(alloc, depot, &self.path, &mut self.view, batch) {
            Ok(()) => Ok(()),
            Err(fail) => {
                self.shut = fail == LogFail::Disk;
                Err(fail)
            }
        }
    }
}
