//! A flush of all that landed, also on an end that failed otherwise than by its disk.
ghost use Rattle.std.specs.Prelude.{◌≡◌, ◌↔◌, [], List, IsErrOf, IsTrue, OnOk};
ghost use Rattle.wdt_units.specs.Tree.{File};
ghost use Rattle.wdt_depot.specs.Moments.{IfTold};
ghost use Rattle.wdt_depot.specs.State.{Counts};
ghost use Rattle.wdt_good.specs.Logged.{GoodSince};
ghost use Rattle.wdt_log.specs.Flushing.{ReadsStand};
ghost use Rattle.wdt_receiver_fsm.specs.Logging.{all_logged, flush_calls};
ghost use Rattle.wdt_receiver_fsm.specs.PlainReceiver.{failed};
ghost use Rattle.wdt_dock.specs.Booked.{KnownStand};
ghost use Rattle.wdt_dock.specs.Desk.{plain_of};
ghost use Rattle.wdt_dock.specs.Dock.{IsDock, RanFlush};
ghost use Rattle.wdt_dock.specs.DockGood.{IsGoodFor};
ghost use Rattle.wdt_dock.specs.DockView.{HasLostDisk};

use crate::logging::log_all;
use std::alloc::Global;
use thiserror::Error;
use wdt_depot::Depot;
use wdt_log::{Log, LogFail};
use wdt_receiver_fsm::{RecvEnd, batches_add_up};
use wdt_sender_fsm::EndAnswer;
use wdt_writer::Writer;

/// Why a flush did nothing, or not all.
#[derive(Clone, Copy, Debug, PartialEq, Eq, Error)]
pub enum FlushFail {
    /// The depot failed, and has counted a fault. The end has failed from then on.
    #[error("the disk failed")]
    Disk,
    /// The disk failed before, and no call was made.
    #[error("nothing more is logged, since the disk failed")]
    Shut,
    /// Nothing has changed, but that files may be synced.
    #[error("out of memory")]
    NoMemory,
}

// Logs all that landed. Where the disk fails, so does the end, whatever its answer was.
pub fn flush<D: Depot>(
    alloc: Global,
    depot: &mut D,
    log: &mut Log,
    writer: &mut Writer,
    end: &mut RecvEnd,
) -> Result<(), FlushFail>
    requires { IsDock end.old log.old writer.old (D.state depot.old) }
    ensures dock { IsDock end.new log.new writer.new (D.state depot.new) }

    ensures shut { IsErrOf result FlushFail.Shut ↔ HasLostDisk (end.old).answer }
    ensures untouched { IsErrOf result FlushFail.Shut → D.state depot.new ≡ D.state depot.old }
    ensures same { IsErrOf result FlushFail.Shut → plain_of end.new log.new writer.new ≡ plain_of end.old log.old writer.old }
    ensures logged { OnOk result (plain_of end.new log.new writer.new ≡ all_logged (plain_of end.old log.old writer.old)) }
    ensures failed { IsErrOf result FlushFail.Disk → plain_of end.new log.new writer.new ≡ failed (plain_of end.old log.old writer.old) EndAnswer.Disk }
    ensures memory { IsErrOf result FlushFail.NoMemory → plain_of end.new log.new writer.new ≡ plain_of end.old log.old writer.old }

    ensures images { (T : List File) → IsGoodFor T (plain_of end.old log.old writer.old) (D.state depot.old) → GoodSince T [] (D.state depot.old).told (D.state depot.new).told }
    ensures good { (T : List File) → IsGoodFor T (plain_of end.old log.old writer.old) (D.state depot.old) → IsGoodFor T (plain_of end.new log.new writer.new) (D.state depot.new) }

    ensures reads { ReadsStand (D.state depot.old).told (D.state depot.new).told }
    ensures exact { RanFlush (flush_calls (plain_of end.old log.old writer.old)) result (D.state depot.old) (D.state depot.new) }
    ensures counts { Counts (IsErrOf result FlushFail.Disk) (D.state depot.old) (D.state depot.new) }
    ensures slips { IfTold (λ t. KnownStand (writer.old).known t.now → (D.state depot.new).slips ≡ (D.state depot.old).slips) (D.state depot.old).told }
{
    // The law: what landed adds up behind a flush, too.
    batches_add_up();
    if has_lost_disk(end.answer()) {
        return Err(FlushFail::Shut);
    }
    match log_all(alloc, depot, log, writer) {
        Ok(()) => Ok(()),
        Err(LogFail::Disk) => {
            end.fail(EndAnswer::Disk);
            Err(FlushFail::Disk)
        }
        Err(LogFail::NoMemory) => Err(FlushFail::NoMemory),
        Err(LogFail::BadLog { .. } | LogFail::Shut) => unreachable!(),
    }
}

// Whether the disk failed.
fn has_lost_disk(answer: &EndAnswer) -> bool
    ensures { IsTrue result ↔ HasLostDisk answer.now }
{
    matches!(answer, EndAnswer::Disk)
}
