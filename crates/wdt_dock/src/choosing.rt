//! What an idle lane does.
ghost use Rattle.std.specs.Prelude.{◌≡◌, ◌<◌, ◌≤◌, false, [], List, length, IfOk, OnErr};
ghost use Rattle.wdt_units.specs.Tree.{File};
ghost use Rattle.wdt_depot.specs.Moments.{IfTold};
ghost use Rattle.wdt_depot.specs.State.{Counts};
ghost use Rattle.wdt_good.specs.Logged.{GoodSince};
ghost use Rattle.wdt_sender_fsm.specs.Rules.{is_failure};
ghost use Rattle.wdt_receiver_fsm.specs.Batched.{IsBatched};
ghost use Rattle.wdt_receiver_fsm.specs.Frames.{short_fault};
ghost use Rattle.wdt_receiver_fsm.specs.PlainReceiver.{can_finish, has_finish};
ghost use Rattle.wdt_receiver_fsm.specs.Ready.{is_closed};
ghost use Rattle.wdt_receiver_fsm.specs.Turn.{finish_plan};
ghost use Rattle.wdt_receiver_fsm.specs.declared.end.TheConstants.{STEP_ENTRIES};
ghost use Rattle.wdt_dock.specs.Desk.{IsAtRest, IsDesk, plain_of};
ghost use Rattle.wdt_dock.specs.DockGood.{DockGood, IsGoodFor};
ghost use Rattle.wdt_dock.specs.DockView.{LosesDisk, TurnRan, Turns};
ghost use Rattle.wdt_receiver_fsm.specs.Idling.{choice_plan, idled, row_of_way};
ghost use Rattle.wdt_dock.specs.Sparing.{Between, IsBeside, Spares};

use crate::logging::log_all;
use std::alloc::Global;
use wdt_depot::Depot;
use wdt_log::{Log, LogFail};
use wdt_receiver_fsm::{Idling, RecvAct, RecvEnd};
use wdt_sender_fsm::{EndAnswer, PeerKind};
use wdt_units::{Lane, NoMemory};
use wdt_writer::Writer;

/// The choice of an idle lane of a sound end: the last word, where the finish has come or is ready; else it
/// tells of closed lanes, has the sender wait, or waits. Where the finish is ready, all that landed is logged
/// first, and compared with what was to be sent.
///
/// After `NoMemory` the end is as it was.
pub fn choose<D: Depot>(
    alloc: Global,
    depot: &mut D,
    log: &mut Log,
    writer: &mut Writer,
    end: &mut RecvEnd,
    lane: Lane,
    way: Idling,
) -> Result<RecvAct, NoMemory>
    requires lane { lane.0 < length (end.old).lanes }
    requires desk { IsDesk end.old log.old writer.old }
    requires rest { IsAtRest end.old log.old (D.state depot.old) }
    requires batched { IsBatched (plain_of end.old log.old writer.old) }
    requires sound { is_failure (end.old).answer ≡ false }
    requires room { STEP_ENTRIES ≤ (end.old).room }
    requires still_open { is_closed (end.old).history lane.0 ≡ false }

    ensures turns { Turns (choice_plan way (plain_of end.old log.old writer.old) lane) result (plain_of end.new log.new writer.new) (D.state depot.old) (D.state depot.new) }
    ensures exact { TurnRan (choice_plan way (plain_of end.old log.old writer.old) lane) result (plain_of end.new log.new writer.new) (D.state depot.old) (D.state depot.new) }
    ensures memory { OnErr result (plain_of end.new log.new writer.new ≡ plain_of end.old log.old writer.old) }
    ensures desk { IsDesk end.new log.new writer.new }
    ensures rest { IsAtRest end.new log.new (D.state depot.new) }

    // At each moment, inside each call too, each image is good for the tree and for what was logged
    // before; and behind it the end and its disk are good for the tree.
    ensures images { (T : List File) → IsGoodFor T (plain_of end.old log.old writer.old) (D.state depot.old) → GoodSince T [] (D.state depot.old).told (D.state depot.new).told }
    ensures good { (T : List File) → IsGoodFor T (plain_of end.old log.old writer.old) (D.state depot.old) → IsGoodFor T (plain_of end.new log.new writer.new) (D.state depot.new) }

    ensures spares { Between (Spares (IsBeside (writer.old).known) (writer.old).files) (D.state depot.old).told (D.state depot.new).told }
    ensures counts { Counts (LosesDisk (end.old).answer (end.new).answer) (D.state depot.old) (D.state depot.new) }
    ensures slips { (T : List File) → IfTold (λ t. DockGood T (plain_of end.old log.old writer.old) t.now → (D.state depot.new).slips ≡ (D.state depot.old).slips) (D.state depot.old).told }
{
    if end.has_finish() {
        end.be_idle(lane, way);
        return Ok(end.say_done(lane));
    }
    if end.is_ready_by(lane, way) {
        return finish(alloc, depot, log, writer, end, lane, way);
    }
    end.be_idle(lane, way);
    Ok(end.tell_or_wait(lane))
}

// The finish is ready once the lane has come to the choice: all that landed is logged, and compared with
// what was to be sent.
fn finish<D: Depot>(
    alloc: Global,
    depot: &mut D,
    log: &mut Log,
    writer: &mut Writer,
    end: &mut RecvEnd,
    lane: Lane,
    way: Idling,
) -> Result<RecvAct, NoMemory>
    requires lane { lane.0 < length (end.old).lanes }
    requires desk { IsDesk end.old log.old writer.old }
    requires rest { IsAtRest end.old log.old (D.state depot.old) }
    requires batched { IsBatched (plain_of end.old log.old writer.old) }
    requires sound { is_failure (end.old).answer ≡ false }
    requires room { STEP_ENTRIES ≤ (end.old).room }

    ensures turns { Turns (finish_plan (end.old).history (idled way (plain_of end.old log.old writer.old) lane) lane (row_of_way way))
        result (plain_of end.new log.new writer.new) (D.state depot.old) (D.state depot.new) }
    ensures exact { TurnRan (finish_plan (end.old).history (idled way (plain_of end.old log.old writer.old) lane) lane (row_of_way way))
        result (plain_of end.new log.new writer.new) (D.state depot.old) (D.state depot.new) }
    ensures memory { OnErr result (plain_of end.new log.new writer.new ≡ plain_of end.old log.old writer.old) }
    ensures desk { IsDesk end.new log.new writer.new }
    ensures rest { IsAtRest end.new log.new (D.state depot.new) }

    // At each moment, inside each call too, each image is good for the tree and for what was logged
    // before; and behind it the end and its disk are good for the tree.
    ensures images { (T : List File) → IsGoodFor T (plain_of end.old log.old writer.old) (D.state depot.old) → GoodSince T [] (D.state depot.old).told (D.state depot.new).told }
    ensures good { (T : List File) → IsGoodFor T (plain_of end.old log.old writer.old) (D.state depot.old) → IsGoodFor T (plain_of end.new log.new writer.new) (D.state depot.new) }

    ensures spares { Between (Spares (IsBeside (writer.old).known) (writer.old).files) (D.state depot.old).told (D.state depot.new).told }
    ensures counts { Counts (LosesDisk (end.old).answer (end.new).answer) (D.state depot.old) (D.state depot.new) }
    ensures slips { (T : List File) → IfTold (λ t. DockGood T (plain_of end.old log.old writer.old) t.now → (D.state depot.new).slips ≡ (D.state depot.old).slips) (D.state depot.old).told }
{
    match log_all(alloc, depot, log, writer) {
        Ok(()) => {
            let short = short_fault(end.sized(), writer.files(), writer.bytes());
            Ok(end.finish(lane, way, short))
        }
        Err(LogFail::Disk) => Ok(end.lose_disk(lane, way)),
        Err(LogFail::NoMemory) => Err(NoMemory),
        Err(LogFail::BadLog { .. } | LogFail::Shut) => unreachable!(),
    }
}

// So much is there, and what was to be sent is otherwise.
fn short_fault(sized: Option<(u32, u64)>, files: u32, bytes: u64) -> Option<PeerKind>
    ensures { result ≡ short_fault sized files bytes }
{
    let (told_files, told_bytes) = sized?;
    if told_files == files && told_bytes == bytes {
        return None;
    }
    Some(PeerKind::Short {
        files,
        bytes,
        told_files,
        told_bytes,
    })
}
