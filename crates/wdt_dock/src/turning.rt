//! A step of a lane, by its row.
ghost use Rattle.std.specs.Prelude.{◌≡◌, ◌<◌, ◌≤◌, [], List, false, length, true, OnErr};
ghost use Rattle.wdt_units.specs.declared.limits.TheConstants.{PIECE};
ghost use Rattle.wdt_units.specs.Tree.{File};
ghost use Rattle.wdt_depot.specs.Moments.{IfTold};
ghost use Rattle.wdt_depot.specs.State.{Counts};
ghost use Rattle.wdt_good.specs.Logged.{GoodSince};
ghost use Rattle.wdt_sender_fsm.specs.Rules.{is_failure};
ghost use Rattle.wdt_receiver_fsm.specs.Batched.{IsBatched};
ghost use Rattle.wdt_receiver_fsm.specs.Receiver.{IsReceiver};
ghost use Rattle.wdt_receiver_fsm.specs.ReceiverHistory.{past_of};
ghost use Rattle.wdt_receiver_fsm.specs.Rows.{shown};
ghost use Rattle.wdt_receiver_fsm.specs.Turn.{Bytes, Given, recv_plan, take_plan, turn_row};
ghost use Rattle.wdt_receiver_fsm.specs.Writes.{FitsPut};
ghost use Rattle.wdt_dock.specs.Desk.{IsAtRest, IsDesk, plain_of};
ghost use Rattle.wdt_dock.specs.DockGood.{DockGood, IsGoodFor, PutOf};
ghost use Rattle.wdt_dock.specs.DockView.{LosesDisk, TurnRan, Turns};
ghost use Rattle.wdt_receiver_fsm.specs.End.{lane_in};
ghost use Rattle.wdt_dock.specs.Sparing.{Between, IsBeside, IsOther, IsOtherRow, Spares};
ghost use Rattle.wdt_dock.specs.Turning.{IsTreesRow, MayGoOn};

use crate::beginning::begin;
use crate::choosing::choose;
use crate::dropping::lose_connection;
use crate::serving::{served, starved};
use crate::taking::take;
use std::alloc::Global;
use wdt_depot::Depot;
use wdt_log::Log;
use wdt_receiver_fsm::{
    Idling, RecvAct, RecvEnd, RecvIn, RecvRow, RecvState, row, steps_follow_their_rows,
};
use wdt_units::{Lane, NoMemory};
use wdt_writer::Writer;

/// A step of a lane with an input: the act and the end behind it are the definition's, whatever the disk does.
///
/// After `NoMemory` the end is as it was; calls on the disk that were made may stand.
pub fn turn<D: Depot>(
    alloc: Global,
    depot: &mut D,
    log: &mut Log,
    writer: &mut Writer,
    end: &mut RecvEnd,
    lane: Lane,
    input: &RecvIn,
) -> Result<RecvAct, NoMemory>
    requires lane { lane.0 < length (end.old).lanes }
    requires desk { IsDesk end.old log.old writer.old }
    requires rest { IsAtRest end.old log.old (D.state depot.old) }
    requires receiver { IsReceiver (plain_of end.old log.old writer.old) }
    requires batched { IsBatched (plain_of end.old log.old writer.old) }
    requires fits { FitsPut (Given input.now) }

    ensures turns { Turns (recv_plan (plain_of end.old log.old writer.old) lane input.now) result (plain_of end.new log.new writer.new) (D.state depot.old) (D.state depot.new) }
    ensures exact { TurnRan (recv_plan (plain_of end.old log.old writer.old) lane input.now) result (plain_of end.new log.new writer.new) (D.state depot.old) (D.state depot.new) }
    ensures memory { OnErr result (plain_of end.new log.new writer.new ≡ plain_of end.old log.old writer.old) }
    ensures desk { IsDesk end.new log.new writer.new }
    ensures rest { IsAtRest end.new log.new (D.state depot.new) }

    // At each moment, inside each call too, each image is good for the tree and for what was logged
    // before; and behind it the end and its disk are good for the tree.
    ensures images { (T : List File) → IsGoodFor T (plain_of end.old log.old writer.old) (D.state depot.old) → GoodSince T [] (D.state depot.old).told (D.state depot.new).told }
    ensures good { (T : List File) → PutOf T (plain_of end.old log.old writer.old) lane (Given input.now) →
        IsGoodFor T (plain_of end.old log.old writer.old) (D.state depot.old) → IsGoodFor T (plain_of end.new log.new writer.new) (D.state depot.new) }

    ensures untouched { is_failure (end.old).answer ≡ true → D.state depot.new ≡ D.state depot.old }
    ensures spares { Between (Spares (IsOther (writer.old).known (Given input.now)) (writer.old).files) (D.state depot.old).told (D.state depot.new).told }
    ensures counts { Counts (LosesDisk (end.old).answer (end.new).answer) (D.state depot.old) (D.state depot.new) }
    ensures slips { (T : List File) → IfTold (λ t. DockGood T (plain_of end.old log.old writer.old) t.now → (D.state depot.new).slips ≡ (D.state depot.old).slips) (D.state depot.old).told }
{
    // The law: a step is that of its row.
    steps_follow_their_rows();
    let row = row(end.lane(lane), input);
    match row {
        RecvRow::Over => Ok(RecvAct::Stop),
        RecvRow::Starved { mute } => Ok(starved(end, lane, mute)),
        row => {
            if end.has_failed() {
                return Ok(end.give_up(lane, row.is_mute()));
            }
            serve(alloc, depot, log, writer, end, lane, row)
        }
    }
}

/// A step of a lane that takes a block, with bytes of it: 1 to 65,536 bytes, and no more than are left. The
/// act and the end behind it are the definition's, whatever the disk does.
///
/// After `NoMemory` the end is as it was: the same bytes are to come again.
pub fn turn_piece<D: Depot>(
    alloc: Global,
    depot: &mut D,
    log: &mut Log,
    writer: &mut Writer,
    end: &mut RecvEnd,
    lane: Lane,
    bytes: &[u8],
) -> Result<RecvAct, NoMemory>
    requires lane { lane.0 < length (end.old).lanes }
    requires desk { IsDesk end.old log.old writer.old }
    requires rest { IsAtRest end.old log.old (D.state depot.old) }
    requires receiver { IsReceiver (plain_of end.old log.old writer.old) }
    requires batched { IsBatched (plain_of end.old log.old writer.old) }
    requires takes { (lane_in end.old lane.0).state ≡ RecvState.TakeBlock }
    requires some { 0 < length bytes.now }
    requires piece { length bytes.now ≤ PIECE }
    requires within { length bytes.now ≤ (lane_in end.old lane.0).left }

    ensures turns { Turns (take_plan (plain_of end.old log.old writer.old) lane bytes.now) result (plain_of end.new log.new writer.new) (D.state depot.old) (D.state depot.new) }
    ensures exact { TurnRan (take_plan (plain_of end.old log.old writer.old) lane bytes.now) result (plain_of end.new log.new writer.new) (D.state depot.old) (D.state depot.new) }
    ensures memory { OnErr result (plain_of end.new log.new writer.new ≡ plain_of end.old log.old writer.old) }
    ensures desk { IsDesk end.new log.new writer.new }
    ensures rest { IsAtRest end.new log.new (D.state depot.new) }

    // Bytes that are the tree's: other bytes of a block that lands here would be logged.
    ensures images { (T : List File) → PutOf T (plain_of end.old log.old writer.old) lane (Bytes bytes.now) → IsGoodFor T (plain_of end.old log.old writer.old) (D.state depot.old) →
        GoodSince T [] (D.state depot.old).told (D.state depot.new).told }
    ensures good { (T : List File) → PutOf T (plain_of end.old log.old writer.old) lane (Bytes bytes.now) → IsGoodFor T (plain_of end.old log.old writer.old) (D.state depot.old) →
        IsGoodFor T (plain_of end.new log.new writer.new) (D.state depot.new) }

    ensures untouched { is_failure (end.old).answer ≡ true → D.state depot.new ≡ D.state depot.old }
    ensures spares { Between (Spares (IsBeside (writer.old).known) (writer.old).files) (D.state depot.old).told (D.state depot.new).told }
    ensures counts { Counts (LosesDisk (end.old).answer (end.new).answer) (D.state depot.old) (D.state depot.new) }
    ensures slips { (T : List File) → IfTold (λ t. DockGood T (plain_of end.old log.old writer.old) t.now → (D.state depot.new).slips ≡ (D.state depot.old).slips) (D.state depot.old).told }
{
    // The law: a step is that of its row.
    steps_follow_their_rows();
    if end.has_failed() {
        return Ok(end.give_up(lane, false));
    }
    end.prepare()?;
    take(alloc, depot, log, writer, end, lane, bytes)
}

// A row of a sound end.
fn serve<D: Depot>(
    alloc: Global,
    depot: &mut D,
    log: &mut Log,
    writer: &mut Writer,
    end: &mut RecvEnd,
    lane: Lane,
    row: RecvRow<'_>,
) -> Result<RecvAct, NoMemory>
    requires lane { lane.0 < length (end.old).lanes }
    requires desk { IsDesk end.old log.old writer.old }
    requires rest { IsAtRest end.old log.old (D.state depot.old) }
    requires batched { IsBatched (plain_of end.old log.old writer.old) }
    requires sound { is_failure (end.old).answer ≡ false }
    requires may { MayGoOn (shown row) (past_of (end.old).history lane.0) }

    ensures turns { Turns (turn_row (plain_of end.old log.old writer.old) lane (shown row.entry)) result (plain_of end.new log.new writer.new) (D.state depot.old) (D.state depot.new) }
    ensures exact { TurnRan (turn_row (plain_of end.old log.old writer.old) lane (shown row.entry)) result (plain_of end.new log.new writer.new) (D.state depot.old) (D.state depot.new) }
    ensures memory { OnErr result (plain_of end.new log.new writer.new ≡ plain_of end.old log.old writer.old) }
    ensures desk { IsDesk end.new log.new writer.new }
    ensures rest { IsAtRest end.new log.new (D.state depot.new) }
    ensures images { (T : List File) → IsGoodFor T (plain_of end.old log.old writer.old) (D.state depot.old) → GoodSince T [] (D.state depot.old).told (D.state depot.new).told }
    ensures good { (T : List File) → IsTreesRow T (shown row.entry) → IsGoodFor T (plain_of end.old log.old writer.old) (D.state depot.old) →
        IsGoodFor T (plain_of end.new log.new writer.new) (D.state depot.new) }
    ensures spares { Between (Spares (IsOtherRow (writer.old).known (shown row.entry)) (writer.old).files) (D.state depot.old).told (D.state depot.new).told }
    ensures counts { Counts (LosesDisk (end.old).answer (end.new).answer) (D.state depot.old) (D.state depot.new) }
    ensures slips { (T : List File) → IfTold (λ t. DockGood T (plain_of end.old log.old writer.old) t.now → (D.state depot.new).slips ≡ (D.state depot.old).slips) (D.state depot.old).told }
{
    match row {
        RecvRow::Dropped => lose_connection(writer, end, lane),
        RecvRow::Block(header) => {
            end.prepare()?;
            begin(depot, log, writer, end, lane, header)
        }
        RecvRow::Done => {
            end.prepare()?;
            choose(alloc, depot, log, writer, end, lane, Idling::Done)
        }
        RecvRow::WaitWritten => {
            end.prepare()?;
            choose(alloc, depot, log, writer, end, lane, Idling::WaitWritten)
        }
        RecvRow::Woken => {
            end.prepare()?;
            choose(alloc, depot, log, writer, end, lane, Idling::Woken)
        }
        row => served(alloc, end, lane, row),
    }
}
