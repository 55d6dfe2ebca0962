//! Bytes of a block come.
ghost use Rattle.std.specs.Prelude.{◌≡◌, ◌≢◌, ◌<◌, ◌≤◌, false, [], List, length, IfOk, IfSome, OnErr, None};
ghost use Rattle.wdt_units.specs.Tree.{File};
ghost use Rattle.wdt_depot.specs.Moments.{IfTold};
ghost use Rattle.wdt_depot.specs.State.{Counts};
ghost use Rattle.wdt_good.specs.Logged.{GoodSince};
ghost use Rattle.wdt_sender_fsm.specs.Rules.{is_failure};
ghost use Rattle.wdt_receiver_fsm.specs.Batched.{IsBatched};
ghost use Rattle.wdt_units.specs.declared.limits.TheConstants.{PIECE};
ghost use Rattle.wdt_receiver_fsm.specs.PlainReceiver.{is_batch_full};
ghost use Rattle.wdt_receiver_fsm.specs.ReceiverHistory.{past_of};
ghost use Rattle.wdt_receiver_fsm.specs.Turn.{piece_plan};
ghost use Rattle.wdt_receiver_fsm.specs.declared.end.TheConstants.{STEP_ENTRIES};
ghost use Rattle.wdt_dock.specs.Desk.{IsAtRest, IsDesk, IsWritten, plain_of};
ghost use Rattle.wdt_dock.specs.DockGood.{DockGood, IsGoodFor, IsPieceOf};
ghost use Rattle.wdt_dock.specs.DockView.{LosesDisk, TurnRan, Turns};
ghost use Rattle.wdt_receiver_fsm.specs.End.{lane_in};
ghost use Rattle.wdt_dock.specs.Landing.{IsWholeOf, land_plan};
ghost use Rattle.wdt_log.specs.OpenLog.{OpenLog};
ghost use Rattle.wdt_dock.specs.Sparing.{Between, IsBeside, Spares};

use crate::logging::log_all;
use std::alloc::Global;
use wdt_depot::Depot;
use wdt_log::{Log, LogFail};
use wdt_receiver_fsm::{RecvAct, RecvEnd};
use wdt_sender_fsm::EndAnswer;
use wdt_units::{Lane, MAX_BLOCKS, NoMemory};
use wdt_writer::{WriteFail, Writer};

/// Bytes of the block that is begun on a lane are written at its next place: 1 to 65,536 bytes, and no more
/// than are left of it. The last of them land the block, and where a batch is full, all that landed is logged.
///
/// After `NoMemory` the end is as it was: the same bytes are to come again.
pub fn take<D: Depot>(
    alloc: Global,
    depot: &mut D,
    log: &mut Log,
    writer: &mut Writer,
    end: &mut RecvEnd,
    lane: Lane,
    bytes: &[u8],
) -> Result<RecvAct, NoMemory>
    requires lane { lane.0 < length (end.old).lanes }
    requires desk { IsDesk end.old log.old writer.old }
    requires rest { IsAtRest end.old log.old (D.state depot.old) }
    requires batched { IsBatched (plain_of end.old log.old writer.old) }
    requires sound { is_failure (end.old).answer ≡ false }
    requires room { STEP_ENTRIES ≤ (end.old).room }
    requires begun { (past_of (end.old).history lane.0).begun ≢ None }
    requires some { 0 < length bytes.now }
    requires piece { length bytes.now ≤ PIECE }
    requires within { length bytes.now ≤ (lane_in end.old lane.0).left }

    ensures turns { Turns (piece_plan (plain_of end.old log.old writer.old) lane bytes.now (past_of (end.old).history lane.0).begun)
        result (plain_of end.new log.new writer.new) (D.state depot.old) (D.state depot.new) }
    ensures exact { TurnRan (piece_plan (plain_of end.old log.old writer.old) lane bytes.now (past_of (end.old).history lane.0).begun)
        result (plain_of end.new log.new writer.new) (D.state depot.old) (D.state depot.new) }
    ensures memory { OnErr result (plain_of end.new log.new writer.new ≡ plain_of end.old log.old writer.old) }
    ensures desk { IsDesk end.new log.new writer.new }
    ensures rest { IsAtRest end.new log.new (D.state depot.new) }

    // At each moment, inside each call too, each image is good for the tree and for what was logged
    // before; and behind it the end and its disk are good for the tree.
    ensures images { (T : List File) → IsPieceOf T (plain_of end.old log.old writer.old) lane bytes.now →
        IsGoodFor T (plain_of end.old log.old writer.old) (D.state depot.old) → GoodSince T [] (D.state depot.old).told (D.state depot.new).told }
    ensures good { (T : List File) → IsPieceOf T (plain_of end.old log.old writer.old) lane bytes.now →
        IsGoodFor T (plain_of end.old log.old writer.old) (D.state depot.old) → IsGoodFor T (plain_of end.new log.new writer.new) (D.state depot.new) }

    ensures spares { Between (Spares (IsBeside (writer.old).known) (writer.old).files) (D.state depot.old).told (D.state depot.new).told }
    ensures counts { Counts (LosesDisk (end.old).answer (end.new).answer) (D.state depot.old) (D.state depot.new) }
    ensures slips { (T : List File) → IfTold (λ t. DockGood T (plain_of end.old log.old writer.old) t.now → (D.state depot.new).slips ≡ (D.state depot.old).slips) (D.state depot.old).told }
{
    match writer.piece(depot, lane, bytes) {
        Ok(0) => land(alloc, depot, log, writer, end, lane, bytes),
        Ok(left) => Ok(end.take_piece(lane, left)),
        Err(WriteFail::Disk) => Ok(end.fail_with(lane, EndAnswer::Disk)),
        Err(WriteFail::NoMemory) => Err(NoMemory),
        Err(
            WriteFail::SizeDiffers { .. } | WriteFail::Overlap { .. } | WriteFail::OverLimit { .. },
        ) => unreachable!(),
    }
}

// The last bytes of the lane's block are written: the block lands. Where there is no memory for it, they are
// to come again.
fn land<D: Depot>(
    alloc: Global,
    depot: &mut D,
    log: &mut Log,
    writer: &mut Writer,
    end: &mut RecvEnd,
    lane: Lane,
    bytes: &[u8],
) -> Result<RecvAct, NoMemory>
    requires lane { lane.0 < length (end.old).lanes }
    requires desk { IsWritten end.old log.old writer.old lane.0 (length bytes.now) }
    requires rest { IsAtRest end.old log.old (D.state depot.old) }
    requires batched { IsBatched (plain_of end.old log.old writer.old) }
    requires sound { is_failure (end.old).answer ≡ false }
    requires begun { (past_of (end.old).history lane.0).begun ≢ None }
    requires few { length bytes.now ≤ PIECE }
    requires short { IfSome (past_of (end.old).history lane.0).begun (λ b. length bytes.now ≤ b.length) }
    requires room { 0 < (end.old).room }

    ensures turns { Turns (land_plan (plain_of end.old log.old writer.old) lane bytes.now (past_of (end.old).history lane.0).begun)
        result (plain_of end.new log.new writer.new) (D.state depot.old) (D.state depot.new) }
    ensures exact { TurnRan (land_plan (plain_of end.old log.old writer.old) lane bytes.now (past_of (end.old).history lane.0).begun)
        result (plain_of end.new log.new writer.new) (D.state depot.old) (D.state depot.new) }
    ensures memory { OnErr result (plain_of end.new log.new writer.new ≡ plain_of end.old log.old writer.old) }
    ensures desk { IsDesk end.new log.new writer.new }
    ensures rest { IsAtRest end.new log.new (D.state depot.new) }

    // At each moment, inside each call too, each image is good for the tree and for what was logged
    // before; and behind it the end and its disk are good for the tree.
    ensures images { (T : List File) → IfTold (λ t. IsWholeOf T (plain_of end.old log.old writer.old) lane.0 t.now) (D.state depot.old).told →
        GoodSince T [] (D.state depot.old).told (D.state depot.new).told }
    ensures good { (T : List File) → IfTold (λ t. IsWholeOf T (plain_of end.old log.old writer.old) lane.0 t.now) (D.state depot.old).told →
        IsGoodFor T (plain_of end.new log.new writer.new) (D.state depot.new) }

    ensures spares { Between (Spares (IsBeside (writer.old).known) (writer.old).files) (D.state depot.old).told (D.state depot.new).told }
    ensures counts { Counts (LosesDisk (end.old).answer (end.new).answer) (D.state depot.old) (D.state depot.new) }
    ensures slips { (T : List File) → IfTold (λ t. DockGood T (plain_of end.old log.old writer.old) t.now → (D.state depot.new).slips ≡ (D.state depot.old).slips) (D.state depot.old).told }
{
    let Ok(_) = writer.land(lane) else {
        writer.unpiece(lane, bytes.len() as u32);
        return Err(NoMemory);
    };
    if !is_full(end, writer) {
        end.land_block(lane);
        return Ok(end.read_on(lane));
    }
    match log_all(alloc, depot, log, writer) {
        Ok(()) => {
            end.land_block(lane);
            Ok(end.read_on(lane))
        }
        Err(LogFail::Disk) => {
            end.land_block(lane);
            Ok(end.fail_with(lane, EndAnswer::Disk))
        }
        Err(LogFail::NoMemory) => {
            writer.unland();
            writer.unpiece(lane, bytes.len() as u32);
            Err(NoMemory)
        }
        Err(LogFail::BadLog { .. } | LogFail::Shut) => unreachable!(),
    }
}

// It is time to log what landed.
fn is_full(end: &RecvEnd, writer: &Writer) -> bool
    ensures { (log : OpenLog) → result ≡ is_batch_full (plain_of end.now log writer.now) }
{
    writer.unlogged_bytes() >= end.batch() || writer.unlogged().len() >= MAX_BLOCKS as usize
}
