//! A block begins.
ghost use Rattle.std.specs.Prelude.{◌≡◌, ◌<◌, ◌≤◌, false, [], List, length, IfOk, IsErrOf, IsSome, OnErr, OnOk, None};
ghost use Rattle.wdt_units.specs.Headers.{FitsHeader, IsHeaderOf};
ghost use Rattle.wdt_units.specs.Tree.{File};
ghost use Rattle.wdt_units.specs.declared.limits.TheConstants.{MAX_BLOCKS};
ghost use Rattle.wdt_depot.specs.Moments.{IfTold};
ghost use Rattle.wdt_depot.specs.State.{Counts};
ghost use Rattle.wdt_logfmt.specs.Beginning.{block_of, is_new};
ghost use Rattle.wdt_good.specs.Logged.{GoodSince};
ghost use Rattle.wdt_writer.specs.Answers.{IsAnswered, IsSameOrSettled, fault_at};
ghost use Rattle.wdt_writer.specs.Calls.{CanMake, UsesDisk};
ghost use Rattle.wdt_writer.specs.PlainWriter.{begun_on, part_at, run_begin};
ghost use Rattle.wdt_sender_fsm.specs.Rules.{is_failure};
ghost use Rattle.wdt_receiver_fsm.specs.Batched.{IsBatched};
ghost use Rattle.wdt_receiver_fsm.specs.ReceiverHistory.{past_of};
ghost use Rattle.wdt_receiver_fsm.specs.Turn.{begins, block_plan};
ghost use Rattle.wdt_dock.specs.Beginning.{IsRefused, books_with, starts};
ghost use Rattle.wdt_dock.specs.Desk.{IsAtRest, IsDesk, plain_of};
ghost use Rattle.wdt_dock.specs.DockGood.{DockGood, IsGoodFor};
ghost use Rattle.wdt_dock.specs.DockView.{LosesDisk, TurnRan, Turns};
ghost use Rattle.wdt_receiver_fsm.specs.End.{Books, plain_with};
ghost use Rattle.wdt_receiver_fsm.specs.declared.end.TheConstants.{STEP_ENTRIES};
ghost use Rattle.wdt_receiver_fsm.specs.Rows.{Block as BlockRead};
ghost use Rattle.wdt_dock.specs.Sparing.{Between, IsOtherRow, Spares};

use wdt_depot::Depot;
use wdt_log::Log;
use wdt_receiver_fsm::{RecvAct, RecvEnd};
use wdt_sender_fsm::{EndAnswer, PeerKind};
use wdt_units::{Block, Header, Lane, MAX_BLOCKS, NoMemory};
use wdt_writer::{WriteFail, Writer};

/// A header came on a lane on which no block is begun: its block begins, for which a new file is made; an
/// empty block has landed. Or the block is refused: the file is known otherwise, a position is there or on its
/// way, or a limit would be passed.
///
/// After `NoMemory` the end is as it was; a new file may have been made.
pub fn begin<D: Depot>(
    depot: &mut D,
    log: &mut Log,
    writer: &mut Writer,
    end: &mut RecvEnd,
    lane: Lane,
    header: &Header,
) -> Result<RecvAct, NoMemory>
    requires lane { lane.0 < length (end.old).lanes }
    requires desk { IsDesk end.old log.old writer.old }
    requires rest { IsAtRest end.old log.old (D.state depot.old) }
    requires batched { IsBatched (plain_of end.old log.old writer.old) }
    requires sound { is_failure (end.old).answer ≡ false }
    requires room { STEP_ENTRIES ≤ (end.old).room }
    requires none { (past_of (end.old).history lane.0).begun ≡ None }
    requires fits { FitsHeader header.now }

    ensures turns { Turns (block_plan (plain_of end.old log.old writer.old) lane header.now) result (plain_of end.new log.new writer.new) (D.state depot.old) (D.state depot.new) }
    ensures exact { TurnRan (block_plan (plain_of end.old log.old writer.old) lane header.now) result (plain_of end.new log.new writer.new) (D.state depot.old) (D.state depot.new) }
    ensures memory { OnErr result (plain_of end.new log.new writer.new ≡ plain_of end.old log.old writer.old) }
    ensures desk { IsDesk end.new log.new writer.new }
    ensures rest { IsAtRest end.new log.new (D.state depot.new) }

    // At each moment, inside each call too, each image is good for the tree and for what was logged
    // before; and behind it the end and its disk are good for the tree.
    ensures images { (T : List File) → IsGoodFor T (plain_of end.old log.old writer.old) (D.state depot.old) →
        GoodSince T [] (D.state depot.old).told (D.state depot.new).told }
    ensures good { (T : List File) → IsHeaderOf T header.now → IsGoodFor T (plain_of end.old log.old writer.old) (D.state depot.old) →
        IsGoodFor T (plain_of end.new log.new writer.new) (D.state depot.new) }

    ensures spares { Between (Spares (IsOtherRow (writer.old).known (BlockRead header.now)) (writer.old).files) (D.state depot.old).told (D.state depot.new).told }
    ensures counts { Counts (LosesDisk (end.old).answer (end.new).answer) (D.state depot.old) (D.state depot.new) }
    ensures slips { (T : List File) → IfTold (λ t. DockGood T (plain_of end.old log.old writer.old) t.now → (D.state depot.new).slips ≡ (D.state depot.old).slips) (D.state depot.old).told }
{
    let landed = end.landed(lane);
    if landed >= MAX_BLOCKS {
        let count = u64::from(landed) + 1;
        return Ok(end.fault(lane, PeerKind::OverLimit { count }));
    }
    match start(depot, writer, lane, header) {
        Ok(block) => Ok(start_block(end, lane, block)),
        Err(fail) => refuse(end, lane, fail),
    }
}

// The header's block begins in the writer, or lands there where it is empty.
fn start<D: Depot>(
    depot: &mut D,
    writer: &mut Writer,
    lane: Lane,
    header: &Header,
) -> Result<Block, WriteFail>
    requires lane { lane.0 < length (writer.old).parts }
    requires idle { part_at writer.old lane.0 ≡ None }
    requires header { FitsHeader header.now }
    requires spots { (D.state depot.old).spots ≡ [] }
    ensures block { IfOk result (λ block. block ≡ block_of (writer.old).known header.now) }
    ensures started { OnOk result (writer.new ≡ starts writer.old lane.0 header.now) }
    ensures unchanged { OnErr result (IsSameOrSettled writer.old writer.new) }
    ensures refused { IsAnswered (fault_at writer.old header.now) result }
    ensures untouched { IsSome (fault_at writer.old header.now) → D.state depot.new ≡ D.state depot.old }
    ensures never { is_new (writer.old).known header.now ≡ false → IsErrOf result WriteFail.Disk → ⊥ }
    ensures disk { fault_at writer.old header.now ≡ None → UsesDisk (CanMake (writer.old).known header.now) (begun_on (writer.old).known header.now)
        (run_begin (writer.old).known header.now) result (D.state depot.old) (D.state depot.new) }
    ensures slips { (D.state depot.new).slips ≡ (D.state depot.old).slips }
{
    if header.length == 0 {
        writer.place(depot, lane, header)
    } else {
        writer.begin(depot, lane, header)
    }
}

// The lane's block is begun: the first of its bytes are taken, or the lane reads on where it is empty.
fn start_block(end: &mut RecvEnd, lane: Lane, block: Block) -> RecvAct
    requires lane { lane.0 < length (end.old).lanes }
    requires few { length (past_of (end.old).history lane.0).landed < MAX_BLOCKS }
    requires room { STEP_ENTRIES ≤ (end.old).room }
    ensures { (books : Books) → begins (plain_with end.old books) lane block ≡ (result, plain_with end.new (books_with books block block.length)) }
{
    if block.length == 0 {
        end.place_block(lane, block)
    } else {
        end.begin_block(lane, block)
    }
}

// The writer didn't begin the lane's block: the disk failed, or the sender is told why it may not begin.
fn refuse(end: &mut RecvEnd, lane: Lane, fail: WriteFail) -> Result<RecvAct, NoMemory>
    requires lane { lane.0 < length (end.old).lanes }
    requires room { 0 < (end.old).room }
    ensures refused { IfOk result (λ act. (books : Books) → IsRefused (plain_with end.old books) lane fail (act, plain_with end.new books)) }
    ensures memory { OnErr result (fail ≡ WriteFail.NoMemory) }
    ensures unchanged { OnErr result (end.new ≡ end.old) }
{
    match fail {
        WriteFail::Disk => Ok(end.fail_with(lane, EndAnswer::Disk)),
        WriteFail::NoMemory => Err(NoMemory),
        WriteFail::SizeDiffers {
            size,
            stamp,
            told_size,
            told_stamp,
        } => {
            Ok(end.fault(
                lane,
                PeerKind::SizeDiffers {
                    size,
                    stamp,
                    told_size,
                    told_stamp,
                },
            ))
        }
        WriteFail::Overlap { offset } => Ok(end.fault(lane, PeerKind::Overlap { offset })),
        WriteFail::OverLimit { count } => Ok(end.fault(lane, PeerKind::OverLimit { count })),
    }
}
