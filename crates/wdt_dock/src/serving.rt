//! The rules that come before the table, and the rows that concern the end alone.
ghost use Rattle.std.specs.Prelude.{◌≡◌, ◌<◌, length, true, false, IfOk, OnErr};
ghost use Rattle.wdt_sender_fsm.specs.Rules.{is_failure, starved};
ghost use Rattle.wdt_receiver_fsm.specs.Plan.{ends};
ghost use Rattle.wdt_receiver_fsm.specs.PlainReceiver.{failed};
ghost use Rattle.wdt_receiver_fsm.specs.ReceiverHistory.{past_of};
ghost use Rattle.wdt_receiver_fsm.specs.Rows.{Starved, shown};
ghost use Rattle.wdt_receiver_fsm.specs.Turn.{gives_up, ruled, turn_row};
ghost use Rattle.wdt_receiver_fsm.specs.End.{Books, IsSameEnd, plain_with};
ghost use Rattle.wdt_dock.specs.Serving.{MayServe, is_of_files};

use std::alloc::Global;
use wdt_receiver_fsm::{RecvAct, RecvEnd, RecvRow};
use wdt_sender_fsm::PeerKind;
use wdt_units::{Lane, NoMemory};

/// Memory ran out: the end fails unless it had an answer before, and the rules that come before the
/// table do the rest. No memory is taken.
pub fn starved(end: &mut RecvEnd, lane: Lane, mute: bool) -> RecvAct
    requires { lane.0 < length (end.old).lanes }
    ensures { (books : Books) → ruled (failed (plain_with end.old books) (starved (end.old).answer)) lane (Starved mute) ≡ ends (result, plain_with end.new books) }
{
    end.starve();
    if end.has_failed() {
        return end.give_up(lane, mute);
    }
    RecvAct::Stop
}

/// A row of a sound end that concerns no files.
pub fn served(
    alloc: Global,
    end: &mut RecvEnd,
    lane: Lane,
    row: RecvRow<'_>,
) -> Result<RecvAct, NoMemory>
    requires lane { lane.0 < length (end.old).lanes }
    requires may { MayServe (shown row) (past_of (end.old).history lane.0) }
    requires own { is_of_files (shown row) ≡ false }
    ensures ok { IfOk result (λ act. (books : Books) → turn_row (plain_with end.old books) lane (shown row.entry) ≡ ends (act, plain_with end.new books)) }
    ensures err { OnErr result (IsSameEnd end.old end.new) }
{
    match row {
        RecvRow::Over | RecvRow::Starved { .. } | RecvRow::Stray => Ok(RecvAct::Stop),
        RecvRow::Aborted(code) => end.aborted(lane, code),
        RecvRow::BadFrame(at) => end.find_fault(lane, PeerKind::BadFrame { at }),
        RecvRow::Unexpected { state, command } => {
            end.find_fault(lane, PeerKind::Unexpected { state, command })
        }
        RecvRow::Begin => end.begin(lane),
        RecvRow::NotLinked => end.not_linked(lane),
        RecvRow::Linked => end.linked(lane),
        RecvRow::Settings(settings) => end.read_settings(lane, settings),
        RecvRow::GreetingWritten => end.greeting_written(alloc, lane),
        RecvRow::ChunksWritten | RecvRow::ErrMarksWritten => Ok(end.read_on(lane)),
        RecvRow::Size { files, bytes } => end.read_size(lane, files, bytes),
        RecvRow::DoneWritten => Ok(end.done_written(lane)),
        RecvRow::Answered => end.answered(lane),
        RecvRow::AbortWritten => Ok(end.leave(lane)),
        RecvRow::Dropped
        | RecvRow::Block(_)
        | RecvRow::Done
        | RecvRow::WaitWritten
        | RecvRow::Woken => unreachable!(),
    }
}
