//! The top call: it runs the commands that wait for nobody.
ghost use Rattle.std.specs.Prelude.{◌≡◌, ◌≢◌, ◌↔◌, ◌≤◌, [], None, Some, IfErr, IfOk, IfSome, IsErrOf, OnOk, map, string_bytes};
ghost use Rattle.wdt_units.specs.Counts.{Rises, Stands};
ghost use Rattle.wdt_depot.specs.Moments.{IfTold};
ghost use Rattle.wdt_depot.specs.State.{Counts, OnlyLooks};
ghost use Rattle.wdt_sender_fsm.specs.declared.answers.RefusedKind.{RefusedKind};
ghost use Rattle.wdt_rehearsal.specs.Destination.{LeavesOthers, Lands};
ghost use Rattle.wdt_tool.specs.Causes.{IsCauseOf, IsDoneOrStarved, IsRefusalEnd, IsUnrefused, IsUntouched, LeavesDepot, RefusesCommand};
ghost use Rattle.wdt_tool.specs.Refusals.{IsRefusedFor};
ghost use Rattle.wdt_tool.specs.Refusing.{Refuses};
ghost use Rattle.wdt_tool.specs.Texts.{IsTextOf, Prints};
ghost use Rattle.wdt_words.specs.Words.{command_of, HasBlock};

use crate::ending::{end_failed, end_with, put};
use crate::fail::CommandFail;
use crate::log::log_command;
use crate::plan::plan_command;
use crate::rehearsal::rehearse_command;
use crate::status::{Status, Tooled};
use std::alloc::Global;
use wdt_depot::Depot;
use wdt_source::Source;
use wdt_units::Sink;
use wdt_words::{Command, command_of};

/// Runs the command that the words are.
pub fn tool<S: Source, D: Depot, O: Sink>(
    alloc: Global,
    words: &[String],
    source: &mut S,
    depot: D,
    out: &mut O,
) -> Tooled<D>
    requires { (D.state depot).spots ≡ [] }

    // A rehearsal that is done: each file of the source's tree stands in the depot.
    ensures landed { command_of (map string_bytes words.now) ≡ Some Command.Rehearse → result.status ≡ Status.Done
        → IfSome (S.told source.old) (λ files. Lands files (D.state depot).told (D.state result.depot).told) }
    // So it does where only the lines couldn't be written.
    ensures unwritten { command_of (map string_bytes words.now) ≡ Some Command.Rehearse → result.status ≡ Status.OutFault
        → IfSome (S.told source.old) (λ files. Lands files (D.state depot).told (D.state result.depot).told) }
    // Whatever it answers, every path that the tree doesn't have is as it was, at every moment.
    ensures others { command_of (map string_bytes words.now) ≡ Some Command.Rehearse
        → IfSome (S.told source.old) (λ files. LeavesOthers files (D.state depot).told (D.state result.depot).told) }
    // Every other run leaves each file as it was, at every moment, and so does a rehearsal before its
    // tree has come whole. `log` leaves the source alone, and so do words that are no command.
    ensures looks { command_of (map string_bytes words.now) ≢ Some Command.Rehearse → OnlyLooks (D.state depot) (D.state result.depot) }
    ensures untouched { LeavesDepot result.status (D.state depot) (D.state result.depot) }
    ensures reads_no_source { command_of (map string_bytes words.now) ≡ Some Command.Log → source.new ≡ source.old }
    ensures unread { result.status ≡ Status.Usage → source.new ≡ source.old }

    // What the sink got: the command's lines and the last one behind Done, the last line alone behind the
    // others. Where the sink failed, all else went well.
    ensures prints { Prints (command_of (map string_bytes words.now)) (S.listing source.old) (D.state depot).told
        result.status (O.faults out.old) (O.faults out.new) (O.written out.old) (O.written out.new) }

    // Each other status has its cause.
    ensures usage { result.status ≡ Status.Usage ↔ (command_of (map string_bytes words.now) ≡ None) }
    ensures source_fault { result.status ≡ Status.SourceFault → (command_of (map string_bytes words.now) ≢ Some Command.Log) × Rises (S.faults source.old) (S.faults source.new) }
    ensures disk { Counts (result.status ≡ Status.DiskFault) (D.state depot) (D.state result.depot) }
    ensures refused { (kind : RefusedKind) → result.status ≡ Status.Refused kind
        → IfSome (command_of (map string_bytes words.now)) (λ command. IsRefusedFor command (S.listing source.old) (D.state depot).told kind) }
    // What is refused is refused for just that, unless what is asked up to there fails or memory runs
    // out: of a listing the source alone, of a log in `log` the depot alone.
    ensures refuses { IfSome (command_of (map string_bytes words.now)) (λ command. Refuses command (S.listing source.old) (D.state depot).told
        (Stands (S.faults source.old) (S.faults source.new)) (Stands (D.state depot).faults (D.state result.depot).faults) (λ kind. IsRefusalEnd kind result.status)) }
    ensures out_fault { result.status ≡ Status.OutFault → Rises (O.faults out.old) (O.faults out.new) }

    // Where there is no cause the run is done, or memory ran out. `log` asks no source.
    ensures complete { command_of (map string_bytes words.now) ≢ None
        → (command_of (map string_bytes words.now) ≢ Some Command.Log → Stands (S.faults source.old) (S.faults source.new))
        → Stands (D.state depot).faults (D.state result.depot).faults → Stands (O.faults out.old) (O.faults out.new)
        → IsUnrefused (command_of (map string_bytes words.now)) (S.listing source.old) (D.state depot).told result.status
        → IsDoneOrStarved result.status }

    // The run reads nothing that the tree doesn't have, asks the depot for nothing that can't be, and
    // leaves no spot entered.
    ensures slips { IfSome (S.told source.old) (λ files. S.slips source.new ≡ S.slips source.old) }
    ensures depot_slips { IfTold (λ t. (D.state result.depot).slips ≡ (D.state depot).slips) (D.state depot).told }
    ensures spots { (D.state result.depot).spots ≡ [] }
{
    let mut depot = depot;
    let Some(command) = command_of(words) else {
        let status = end_with(Status::Usage, out);
        return Tooled { status, depot };
    };
    match run(alloc, command, source, &mut depot) {
        Ok(lines) => {
            let status = put(lines, out);
            Tooled { status, depot }
        }
        Err(failure) => {
            let status = end_failed(alloc, failure, out);
            Tooled { status, depot }
        }
    }
}

// The lines of a command that is done.
fn run<S: Source, D: Depot>(
    alloc: Global,
    command: Command,
    source: &mut S,
    depot: &mut D,
) -> Result<Vec<u8>, CommandFail>
    requires block { HasBlock command }
    requires spots { (D.state depot.old).spots ≡ [] }
    ensures landed { command ≡ Command.Rehearse → OnOk result (IfSome (S.told source.old) (λ files. Lands files (D.state depot.old).told (D.state depot.new).told)) }
    ensures others { command ≡ Command.Rehearse → IfSome (S.told source.old) (λ files. LeavesOthers files (D.state depot.old).told (D.state depot.new).told) }
    ensures looks { command ≢ Command.Rehearse → OnlyLooks (D.state depot.old) (D.state depot.new) }
    ensures untouched { IfErr result (IsUntouched (D.state depot.old) (D.state depot.new)) }
    ensures reads_no_source { command ≡ Command.Log → source.new ≡ source.old }
    ensures text { IfOk result (λ text. IsTextOf command (S.listing source.old) (D.state depot.old).told text.items) }
    ensures later { S.faults source.old ≤ S.faults source.new }
    ensures cause { IsErrOf result CommandFail.Source → (command ≢ Command.Log) × Rises (S.faults source.old) (S.faults source.new) }
    ensures counts { Counts (IsErrOf result CommandFail.Disk) (D.state depot.old) (D.state depot.new) }
    ensures refused { IfErr result (IsCauseOf (IsRefusedFor command (S.listing source.old) (D.state depot.old).told)) }
    ensures refuses { Refuses command (S.listing source.old) (D.state depot.old).told
        (Stands (S.faults source.old) (S.faults source.new)) (Stands (D.state depot.old).faults (D.state depot.new).faults) (RefusesCommand result) }
    ensures slips { IfSome (S.told source.old) (λ files. S.slips source.new ≡ S.slips source.old) }
    ensures depot_slips { IfTold (λ t. (D.state depot.new).slips ≡ (D.state depot.old).slips) (D.state depot.old).told }
    ensures spots { (D.state depot.new).spots ≡ [] }
{
    match command {
        Command::Rehearse => rehearse_command(alloc, source, depot),
        Command::Plan { block } => plan_command(alloc, source, depot, block),
        Command::Log => log_command(alloc, depot),
    }
}
