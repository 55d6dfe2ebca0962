//! The command `rehearse`: a copy of a source's tree into a depot.
ghost use Rattle.std.specs.Prelude.{◌≡◌, ◌≤◌, [], IfErr, IfOk, IfSome, IsErrOf, OnOk};
ghost use Rattle.wdt_units.specs.Counts.{Rises, Stands};
ghost use Rattle.wdt_depot.specs.Moments.{IfTold};
ghost use Rattle.wdt_depot.specs.State.{Counts};
ghost use Rattle.wdt_rehearsal.specs.Destination.{LeavesOthers, Lands};
ghost use Rattle.wdt_words.specs.declared.command.Command.TheVariants as Command;
ghost use Rattle.wdt_tool.specs.Causes.{IsCauseOf, IsUntouched, RefusesCommand};
ghost use Rattle.wdt_tool.specs.Refusals.{IsRunCause, IsRunRefused};
ghost use Rattle.wdt_tool.specs.Refusing.{RefusesListing};
ghost use Rattle.wdt_tool.specs.Texts.{IsTextOf};

use crate::fail::CommandFail;
use crate::report::report_lines;
use std::alloc::Global;
use wdt_depot::Depot;
use wdt_rehearsal::rehearse;
use wdt_source::Source;

/// The lines of a rehearsal, which leaves the source's tree in the depot. Each error has its own cause.
pub fn rehearse_command<S: Source, D: Depot>(
    alloc: Global,
    source: &mut S,
    depot: &mut D,
) -> Result<Vec<u8>, CommandFail>
    requires { (D.state depot.old).spots ≡ [] }
    ensures landed { OnOk result (IfSome (S.told source.old) (λ files. Lands files (D.state depot.old).told (D.state depot.new).told)) }
    ensures others { IfSome (S.told source.old) (λ files. LeavesOthers files (D.state depot.old).told (D.state depot.new).told) }
    ensures report { IfOk result (λ text. IsTextOf Command.Rehearse (S.listing source.old) (D.state depot.old).told text.items) }
    ensures refused { IfErr result (IsCauseOf (IsRunCause (S.listing source.old))) }
    ensures refuses { RefusesListing (S.listing source.old) IsRunRefused (Stands (S.faults source.old) (S.faults source.new)) (RefusesCommand result) }
    ensures later { S.faults source.old ≤ S.faults source.new }
    ensures cause { IsErrOf result CommandFail.Source → Rises (S.faults source.old) (S.faults source.new) }
    ensures slips { IfSome (S.told source.old) (λ files. S.slips source.new ≡ S.slips source.old) }
    ensures untouched { IfErr result (IsUntouched (D.state depot.old) (D.state depot.new)) }
    ensures counts { Counts (IsErrOf result CommandFail.Disk) (D.state depot.old) (D.state depot.new) }
    ensures depot_slips { IfTold (λ t. (D.state depot.new).slips ≡ (D.state depot.old).slips) (D.state depot.old).told }
    ensures spots { (D.state depot.new).spots ≡ [] }
{
    match rehearse(alloc, source, depot) {
        Ok(rehearsed) => match report_lines(alloc, &rehearsed.report) {
            Ok(text) => Ok(text.into_bytes()),
            Err(_) => Err(CommandFail::NoMemory),
        },
        Err(fail) => Err(CommandFail::from(fail)),
    }
}
