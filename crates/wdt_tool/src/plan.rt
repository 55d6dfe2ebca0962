//! The command `plan`: what is still to be sent of a source's tree to a destination.
ghost use Rattle.std.specs.Prelude.{◌≡◌, ◌≤◌, [], None, IfErr, IfOk, IfSome, IsErrOf, IsTrue, OnOk};
ghost use Rattle.wdt_units.specs.Counts.{Rises};
ghost use Rattle.wdt_ranges.specs.Files.{is_in_order};
ghost use Rattle.wdt_depot.specs.State.{Counts, OnlyLooks};
ghost use Rattle.wdt_tree.specs.Listing.{IsAccepted};
ghost use Rattle.wdt_tree.specs.Rest.{IsRest};
ghost use Rattle.wdt_rest.specs.RestOf.{rest_of};
ghost use Rattle.wdt_discover.specs.Plan.{refusal};
ghost use Rattle.wdt_tool.specs.Causes.{IsCauseOf, IsPlanningFail};
ghost use Rattle.wdt_tool.specs.PlanLines.{plan_text};
ghost use Rattle.wdt_tool.specs.Plans.{IsPlan};
ghost use Rattle.wdt_tool.specs.Refusals.{IsPlanCause};

use crate::fail::CommandFail;
use crate::listing::listed;
use crate::plan_lines::plan_text;
use crate::stored::stored_have;
use std::alloc::Global;
use wdt_depot::Depot;
use wdt_discover::plan;
use wdt_ranges::Have;
use wdt_source::Source;
use wdt_tree::Manifest;

/// The lines of the plan in blocks of at most so many bytes. The listing is taken first, then the log,
/// and each error has its own cause.
pub fn plan_command<S: Source, D: Depot>(
    alloc: Global,
    source: &mut S,
    depot: &mut D,
    block: u32,
) -> Result<Vec<u8>, CommandFail>
    requires block { 1 ≤ block }
    requires spots { (D.state depot.old).spots ≡ [] }
    ensures plan { IfOk result (λ text. IsPlan block (S.listing source.old) (D.state depot.old).told text.items) }
    ensures refused { IfErr result (IsCauseOf (IsPlanCause block (S.listing source.old) (D.state depot.old).told)) }
    ensures accepted { IsErrOf result CommandFail.Disk → IfSome (S.listing source.old) IsAccepted }
    ensures later { S.faults source.old ≤ S.faults source.new }
    ensures cause { IsErrOf result CommandFail.Source → Rises (S.faults source.old) (S.faults source.new) }
    ensures slips { S.slips source.new ≡ S.slips source.old }
    ensures looks { OnlyLooks (D.state depot.old) (D.state depot.new) }
    ensures spots { (D.state depot.new).spots ≡ [] }
    ensures counts { Counts (IsErrOf result CommandFail.Disk) (D.state depot.old) (D.state depot.new) }
    ensures depot_slips { (D.state depot.new).slips ≡ (D.state depot.old).slips }
{
    match listed(alloc, source) {
        Ok(manifest) => match stored_have(alloc, depot) {
            Ok(have) => planned(alloc, &manifest, &have, block),
            Err(fail) => Err(fail),
        },
        Err(fail) => Err(fail),
    }
}

// The lines of the plan of a tree, to a destination that has some of it.
fn planned(
    alloc: Global,
    manifest: &Manifest,
    have: &Have,
    block: u32,
) -> Result<Vec<u8>, CommandFail>
    requires order { IsTrue (is_in_order have.now) }
    requires block { 1 ≤ block }
    ensures lines { IfOk result (λ text. text.items ≡ plan_text manifest.now (rest_of manifest.now have.now block)) }
    ensures rest { OnOk result (IsRest manifest.now have.now block (rest_of manifest.now have.now block)) }
    ensures accepted { OnOk result (refusal manifest.now have.now block ≡ None) }
    ensures refused { IfErr result (IsPlanningFail manifest.now have.now block) }
{
    match plan(alloc, manifest, have, block) {
        Ok(blocks) => match plan_text(alloc, manifest, &blocks) {
            Ok(text) => Ok(text),
            Err(_) => Err(CommandFail::NoMemory),
        },
        Err(fail) => Err(CommandFail::from(fail)),
    }
}
