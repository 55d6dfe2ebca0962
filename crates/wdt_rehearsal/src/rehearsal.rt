//! A copy of a source's tree into a depot: the listing is checked, the tree is sent over one lane, and
//! the files that landed are stored.
ghost use Rattle.std.specs.Prelude.{◌≡◌, ◌≤◌, [], map, IfErr, IfOk, IfSome, IsErrOf, OnOk};
ghost use Rattle.wdt_units.specs.Counts.{Rises, Stands};
ghost use Rattle.wdt_tree.specs.Shown.{shown};
ghost use Rattle.wdt_depot.specs.Moments.{IfTold};
ghost use Rattle.wdt_depot.specs.State.{Counts};
ghost use Rattle.wdt_rehearsal.specs.Causes.{IsCause, IsRefusedFor, IsUntouched, RefusesRun};
ghost use Rattle.wdt_rehearsal.specs.Destination.{LeavesOthers, Lands};
ghost use Rattle.wdt_rehearsal.specs.Reports.{IsReportFor};

use crate::fail::RehearseFail;
use crate::report::Report;
use crate::session::{BLOCK, greet, transfer};
use crate::storing::store;
use std::alloc::Global;
use wdt_depot::Depot;
use wdt_discover::plan;
use wdt_source::Source;
use wdt_tree::{Manifest, Plain};

/// What a run counted, and the bytes of both ways as `Transferred` has them.
#[derive(Debug, Drop)]
pub struct Rehearsed {
    pub report: Report,
    pub down: Vec<u8>,
    pub up: Vec<u8>,
}

/// Copies the source's tree into the depot: all of it is sent first, and then each file is stored and
/// synced. A source that fails and a tree that is refused leave the depot as it was, and no answer
/// leaves another path than the tree's changed.
pub fn rehearse<S: Source, D: Depot>(
    alloc: Global,
    source: &mut S,
    depot: &mut D,
) -> Result<Rehearsed, RehearseFail>
    requires { (D.state depot.old).spots ≡ [] }
    // Each file of the tree stands in the depot, as it is read and whatever a crash leaves; every other
    // path is as it was.
    ensures landed { OnOk result (IfSome (S.told source.old) (λ files. Lands files (D.state depot.old).told (D.state depot.new).told)) }
    // Whatever the answer, every path that the tree doesn't have is as it was, at every moment.
    ensures others { IfSome (S.told source.old) (λ files. LeavesOthers files (D.state depot.old).told (D.state depot.new).told) }
    ensures report { IfOk result (λ run. IsReportFor (S.listing source.old) run.report) }
    ensures later { S.faults source.old ≤ S.faults source.new }
    ensures cause { IfErr result (IsCause (S.listing source.old) (S.faults source.old) (S.faults source.new) (Rises (D.state depot.old).faults (D.state depot.new).faults)) }
    // Unless the source fails or memory runs out, a listing that is refused is refused for just that.
    ensures refuses { IfSome (S.listing source.old) (λ entries. (fail : RehearseFail) → IsRefusedFor entries fail → Stands (S.faults source.old) (S.faults source.new) → RefusesRun result fail) }
    ensures slips { IfSome (S.told source.old) (λ files. S.slips source.new ≡ S.slips source.old) }
    ensures untouched { IfErr result (IsUntouched (D.state depot.old) (D.state depot.new)) }
    ensures counts { Counts (IsErrOf result RehearseFail.Disk) (D.state depot.old) (D.state depot.new) }
    ensures depot_slips { IfTold (λ t. (D.state depot.new).slips ≡ (D.state depot.old).slips) (D.state depot.old).told }
    ensures spots { (D.state depot.new).spots ≡ [] }
{
    let Sent {
        landed,
        report,
        down,
        up,
    } = send(alloc, source)?;
    store(depot, landed)?;
    Ok(Rehearsed { report, down, up })
}

// What was sent and has landed.
struct Sent {
    landed: Vec<Plain>,
    report: Report,
    down: Vec<u8>,
    up: Vec<u8>,
}

// Sends the source's tree over one lane.
fn send<S: Source>(alloc: Global, source: &mut S) -> Result<Sent, RehearseFail>
    ensures report { IfOk result (λ run. IsReportFor (S.listing source.old) run.report) }
    ensures tree { IfOk result (λ run. IfSome (S.told source.old) (λ files. map shown run.landed.items ≡ files)) }
    ensures later { S.faults source.old ≤ S.faults source.new }
    ensures cause { IfErr result (IsCause (S.listing source.old) (S.faults source.old) (S.faults source.new) ⊥) }
    ensures refuses { IfSome (S.listing source.old) (λ entries. (fail : RehearseFail) → IsRefusedFor entries fail → Stands (S.faults source.old) (S.faults source.new) → RefusesRun result fail) }
    ensures slips { IfSome (S.told source.old) (λ files. S.slips source.new ≡ S.slips source.old) }
{
    let raw = source.list(alloc)?;
    let manifest = Manifest::check(alloc, raw)?;
    let begun = greet(alloc)?;
    let blocks = plan(alloc, &manifest, &begun.have, BLOCK)?;
    let moved = transfer(alloc, source, &manifest, &blocks, begun)?;
    Ok(Sent {
        landed: moved.landed,
        report: Report {
            files: manifest.count(),
            blocks: blocks.len() as u64,
            bytes: manifest.total(),
        },
        down: moved.down,
        up: moved.up,
    })
}
