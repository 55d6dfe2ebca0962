//! A copy over connections, from the listing of its tree to its report.
ghost use Rattle.std.specs.Prelude.{◌≡◌, ◌≢◌, ◌⊎◌, [], All, IfSome, Some, length};
ghost use Rattle.wdt_units.specs.Counts.{Rises};
ghost use Rattle.wdt_sender_fsm.specs.declared.answers.RefusedKind.{RefusedKind};
ghost use Rattle.wdt_lanes.specs.LaneLists.{EachLane};
ghost use Rattle.wdt_lanes.specs.Seats.{IsBack};
ghost use Rattle.wdt_tool.specs.Refusals.{IsLogCause};
ghost use Rattle.wdt_words.specs.Words.{IsLimited};
ghost use Rattle.wdt_sending.specs.Causes.{IsCopyCause, IsPlanCause};
ghost use Rattle.wdt_sending.specs.Leaves.{LeavesHistories, LeavesLinks, LeavesSources};
ghost use Rattle.wdt_sending.specs.Printed.{CopyEnds, PrintsEarly};
ghost use Rattle.wdt_sending.specs.Told.{first_told};
ghost use Rattle.wdt_cli.specs.Carried.{IsGivenTo};
ghost use Rattle.wdt_cli.specs.Copied.{MayCarry, MayOpen, opening_in};
ghost use Rattle.wdt_cli.specs.Leaves.{LeavesDepot};

use crate::copying::{Opening, copy_parts};
use std::alloc::Global;
use std::sync::Wait;
use std::thread::Threads;
use wdt_arrival::a_finished_tree_has_arrived;
use wdt_depot::Depot;
use wdt_link::{Accept, Dial};
use wdt_sender_fsm::answers_have_their_causes;
use wdt_sending::{Carried, Parts, Report, list_first, put_report, unrun};
use wdt_source::Source;
use wdt_tool::{Status, end_failed};
use wdt_tree::{Manifest, Run};
use wdt_units::Sink;

/// Copies a tree: lists the first source, and copies its files to the depot over so many lanes, in blocks of
/// at most `block` bytes, and logged from `batch` bytes on. It may wait for its connections.
pub fn copy_tree<
    R: Threads + Wait + Sync + Clone + Drop + Send,
    N: Run + Send + Sync,
    S: Source + Send + Sync + Drop,
    D: Depot + Drop + Send + Sync,
    C: Dial<N> + Send + Sync + Drop,
    A: Accept<N> + Send + Sync + Drop,
    O: Sink,
>(
    rt: &R,
    alloc: Global,
    lanes: u8,
    block: u32,
    batch: u32,
    parts: Parts<S, D, C, A>,
    out: &mut O,
) -> Carried<S, D, C, A>
where
    C::L: Send,
    A::L: Send,
    requires limits { IsLimited lanes block batch }
    requires served { (length parts.sources.items ≡ lanes) × (length parts.dialers.items ≡ lanes) × (length parts.acceptors.items ≡ lanes) }
    requires dialers_home { All (λ dialer. C.out dialer ≡ 0) parts.dialers.items }
    requires acceptors_home { All (λ acceptor. A.out acceptor ≡ 0) parts.acceptors.items }
    requires spots { (D.state parts.depot).spots ≡ [] }
    requires sources { IfSome N.told (λ run. All (λ source. S.told source ≡ Some run.tree) parts.sources.items) }
    requires disk { IfSome N.told (λ run. IsGivenTo run (D.state parts.depot).told) }

    ensures sources { LeavesSources S.told S.faults S.slips N.told result.status parts.sources.items result.sources.items }
    ensures depot { LeavesDepot D.state N.told (D.state parts.depot) result.status result.depot }
    ensures links { LeavesLinks C.faults C.alarms A.faults A.alarms result.status parts.dialers.items result.dialers.items parts.acceptors.items result.acceptors.items }
    ensures dialers { EachLane (λ lane old new. IsBack C.out C.mark old new) parts.dialers.items result.dialers.items }
    ensures acceptors { EachLane (λ lane old new. IsBack A.out A.mark old new) parts.acceptors.items result.acceptors.items }
    ensures histories { LeavesHistories result.sender.items result.receiver.items result.status }
    ensures ended { PrintsEarly result.sender.items result.receiver.items result.status (O.faults out.old) (O.faults out.new) (O.written out.old) (O.written out.new)
        ⊎ CopyEnds N.told result.sender.items result.receiver.items result.status (O.faults out.old) (O.faults out.new) (O.written out.old) (O.written out.new) }
    ensures refused { (kind : RefusedKind) → result.status ≡ Status.Refused kind → IsCopyCause N.told block (first_told S.listing parts.sources.items) (D.state parts.depot).told kind }
    ensures out_fault { result.status ≡ Status.OutFault → Rises (O.faults out.old) (O.faults out.new) }
    ensures used { result.status ≢ Status.Usage }
{
    let mut parts = parts;
    match list_first(alloc, &mut parts.sources) {
        Ok(manifest) => {
            let opening = opening_of(manifest, lanes, block, batch);
            copy_files::<R, N, S, D, C, A, O>(rt, alloc, opening, parts, out)
        }
        Err(failure) => unrun(alloc, end_failed(alloc, failure, out), parts),
    }
}

// What the ends of a copy are opened with.
fn opening_of(manifest: Manifest, lanes: u8, block: u32, batch: u32) -> Opening
    ensures { result ≡ opening_in lanes block batch manifest }
{
    Opening {
        manifest,
        lanes,
        block,
        batch: u64::from(batch),
    }
}

// Copies the files of a manifest.
fn copy_files<
    R: Threads + Wait + Sync + Clone + Drop + Send,
    N: Run + Send + Sync,
    S: Source + Send + Sync + Drop,
    D: Depot + Drop + Send + Sync,
    C: Dial<N> + Send + Sync + Drop,
    A: Accept<N> + Send + Sync + Drop,
    O: Sink,
>(
    rt: &R,
    alloc: Global,
    opening: Opening,
    parts: Parts<S, D, C, A>,
    out: &mut O,
) -> Carried<S, D, C, A>
where
    C::L: Send,
    A::L: Send,
    requires opening { MayOpen N.told opening.manifest opening.lanes opening.block opening.batch (D.state parts.depot) }
    requires parts { MayCarry S.told C.out A.out N.told opening.lanes parts.sources.items parts.dialers.items parts.acceptors.items }

    ensures sources { LeavesSources S.told S.faults S.slips N.told result.status parts.sources.items result.sources.items }
    ensures depot { LeavesDepot D.state N.told (D.state parts.depot) result.status result.depot }
    ensures links { LeavesLinks C.faults C.alarms A.faults A.alarms result.status parts.dialers.items result.dialers.items parts.acceptors.items result.acceptors.items }
    ensures dialers { EachLane (λ lane old new. IsBack C.out C.mark old new) parts.dialers.items result.dialers.items }
    ensures acceptors { EachLane (λ lane old new. IsBack A.out A.mark old new) parts.acceptors.items result.acceptors.items }
    ensures histories { LeavesHistories result.sender.items result.receiver.items result.status }
    ensures ended { PrintsEarly result.sender.items result.receiver.items result.status (O.faults out.old) (O.faults out.new) (O.written out.old) (O.written out.new)
        ⊎ CopyEnds N.told result.sender.items result.receiver.items result.status (O.faults out.old) (O.faults out.new) (O.written out.old) (O.written out.new) }
    ensures refused { (kind : RefusedKind) → result.status ≡ Status.Refused kind → IsLogCause (D.state parts.depot).told kind ⊎ IsPlanCause N.told opening.block kind }
    ensures out_fault { result.status ≡ Status.OutFault → Rises (O.faults out.old) (O.faults out.new) }
    ensures used { result.status ≢ Status.Usage }
{
    // The laws: why a sender's end has its answer, and what stands once a receiver has finished.
    answers_have_their_causes();
    a_finished_tree_has_arrived();
    let files = opening.manifest.count();
    match copy_parts::<R, N, S, D, C, A>(rt, alloc, opening, parts) {
        Ok(carried) => put_report(alloc, Report::Copy(files), carried, out),
        Err((failure, parts)) => unrun(alloc, end_failed(alloc, failure, out), parts),
    }
}
