//! A receiving end, opened behind a hub.
ghost use Rattle.std.specs.Prelude.{◌≡◌, ◌<◌, ◌≤◌, [], map, IfErr, IfOk, IfSome};
ghost use Rattle.wdt_units.specs.declared.limits.TheConstants.{MAX_LANES};
ghost use Rattle.wdt_gate.specs.Told.{upto};
ghost use Rattle.wdt_recv_lanes.specs.Kept.{started_of};
ghost use Rattle.wdt_cli.specs.Carried.{IsGivenTo};
ghost use Rattle.wdt_cli.specs.Copied.{IsUnopened, failure_of};

use std::alloc::Global;
use std::sync::Wait;
use std::sync::ledger::{Blank, Ledger};
use wdt_depot::Depot;
use wdt_dock::{Dock, DockFail};
use wdt_gate::{MutexHub, MutexPass};
use wdt_recv_lanes::{KeptDock, Start};
use wdt_sender_fsm::RefusedKind;
use wdt_tool::CommandFail;
use wdt_tree::Run;

/// Opens a receiving end over a depot: 1 to 16 lanes, and from `batch` bytes on, at least 1, what has landed
/// is logged. The ledger counts the turns of the lanes. `Err` hands the depot back: its disk failed, its log
/// has no meaning, or memory ran out.
pub fn open_receiver<R: Wait + Drop, N: Run, D: Depot + Drop, J: Start, K: Ledger>(
    rt: R,
    alloc: Global,
    depot: D,
    lanes: u8,
    batch: u64,
    blank: Blank,
) -> Result<(MutexHub<R, KeptDock<N, D, J>, K>, Vec<MutexPass<K>>), (CommandFail, D)>
    requires some_lanes { 1 ≤ lanes }
    requires few_lanes { lanes ≤ MAX_LANES }
    requires some_batch { 0 < batch }
    requires spots { (D.state depot).spots ≡ [] }
    requires given { IfSome N.told (λ run. IsGivenTo run (D.state depot).told) }
    requires start { J.started ≡ started_of (D.state depot) }
    requires blank { (blank.name ≡ K.name) × (blank.parts ≡ K.parts) × (blank.parts ≡ lanes) }
    ensures passes { IfOk result (λ opened. map (λ pass. pass.lane) opened.1.items ≡ upto 0 K.parts) }
    ensures unopened { IfErr result (λ back. IsUnopened back.0 (D.state depot) (D.state back.1)) }
{
    let dock = match Dock::open(alloc, depot, lanes, batch) {
        Ok(dock) => KeptDock::<N, D, J>::of(dock),
        Err((failure, depot)) => return Err((failure_of(failure), depot)),
    };
    match MutexHub::<R, KeptDock<N, D, J>, K>::open(rt, alloc, blank, dock, lanes) {
        Ok(opened) => Ok(opened),
        Err((dock, _)) => {
            let (depot, ..) = dock.into_dock().close();
            Err((CommandFail::NoMemory, depot))
        }
    }
}

// Why a transfer doesn't begin, where its receiving end doesn't open.
fn failure_of(failure: DockFail) -> CommandFail
    ensures { result ≡ failure_of failure }
{
    match failure {
        DockFail::Disk => CommandFail::Disk,
        DockFail::BadLog { at } => CommandFail::Refused(RefusedKind::BadLog { at }),
        DockFail::NoMemory => CommandFail::NoMemory,
    }
}
