//! The receiving end of a transfer.
ghost use Rattle.std.specs.Prelude.{◌≡◌, ◌≤◌, All, length, map};
ghost use Rattle.wdt_gate.specs.Told.{upto};
ghost use Rattle.wdt_sending.specs.Leaves.{IsLegalBySome};
ghost use Rattle.wdt_cli.specs.Sides.{MayReceive, ReceiverEnds, ReceiverLeaves};

use std::alloc::Global;
use std::marker::PhantomData;
use std::sync::Wait;
use std::thread::Threads;
use wdt_depot::Depot;
use wdt_gate::Hub;
use wdt_link::Accept;
use wdt_receiver_fsm::RecvEvent;
use wdt_recv_lanes::{KeptDock, RecvEnd, Start, recv_end};
use wdt_sending::status_of;
use wdt_tool::Status;
use wdt_tree::Run;
use wdt_units::LaneSet;

/// What the receiving end runs on.
#[derive(Drop)]
pub struct ReceiverSide<
    N: Run,
    D: Depot + Drop,
    J: Start,
    A: Accept<N>,
    H: Hub<KeptDock<N, D, J>>,
> {
    pub alloc: Global,
    pub hub: H,
    pub passes: Vec<H::Pass>,
    pub acceptors: Vec<A>,
    pub of: PhantomData<N>,
    pub into: PhantomData<D>,
    pub since: PhantomData<J>,
}

/// What the receiving end leaves.
pub struct Received<D, A> {
    /// What it comes to.
    pub status: Status,
    /// All that happened at it, or nothing where there was no memory to take it.
    pub history: Vec<RecvEvent>,
    /// The depot, or None where there was no memory to take it.
    pub depot: Option<D>,
    pub acceptors: Vec<A>,
}

/// Runs the lanes of the receiving end, and takes what they leave. It may wait for the other end.
pub fn run_receiver<
    R: Threads + Wait + Sync,
    N: Run + Sync,
    D: Depot + Drop + Send + Sync,
    J: Start + Sync,
    A: Accept<N> + Send + Sync,
    H: Hub<KeptDock<N, D, J>> + Sync + Drop,
>(rt: &R, side: ReceiverSide<N, D, J, A, H>) -> Received<D, A>
where
    H::Pass: Send + Drop,
    A::L: Send,
    requires { MayReceive H.has H.lane H.lanes A.out side.hub side.passes.items side.acceptors.items }
    ensures { ReceiverLeaves D.state A.faults A.alarms A.out A.mark N.told J.started side.acceptors.items result.acceptors.items result.depot result.history.items result.status }
{
    let ReceiverSide {
        alloc,
        hub,
        passes,
        acceptors,
        of: _,
        into: _,
        since: _,
    } = side;
    let RecvEnd {
        hub,
        passes,
        acceptors,
        cut,
        alarmed,
    } = recv_end::<R, N, D, J, A, H>(rt, alloc, hub, passes, acceptors);
    let Taken {
        depot,
        history,
        status,
    } = take(alloc, hub, passes, cut, alarmed);
    Received {
        status,
        history,
        depot,
        acceptors,
    }
}

// What is taken of an end whose lanes have ended.
struct Taken<D> {
    depot: Option<D>,
    history: Vec<RecvEvent>,
    status: Status,
}

// The depot and the history of an end whose lanes have ended, and the status that its answer comes to.
fn take<N: Run, D: Depot + Drop, J: Start, H: Hub<KeptDock<N, D, J>> + Drop>(
    alloc: Global,
    hub: H,
    passes: Vec<H::Pass>,
    cut: LaneSet,
    alarmed: LaneSet,
) -> Taken<D>
where
    H::Pass: Drop,
    requires passes { All (H.has hub) passes.items }
    requires all { map H.lane passes.items ≡ upto 0 (H.lanes hub) }
    ensures legal { IsLegalBySome result.history.items }
    ensures ends { ReceiverEnds D.state N.told J.started cut alarmed result.depot result.history.items result.status }
{
    match hub.close(passes) {
        Ok(machine) => {
            let (depot, history, answer) = machine.into_dock().close();
            Taken {
                depot: Some(depot),
                history,
                status: status_of(answer, LaneSet::empty(), cut, alarmed),
            }
        }
        Err(_) => Taken {
            depot: None,
            history: Vec::new(alloc),
            status: Status::NoMemory,
        },
    }
}
