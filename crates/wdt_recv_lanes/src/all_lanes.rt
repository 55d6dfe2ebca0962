//! The receiver's end: all its lanes, each in a thread.
ghost use Rattle.std.specs.Prelude.{◌≡◌, ◌≤◌, ℕ, length, map, All};
ghost use Rattle.wdt_units.specs.LaneSets.{has_lane};
ghost use Rattle.wdt_gate.specs.Told.{upto};
ghost use Rattle.wdt_lanes.specs.LaneLists.{EachLane, IsAmong};
ghost use Rattle.wdt_lanes.specs.Seats.{IsBack, RoseAtRest};
ghost use Rattle.wdt_recv_lanes.specs.Seats.{MayRun, Ran};

use crate::kept_dock::{KeptDock, Start};
use crate::lane::run_lane;
use crate::seats::{FlaggedLanes, Seat, flagged, seat_all, unseat_all};
use std::alloc::Global;
use std::marker::PhantomData;
use std::sync::{Mutex, Wait};
use std::thread::Threads;
use wdt_depot::Depot;
use wdt_gate::Hub;
use wdt_lanes::{Job, run_all};
use wdt_link::Accept;
use wdt_tree::Run;
use wdt_units::{LaneSet, MAX_LANES};

/// What a receiver's end hands back once its lanes have ended: all that it was given, in the order of the
/// lanes, and what its lanes met.
#[derive(Drop)]
pub struct RecvEnd<H, P, A> {
    pub hub: H,
    pub passes: Vec<P>,
    pub acceptors: Vec<A>,
    /// The lanes that handed in that their connection failed, or that none could be taken.
    pub cut: LaneSet,
    /// The lanes that handed in that the other end failed, or said what is no frame.
    pub alarmed: LaneSet,
}

// Running a receiver's lane at a hub. It keeps no depot, and asks of one what the hub's lock asks.
#[derive(Drop)]
struct RecvJob<N: Run, D: Depot + Drop, J: Start, A: Accept<N>, H: Hub<KeptDock<N, D, J>>> {
    hub: H,
    of: PhantomData<N>,
    over: PhantomData<Mutex<D>>,
    since: PhantomData<J>,
    by: PhantomData<A>,
}

impl<N: Run, D: Depot + Drop, J: Start, A: Accept<N>, H: Hub<KeptDock<N, D, J>>> Job
    for RecvJob<N, D, J, A, H> {
    type Seat = Seat<H::Pass, A>;

    ghost may = { λ job seat. MayRun H.has A.out job.hub seat };

    ghost did = { λ job old new. Ran H.has H.lane A.faults A.alarms A.out A.mark job.hub old new };

    fn run<R: Wait>(&self, rt: &R, seat: &mut Seat<H::Pass, A>) {
        run_lane::<R, N, D, J, A, H>(rt, &self.hub, seat)
    }
}

// A thread for each seat. The hub is lent to them, and comes back.
fn run_lanes<
    R: Threads + Wait + Sync,
    N: Run + Sync,
    D: Depot + Drop + Send,
    J: Start + Sync,
    A: Accept<N> + Send + Sync,
    H: Hub<KeptDock<N, D, J>> + Sync,
>(rt: &R, hub: H, seats: &mut Vec<Seat<H::Pass, A>>) -> H
where
    H::Pass: Send,
    A::L: Send,
    requires { All (λ seat. MayRun H.has A.out hub seat) seats.old.items }
    ensures hub { result ≡ hub }
    ensures ran { EachLane (λ lane old new. Ran H.has H.lane A.faults A.alarms A.out A.mark hub old new) seats.old.items seats.new.items }
{
    let job: RecvJob<N, D, J, A, H> = RecvJob {
        hub,
        of: PhantomData,
        over: PhantomData,
        since: PhantomData,
        by: PhantomData,
    };
    run_all::<R, RecvJob<N, D, J, A, H>>(rt, &job, seats.as_mut_slice());
    let RecvJob { hub, .. } = job;
    hub
}

// Tells each acceptor that its lane makes no call.
fn retire_all<N: Run, A: Accept<N>>(acceptors: &mut [A])
    requires { All (λ acceptor. A.out acceptor ≡ 0) acceptors.old }
    ensures { EachLane (λ lane old new. IsBack A.out A.mark old new × (A.faults new ≡ A.faults old) × (A.alarms new ≡ A.alarms old)) acceptors.old acceptors.new }
{
    for acceptor in acceptors.iter_mut() {
        acceptor.retire();
    }
}

/// Runs the lanes of a receiver's end, each in a thread of its own, until the end tells each to stop.
///
/// It is handed the passes of all lanes, rising from lane 0, and for each lane an acceptor, in the same
/// order. All comes back in that order, with no connection out. The memory for the threads is taken
/// first: where it is refused no lane runs, and each acceptor retires.
///
/// Where the system gives no thread, lanes run one after the other, and may wait for ever.
pub fn recv_end<
    R: Threads + Wait + Sync,
    N: Run + Sync,
    D: Depot + Drop + Send,
    J: Start + Sync,
    A: Accept<N> + Send + Sync,
    H: Hub<KeptDock<N, D, J>> + Sync,
>(
    rt: &R,
    alloc: Global,
    hub: H,
    mut passes: Vec<H::Pass>,
    mut acceptors: Vec<A>,
) -> RecvEnd<H, H::Pass, A>
where
    H::Pass: Send,
    A::L: Send,
    requires passes { All (H.has hub) passes.items }
    requires all { map H.lane passes.items ≡ upto 0 (H.lanes hub) }
    requires few { H.lanes hub ≤ MAX_LANES }
    requires acceptors { length acceptors.items ≡ H.lanes hub }
    requires out { All (λ acceptor. A.out acceptor ≡ 0) acceptors.items }
    ensures hub { result.hub ≡ hub }
    ensures passes { All (H.has hub) result.passes.items }
    ensures all { map H.lane result.passes.items ≡ upto 0 (H.lanes hub) }
    ensures acceptors { EachLane (λ lane old new. IsBack A.out A.mark old new) acceptors.items result.acceptors.items }
    ensures cut { EachLane (λ lane old new. RoseAtRest (has_lane result.cut lane) A.faults old new) acceptors.items result.acceptors.items }
    ensures alarmed { EachLane (λ lane old new. RoseAtRest (has_lane result.alarmed lane) A.alarms old new) acceptors.items result.acceptors.items }
    ensures cut_among { IsAmong (H.lanes hub) result.cut }
    ensures alarmed_among { IsAmong (H.lanes hub) result.alarmed }
{
    let mut seats = Vec::new(alloc);
    if seats.reserve(passes.len()).is_err() {
        seats.destroy_empty();
        retire_all::<N, A>(acceptors.as_mut_slice());
        return RecvEnd {
            hub,
            passes,
            acceptors,
            cut: LaneSet::empty(),
            alarmed: LaneSet::empty(),
        };
    }
    seat_all(&mut passes, &mut acceptors, &mut seats);
    let hub = run_lanes::<R, N, D, J, A, H>(rt, hub, &mut seats);
    let FlaggedLanes { cut, alarmed } = flagged(seats.as_slice());
    unseat_all(&mut seats, &mut passes, &mut acceptors);
    seats.destroy_empty();
    RecvEnd {
        hub,
        passes,
        acceptors,
        cut,
        alarmed,
    }
}
