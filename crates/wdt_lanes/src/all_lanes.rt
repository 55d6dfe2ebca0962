//! The sender's end: all its lanes, each in a thread.
ghost use Rattle.std.specs.Prelude.{◌≡◌, ◌<◌, ◌≤◌, ℕ, length, map, All, slice_index_or, Some, IfSome};
ghost use Rattle.wdt_units.specs.LaneSets.{has_lane};
ghost use Rattle.wdt_gate.specs.Told.{upto};
ghost use Rattle.wdt_lanes.specs.Held.{RoseFor};
ghost use Rattle.wdt_lanes.specs.LaneLists.{EachLane, IsAmong};
ghost use Rattle.wdt_lanes.specs.Seats.{IsBack, MayRun, Ran, RoseAtRest, SameSource};

use crate::job::{Job, run_all};
use crate::kept_yard::{Begin, KeptYard};
use crate::lane::run_lane;
use crate::seats::{Seat, flagged, seat_all, unseat_all};
use std::alloc::Global;
use std::marker::PhantomData;
use std::sync::Wait;
use std::thread::Threads;
use wdt_gate::Hub;
use wdt_link::Dial;
use wdt_source::Source;
use wdt_tree::Run;
use wdt_units::{LaneSet, MAX_LANES};

/// What a sender's end hands back once its lanes have ended: all that it was given, in the order of the
/// lanes, and what its lanes met.
#[derive(Drop)]
pub struct SendEnd<H, P, S, C> {
    pub hub: H,
    pub passes: Vec<P>,
    pub sources: Vec<S>,
    pub dialers: Vec<C>,
    /// The lanes that handed in that their source failed.
    pub lost: LaneSet,
    /// The lanes that handed in that their connection failed, or that none could be made.
    pub cut: LaneSet,
    /// The lanes that handed in that the other end failed, or said what is no frame.
    pub alarmed: LaneSet,
}

// Running a sender's lane at a hub.
#[derive(Drop)]
struct SendJob<N: Run, B: Begin, S: Source, C: Dial<N>, H: Hub<KeptYard<N, B>>> {
    alloc: Global,
    hub: H,
    of: PhantomData<N>,
    begun: PhantomData<B>,
    from: PhantomData<S>,
    by: PhantomData<C>,
}

impl<N: Run, B: Begin, S: Source, C: Dial<N>, H: Hub<KeptYard<N, B>>> Job
    for SendJob<N, B, S, C, H> {
    type Seat = Seat<H::Pass, S, C>;

    ghost may = { λ job seat. MayRun H.has S.told C.out N.told job.hub seat };

    ghost did = { λ job old new. Ran H.has H.lane S.told S.faults S.slips C.faults C.alarms C.out C.mark N.told job.hub old new };

    fn run<R: Wait>(&self, rt: &R, seat: &mut Seat<H::Pass, S, C>) {
        run_lane::<R, N, B, S, C, H>(rt, self.alloc, &self.hub, seat)
    }
}

// A thread for each seat. The hub is lent to them, and comes back.
fn run_lanes<
    R: Threads + Wait + Sync,
    N: Run + Sync,
    B: Begin + Sync,
    S: Source + Send + Sync,
    C: Dial<N> + Send + Sync,
    H: Hub<KeptYard<N, B>> + Sync,
>(rt: &R, alloc: Global, hub: H, seats: &mut [Seat<H::Pass, S, C>]) -> H
where
    H::Pass: Send,
    C::L: Send,
    requires { All (λ seat. MayRun H.has S.told C.out N.told hub seat) seats.old }
    ensures hub { result ≡ hub }
    ensures ran { EachLane (λ lane old new. Ran H.has H.lane S.told S.faults S.slips C.faults C.alarms C.out C.mark N.told hub old new) seats.old seats.new }
{
    let job: SendJob<N, B, S, C, H> = SendJob {
        alloc,
        hub,
        of: PhantomData,
        begun: PhantomData,
        from: PhantomData,
        by: PhantomData,
    };
    run_all::<R, SendJob<N, B, S, C, H>>(rt, &job, seats);
    let SendJob { hub, .. } = job;
    hub
}

// Tells each dialer that its lane makes no call.
fn retire_all<N: Run, C: Dial<N>>(dialers: &mut [C])
    requires { All (λ dialer. C.out dialer ≡ 0) dialers.old }
    ensures { EachLane (λ lane old new. IsBack C.out C.mark old new × (C.faults new ≡ C.faults old) × (C.alarms new ≡ C.alarms old)) dialers.old dialers.new }
{
    for dialer in dialers.iter_mut() {
        dialer.retire();
    }
}

/// Runs the lanes of a sender's end, each in a thread of its own, until the end tells each to stop.
///
/// It is handed the passes of all lanes, rising from lane 0, and for each lane a source and a dialer, in
/// the same order. All comes back in that order, with no connection out. The memory for the threads is
/// taken first: where it is refused no lane runs, and each dialer retires.
///
/// Where the system gives no thread, lanes run one after the other, and may wait for ever.
pub fn send_end<
    R: Threads + Wait + Sync,
    N: Run + Sync,
    B: Begin + Sync,
    S: Source + Send + Sync,
    C: Dial<N> + Send + Sync,
    H: Hub<KeptYard<N, B>> + Sync,
>(
    rt: &R,
    alloc: Global,
    hub: H,
    mut passes: Vec<H::Pass>,
    mut sources: Vec<S>,
    mut dialers: Vec<C>,
) -> SendEnd<H, H::Pass, S, C>
where
    H::Pass: Send,
    C::L: Send,
    requires passes { All (H.has hub) passes.items }
    requires all { map H.lane passes.items ≡ upto 0 (H.lanes hub) }
    requires few { H.lanes hub ≤ MAX_LANES }
    requires sources { length sources.items ≡ H.lanes hub }
    requires dialers { length dialers.items ≡ H.lanes hub }
    requires told { IfSome N.told (λ run. All (λ source. S.told source ≡ Some run.tree) sources.items) }
    requires out { All (λ dialer. C.out dialer ≡ 0) dialers.items }
    ensures hub { result.hub ≡ hub }
    ensures passes { All (H.has hub) result.passes.items }
    ensures all { map H.lane result.passes.items ≡ upto 0 (H.lanes hub) }
    ensures sources { EachLane (λ lane old new. SameSource S.told S.slips N.told old new) sources.items result.sources.items }
    ensures dialers { EachLane (λ lane old new. IsBack C.out C.mark old new) dialers.items result.dialers.items }
    ensures lost { EachLane (λ lane old new. RoseFor (has_lane result.lost lane) (S.faults old) (S.faults new)) sources.items result.sources.items }
    ensures cut { EachLane (λ lane old new. RoseAtRest (has_lane result.cut lane) C.faults old new) dialers.items result.dialers.items }
    ensures alarmed { EachLane (λ lane old new. RoseAtRest (has_lane result.alarmed lane) C.alarms old new) dialers.items result.dialers.items }
    ensures lost_among { IsAmong (H.lanes hub) result.lost }
    ensures cut_among { IsAmong (H.lanes hub) result.cut }
    ensures alarmed_among { IsAmong (H.lanes hub) result.alarmed }
{
    let mut seats = Vec::new(alloc);
    if seats.reserve(passes.len()).is_err() {
        seats.destroy_empty();
        retire_all::<N, C>(dialers.as_mut_slice());
        return SendEnd {
            hub,
            passes,
            sources,
            dialers,
            lost: LaneSet::empty(),
            cut: LaneSet::empty(),
            alarmed: LaneSet::empty(),
        };
    }
    seat_all(&mut passes, &mut sources, &mut dialers, &mut seats);
    let hub = run_lanes::<R, N, B, S, C, H>(rt, alloc, hub, seats.as_mut_slice());
    let flags = flagged(seats.as_slice());
    unseat_all(&mut seats, &mut passes, &mut sources, &mut dialers);
    seats.destroy_empty();
    SendEnd {
        hub,
        passes,
        sources,
        dialers,
        lost: flags.lost,
        cut: flags.cut,
        alarmed: flags.alarmed,
    }
}
