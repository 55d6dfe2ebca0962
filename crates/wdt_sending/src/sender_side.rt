//! The sending end of a copy.
ghost use Rattle.std.specs.Prelude.{◌≡◌, ◌≤◌, All, IfSome, Some, length, map};
ghost use Rattle.wdt_units.specs.declared.limits.TheConstants.{MAX_LANES};
ghost use Rattle.wdt_gate.specs.Told.{upto};
ghost use Rattle.wdt_yard.specs.Turns.{IsLegalOfSome};
ghost use Rattle.wdt_sending.specs.Sending.{MaySend, SenderEnds, SenderLeaves};

use crate::judging::status_of;
use std::alloc::Global;
use std::marker::PhantomData;
use std::sync::Wait;
use std::thread::Threads;
use wdt_gate::Hub;
use wdt_lanes::{Begin, KeptYard, SendEnd, send_end};
use wdt_link::Dial;
use wdt_sender_fsm::SendEvent;
use wdt_source::Source;
use wdt_tool::Status;
use wdt_tree::Run;
use wdt_units::LaneSet;

/// What the sending end runs on.
#[derive(Drop)]
pub struct SenderSide<N: Run, B: Begin, S: Source, C: Dial<N>, H: Hub<KeptYard<N, B>>> {
    pub alloc: Global,
    pub hub: H,
    pub passes: Vec<H::Pass>,
    pub sources: Vec<S>,
    pub dialers: Vec<C>,
    pub of: PhantomData<N>,
    pub begun: PhantomData<B>,
}

/// What the sending end leaves.
pub struct Sent<S, C> {
    /// What it comes to.
    pub status: Status,
    /// All that happened at it, or nothing where there was no memory to take it.
    pub history: Vec<SendEvent>,
    pub sources: Vec<S>,
    pub dialers: Vec<C>,
}

/// Runs the lanes of the sending end, and takes what they leave. It may wait for the other end.
pub fn run_sender<
    R: Threads + Wait + Sync,
    N: Run + Sync,
    B: Begin + Sync,
    S: Source + Send + Sync,
    C: Dial<N> + Send + Sync,
    H: Hub<KeptYard<N, B>> + Sync + Drop,
>(rt: &R, side: SenderSide<N, B, S, C, H>) -> Sent<S, C>
where
    H::Pass: Send + Drop,
    C::L: Send,
    requires { MaySend H.has H.lane H.lanes S.told C.out N.told side.hub side.passes.items side.sources.items side.dialers.items }
    ensures { SenderLeaves S.told S.faults S.slips C.faults C.alarms C.out C.mark N.told B.begun side.sources.items result.sources.items side.dialers.items result.dialers.items result.history.items result.status }
{
    let SenderSide {
        alloc,
        hub,
        passes,
        sources,
        dialers,
        of: _,
        begun: _,
    } = side;
    let SendEnd {
        hub,
        passes,
        sources,
        dialers,
        lost,
        cut,
        alarmed,
    } = send_end::<R, N, B, S, C, H>(rt, alloc, hub, passes, sources, dialers);
    let (history, status) = take(alloc, hub, passes, lost, cut, alarmed);
    Sent {
        status,
        history,
        sources,
        dialers,
    }
}

// The history of an end whose lanes have ended, and the status that its answer comes to.
fn take<N: Run, B: Begin, H: Hub<KeptYard<N, B>> + Drop>(
    alloc: Global,
    hub: H,
    passes: Vec<H::Pass>,
    lost: LaneSet,
    cut: LaneSet,
    alarmed: LaneSet,
) -> (Vec<SendEvent>, Status)
where
    H::Pass: Drop,
    requires passes { All (H.has hub) passes.items }
    requires all { map H.lane passes.items ≡ upto 0 (H.lanes hub) }
    ensures legal { IsLegalOfSome result.0.items }
    ensures ends { SenderEnds N.told B.begun lost cut alarmed result.0.items result.1 }
{
    match hub.close(passes) {
        Ok(machine) => {
            let (history, answer) = machine.into_yard().close();
            (history, status_of(answer, lost, cut, alarmed))
        }
        Err(_) => (Vec::new(alloc), Status::NoMemory),
    }
}
