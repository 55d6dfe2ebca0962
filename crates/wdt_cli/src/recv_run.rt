//! A receiver over connections: its end is opened over the depot, runs, and is closed.
ghost use Rattle.std.specs.Prelude.{◌≡◌, ◌≢◌, ◌⊎◌, [], All, IfErr, IfOk, IfSome, Some, length};
ghost use Rattle.wdt_units.specs.Counts.{Rises};
ghost use Rattle.wdt_units.specs.declared.limits.TheConstants.{MAX_BATCH, MAX_LANES};
ghost use Rattle.wdt_sender_fsm.specs.declared.answers.RefusedKind.{RefusedKind};
ghost use Rattle.wdt_lanes.specs.LaneLists.{EachLane};
ghost use Rattle.wdt_lanes.specs.Seats.{IsBack};
ghost use Rattle.wdt_recv_lanes.specs.Kept.{started_of};
ghost use Rattle.wdt_tool.specs.Refusals.{IsLogCause};
ghost use Rattle.wdt_words.specs.Numbers.{IsWithin};
ghost use Rattle.wdt_sending.specs.Leaves.{LeavesHistories, LeavesLinks};
ghost use Rattle.wdt_sending.specs.Printed.{PrintsEarly, RecvEnds};
ghost use Rattle.wdt_cli.specs.Carried.{IsGivenTo};
ghost use Rattle.wdt_cli.specs.Copied.{IsUnopened, MayTake};
ghost use Rattle.wdt_cli.specs.Leaves.{LeavesDepot};
ghost use Rattle.wdt_cli.specs.Sides.{ReceiverLeaves};

use crate::receiver_opening::open_receiver;
use crate::receiver_side::{Received, ReceiverSide, run_receiver};
use std::alloc::Global;
use std::marker::{Brand, PhantomData};
use std::sync::Wait;
use std::sync::ledger::{Blank, Ledger};
use std::thread::Threads;
use wdt_arrival::a_finished_tree_has_arrived;
use wdt_depot::Depot;
use wdt_gate::MutexHub;
use wdt_link::{Accept, Dial};
use wdt_recv_lanes::{KeptDock, Start};
use wdt_sending::{Carried, Parts, Report, put_report, unrun};
use wdt_source::Source;
use wdt_tool::{CommandFail, Status, end_failed};
use wdt_tree::Run;
use wdt_units::Sink;

/// Receives a tree into the depot over so many lanes, and logs what has landed from `batch` bytes on. It may
/// wait for its connections. There is no source and no dialer.
pub fn recv_tree<
    R: Threads + Wait + Sync + Clone + Drop + Send,
    N: Run + Send + Sync,
    S: Source + Send + Sync + Drop,
    D: Depot + Drop + Send + Sync,
    C: Dial<N> + Send + Sync + Drop,
    A: Accept<N> + Send + Sync + Drop,
    O: Sink,
>(
    rt: &R,
    alloc: Global,
    lanes: u8,
    batch: u32,
    parts: Parts<S, D, C, A>,
    out: &mut O,
) -> Carried<S, D, C, A>
where
    A::L: Send,
    requires lanes { IsWithin 1 MAX_LANES lanes }
    requires batch { IsWithin 1 MAX_BATCH batch }
    requires served { length parts.acceptors.items ≡ lanes }
    requires acceptors_home { All (λ acceptor. A.out acceptor ≡ 0) parts.acceptors.items }
    requires spots { (D.state parts.depot).spots ≡ [] }
    requires disk { IfSome N.told (λ run. IsGivenTo run (D.state parts.depot).told) }

    ensures sources { result.sources ≡ parts.sources }
    ensures sourceless { result.status ≢ Status.SourceFault }
    ensures depot { LeavesDepot D.state N.told (D.state parts.depot) result.status result.depot }
    ensures links { LeavesLinks C.faults C.alarms A.faults A.alarms result.status parts.dialers.items result.dialers.items parts.acceptors.items result.acceptors.items }
    ensures dialers { result.dialers ≡ parts.dialers }
    ensures acceptors { EachLane (λ lane old new. IsBack A.out A.mark old new) parts.acceptors.items result.acceptors.items }
    ensures histories { LeavesHistories result.sender.items result.receiver.items result.status }
    ensures sender { result.sender.items ≡ [] }
    ensures ended { PrintsEarly result.sender.items result.receiver.items result.status (O.faults out.old) (O.faults out.new) (O.written out.old) (O.written out.new)
        ⊎ RecvEnds result.sender.items result.receiver.items result.status (O.faults out.old) (O.faults out.new) (O.written out.old) (O.written out.new) }
    ensures refused { (kind : RefusedKind) → result.status ≡ Status.Refused kind → IsLogCause (D.state parts.depot).told kind }
    ensures out_fault { result.status ≡ Status.OutFault → Rises (O.faults out.old) (O.faults out.new) }
    ensures used { result.status ≢ Status.Usage }
{
    // The law: what stands once a receiver has finished.
    a_finished_tree_has_arrived();
    let Parts {
        sources,
        depot,
        dialers,
        acceptors,
    } = parts;
    let batch = u64::from(batch);
    match recv_all::<R, N, D, A>(rt, alloc, lanes, batch, depot, acceptors) {
        Ok(received) => {
            let carried = received_alone(alloc, sources, dialers, received);
            put_report(alloc, Report::Recv, carried, out)
        }
        Err((failure, depot, acceptors)) => {
            let parts = Parts {
                sources,
                depot,
                dialers,
                acceptors,
            };
            unrun(alloc, end_failed(alloc, failure, out), parts)
        }
    }
}

// What a receiving end leaves, where it runs alone.
fn received_alone<S, D, C, A>(
    alloc: Global,
    sources: Vec<S>,
    dialers: Vec<C>,
    received: Received<D, A>,
) -> Carried<S, D, C, A>
    ensures status { result.status ≡ received.status }
    ensures sender { result.sender.items ≡ [] }
    ensures receiver { result.receiver ≡ received.history }
    ensures sources { result.sources ≡ sources }
    ensures depot { result.depot ≡ received.depot }
    ensures dialers { result.dialers ≡ dialers }
    ensures acceptors { result.acceptors ≡ received.acceptors }
{
    let Received {
        status,
        history,
        depot,
        acceptors,
    } = received;
    Carried {
        status,
        sender: Vec::new(alloc),
        receiver: history,
        sources,
        depot,
        dialers,
        acceptors,
    }
}

// Opens a receiving end, runs it, and closes it. `Err` hands back what was handed in, where it can't be
// opened: the disk failed, its log has no meaning, or memory ran out.
fn recv_all<
    R: Threads + Wait + Sync + Clone + Drop + Send,
    N: Run + Send + Sync,
    D: Depot + Drop + Send + Sync,
    A: Accept<N> + Send + Sync + Drop,
>(
    rt: &R,
    alloc: Global,
    lanes: u8,
    batch: u64,
    depot: D,
    acceptors: Vec<A>,
) -> Result<Received<D, A>, (CommandFail, D, Vec<A>)>
where
    A::L: Send,
    requires may { MayTake A.out N.told lanes batch (D.state depot) acceptors.items }
    ensures ran { IfOk result (λ received. ReceiverLeaves D.state A.faults A.alarms A.out A.mark N.told (started_of (D.state depot))
        acceptors.items received.acceptors.items received.depot received.history.items received.status) }
    ensures acceptors { IfErr result (λ back. back.2 ≡ acceptors) }
    ensures unopened { IfErr result (λ back. IsUnopened back.0 (D.state depot) (D.state back.1)) }
{
    // A ledger, in which the lanes count their turns.
    let blank = Blank::new(u64::from(lanes));
    recv_since::<R, N, D, A, Brand, Brand>(rt, alloc, lanes, batch, depot, acceptors, blank)
}

// The same, of a depot that is known as it was handed in.
fn recv_since<
    R: Threads + Wait + Sync + Clone + Drop + Send,
    N: Run + Send + Sync,
    D: Depot + Drop + Send + Sync,
    A: Accept<N> + Send + Sync + Drop,
    J: Start + Send + Sync,
    K: Ledger + Send + Sync,
>(
    rt: &R,
    alloc: Global,
    lanes: u8,
    batch: u64,
    depot: D,
    acceptors: Vec<A>,
    blank: Blank,
) -> Result<Received<D, A>, (CommandFail, D, Vec<A>)>
where
    A::L: Send,
    requires may { MayTake A.out N.told lanes batch (D.state depot) acceptors.items }
    requires start { J.started ≡ started_of (D.state depot) }
    requires blank { (blank.name ≡ K.name) × (blank.parts ≡ K.parts) × (blank.parts ≡ lanes) }
    ensures ran { IfOk result (λ received. ReceiverLeaves D.state A.faults A.alarms A.out A.mark N.told (started_of (D.state depot))
        acceptors.items received.acceptors.items received.depot received.history.items received.status) }
    ensures acceptors { IfErr result (λ back. back.2 ≡ acceptors) }
    ensures unopened { IfErr result (λ back. IsUnopened back.0 (D.state depot) (D.state back.1)) }
{
    let Ok(own) = rt.clone() else {
        return Err((CommandFail::NoMemory, depot, acceptors));
    };
    match open_receiver::<R, N, D, J, K>(own, alloc, depot, lanes, batch, blank) {
        Ok((hub, passes)) => {
            let side = ReceiverSide {
                alloc,
                hub,
                passes,
                acceptors,
                of: PhantomData,
                into: PhantomData,
                since: PhantomData,
            };
            Ok(run_receiver::<R, N, D, J, A, MutexHub<R, KeptDock<N, D, J>, K>>(rt, side))
        }
        Err((failure, depot)) => Err((failure, depot, acceptors)),
    }
}
