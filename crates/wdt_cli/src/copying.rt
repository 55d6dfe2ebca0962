//! A copy over connections: both ends are opened, run side by side, and closed.
ghost use Rattle.std.specs.Prelude.{◌≡◌, map, IfErr, IfOk};
ghost use Rattle.wdt_gate.specs.Told.{upto};
ghost use Rattle.wdt_recv_lanes.specs.Kept.{started_of};
ghost use Rattle.wdt_sending.specs.Judging.{first_of};
ghost use Rattle.wdt_sending.specs.Sending.{MaySend, SenderLeaves, begun_of};
ghost use Rattle.wdt_cli.specs.Copied.{CopyLeaves, IsUnopened, MayCarry, MayOpen};
ghost use Rattle.wdt_cli.specs.Sides.{MayReceive, ReceiverLeaves};

use crate::receiver_opening::open_receiver;
use crate::receiver_side::{Received, ReceiverSide, run_receiver};
use std::alloc::Global;
use std::marker::{Brand, PhantomData};
use std::sync::Wait;
use std::sync::ledger::{Blank, Ledger};
use std::thread;
use std::thread::Threads;
use wdt_depot::Depot;
use wdt_gate::{Hub, MutexHub, MutexPass};
use wdt_lanes::{Begin, KeptYard};
use wdt_link::{Accept, Dial};
use wdt_recv_lanes::{KeptDock, Start};
use wdt_sending::{Carried, Parts, SenderSide, Sending, Sent, first_of, open_sender, run_sender};
use wdt_source::Source;
use wdt_tool::CommandFail;
use wdt_tree::{Manifest, Run};

/// What both ends of a copy are opened with.
pub struct Opening {
    pub manifest: Manifest,
    /// How many lanes, 1 to 16.
    pub lanes: u8,
    /// The most bytes of a block, 1 to 67,108,864.
    pub block: u32,
    /// From so many bytes on what has landed is logged, at least 1.
    pub batch: u64,
}

// A copy has one session.
const SESSION: u64 = 1;

/// Copies the files of a manifest from the sources into the depot. `Err` hands back what was handed in,
/// where an end can't be opened: the destination's disk failed, its log has no meaning, or memory ran out.
pub fn copy_parts<
    R: Threads + Wait + Sync + Clone + Drop + Send,
    N: Run + Send + Sync,
    S: Source + Send + Sync + Drop,
    D: Depot + Drop + Send + Sync,
    C: Dial<N> + Send + Sync + Drop,
    A: Accept<N> + Send + Sync + Drop,
>(
    rt: &R,
    alloc: Global,
    opening: Opening,
    parts: Parts<S, D, C, A>,
) -> Result<Carried<S, D, C, A>, (CommandFail, Parts<S, D, C, A>)>
where
    C::L: Send,
    A::L: Send,
    requires opening { MayOpen N.told opening.manifest opening.lanes opening.block opening.batch (D.state parts.depot) }
    requires parts { MayCarry S.told C.out A.out N.told opening.lanes parts.sources.items parts.dialers.items parts.acceptors.items }

    ensures ran { IfOk result (λ carried. CopyLeaves
        (λ status. SenderLeaves S.told S.faults S.slips C.faults C.alarms C.out C.mark N.told (begun_of opening.manifest opening.block)
        parts.sources.items carried.sources.items parts.dialers.items carried.dialers.items carried.sender.items status)
        (λ status. ReceiverLeaves D.state A.faults A.alarms A.out A.mark N.told (started_of (D.state parts.depot))
        parts.acceptors.items carried.acceptors.items carried.depot carried.receiver.items status)
        carried.status) }
    ensures sources { IfErr result (λ back. back.1.sources ≡ parts.sources) }
    ensures dialers { IfErr result (λ back. back.1.dialers ≡ parts.dialers) }
    ensures acceptors { IfErr result (λ back. back.1.acceptors ≡ parts.acceptors) }
    ensures unopened { IfErr result (λ back. IsUnopened back.0 (D.state parts.depot) (D.state back.1.depot)) }
{
    // Two ledgers, in which the lanes of each end count their turns.
    let sent = Blank::new(u64::from(opening.lanes));
    let received = Blank::new(u64::from(opening.lanes));
    copy_since::<R, N, S, D, C, A, Brand, Brand, Brand, Brand>(
        rt, alloc, opening, parts, sent, received,
    )
}

// The same, of a depot that is known as it was handed in.
fn copy_since<
    R: Threads + Wait + Sync + Clone + Drop + Send,
    N: Run + Send + Sync,
    S: Source + Send + Sync + Drop,
    D: Depot + Drop + Send + Sync,
    C: Dial<N> + Send + Sync + Drop,
    A: Accept<N> + Send + Sync + Drop,
    B: Begin + Send + Sync,
    J: Start + Send + Sync,
    L: Ledger + Send + Sync,
    K: Ledger + Send + Sync,
>(
    rt: &R,
    alloc: Global,
    opening: Opening,
    parts: Parts<S, D, C, A>,
    sent: Blank,
    received: Blank,
) -> Result<Carried<S, D, C, A>, (CommandFail, Parts<S, D, C, A>)>
where
    C::L: Send,
    A::L: Send,
    requires opening { MayOpen N.told opening.manifest opening.lanes opening.block opening.batch (D.state parts.depot) }
    requires parts { MayCarry S.told C.out A.out N.told opening.lanes parts.sources.items parts.dialers.items parts.acceptors.items }
    requires begun { B.begun ≡ begun_of opening.manifest opening.block }
    requires start { J.started ≡ started_of (D.state parts.depot) }
    requires sent { (sent.name ≡ L.name) × (sent.parts ≡ L.parts) × (sent.parts ≡ opening.lanes) }
    requires received { (received.name ≡ K.name) × (received.parts ≡ K.parts) × (received.parts ≡ opening.lanes) }

    ensures ran { IfOk result (λ carried. CopyLeaves
        (λ status. SenderLeaves S.told S.faults S.slips C.faults C.alarms C.out C.mark N.told (begun_of opening.manifest opening.block)
        parts.sources.items carried.sources.items parts.dialers.items carried.dialers.items carried.sender.items status)
        (λ status. ReceiverLeaves D.state A.faults A.alarms A.out A.mark N.told (started_of (D.state parts.depot))
        parts.acceptors.items carried.acceptors.items carried.depot carried.receiver.items status)
        carried.status) }
    ensures sources { IfErr result (λ back. back.1.sources ≡ parts.sources) }
    ensures dialers { IfErr result (λ back. back.1.dialers ≡ parts.dialers) }
    ensures acceptors { IfErr result (λ back. back.1.acceptors ≡ parts.acceptors) }
    ensures unopened { IfErr result (λ back. IsUnopened back.0 (D.state parts.depot) (D.state back.1.depot)) }
{
    let Parts {
        sources,
        depot,
        dialers,
        acceptors,
    } = parts;
    match open_ends::<R, N, D, B, J, L, K>(rt, alloc, opening, depot, sent, received) {
        Ok(ends) => {
            let Ends {
                sender: (hub, passes),
                receiver: (far_hub, far_passes),
            } = ends;
            let sender = SenderSide {
                alloc,
                hub,
                passes,
                sources,
                dialers,
                of: PhantomData,
                begun: PhantomData,
            };
            let receiver = ReceiverSide {
                alloc,
                hub: far_hub,
                passes: far_passes,
                acceptors,
                of: PhantomData,
                into: PhantomData,
                since: PhantomData,
            };
            let (sent, received) = run_both::<R, N, S, D, C, A, B, J, _, _>(rt, sender, receiver);
            Ok(carried(sent, received))
        }
        Err((failure, depot)) => Err((
            failure,
            Parts {
                sources,
                depot,
                dialers,
                acceptors,
            },
        )),
    }
}

// Runs both ends side by side.
fn run_both<
    R: Threads + Wait + Sync,
    N: Run + Send + Sync,
    S: Source + Send + Sync + Drop,
    D: Depot + Drop + Send + Sync,
    C: Dial<N> + Send + Sync + Drop,
    A: Accept<N> + Send + Sync + Drop,
    B: Begin + Send + Sync,
    J: Start + Send + Sync,
    H: Hub<KeptYard<N, B>> + Send + Sync + Drop,
    G: Hub<KeptDock<N, D, J>> + Send + Sync + Drop,
>(
    rt: &R,
    sender: SenderSide<N, B, S, C, H>,
    receiver: ReceiverSide<N, D, J, A, G>,
) -> (Sent<S, C>, Received<D, A>)
where
    H::Pass: Send + Drop,
    G::Pass: Send + Drop,
    C::L: Send,
    A::L: Send,
    requires sender { MaySend H.has H.lane H.lanes S.told C.out N.told sender.hub sender.passes.items sender.sources.items sender.dialers.items }
    requires receiver { MayReceive G.has G.lane G.lanes A.out receiver.hub receiver.passes.items receiver.acceptors.items }
    ensures sent { SenderLeaves S.told S.faults S.slips C.faults C.alarms C.out C.mark N.told B.begun sender.sources.items result.0.sources.items sender.dialers.items result.0.dialers.items result.0.history.items result.0.status }
    ensures received { ReceiverLeaves D.state A.faults A.alarms A.out A.mark N.told J.started receiver.acceptors.items result.1.acceptors.items result.1.depot result.1.history.items result.1.status }
{
    thread::join(
        rt,
        || -> Sent<S, C>
            requires { MaySend H.has H.lane H.lanes S.told C.out N.told sender.hub sender.passes.items sender.sources.items sender.dialers.items }
            ensures { SenderLeaves S.told S.faults S.slips C.faults C.alarms C.out C.mark N.told B.begun sender.sources.items result.sources.items sender.dialers.items result.dialers.items result.history.items result.status }
        { run_sender::<R, N, B, S, C, H>(rt, sender) },
        || -> Received<D, A>
            requires { MayReceive G.has G.lane G.lanes A.out receiver.hub receiver.passes.items receiver.acceptors.items }
            ensures { ReceiverLeaves D.state A.faults A.alarms A.out A.mark N.told J.started receiver.acceptors.items result.acceptors.items result.depot result.history.items result.status }
        { run_receiver::<R, N, D, J, A, G>(rt, receiver) },
    )
}

// Both ends, each behind its hub, with the passes of its lanes.
struct Ends<R: Wait + Drop, N: Run, D: Depot + Drop, B: Begin, J: Start, L: Ledger, K: Ledger> {
    sender: (MutexHub<R, KeptYard<N, B>, L>, Vec<MutexPass<L>>),
    receiver: (MutexHub<R, KeptDock<N, D, J>, K>, Vec<MutexPass<K>>),
}

// Opens both ends. `Err` hands the depot back.
fn open_ends<
    R: Wait + Clone + Drop,
    N: Run,
    D: Depot + Drop,
    B: Begin,
    J: Start,
    L: Ledger,
    K: Ledger,
>(
    rt: &R,
    alloc: Global,
    opening: Opening,
    depot: D,
    sent: Blank,
    received: Blank,
) -> Result<Ends<R, N, D, B, J, L, K>, (CommandFail, D)>
    requires opening { MayOpen N.told opening.manifest opening.lanes opening.block opening.batch (D.state depot) }
    requires begun { B.begun ≡ begun_of opening.manifest opening.block }
    requires start { J.started ≡ started_of (D.state depot) }
    requires sent { (sent.name ≡ L.name) × (sent.parts ≡ L.parts) × (sent.parts ≡ opening.lanes) }
    requires received { (received.name ≡ K.name) × (received.parts ≡ K.parts) × (received.parts ≡ opening.lanes) }
    ensures sender { IfOk result (λ ends. map (λ pass. pass.lane) ends.sender.1.items ≡ upto 0 L.parts) }
    ensures receiver { IfOk result (λ ends. map (λ pass. pass.lane) ends.receiver.1.items ≡ upto 0 K.parts) }
    ensures unopened { IfErr result (λ back. IsUnopened back.0 (D.state depot) (D.state back.1)) }
{
    let Opening {
        manifest,
        lanes,
        block,
        batch,
    } = opening;
    let Ok(far) = rt.clone() else {
        return Err((CommandFail::NoMemory, depot));
    };
    let sending = Sending {
        manifest,
        lanes,
        block,
        session: SESSION,
    };
    let Ok(sender) = open_sender::<R, N, B, L>(rt, alloc, sending, sent) else {
        return Err((CommandFail::NoMemory, depot));
    };
    let receiver = open_receiver::<R, N, D, J, K>(far, alloc, depot, lanes, batch, received)?;
    Ok(Ends { sender, receiver })
}

// What both ends leave together.
fn carried<S, D, C, A>(sent: Sent<S, C>, received: Received<D, A>) -> Carried<S, D, C, A>
    ensures status { result.status ≡ first_of sent.status received.status }
    ensures sender { result.sender ≡ sent.history }
    ensures receiver { result.receiver ≡ received.history }
    ensures sources { result.sources ≡ sent.sources }
    ensures depot { result.depot ≡ received.depot }
    ensures dialers { result.dialers ≡ sent.dialers }
    ensures acceptors { result.acceptors ≡ received.acceptors }
{
    let Sent {
        status,
        history,
        sources,
        dialers,
    } = sent;
    let Received {
        status: far_status,
        history: far_history,
        depot,
        acceptors,
    } = received;
    Carried {
        status: first_of(status, far_status),
        sender: history,
        receiver: far_history,
        sources,
        depot,
        dialers,
        acceptors,
    }
}
