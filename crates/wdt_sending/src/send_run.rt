//! A send over connections: the tree is listed, and the sending end runs.
ghost use Rattle.std.specs.Prelude.{◌≡◌, ◌≢◌, ◌⊎◌, [], All, IfSome, Some, length};
ghost use Rattle.wdt_units.specs.Counts.{Rises};
ghost use Rattle.wdt_units.specs.declared.limits.TheConstants.{MAX_BLOCK, MAX_LANES};
ghost use Rattle.wdt_sender_fsm.specs.declared.answers.RefusedKind.{RefusedKind};
ghost use Rattle.wdt_lanes.specs.LaneLists.{EachLane};
ghost use Rattle.wdt_lanes.specs.Seats.{IsBack};
ghost use Rattle.wdt_words.specs.Numbers.{IsWithin};
ghost use Rattle.wdt_sending.specs.Causes.{IsPlanCause, IsSendCause};
ghost use Rattle.wdt_sending.specs.Leaves.{LeavesHistories, LeavesLinks, LeavesSources};
ghost use Rattle.wdt_sending.specs.Printed.{PrintsEarly, SendEnds};
ghost use Rattle.wdt_sending.specs.Sending.{MayBegin, MaySendOver};
ghost use Rattle.wdt_sending.specs.Told.{first_told};

use crate::carried::{Carried, Parts};
use crate::listing::{list_first, unrun};
use crate::opening::Sending;
use crate::reporting::{Report, put_report};
use crate::sender_side::Sent;
use crate::sending::send_all;
use std::alloc::Global;
use std::sync::Wait;
use std::thread::Threads;
use wdt_depot::Depot;
use wdt_link::{Accept, Dial};
use wdt_sender_fsm::answers_have_their_causes;
use wdt_source::Source;
use wdt_tool::{Status, end_failed};
use wdt_tree::Run;
use wdt_units::Sink;

/// Sends a tree: lists the first source, and sends its files over so many lanes, in blocks of at most
/// `block` bytes. It may wait for its connections. The depot isn't touched.
pub fn send_tree<
    R: Threads + Wait + Sync + Clone + Drop + Send,
    N: Run + Send + Sync,
    S: Source + Send + Sync + Drop,
    D: Depot + Drop + Send + Sync,
    C: Dial<N> + Send + Sync + Drop,
    A: Accept<N> + Send + Sync + Drop,
    O: Sink,
>(
    rt: &R,
    alloc: Global,
    lanes: u8,
    block: u32,
    session: u64,
    parts: Parts<S, D, C, A>,
    out: &mut O,
) -> Carried<S, D, C, A>
where
    C::L: Send,
    requires lanes { IsWithin 1 MAX_LANES lanes }
    requires block { IsWithin 1 MAX_BLOCK block }
    requires served { (length parts.sources.items ≡ lanes) × (length parts.dialers.items ≡ lanes) }
    requires dialers_home { All (λ dialer. C.out dialer ≡ 0) parts.dialers.items }
    requires sources { IfSome N.told (λ run. All (λ source. S.told source ≡ Some run.tree) parts.sources.items) }

    ensures sources { LeavesSources S.told S.faults S.slips N.told result.status parts.sources.items result.sources.items }
    ensures depot { result.depot ≡ Some parts.depot }
    ensures diskless { result.status ≢ Status.DiskFault }
    ensures links { LeavesLinks C.faults C.alarms A.faults A.alarms result.status parts.dialers.items result.dialers.items parts.acceptors.items result.acceptors.items }
    ensures dialers { EachLane (λ lane old new. IsBack C.out C.mark old new) parts.dialers.items result.dialers.items }
    ensures acceptors { result.acceptors ≡ parts.acceptors }
    ensures histories { LeavesHistories result.sender.items result.receiver.items result.status }
    ensures receiver { result.receiver.items ≡ [] }
    ensures ended { PrintsEarly result.sender.items result.receiver.items result.status (O.faults out.old) (O.faults out.new) (O.written out.old) (O.written out.new)
        ⊎ SendEnds N.told result.sender.items result.receiver.items result.status (O.faults out.old) (O.faults out.new) (O.written out.old) (O.written out.new) }
    ensures refused { (kind : RefusedKind) → result.status ≡ Status.Refused kind → IsSendCause N.told block (first_told S.listing parts.sources.items) kind }
    ensures out_fault { result.status ≡ Status.OutFault → Rises (O.faults out.old) (O.faults out.new) }
    ensures used { result.status ≢ Status.Usage }
{
    let mut parts = parts;
    match list_first(alloc, &mut parts.sources) {
        Ok(manifest) => {
            let sending = Sending {
                manifest,
                lanes,
                block,
                session,
            };
            send_files::<R, N, S, D, C, A, O>(rt, alloc, sending, parts, out)
        }
        Err(failure) => unrun(alloc, end_failed(alloc, failure, out), parts),
    }
}

// Sends the files of a manifest.
fn send_files<
    R: Threads + Wait + Sync + Clone + Drop + Send,
    N: Run + Send + Sync,
    S: Source + Send + Sync + Drop,
    D: Depot + Drop + Send + Sync,
    C: Dial<N> + Send + Sync + Drop,
    A: Accept<N> + Send + Sync + Drop,
    O: Sink,
>(
    rt: &R,
    alloc: Global,
    sending: Sending,
    parts: Parts<S, D, C, A>,
    out: &mut O,
) -> Carried<S, D, C, A>
where
    C::L: Send,
    requires may { MayBegin N.told sending.manifest sending.lanes sending.block }
    requires over { MaySendOver S.told C.out N.told sending.lanes parts.sources.items parts.dialers.items }

    ensures sources { LeavesSources S.told S.faults S.slips N.told result.status parts.sources.items result.sources.items }
    ensures depot { result.depot ≡ Some parts.depot }
    ensures diskless { result.status ≢ Status.DiskFault }
    ensures links { LeavesLinks C.faults C.alarms A.faults A.alarms result.status parts.dialers.items result.dialers.items parts.acceptors.items result.acceptors.items }
    ensures dialers { EachLane (λ lane old new. IsBack C.out C.mark old new) parts.dialers.items result.dialers.items }
    ensures acceptors { result.acceptors ≡ parts.acceptors }
    ensures histories { LeavesHistories result.sender.items result.receiver.items result.status }
    ensures receiver { result.receiver.items ≡ [] }
    ensures ended { SendEnds N.told result.sender.items result.receiver.items result.status (O.faults out.old) (O.faults out.new) (O.written out.old) (O.written out.new) }
    ensures refused { (kind : RefusedKind) → result.status ≡ Status.Refused kind → IsPlanCause N.told sending.block kind }
    ensures out_fault { result.status ≡ Status.OutFault → Rises (O.faults out.old) (O.faults out.new) }
    ensures used { result.status ≢ Status.Usage }
{
    // The law: why a sender's end has its answer.
    answers_have_their_causes();
    let files = sending.manifest.count();
    let Parts {
        sources,
        depot,
        dialers,
        acceptors,
    } = parts;
    let sent = send_all::<R, N, S, C>(rt, alloc, sending, sources, dialers);
    let carried = sent_alone(alloc, sent, depot, acceptors);
    put_report(alloc, Report::Send(files), carried, out)
}

// What a sending end leaves, where it runs alone.
fn sent_alone<S, D, C, A>(
    alloc: Global,
    sent: Sent<S, C>,
    depot: D,
    acceptors: Vec<A>,
) -> Carried<S, D, C, A>
    ensures status { result.status ≡ sent.status }
    ensures sender { result.sender ≡ sent.history }
    ensures receiver { result.receiver.items ≡ [] }
    ensures sources { result.sources ≡ sent.sources }
    ensures depot { result.depot ≡ Some depot }
    ensures dialers { result.dialers ≡ sent.dialers }
    ensures acceptors { result.acceptors ≡ acceptors }
{
    let Sent {
        status,
        history,
        sources,
        dialers,
    } = sent;
    Carried {
        status,
        sender: history,
        receiver: Vec::new(alloc),
        sources,
        depot: Some(depot),
        dialers,
        acceptors,
    }
}
