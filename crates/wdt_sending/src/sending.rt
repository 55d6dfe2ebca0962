//! A sending end, from its opening to its end.
ghost use Rattle.std.specs.Prelude.{◌≡◌};
ghost use Rattle.wdt_sending.specs.Sending.{MayBegin, MaySendOver, SenderLeaves, begun_of};

use crate::opening::{Sending, open_sender};
use crate::sender_side::{SenderSide, Sent, run_sender};
use std::alloc::Global;
use std::marker::{Brand, PhantomData};
use std::sync::Wait;
use std::sync::ledger::{Blank, Ledger};
use std::thread::Threads;
use wdt_gate::MutexHub;
use wdt_lanes::{Begin, KeptYard};
use wdt_link::Dial;
use wdt_source::Source;
use wdt_tool::Status;
use wdt_tree::Run;

/// Sends the files of a manifest from the sources to the receiver that the dialers reach. It may wait for
/// the other end. Where there is no memory to open the end, no lane runs.
pub fn send_all<
    R: Threads + Wait + Sync + Clone + Drop + Send,
    N: Run + Send + Sync,
    S: Source + Send + Sync + Drop,
    C: Dial<N> + Send + Sync + Drop,
>(rt: &R, alloc: Global, sending: Sending, sources: Vec<S>, dialers: Vec<C>) -> Sent<S, C>
where
    C::L: Send,
    requires may { MayBegin N.told sending.manifest sending.lanes sending.block }
    requires over { MaySendOver S.told C.out N.told sending.lanes sources.items dialers.items }
    ensures { SenderLeaves S.told S.faults S.slips C.faults C.alarms C.out C.mark N.told (begun_of sending.manifest sending.block) sources.items result.sources.items dialers.items result.dialers.items result.history.items result.status }
{
    // A ledger, in which the lanes count their turns.
    let blank = Blank::new(u64::from(sending.lanes));
    send_since::<R, N, S, C, Brand, Brand>(rt, alloc, sending, sources, dialers, blank)
}

// The same, of an end that is known as it was opened.
fn send_since<
    R: Threads + Wait + Sync + Clone + Drop + Send,
    N: Run + Send + Sync,
    S: Source + Send + Sync + Drop,
    C: Dial<N> + Send + Sync + Drop,
    B: Begin + Send + Sync,
    L: Ledger + Send + Sync,
>(
    rt: &R,
    alloc: Global,
    sending: Sending,
    sources: Vec<S>,
    dialers: Vec<C>,
    blank: Blank,
) -> Sent<S, C>
where
    C::L: Send,
    requires may { MayBegin N.told sending.manifest sending.lanes sending.block }
    requires over { MaySendOver S.told C.out N.told sending.lanes sources.items dialers.items }
    requires begun { B.begun ≡ begun_of sending.manifest sending.block }
    requires blank { (blank.name ≡ L.name) × (blank.parts ≡ L.parts) × (blank.parts ≡ sending.lanes) }
    ensures { SenderLeaves S.told S.faults S.slips C.faults C.alarms C.out C.mark N.told B.begun sources.items result.sources.items dialers.items result.dialers.items result.history.items result.status }
{
    match open_sender::<R, N, B, L>(rt, alloc, sending, blank) {
        Ok((hub, passes)) => {
            let side = SenderSide {
                alloc,
                hub,
                passes,
                sources,
                dialers,
                of: PhantomData,
                begun: PhantomData,
            };
            run_sender::<R, N, B, S, C, MutexHub<R, KeptYard<N, B>, L>>(rt, side)
        }
        Err(_) => Sent {
            status: Status::NoMemory,
            history: Vec::new(alloc),
            sources,
            dialers,
        },
    }
}
