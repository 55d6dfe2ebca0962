//! A sending end, opened behind a hub.
ghost use Rattle.std.specs.Prelude.{◌≡◌, map, IfOk};
ghost use Rattle.wdt_gate.specs.Told.{upto};
ghost use Rattle.wdt_sending.specs.Sending.{MayBegin, begun_of};

use std::alloc::Global;
use std::sync::Wait;
use std::sync::ledger::{Blank, Ledger};
use wdt_gate::{MutexHub, MutexPass};
use wdt_lanes::{Begin, KeptYard};
use wdt_tree::{Manifest, Run};
use wdt_units::NoMemory;
use wdt_yard::Yard;

/// What a sending end is opened with.
pub struct Sending {
    /// The files that are to be at the destination.
    pub manifest: Manifest,
    /// How many lanes, 1 to 16.
    pub lanes: u8,
    /// The most bytes of a block, 1 to 67,108,864.
    pub block: u32,
    /// The number of the session, 1 to 2^63 - 1.
    pub session: u64,
}

/// Opens a sending end, and gives the passes of its lanes. The ledger counts the turns of these. `Err` is
/// want of memory.
pub fn open_sender<R: Wait + Clone + Drop, N: Run, B: Begin, L: Ledger>(
    rt: &R,
    alloc: Global,
    sending: Sending,
    blank: Blank,
) -> Result<(MutexHub<R, KeptYard<N, B>, L>, Vec<MutexPass<L>>), NoMemory>
    requires may { MayBegin N.told sending.manifest sending.lanes sending.block }
    requires begun { B.begun ≡ begun_of sending.manifest sending.block }
    requires blank { (blank.name ≡ L.name) × (blank.parts ≡ L.parts) × (blank.parts ≡ sending.lanes) }
    ensures passes { IfOk result (λ opened. map (λ pass. pass.lane) opened.1.items ≡ upto 0 L.parts) }
{
    let Sending {
        manifest,
        lanes,
        block,
        session,
    } = sending;
    let yard = Yard::open(alloc, manifest, lanes, block, session)?;
    let yard = KeptYard::<N, B>::of(yard);
    let own = rt.clone()?;
    match MutexHub::<R, KeptYard<N, B>, L>::open(own, alloc, blank, yard, lanes) {
        Ok(opened) => Ok(opened),
        Err(_) => Err(NoMemory),
    }
}
