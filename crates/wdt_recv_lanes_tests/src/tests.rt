//! Whole lanes of a receiver, whose other end is a wire in memory.
ghost use Rattle.std.specs.Prelude.{◌≡◌, ◌≤◌, [], length, All, IfOk, None};
ghost use Rattle.wdt_units.specs.declared.limits.TheConstants.{MAX_LANES};
ghost use Rattle.wdt_depot.specs.MemState.{mem_state};

use std::alloc::Global;
use std::marker::Brand;
use std::process::Abort;
use std::sync::Wait;
use std::sync::ledger::{Blank, Ledger};
use std::test::Fail;
use std::thread::Threads;
use wdt_depot::MemDepot;
use wdt_dock::Dock;
use wdt_gate::MutexHub;
use wdt_link::{MemAccept, MemWire};
use wdt_recv_lanes::{KeptDock, RecvEnd, Start, recv_end};
use wdt_sender_fsm::{EndAnswer, PeerKind};
use wdt_tree::Untold;
use wdt_units::{LaneSet, Name};

// A sender with a file `a` of two bytes, on a lane's first connection: its settings, what comes in all, the
// block, and twice that it is done.
const ALL: &[u8] = b"S\0\x01\0\0\0\0\0\0\0\x01\0\x01\0\x01\0\0\0\x04\x01\
    Z\0\0\0\x01\0\0\0\0\0\0\0\x02\
    D\0\x01a\0\0\0\0\0\0\0\x02\0\0\0\0\0\0\0\0\0\0\0\0\0\0\0\0\0\0\0\x02hi\
    LL";

// The same on the second connection.
const AGAIN: &[u8] = b"S\0\x01\0\0\0\0\0\0\0\x01\0\x01\0\x02\0\0\0\x04\x01\
    Z\0\0\0\x01\0\0\0\0\0\0\0\x02\
    D\0\x01a\0\0\0\0\0\0\0\x02\0\0\0\0\0\0\0\0\0\0\0\0\0\0\0\0\0\0\0\x02hi\
    LL";

// The first up to the middle of the block.
const HALF: &[u8] = b"S\0\x01\0\0\0\0\0\0\0\x01\0\x01\0\x01\0\0\0\x04\x01\
    Z\0\0\0\x01\0\0\0\0\0\0\0\x02\
    D\0\x01a\0\0\0\0\0\0\0\x02\0\0\0\0\0\0\0\0\0\0\0\0\0\0\0\0\0\0\0\x02h";

// A sender of two files that sends one of them.
const SHORT: &[u8] = b"S\0\x01\0\0\0\0\0\0\0\x01\0\x01\0\x01\0\0\0\x04\x01\
    Z\0\0\0\x02\0\0\0\0\0\0\0\x02\
    D\0\x01a\0\0\0\0\0\0\0\x02\0\0\0\0\0\0\0\0\0\0\0\0\0\0\0\0\0\0\0\x02hi\
    LL";

// Of two lanes: the first has the block, as above.
const FIRST: &[u8] = b"S\0\x01\0\0\0\0\0\0\0\x01\0\x02\0\x01\0\0\0\x04\x01\
    Z\0\0\0\x01\0\0\0\0\0\0\0\x02\
    D\0\x01a\0\0\0\0\0\0\0\x02\0\0\0\0\0\0\0\0\0\0\0\0\0\0\0\0\0\0\0\x02hi\
    LL";

// The second has none, and is done at once.
const IDLE: &[u8] = b"S\0\x01\0\0\0\0\0\0\0\x01\x01\x02\0\x01\0\0\0\x04\x01\
    Z\0\0\0\x01\0\0\0\0\0\0\0\x02\
    LL";

// The second has the block, and is done once more, behind hearing that the first lane is closed.
const ALONE: &[u8] = b"S\0\x01\0\0\0\0\0\0\0\x01\x01\x02\0\x01\0\0\0\x04\x01\
    Z\0\0\0\x01\0\0\0\0\0\0\0\x02\
    D\0\x01a\0\0\0\0\0\0\0\x02\0\0\0\0\0\0\0\0\0\0\0\0\0\0\0\0\0\0\0\x02hi\
    LLL";

// How an end fared.
#[derive(Clone, Copy, Debug, PartialEq, Eq)]
enum Fared {
    Done,
    Disk,
    Link,
    Aborted,
    BadFrame,
    Short,
    Otherwise,
}

// The calls of a transfer of one file: opening the log is four, the file is made by the fifth and written by
// the sixth, and the log is written at the finish.
const NEVER: &[u32] = &[];

const MAKE: &[u32] = &[5];

const WRITE: &[u32] = &[6];

const LOG: &[u32] = &[8];

// An end of so many lanes over a depot.
fn dock<J: Start>(
    alloc: Global,
    depot: MemDepot,
    lanes: u8,
) -> Result<KeptDock<Untold, MemDepot, J>, Fail>
    requires spots { (mem_state depot).spots ≡ [] }
    requires started { J.started ≡ record { faults = 0; slips = 0; told = None } }
    requires some_lanes { 1 ≤ lanes }
    requires few_lanes { lanes ≤ MAX_LANES }
    ensures lanes { IfOk result (λ dock. length dock.plain.lanes ≡ lanes) }
    ensures empty { IfOk result (λ dock. dock.plain.history ≡ []) }
{
    match Dock::open(alloc, depot, lanes, 1024) {
        Ok(dock) => Ok(KeptDock::of(dock)),
        Err(_) => Err(Fail::from("no end")),
    }
}

// Two connections, on which the other end says this.
fn acceptor(alloc: Global, said: [&[u8]; 2]) -> Result<MemAccept<Untold>, Fail>
    ensures { IfOk result (λ acceptor. acceptor.out ≡ 0) }
{
    let [first, second] = said;
    let first = MemWire::of(alloc, Vec::from_slice(alloc, first)?, Vec::new(alloc));
    let second = MemWire::of(alloc, Vec::from_slice(alloc, second)?, Vec::new(alloc));
    Ok(MemAccept::of(alloc, vec![in alloc; first, second]?))
}

fn outcome_of(answer: &EndAnswer) -> Fared {
    match answer {
        EndAnswer::Done => Fared::Done,
        EndAnswer::Disk => Fared::Disk,
        EndAnswer::Link => Fared::Link,
        EndAnswer::Aborted(_) => Fared::Aborted,
        EndAnswer::Peer(PeerKind::BadFrame { .. }) => Fared::BadFrame,
        EndAnswer::Peer(PeerKind::Short { .. }) => Fared::Short,
        _ => Fared::Otherwise,
    }
}

// Whether the file `a` has landed whole.
fn has_landed(alloc: Global, depot: &MemDepot) -> Result<bool, Fail> {
    let path = Name::read(alloc, b"a")?;
    Ok(match depot.shown(&path) {
        Some(bytes) => bytes == b"hi".as_slice(),
        None => false,
    })
}

// Receives over the connections of so many lanes, into a depot of which these calls fail, and answers how the
// end fared, which of its lanes lost a connection, and heard the other end fail, and whether the file has
// landed.
fn receive<R: Threads + Wait + Sync + Copy + Drop, L: Ledger + Send + Sync, J: Start + Send + Sync>(
    rt: R,
    alloc: Global,
    blank: Blank,
    fails: &[u32],
    lanes: u8,
    acceptors: Vec<MemAccept>,
) -> Result<(Fared, [LaneSet; 2], bool), Fail>
    requires name { blank.name ≡ L.name }
    requires parts { (blank.parts ≡ L.parts) × (blank.parts ≡ lanes) }
    requires started { J.started ≡ record { faults = 0; slips = 0; told = None } }
    requires some_lanes { 1 ≤ lanes }
    requires few_lanes { lanes ≤ MAX_LANES }
    requires acceptors { length acceptors.items ≡ lanes }
    requires out { All (λ acceptor. acceptor.out ≡ 0) acceptors.items }
{
    let depot = MemDepot::of(alloc, Vec::new(alloc), Vec::from_slice(alloc, fails)?)?;
    let dock = dock::<J>(alloc, depot, lanes)?;
    let Ok((hub, passes)) = MutexHub::<R, KeptDock<Untold, MemDepot, J>, L>::open(
        rt, alloc, blank, dock, lanes,
    ) else {
        return Err(Fail::from("no memory"));
    };
    let RecvEnd {
        hub,
        passes,
        cut,
        alarmed,
        ..
    } = recv_end::<
        R,
        Untold,
        MemDepot,
        J,
        MemAccept,
        MutexHub<R, KeptDock<Untold, MemDepot, J>, L>,
    >(&rt, alloc, hub, passes, acceptors);
    let (dock, _turns) = hub.settle(passes);
    let (depot, _events, answer) = dock.into_dock().close();
    Ok((
        outcome_of(&answer),
        [cut, alarmed],
        has_landed(alloc, &depot)?,
    ))
}

#[test]
fn a_lane_comes_to_its_end(rt: HostRuntime) -> Result<(), Fail> {
    let alloc = rt.alloc();
    let (none, one) = (LaneSet(0), LaneSet(1));
    let nothing = b"".as_slice();
    for (said, fails, how, met, landed) in [
        ([ALL, nothing], NEVER, Fared::Done, [none, none], true),
        ([HALF, AGAIN], NEVER, Fared::Done, [one, none], true),
        ([HALF, nothing], NEVER, Fared::Link, [one, none], false),
        (
            [b"A\x02".as_slice(), ALL],
            NEVER,
            Fared::Aborted,
            [none, one],
            false,
        ),
        (
            [b"?".as_slice(), ALL],
            NEVER,
            Fared::BadFrame,
            [none, one],
            false,
        ),
        ([SHORT, nothing], NEVER, Fared::Short, [none, none], true),
        ([ALL, AGAIN], MAKE, Fared::Disk, [none, none], false),
        ([ALL, AGAIN], WRITE, Fared::Disk, [none, none], false),
        ([ALL, AGAIN], LOG, Fared::Disk, [none, none], true),
    ] {
        let blank = Blank::new(1);
        let acceptors = vec![in alloc; acceptor(alloc, said)?]?;
        let ended = receive::<HostRuntime, Brand, Brand>(rt, alloc, blank, fails, 1, acceptors)?;
        assert_eq!(rt; ended, (how, met, landed), "{said:?} {fails:?}");
    }
    Ok(())
}

#[test]
fn a_lane_waits_for_the_other(rt: HostRuntime) -> Result<(), Fail> {
    let alloc = rt.alloc();
    let (none, one) = (LaneSet(0), LaneSet(1));
    let nothing = b"".as_slice();
    for (first, second, met) in [
        ([FIRST, nothing], [IDLE, nothing], [none, none]),
        ([nothing, nothing], [ALONE, nothing], [one, none]),
    ] {
        let blank = Blank::new(2);
        let acceptors = vec![in alloc; acceptor(alloc, first)?, acceptor(alloc, second)?]?;
        let ended = receive::<HostRuntime, Brand, Brand>(rt, alloc, blank, NEVER, 2, acceptors)?;
        assert_eq!(rt; ended, (Fared::Done, met, true), "{first:?} {second:?}");
    }
    Ok(())
}
