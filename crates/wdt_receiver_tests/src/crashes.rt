//! What a stop or a failure at each changing call of a small transfer leaves: the log that is found names only
//! what the source has, and the transfer is ended from there.
ghost use Rattle.std.specs.Prelude.{◌≡◌, ◌<◌, ◌≤◌, [], length, IfOk};
ghost use Rattle.wdt_depot.specs.MemState.{mem_state};

use crate::ends::{LANES, run};
use std::alloc::Global;
use std::process::Abort;
use std::test::Fail;
use wdt_depot::{Crash, MemDepot};
use wdt_dock::Dock;
use wdt_log::Log;
use wdt_sender_fsm::EndAnswer;
use wdt_units::Name;

// Each lane but the first is idle; the first lane's one block, and the finish: all lanes say the last word.
const BLOCK: &[u8] = b"1SLsWWzdW2SLsWWzdW0SLsWWzbpdWd1KWd2KWd";

// The same without the block, which the log has already.
const NO_BLOCK: &[u8] = b"1SLsWWzdW2SLsWWzdW0SLsWWzdWd1KWd2KWd";

// An end over the depot, which logs each block as it lands, goes through a transfer as far as the disk lets
// it. Hands back the depot, and whether the end is done.
fn transfer(
    rt: &impl Abort,
    alloc: Global,
    depot: MemDepot,
    letters: &[u8],
) -> Result<(MemDepot, bool), Fail>
    requires { (mem_state depot).spots ≡ [] }
    ensures { IfOk result (λ ended. (mem_state ended.0).spots ≡ []) }
{
    let mut dock = match Dock::open(alloc, depot, LANES, 1) {
        Ok(dock) => dock,
        Err((_, depot)) => return Ok((depot, false)),
    };
    run(rt, alloc, &mut dock, letters)?;
    let (depot, _, answer) = dock.close();
    Ok((depot, matches!(answer, EndAnswer::Done)))
}

// How many positions of `a` the log of the depot covers, all of which have the source's bytes: it names no
// other file.
fn covered(rt: &impl Abort, alloc: Global, depot: &mut MemDepot) -> Result<u64, Fail>
    requires { (mem_state depot.old).spots ≡ [] }
    ensures { (mem_state depot.new).spots ≡ [] }
{
    let path = Name::read(alloc, b"a")?;
    let log = Log::open(alloc, depot)?;
    let mut covered = 0;
    for file in &log.view().files {
        assert!(rt; file.have.path.bytes() == b"a".as_slice());
        assert!(rt; file.have.size == 2 && file.have.stamp == 0);
        covered = file.have.spans.total().saturating_add(covered);
    }
    assert!(rt; covered == 0 || has_bytes(depot, &path));
    Ok(covered)
}

// Whether the file at a path has the source's bytes.
fn has_bytes(depot: &MemDepot, path: &Name) -> bool {
    match depot.shown(path) {
        Some(bytes) => bytes == b"hi".as_slice(),
        None => false,
    }
}

// The transfer is ended from what the log has.
fn resume(rt: &impl Abort, alloc: Global, mut depot: MemDepot) -> Result<(), Fail>
    requires { (mem_state depot).spots ≡ [] }
{
    let letters = if covered(rt, alloc, &mut depot)? == 2 {
        NO_BLOCK
    } else {
        BLOCK
    };
    let (mut depot, done) = transfer(rt, alloc, depot, letters)?;
    assert!(rt; done);
    assert_eq!(rt; covered(rt, alloc, &mut depot)?, 2);
    Ok(())
}

// A transfer has so many changing calls: four make the log, one makes the file and one writes it, one syncs
// it, and four append to the log.
const CALLS: u32 = 11;

#[test]
fn a_transfer_is_ended_behind_a_stop_at_any_call(rt: HostRuntime) -> Result<(), Fail> {
    let alloc = rt.alloc();
    for pick in [0, 1, 2, 255] {
        for call in 1..CALLS + 1 {
            let mut depot = MemDepot::of(alloc, Vec::new(alloc), Vec::new(alloc))?;
            depot.arm(call, pick);
            let (mut depot, done) = transfer(&rt, alloc, depot, BLOCK)?;
            assert!(rt; !done, "call {call}, pick {pick}");
            depot.reopen();
            resume(&rt, alloc, depot)?;
        }
    }
    Ok(())
}

#[test]
fn a_transfer_makes_no_further_call(rt: HostRuntime) -> Result<(), Fail> {
    let alloc = rt.alloc();
    let mut depot = MemDepot::of(alloc, Vec::new(alloc), Vec::new(alloc))?;
    depot.arm(CALLS + 1, 0);
    let (_, done) = transfer(&rt, alloc, depot, BLOCK)?;
    assert!(rt; done);
    Ok(())
}

#[test]
fn a_transfer_is_ended_behind_a_call_that_failed(rt: HostRuntime) -> Result<(), Fail> {
    let alloc = rt.alloc();
    for call in 1..CALLS + 1 {
        let fails = Vec::from_slice(alloc, &[call])?;
        let depot = MemDepot::of(alloc, Vec::new(alloc), fails)?;
        let (depot, done) = transfer(&rt, alloc, depot, BLOCK)?;
        assert!(rt; !done);
        resume(&rt, alloc, depot)?;
    }
    Ok(())
}
