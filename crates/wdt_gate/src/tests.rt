//! What no clause says: that lanes which wait for one another come to their end.
ghost use Rattle.std.specs.Prelude.{◌≡◌, All, map};
ghost use Rattle.wdt_gate.specs.Told.{upto};

use crate::{Hub, MutexHub, MutexPass};
use std::alloc::{AllocError, Global};
use std::marker::Brand;
use std::process::Abort;
use std::sync::Wait;
use std::sync::ledger::{Blank, Ledger};
use std::test::Fail;
use std::thread::{Threads, join};
use wdt_units::{Lane, Machine};

// How often each of the two lanes counts.
const EACH: u64 = 200;

#[derive(Clone, Copy, Debug, PartialEq, Eq)]
enum Ask {
    Count,
    // As if memory were wanted.
    Refuse,
}

// Two lanes that count in turn, lane 0 first. The answer says whether it was the lane's turn.
#[derive(Drop)]
struct InTurn {
    counts: Vec<Lane>,
}

impl Machine for InTurn {
    ghost use Rattle.std.specs.Prelude.{◌≡◌, ◌≤◌, List, [], ◌∷◌, length, Some, None};
    ghost use Rattle.wdt_units.specs.Lanes.{few_loose};

    type Put = Ask;

    type Act = bool;

    type Entry = Lane;

    type Stand = ();

    ghost fits = { λ put. Unit {0} };

    ghost lanes = { λ m. None };

    ghost history = { λ m. m.counts.items };

    ghost lane_of = { λ e. Some e.0 };

    ghost stand = { λ m l. tt };

    ghost legal = { λ h. Unit {0} };

    ghost turned = { λ lane put h before act more after. length more ≤ 1 };

    ghost counted = { λ m. length m.counts.items };

    ghost one_loose = { λ h legal. few_loose (λ e. e.0) h };

    fn turn(&mut self, lane: Lane, put: Ask) -> Result<bool, Ask> {
        if put == Ask::Refuse {
            return Err(put);
        }
        if self.counts.len() % 2 != usize::from(lane.0) {
            return Ok(false);
        }
        match self.counts.push(lane) {
            Ok(()) => Ok(true),
            Err(_) => Err(put),
        }
    }

    fn count(&self) -> u64 {
        self.counts.len() as u64
    }
}

// Counts once: waits for the other lane where it isn't this one's turn.
fn count_once<R: Wait + Drop, L: Ledger>(
    rt: &R,
    hub: &MutexHub<R, InTurn, L>,
    pass: &mut MutexPass<L>,
) -> bool {
    for _ in rt.forever() {
        match hub.turn(pass, Ask::Count) {
            Ok(true) => return true,
            Ok(false) => hub.wait_for_more(pass),
            Err(_) => return false,
        }
    }
    unreachable!()
}

fn play<R: Wait + Drop, L: Ledger>(
    rt: &R,
    hub: &MutexHub<R, InTurn, L>,
    mut pass: MutexPass<L>,
) -> MutexPass<L> {
    for _ in 0..EACH {
        if !count_once(rt, hub, &mut pass) {
            break;
        }
    }
    pass
}

fn game<R: Threads + Wait + Abort + Sync + Copy + Drop, L: Ledger + Send + Sync>(
    rt: R,
    alloc: Global,
    blank: Blank,
) -> Result<(), AllocError>
    requires name { blank.name ≡ L.name }
    requires parts { (blank.parts ≡ L.parts) × (blank.parts ≡ 2) }
{
    let machine = InTurn {
        counts: Vec::new(alloc),
    };
    let Ok((hub, mut passes)) = MutexHub::<R, InTurn, L>::open(rt, alloc, blank, machine, 2) else {
        return Err(AllocError);
    };
    let (Some(second), Some(mut first)) = (passes.pop(), passes.pop()) else {
        return Err(AllocError);
    };
    assert_eq!(rt; hub.turn(&mut first, Ask::Refuse), Err(Ask::Refuse));
    let (waits, shared) = (&rt, &hub);
    let (first, second) = join(
        &rt,
        move || play(waits, shared, first),
        move || play(waits, shared, second),
    );
    assert!(rt; first.lane() == Lane(0) && second.lane() == Lane(1));
    let (machine, turns) = hub.settle(vec![in alloc; first, second]?);
    // The refused turn is counted, and so is each that came before the lane's own.
    assert!(rt; turns > 2 * EACH);
    assert_eq!(rt; machine.count(), 2 * EACH);
    Ok(())
}

#[test]
fn two_lanes_count_in_turn(rt: HostRuntime) -> Result<(), Fail> {
    game::<HostRuntime, Brand>(rt, rt.alloc(), Blank::new(2))?;
    Ok(())
}

// The machine that a hub gives back, whatever the hub.
fn machine_of<M: Machine, H: Hub<M> + Drop>(hub: H, passes: Vec<H::Pass>) -> Option<M>
where
    H::Pass: Drop,
    requires passes { All (H.has hub) passes.items }
    requires all { map H.lane passes.items ≡ upto 0 (H.lanes hub) }
{
    match hub.close(passes) {
        Ok(machine) => Some(machine),
        Err(_refused) => None,
    }
}

// The count of a hub's machine, where the hub is closed as soon as it is open.
fn closed<R: Wait + Drop, L: Ledger>(rt: R, alloc: Global, blank: Blank, lanes: u8) -> Option<u64>
    requires name { blank.name ≡ L.name }
    requires parts { (blank.parts ≡ L.parts) × (blank.parts ≡ lanes) }
{
    let machine = InTurn {
        counts: Vec::new(alloc),
    };
    let Ok((hub, passes)) = MutexHub::<R, InTurn, L>::open(rt, alloc, blank, machine, lanes) else {
        return None;
    };
    let machine = machine_of(hub, passes)?;
    Some(machine.count())
}

#[test]
fn a_hub_is_closed(rt: HostRuntime) {
    assert_eq!(rt;
        closed::<HostRuntime, Brand>(rt, rt.alloc(), Blank::new(3), 3),
        Some(0)
    );
}
