//! A transfer: ends over one depot, one after the other, until one is done.
ghost use Rattle.std.specs.Prelude.{◌<◌, ◌≤◌};
ghost use Rattle.wdt_plain_receiver.specs.declared.lanes.TheConstants.{LANES as THREE};

use crate::counts::{Counts, count};
use crate::depots::{Disks, Leaving, Opened, close};
use crate::dice::Dice;
use crate::ends::Ends;
use crate::halt::{Halt, Part, agree};
use crate::sender::answer_of;
use crate::strays::stray;
use std::alloc::Global;
use wdt_plain_receiver::{Answer, LANES, PlainAct};
use wdt_receiver_fsm::{RecvIn, RecvState};
use wdt_units::Lane;

/// How many ends a transfer has at most.
const ENDS: u32 = 5;

/// How many steps an end has at most.
const STEPS: u32 = 240;

/// How often something goes wrong with one end: once in so many steps, never for 0.
#[derive(Clone, Copy, Debug)]
struct Weather {
    cuts: u64,
    strays: u64,
    flushes: u64,
    kills: u64,
}

/// Runs a transfer, and counts what happens.
pub fn run(alloc: Global, dice: &mut Dice, counts: &mut Counts) -> Result<(), Halt> {
    count(&mut counts.sessions);
    let mut disks = Disks::empty(alloc, [fail_of(dice), fail_of(dice)])?;
    for number in 0..ENDS {
        if number > 0 {
            count(&mut counts.reopenings);
        }
        disks = match open(alloc, dice, disks)? {
            Opened::Failed(disks) => left(alloc, counts, disks)?,
            Opened::Begun(mut ends) => {
                drive(alloc, dice, counts, &mut ends)?;
                let is_done = ends.plain.is_done();
                let disks = end(alloc, dice, counts, ends)?;
                if is_done {
                    agree(disks.has_tree(alloc)?, Part::Bytes)?;
                    count(&mut counts.done);
                    return Ok(());
                }
                disks
            }
        };
    }
    Ok(())
}

// The number of a call that fails by itself, mostly of none.
fn fail_of(dice: &mut Dice) -> u32 {
    if dice.is_one_in(4) {
        dice.below(60) as u32
    } else {
        0
    }
}

// The next ends are opened, and in some of them the machine will go down.
fn open(alloc: Global, dice: &mut Dice, mut disks: Disks) -> Result<Opened, Halt> {
    if dice.is_one_in(3) {
        let pick = match dice.below(4) {
            3 => 255,
            pick => pick,
        };
        disks.arm(dice.below(40) as u32 + 1, pick);
    }
    let batch = match dice.below(4) {
        0 => 1,
        1 => 4,
        2 => 16,
        _ => 1024,
    };
    disks.open(alloc, batch)
}

// An opening that failed is left.
fn left(alloc: Global, counts: &mut Counts, disks: Disks) -> Result<Disks, Halt> {
    if disks.is_down() {
        count(&mut counts.stops);
        disks.leave(alloc, Leaving::Machine)
    } else {
        count(&mut counts.failed);
        disks.leave(alloc, Leaving::Program)
    }
}

// The ends are left.
fn end(alloc: Global, dice: &mut Dice, counts: &mut Counts, ends: Ends) -> Result<Disks, Halt> {
    let is_down = ends.plain.disk.is_down();
    if is_down {
        count(&mut counts.stops);
    } else if ends.plain.answer == Answer::Disk {
        count(&mut counts.failed);
    }
    let leaving = if is_down || dice.is_one_in(3) {
        Leaving::Machine
    } else {
        Leaving::Program
    };
    close(ends, alloc, leaving)
}

// ---- the steps of an end

// Steps of lanes, until each has ended or the end is left before.
fn drive(alloc: Global, dice: &mut Dice, counts: &mut Counts, ends: &mut Ends) -> Result<(), Halt> {
    let weather = Weather {
        cuts: cuts_of(dice),
        strays: if dice.is_one_in(3) { 40 } else { 0 },
        flushes: 20 + dice.below(60),
        kills: if dice.is_one_in(2) { 60 } else { 0 },
    };
    let mut acts = [None; LANES as usize];
    for _ in 0..STEPS {
        let is_left = ends.plain.is_over() || comes(dice, weather.kills);
        if is_left || (ends.plain.disk.is_down() && dice.is_one_in(6)) {
            return Ok(());
        }
        step(alloc, dice, counts, ends, weather, &mut acts)?;
    }
    Ok(())
}

// How often a connection is cut: in some ends so often that lanes are given up.
fn cuts_of(dice: &mut Dice) -> u64 {
    match dice.below(5) {
        0 => 3,
        1 => 10,
        2 => 0,
        _ => 30 + dice.below(90),
    }
}

// Whether what comes once in so many times comes, never for 0.
fn comes(dice: &mut Dice, count: u64) -> bool {
    count > 0 && dice.is_one_in(count)
}

// One step of some lane, or a flush.
fn step(
    alloc: Global,
    dice: &mut Dice,
    counts: &mut Counts,
    ends: &mut Ends,
    weather: Weather,
    acts: &mut [Option<PlainAct>; LANES as usize],
) -> Result<(), Halt> {
    count(&mut counts.steps);
    if comes(dice, weather.flushes) {
        return ends.flush();
    }
    let lane = Lane(dice.below(LANES as u64) as u8);
    let act = acts[lane.0 as usize];
    let is_odd = comes(dice, weather.strays);
    let is_cut = comes(dice, weather.cuts);
    if !is_odd && !is_cut && matches!(act, Some(PlainAct::TakePiece(_))) {
        acts[lane.0 as usize] = Some(ends.take(alloc, dice, lane)?);
        return Ok(());
    }
    let put = if is_cut {
        RecvIn::Lost
    } else if is_odd {
        stray(alloc, dice, &ends.plain, lane)?
    } else {
        answer_of(alloc, dice, &ends.plain, lane, act)?
    };
    if matches!(put, RecvIn::Lost) {
        count(&mut counts.cuts);
    }
    let next = ends.hand_in(lane, put)?;
    // Behind what doesn't belong to its state a lane stands as before.
    let is_stray = next == PlainAct::Stop && ends.plain.lane(lane).state != RecvState::Ended;
    if !is_stray {
        acts[lane.0 as usize] = Some(next);
    }
    Ok(())
}
