//! A receiver's end beside the plain one: each step is done by both, and compared.
ghost use Rattle.std.specs.Prelude.{◌≡◌, ◌<◌, ◌≤◌, length, IfOk};
ghost use Rattle.wdt_plain_receiver.specs.declared.lanes.TheConstants.{LANES as THREE};
ghost use Rattle.wdt_receiver_fsm.specs.Turn.{Given};
ghost use Rattle.wdt_receiver_fsm.specs.Writes.{FitsPut};

use crate::comparing::{compare, compare_acts};
use crate::dice::Dice;
use crate::halt::{Halt, Part, agree};
use std::alloc::Global;
use wdt_depot::MemDepot;
use wdt_dock::{Dock, FlushFail};
use wdt_plain_receiver::{Answer, Plain, PlainAct, tree};
use wdt_receiver_fsm::RecvIn;
use wdt_units::{Lane, NoMemory};

/// A receiver's end and the plain one, each of three lanes.
#[derive(Drop)]
pub struct Ends {
    pub dock: Dock<MemDepot>,
    pub plain: Plain,
    ghost lanes: { length dock.plain.lanes ≡ THREE },
}

impl Ends {
    /// Both ends behind the opening of their logs.
    pub fn of(dock: Dock<MemDepot>, plain: Plain) -> Result<Ends, Halt>
        requires { length dock.plain.lanes ≡ THREE }
    {
        compare(&dock, &plain)?;
        Ok(Ends { dock, plain })
    }

    /// A step of a lane with an input.
    pub fn hand_in(&mut self, lane: Lane, put: RecvIn) -> Result<PlainAct, Halt>
        requires lane { lane.0 < THREE }
        requires fits { FitsPut (Given put) }
    {
        let told = self.plain.step(lane, &put)?;
        let Ok(act) = self.dock.step(lane, put) else {
            return Err(Halt::NoMemory);
        };
        compare_acts(&act, told, &self.plain)?;
        compare(&self.dock, &self.plain)?;
        Ok(told)
    }

    /// A step of a lane with bytes of its block, where it takes some: as many as the dice say.
    pub fn take(&mut self, alloc: Global, dice: &mut Dice, lane: Lane) -> Result<PlainAct, Halt>
        requires { lane.0 < THREE }
    {
        let (Some((_, _, count)), Some((file, place, _))) = (
            self.dock.wants(lane),
            self.plain.wants(lane),
        ) else {
            return Err(Halt::Differs(Part::Wanted));
        };
        if count == 0 {
            return Err(Halt::Differs(Part::Wanted));
        }
        let bytes = piece_of(alloc, dice, file, place, count)?;
        let told = self.plain.take(lane, &bytes)?;
        let act = self.dock.piece(lane, &bytes)?;
        compare_acts(&act, told, &self.plain)?;
        compare(&self.dock, &self.plain)?;
        Ok(told)
    }

    /// All that landed is logged.
    pub fn flush(&mut self) -> Result<(), Halt> {
        let told = flush_plain(&mut self.plain)?;
        let found = self.dock.flush();
        match (told, found) {
            (_, Err(FlushFail::NoMemory)) => return Err(Halt::NoMemory),
            (Ok(()), Ok(())) => {}
            (Err(told), Err(found)) => agree(told == found, Part::Flush)?,
            _ => return Err(Halt::Differs(Part::Flush)),
        }
        compare(&self.dock, &self.plain)
    }
}

// Some of a lane's bytes: 1 to so many.
fn piece_of(
    alloc: Global,
    dice: &mut Dice,
    file: usize,
    place: u64,
    most: u32,
) -> Result<Vec<u8>, NoMemory>
    requires { 0 < most }
    ensures some { IfOk result (λ bytes. 0 < length bytes.items) }
    ensures within { IfOk result (λ bytes. length bytes.items ≤ most) }
{
    let count = if dice.is_one_in(2) {
        most
    } else {
        dice.below(u64::from(most)) as u32 + 1
    };
    tree::bytes_of(alloc, file, place, count)
}

// The plain end's flush: its disk fails over any other answer.
fn flush_plain(plain: &mut Plain) -> Result<Result<(), FlushFail>, NoMemory> {
    if plain.answer == Answer::Disk {
        return Ok(Err(FlushFail::Shut));
    }
    if plain.flush()? {
        return Ok(Ok(()));
    }
    plain.answer = Answer::Disk;
    Ok(Err(FlushFail::Disk))
}
