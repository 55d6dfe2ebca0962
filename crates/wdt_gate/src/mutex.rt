//! A hub over a lock.
ghost use Rattle.std.specs.Prelude.{◌≡◌, ◌≢◌, ◌+◌, ◌≤◌, ℕ, List, [], map, None, IfOk, IfErr, IsOk, All};
ghost use Rattle.wdt_units.specs.Counts.{capped};
ghost use Rattle.wdt_units.specs.Lanes.{AtLeast, loose};
ghost use Rattle.wdt_gate.specs.Told.{upto};
ghost use Rattle.wdt_gate.specs.Passes.{LanePass, IsFresh, turns_of};
ghost use Rattle.wdt_gate.specs.Desks.{HasMoved, WasSeen};

use crate::desk::Desk;
use crate::hub::{Hub, Unclosed};
use crate::pass::MutexPass;
use std::alloc::{AllocError, Global};
use std::sync::ledger::{Blank, Ledger, Share};
use std::sync::{Condvar, Mutex, Wait};
use wdt_units::Machine;

/// A machine under a lock.
///
/// Its passes are those of the same ledger. Each turn is made and counted under the lock, and wakes
/// the lanes that wait.
#[derive(Drop)]
pub struct MutexHub<R: Wait + Drop, M: Machine, L: Ledger> {
    rt: R,
    desk: Mutex<Desk<M, L>>,
    moved: Condvar,
}

impl<R: Wait + Drop, M: Machine, L: Ledger> MutexHub<R, M, L> {
    /// A hub for a machine with an empty history, and the pass of each lane, rising from 0.
    ///
    /// The blank has a part for each lane. A machine that knows its lanes has at least so many. `Err`
    /// is want of memory, and hands the machine and the runtime back.
    pub fn open(
        rt: R,
        alloc: Global,
        blank: Blank,
        machine: M,
        lanes: u8,
    ) -> Result<(MutexHub<R, M, L>, Vec<MutexPass<L>>), (M, R)>
        requires name { blank.name ≡ L.name }
        requires parts { (blank.parts ≡ L.parts) × (blank.parts ≡ lanes) }
        requires lanes { AtLeast (M.lanes machine) lanes }
        requires empty { M.history machine ≡ [] }
        ensures lanes { IfOk result (λ made. map (λ p. p.lane) made.1.items ≡ upto 0 L.parts) }
        ensures fresh { IfOk result (λ made. All (IsFresh (M.counted machine)) made.1.items) }
        ensures err { IfErr result (λ back. back ≡ (machine, rt)) }
    {
        let (book, mut rest) = blank.open::<L>();
        let Ok(passes) = passes_of(alloc, &mut rest, lanes, machine.count()) else {
            return Err((machine, rt));
        };
        let desk = Desk {
            machine,
            turns: 0,
            book,
            rest,
        };
        Ok((
            MutexHub {
                rt,
                desk: Mutex::new(desk),
                moved: Condvar::new(),
            },
            passes,
        ))
    }

    /// The machine, and how many turns were made, once the passes of all lanes have come back, in the
    /// order of the lanes. The number is the sum over the passes, or 2^64 less 1 where that is less.
    pub fn settle(self, passes: Vec<MutexPass<L>>) -> (M, u64)
        requires { map (λ p. p.lane) passes.items ≡ upto 0 L.parts }
        ensures legal { M.legal (M.history result.0) }
        ensures turns { result.1 ≡ capped (turns_of passes.items) }
    {
        let MutexHub { desk, .. } = self;
        desk.into_inner().settle(passes)
    }
}

// A pass for each lane, with one part of the share.
fn passes_of<L: Ledger>(
    alloc: Global,
    rest: &mut Share<L>,
    lanes: u8,
    seen: u64,
) -> Result<Vec<MutexPass<L>>, AllocError>
    requires { (rest.old.parts ≡ lanes) × (lanes ≡ L.parts) × (rest.old.amount ≡ 0) }
    ensures rest { IfOk result (λ v. (rest.new.parts ≡ 0) × (rest.new.amount ≡ 0)) }
    ensures lanes { IfOk result (λ v. map (λ p. p.lane) v.items ≡ upto 0 lanes) }
    ensures fresh { IfOk result (λ v. All (IsFresh seen) v.items) }
{
    let mut passes = Vec::new(alloc);
    for lane in 0..lanes {
        let share = rest.split_off(1, 0);
        passes.push(MutexPass { lane, seen, share })?;
    }
    Ok(passes)
}

impl<R: Wait + Drop, M: Machine, L: Ledger> Hub<M> for MutexHub<R, M, L> {
    ghost use Rattle.std.specs.Prelude.{◌≡◌, None, false};

    type Pass = MutexPass<L>;

    ghost lanes = { λ h. L.parts };

    ghost has = { λ h p. Unit {0} };

    ghost lane = { λ p. p.lane };

    ghost seen = { λ p. p.seen };

    ghost tells = { false };

    ghost told = { λ p. None };

    /// One turn of the pass's lane. Beside what every hub promises, an answer is the machine's at some
    /// moment of a legal history, the pass has seen the machine's count behind the turn, and the turn
    /// is counted, also where memory was wanted.
    fn turn(&self, pass: &mut MutexPass<L>, put: M::Put) -> Result<M::Act, M::Put>
        requires fits { M.fits put }
        ensures lane { pass.new.lane ≡ pass.old.lane }
        ensures err { IfErr result (λ back. back ≡ put) }
        ensures moved { IfOk result (λ act. HasMoved M.history M.lane_of M.stand M.legal M.counted M.turned pass.old.lane put act pass.new.seen) }
        ensures seen { WasSeen M.history M.legal M.counted pass.new.seen }
        ensures counted { pass.new.turns ≡ pass.old.turns + 1 }
    {
        let result = self.desk.lock(&self.rt).turn(pass, put);
        self.moved.notify_all();
        result
    }

    /// Waits until the machine's count isn't the one that the pass saw last. The pass has then seen
    /// the count that ended the wait, and as many of its turns are counted as before.
    fn wait_for_more(&self, pass: &mut MutexPass<L>)
        ensures lane { pass.new.lane ≡ pass.old.lane }
        ensures more { pass.new.seen ≢ pass.old.seen }
        ensures seen { WasSeen M.history M.legal M.counted pass.new.seen }
        ensures counted { pass.new.turns ≡ pass.old.turns }
    {
        let seen = pass.seen;
        let desk = self
            .moved
            .wait_while(&self.rt, self.desk.lock(&self.rt), |desk| {
                desk.count() == seen
            });
        pass.seen = desk.count();
    }

    /// The machine, once the passes of all lanes have come back. It takes no memory, so it is never
    /// refused.
    fn close(self, passes: Vec<MutexPass<L>>) -> Result<M, Unclosed<Self, MutexPass<L>>>
        requires all { map (λ p. p.lane) passes.items ≡ upto 0 L.parts }
        ensures legal { IfOk result (λ machine. M.legal (M.history machine)) }
        ensures loose { IfOk result (λ machine. loose M.lane_of (M.history machine) ≤ 1) }
        ensures err { IfErr result (λ back. (back.hub ≡ self) × (back.passes.items ≡ passes.items)) }
        ensures always { IsOk result }
    {
        let (machine, _turns) = self.settle(passes);
        Ok(machine)
    }
}
