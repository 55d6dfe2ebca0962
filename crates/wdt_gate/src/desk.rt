//! What lies under the lock.
ghost use Rattle.std.specs.Prelude.{◌≡◌, ◌+◌, length, IfOk, IfErr};
ghost use Rattle.wdt_units.specs.Counts.{capped};
ghost use Rattle.wdt_gate.specs.Passes.{LanePass, turns_of};
ghost use Rattle.wdt_gate.specs.Desks.{IsTurn};

use crate::pass::MutexPass;
use std::marker::Model;
use std::sync::ledger::{Book, Ledger, Share};
use wdt_units::{Lane, Machine};

/// A machine, and beside it the book of its turns.
///
/// The book's total is the sum of the passes' shares, and `turns` is that total as a number of 64
/// bits. `rest` is the share of no pass, which is nothing.
#[derive(Drop)]
pub(crate) struct Desk<M: Machine, L: Ledger> {
    pub(crate) machine: M,
    pub(crate) turns: u64,
    pub(crate) book: Book<L>,
    pub(crate) rest: Share<L>,
}

impl<M: Machine, L: Ledger> Model for Desk<M, L> {
    ghost use Rattle.std.specs.Prelude.{◌≡◌};
    ghost use Rattle.wdt_units.specs.Counts.{capped};
    ghost use Rattle.wdt_units.specs.Lanes.{AtLeast};
    ghost use Rattle.wdt_gate.specs.Desks.{DeskView};

    ghost Value = { DeskView M };

    ghost view = { λ d. record { machine = d.machine; turns = d.book.total } };

    ghost invariant = { λ d. AtLeast (M.lanes d.machine) L.parts × (d.turns ≡ capped d.book.total) × (d.rest.parts ≡ 0) × (d.rest.amount ≡ 0) };
}

impl<M: Machine, L: Ledger> Desk<M, L> {
    /// One turn of the pass's lane, which is counted also where memory was wanted. The pass has then
    /// seen the machine's count behind the turn.
    pub(crate) fn turn(&mut self, pass: &mut MutexPass<L>, put: M::Put) -> Result<M::Act, M::Put>
        requires { M.fits put }
        ensures ok { IfOk result (λ act. IsTurn M.history M.lane_of M.stand M.turned pass.old.lane put act self.old.machine self.new.machine) }
        ensures err { IfErr result (λ back. (back ≡ put) × (M.history self.new.machine ≡ M.history self.old.machine)) }
        ensures legal { M.legal (M.history self.new.machine) }
        ensures counted { self.new.turns ≡ self.old.turns + 1 }
        ensures pass { pass.new ≡ record { lane = pass.old.lane; seen = M.counted self.new.machine; turns = pass.old.turns + 1 } }
    {
        let result = self.machine.turn(Lane(pass.lane), put);
        self.book.add(&mut pass.share, 1);
        self.turns = self.turns.saturating_add(1);
        pass.seen = self.machine.count();
        result
    }

    /// The machine's count.
    pub(crate) fn count(&self) -> u64
        ensures count { result ≡ M.counted self.now.machine }
        ensures legal { M.legal (M.history self.now.machine) }
    {
        self.machine.count()
    }

    /// The machine, and how many turns were counted, once all passes have come back.
    pub(crate) fn settle(self, passes: Vec<MutexPass<L>>) -> (M, u64)
        requires { length passes.items ≡ L.parts }
        ensures machine { result.0 ≡ self.machine }
        ensures legal { M.legal (M.history result.0) }
        ensures turns { result.1 ≡ capped (turns_of passes.items) }
    {
        let Desk {
            machine,
            turns,
            mut book,
            rest: mut all,
        } = self;
        for pass in passes {
            let MutexPass { share, .. } = pass;
            all.merge(share);
        }
        book.audit(&mut all);
        let _ = machine.count();
        (machine, turns)
    }
}
