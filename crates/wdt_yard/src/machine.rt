//! The yard as state that lanes share.
ghost use Rattle.std.specs.Prelude.{◌≡◌, ◌≢◌, ℕ, ◌+◌, ◌≤◌, List, ◌++◌, length, Some, IfOk, IfErr};
ghost use Rattle.wdt_units.specs.Lanes.{few_loose, AllOf, Below};
ghost use Rattle.wdt_sender_fsm.specs.PlainSender.{lane_at};
ghost use Rattle.wdt_sender_fsm.specs.Sender.{FitsIn, IsSender};
ghost use Rattle.wdt_sender_fsm.specs.SenderHistory.{lane_of};
ghost use Rattle.wdt_sender_fsm.specs.Turn.{send_turn};
ghost use Rattle.wdt_sender_fsm.specs.Writes.{FitsAct, IsLawful};
ghost use Rattle.wdt_sender_fsm.specs.declared.events.SendEvent.{SendEvent as PlainEvent};
ghost use Rattle.wdt_yard.specs.Turns.{IsLegalOfSome, IsTurn, count_of};

use crate::yard::Yard;
use wdt_sender_fsm::{
    SendAct, SendEvent, SendIn, SendLane, steps_answer_rightly, steps_touch_their_lane,
};
use wdt_units::{Lane, Machine};

impl Machine for Yard {
    type Put = SendIn;

    type Act = SendAct;

    type Entry = SendEvent;

    type Stand = SendLane;

    ghost fits = { FitsIn };

    ghost lanes = { λ y. Some (length y.lanes) };

    ghost history = { λ y. y.history };

    ghost lane_of = { λ e. Some (lane_of e) };

    ghost stand = { lane_at };

    ghost legal = { IsLegalOfSome };

    ghost turned = { λ lane put h before act more after. IsTurn lane put h before act more after };

    ghost counted = { count_of };

    /// One step of a lane, as `Yard::step` makes it. The clauses from `step` on say of this machine
    /// what the trait can't: which step it is, that want of memory changes nothing at all, that its act
    /// can be performed, and that the end is and stays a sender's within the limits.
    fn turn(&mut self, lane: Lane, put: SendIn) -> Result<SendAct, SendIn>
        requires lane { Below (Some (length self.old.lanes)) lane.0 }
        requires fits { FitsIn put }
        ensures ok { IfOk result (λ act. (more : List PlainEvent) × (self.new.history ≡ self.old.history ++ more) × AllOf (λ e. Some (lane_of e)) lane.0 more × (count_of self.old + length more ≤ count_of self.new) × IsTurn lane.0 put self.old.history (lane_at self.old lane.0) act more (lane_at self.new lane.0)) }
        ensures err { IfErr result (λ back. (back ≡ put) × (self.new.history ≡ self.old.history) × (lane_at self.new lane.0 ≡ lane_at self.old lane.0) × (count_of self.new ≡ count_of self.old)) }
        ensures others { (other : ℕ) → other ≢ lane.0 → lane_at self.new other ≡ lane_at self.old other }
        ensures lanes { Some (length self.new.lanes) ≡ Some (length self.old.lanes) }
        ensures legal { IsLegalOfSome self.new.history }
        ensures step { IfOk result (λ act. send_turn self.old lane put ≡ (act, self.new)) }
        ensures back { IfErr result (λ back. (back ≡ put) × (self.new ≡ self.old)) }
        ensures act { IfOk result (λ act. FitsAct self.old.manifest act) }
        ensures was { IsSender self.old }
        ensures lawful { IsSender self.new }
        ensures limits { IsLawful self.new }
    {
        // The laws: what a step leaves as it is, and that a failed end's answer stays.
        steps_touch_their_lane();
        steps_answer_rightly();
        self.step(lane, put)
    }

    fn count(&self) -> u64 {
        self.history().len() as u64 + u64::from(self.answer().is_failure())
    }

    ghost one_loose = { λ h legal. few_loose lane_of h };
}
