//! The steps of a receiver's end with its files.
ghost use Rattle.std.specs.Prelude.{◌≡◌, ◌↔◌, ◌<◌, ◌≤◌, [], List, length, true, IfErr, IfOk, OnErr};
ghost use Rattle.wdt_units.specs.declared.limits.TheConstants.{PIECE};
ghost use Rattle.wdt_units.specs.Tree.{File};
ghost use Rattle.wdt_depot.specs.Moments.{IfTold};
ghost use Rattle.wdt_depot.specs.State.{Counts};
ghost use Rattle.wdt_good.specs.Logged.{GoodSince};
ghost use Rattle.wdt_sender_fsm.specs.Rules.{is_failure};
ghost use Rattle.wdt_receiver_fsm.specs.Acts.{IsActOf};
ghost use Rattle.wdt_receiver_fsm.specs.Batched.{IsBatched};
ghost use Rattle.wdt_receiver_fsm.specs.Causes.{Follows};
ghost use Rattle.wdt_receiver_fsm.specs.Logging.{log_after};
ghost use Rattle.wdt_receiver_fsm.specs.Outcomes.{Comes};
ghost use Rattle.wdt_receiver_fsm.specs.PlainReceiver.{lane_at, state_at};
ghost use Rattle.wdt_receiver_fsm.specs.Receiver.{IsReceiver};
ghost use Rattle.wdt_receiver_fsm.specs.Stops.{Parks, is_stop, is_through, stops};
ghost use Rattle.wdt_receiver_fsm.specs.Touches.{StaysThere};
ghost use Rattle.wdt_receiver_fsm.specs.Turn.{Bytes, Given, recv_plan, take_plan};
ghost use Rattle.wdt_receiver_fsm.specs.Writes.{FitsPut};
ghost use Rattle.wdt_dock.specs.DockGood.{DockGood, IsGoodFor, PutOf};
ghost use Rattle.wdt_dock.specs.DockView.{LosesDisk, TurnRan, Turns};
ghost use Rattle.wdt_dock.specs.Sparing.{Between, IsOther, LeavesCovered, LeavesOthers};

use crate::dock::Dock;
use crate::turning::{turn, turn_piece};
use wdt_depot::Depot;
use wdt_receiver_fsm::{
    RecvAct, RecvIn, RecvState, acts_follow_from_lanes, batches_add_up, failures_have_causes,
    receivers_stay_receivers, steps_have_outcomes, steps_touch_their_lane,
};
use wdt_units::{Lane, NoMemory};

impl<D: Depot + Drop> Dock<D> {
    /// A step of a lane with an input, which is in the ranges of the grammar: the act and the end behind it
    /// are the definition's, whatever the disk does. `Err` is want of memory: it hands the input back, and
    /// the end is as it was; calls on the disk that were made may stand.
    ///
    /// On an end that has failed no call is made. The disk is lost only where the depot counted a fault.
    pub fn step(&mut self, lane: Lane, put: RecvIn) -> Result<RecvAct, RecvIn>
        requires lane { lane.0 < length self.old.plain.lanes }
        requires fits { FitsPut (Given put) }

        ensures turns { Turns (recv_plan self.old.plain lane put) result self.new.plain (D.state self.old.depot) (D.state self.new.depot) }
        ensures exact { TurnRan (recv_plan self.old.plain lane put) result self.new.plain (D.state self.old.depot) (D.state self.new.depot) }
        ensures err { IfErr result (λ back. (back ≡ put) × (self.new.plain ≡ self.old.plain)) }
        ensures lanes { length self.new.plain.lanes ≡ length self.old.plain.lanes }
        ensures was { IsReceiver self.old.plain }
        ensures lawful { IsReceiver self.new.plain }
        ensures batched { IsBatched self.new.plain }
        ensures comes { IfOk result (λ act. Comes self.old.plain lane (Given put) (act, self.new.plain)) }
        ensures acts { IfOk result (λ act. IsActOf self.old.plain lane (act, self.new.plain)) }
        ensures follows { IfOk result (λ _. Follows self.old.plain lane (Given put) self.new.plain) }

        // Why the lane does nothing more, and why it waits.
        ensures stops { IfOk result (λ act. is_stop act ≡ stops (state_at self.old.plain lane.0) (Given put) (is_through self.new.plain lane.0) (is_failure self.new.plain.answer)) }
        ensures parks { IfOk result (λ act. (act ≡ RecvAct.Park) ↔ Parks self.old.plain lane (Given put)) }

        // At each moment, inside each call too, each image is good for the tree and for what was logged
        // before; and behind it the end and its disk are good for the tree.
        ensures images { (T : List File) → IsGoodFor T self.old.plain (D.state self.old.depot) → GoodSince T [] (D.state self.old.depot).told (D.state self.new.depot).told }
        ensures good { (T : List File) → PutOf T self.old.plain lane (Given put) → IsGoodFor T self.old.plain (D.state self.old.depot) →
            IsGoodFor T self.new.plain (D.state self.new.depot) }

        // What else is read stays as it is. Each position that is covered stays so, with its byte.
        ensures others { Between (LeavesOthers (IsOther self.old.plain.known (Given put))) (D.state self.old.depot).told (D.state self.new.depot).told }
        ensures covered { Between (LeavesCovered (log_after self.old.plain).files) (D.state self.old.depot).told (D.state self.new.depot).told }
        ensures stays { StaysThere self.old.plain self.new.plain }

        ensures untouched { is_failure self.old.plain.answer ≡ true → D.state self.new.depot ≡ D.state self.old.depot }
        ensures spots { (D.state self.new.depot).spots ≡ [] }
        ensures counts { Counts (LosesDisk self.old.plain.answer self.new.plain.answer) (D.state self.old.depot) (D.state self.new.depot) }
        ensures slips { (T : List File) → IfTold (λ t. DockGood T self.old.plain t.now → (D.state self.new.depot).slips ≡ (D.state self.old.depot).slips) (D.state self.old.depot).told }
    {
        // The laws: the end stays a receiver's with as many lanes, what landed adds up, what a step comes to,
        // and why an end fails.
        receivers_stay_receivers();
        batches_add_up();
        steps_have_outcomes();
        acts_follow_from_lanes();
        steps_touch_their_lane();
        failures_have_causes();
        let act = match turn(
            self.alloc,
            &mut self.depot,
            &mut self.log,
            &mut self.writer,
            &mut self.end,
            lane,
            &put,
        ) {
            Ok(act) => act,
            Err(NoMemory) => return Err(put),
        };
        Ok(act)
    }

    /// A step of a lane that takes a block, with bytes of it: 1 to 65,536 bytes, and no more than are left.
    /// The act and the end behind it are the definition's, whatever the disk does. After `NoMemory` the end
    /// is as it was: the same bytes are to come again.
    pub fn piece(&mut self, lane: Lane, bytes: &[u8]) -> Result<RecvAct, NoMemory>
        requires lane { lane.0 < length self.old.plain.lanes }
        requires takes { state_at self.old.plain lane.0 ≡ RecvState.TakeBlock }
        requires some { 0 < length bytes.now }
        requires piece { length bytes.now ≤ PIECE }
        requires within { length bytes.now ≤ (lane_at self.old.plain lane.0).left }

        ensures turns { Turns (take_plan self.old.plain lane bytes.now) result self.new.plain (D.state self.old.depot) (D.state self.new.depot) }
        ensures exact { TurnRan (take_plan self.old.plain lane bytes.now) result self.new.plain (D.state self.old.depot) (D.state self.new.depot) }
        ensures memory { OnErr result (self.new.plain ≡ self.old.plain) }
        ensures lanes { length self.new.plain.lanes ≡ length self.old.plain.lanes }
        ensures was { IsReceiver self.old.plain }
        ensures lawful { IsReceiver self.new.plain }
        ensures batched { IsBatched self.new.plain }
        ensures comes { IfOk result (λ act. Comes self.old.plain lane (Bytes bytes.now) (act, self.new.plain)) }
        ensures acts { IfOk result (λ act. IsActOf self.old.plain lane (act, self.new.plain)) }
        ensures follows { IfOk result (λ _. Follows self.old.plain lane (Bytes bytes.now) self.new.plain) }
        ensures stops { IfOk result (λ act. is_stop act ≡ stops (state_at self.old.plain lane.0) (Bytes bytes.now) (is_through self.new.plain lane.0) (is_failure self.new.plain.answer)) }

        // Bytes that are the tree's: other bytes of a block that lands here would be logged.
        ensures images { (T : List File) → PutOf T self.old.plain lane (Bytes bytes.now) → IsGoodFor T self.old.plain (D.state self.old.depot) →
            GoodSince T [] (D.state self.old.depot).told (D.state self.new.depot).told }
        ensures good { (T : List File) → PutOf T self.old.plain lane (Bytes bytes.now) → IsGoodFor T self.old.plain (D.state self.old.depot) →
            IsGoodFor T self.new.plain (D.state self.new.depot) }

        // What else is read stays as it is. Each position that is covered stays so, with its byte.
        ensures others { Between (LeavesOthers (IsOther self.old.plain.known (Bytes bytes.now))) (D.state self.old.depot).told (D.state self.new.depot).told }
        ensures covered { Between (LeavesCovered (log_after self.old.plain).files) (D.state self.old.depot).told (D.state self.new.depot).told }
        ensures stays { StaysThere self.old.plain self.new.plain }

        ensures untouched { is_failure self.old.plain.answer ≡ true → D.state self.new.depot ≡ D.state self.old.depot }
        ensures spots { (D.state self.new.depot).spots ≡ [] }
        ensures counts { Counts (LosesDisk self.old.plain.answer self.new.plain.answer) (D.state self.old.depot) (D.state self.new.depot) }
        ensures slips { (T : List File) → IfTold (λ t. DockGood T self.old.plain t.now → (D.state self.new.depot).slips ≡ (D.state self.old.depot).slips) (D.state self.old.depot).told }
    {
        // The laws: the end stays a receiver's with as many lanes, what landed adds up, what a step comes to,
        // and why an end fails.
        receivers_stay_receivers();
        batches_add_up();
        steps_have_outcomes();
        acts_follow_from_lanes();
        steps_touch_their_lane();
        failures_have_causes();
        turn_piece(
            self.alloc,
            &mut self.depot,
            &mut self.log,
            &mut self.writer,
            &mut self.end,
            lane,
            bytes,
        )
    }
}
