//! A receiver's end that is of its run.
ghost use Rattle.std.specs.Prelude.{◌≡◌, ◌≢◌, ℕ, ◌+◌, ◌≤◌, List, ◌++◌, length, None, Some, IfErr, IfOk};
ghost use Rattle.wdt_units.specs.Lanes.{AllOf, Below};
ghost use Rattle.wdt_receiver_fsm.specs.declared.events.RecvEvent.{RecvEvent as PlainEvent};
ghost use Rattle.wdt_receiver_fsm.specs.Plan.{EndsIn};
ghost use Rattle.wdt_receiver_fsm.specs.PlainReceiver.{lane_at};
ghost use Rattle.wdt_receiver_fsm.specs.ReceiverHistory.{lane_of};
ghost use Rattle.wdt_receiver_fsm.specs.Turn.{turn_plan};
ghost use Rattle.wdt_recv_lanes.specs.Acts.{IsActSaid};
ghost use Rattle.wdt_recv_lanes.specs.Kept.{IsKept, Started};
ghost use Rattle.wdt_recv_lanes.specs.Loose.{few_loose};
ghost use Rattle.wdt_recv_lanes.specs.Turns.{IsLegalOfSome, IsTurn, count_of, put_of};

use crate::heard::Heard;
use crate::said_recv::SaidRecv;
use crate::turning::hear;
use std::marker::{Brand, Model, PhantomData};
use wdt_depot::Depot;
use wdt_dock::Dock;
use wdt_receiver_fsm::{RecvAct, RecvEvent, RecvLane};
use wdt_tree::Run;
use wdt_units::{Lane, Machine};

/// What a depot was as it was handed in. Contracts see it, and no code computes it. A type parameter
/// `J: Start` lets an end say what it kept of its depot since then.
pub trait Start {
    ghost started: { Started };
}

/// A start that is picked where it is known: code that is generic over `J: Start` is called with `Brand`.
impl Start for Brand {
    ghost started = { record { faults = 0; slips = 0; told = None } };
}

/// A dock. Its type says, where the run and the depot are told: what the destination had is the run's have,
/// the totals that were read and all that it covers are the tree's, and every image of its depot is good
/// for the tree; and since the depot was handed in every image of each moment, inside each write too, is good
/// for the tree and for what was logged then, no slip came, and each file but the tree's and the log reads as
/// it did. Told or not, no fault of the depot was taken back, and the disk was lost only where one
/// was counted. Contracts see it as the dock.
#[derive(Drop)]
pub struct KeptDock<N: Run, D: Depot + Drop, J: Start> {
    dock: Dock<D>,
    of: PhantomData<N>,
    since: PhantomData<J>,
}

impl<N: Run, D: Depot + Drop, J: Start> Model for KeptDock<N, D, J> {
    ghost use Rattle.wdt_dock.specs.DockView.{DockView};
    ghost use Rattle.wdt_recv_lanes.specs.Kept.{IsKept};

    ghost Value = { DockView D };

    ghost view = { λ s. s.dock };

    ghost invariant = { λ s. IsKept N.told J.started s.dock.plain (D.state s.dock.depot) };
}

impl<N: Run, D: Depot + Drop, J: Start> KeptDock<N, D, J> {
    /// A dock that is of the run.
    pub fn of(dock: Dock<D>) -> KeptDock<N, D, J>
        requires { IsKept N.told J.started dock.plain (D.state dock.depot) }
        ensures { result ≡ dock }
    {
        KeptDock {
            dock,
            of: PhantomData,
            since: PhantomData,
        }
    }

    /// The dock, taken out.
    pub fn into_dock(self) -> Dock<D>
        ensures value { result ≡ self }
        ensures kept { IsKept N.told J.started result.plain (D.state result.depot) }
    {
        self.dock
    }
}

// What a turn answers, as said of the run.
fn said<N: Run>(answer: Result<RecvAct, Heard<N>>) -> Result<SaidRecv<N>, Heard<N>>
    requires { IfOk answer (λ act. IsActSaid N.told act) }
    ensures { result ≡ answer }
{
    match answer {
        Ok(act) => Ok(SaidRecv::of(act)),
        Err(put) => Err(put),
    }
}

impl<N: Run, D: Depot + Drop, J: Start> Machine for KeptDock<N, D, J> {
    type Put = Heard<N>;

    type Act = SaidRecv<N>;

    type Entry = RecvEvent;

    type Stand = RecvLane;

    ghost fits = { λ put. Unit {0} };

    ghost lanes = { λ s. Some (length s.plain.lanes) };

    ghost history = { λ s. s.plain.history };

    ghost lane_of = { lane_of };

    ghost stand = { λ s lane. lane_at s.plain lane };

    ghost legal = { IsLegalOfSome };

    ghost turned = { λ lane put h before act more after. IsTurn lane put h before act more after };

    ghost counted = { λ s. count_of s.plain };

    /// One turn of a lane with what it heard: a frame is read as `Dock::step` reads it, and bytes that the
    /// lane wants are taken as `Dock::piece` takes them. All else that was received is odd.
    fn turn(&mut self, lane: Lane, put: Heard<N>) -> Result<SaidRecv<N>, Heard<N>>
        requires lane { Below (Some (length self.old.plain.lanes)) lane.0 }
        ensures ok { IfOk result (λ act. (more : List PlainEvent) × (self.new.plain.history ≡ self.old.plain.history ++ more)
            × AllOf lane_of lane.0 more × (count_of self.old.plain + length more ≤ count_of self.new.plain)
            × IsTurn lane.0 put self.old.plain.history (lane_at self.old.plain lane.0) act more (lane_at self.new.plain lane.0)) }
        ensures err { IfErr result (λ back. (back ≡ put) × (self.new.plain.history ≡ self.old.plain.history)
            × (lane_at self.new.plain lane.0 ≡ lane_at self.old.plain lane.0) × (count_of self.new.plain ≡ count_of self.old.plain)) }
        ensures others { (other : ℕ) → other ≢ lane.0 → lane_at self.new.plain other ≡ lane_at self.old.plain other }
        ensures lanes { Some (length self.new.plain.lanes) ≡ Some (length self.old.plain.lanes) }
        ensures legal { IsLegalOfSome self.new.plain.history }
        ensures step { IfOk result (λ act. EndsIn (Unit {0}) (turn_plan self.old.plain lane (put_of self.old.plain lane.0 put)) (act, self.new.plain)) }
        ensures back { IfErr result (λ back. (back ≡ put) × (self.new.plain ≡ self.old.plain)) }
        ensures kept { IsKept N.told J.started self.new.plain (D.state self.new.depot) }
    {
        let answer = hear::<N, D>(&mut self.dock, lane, put);
        said(answer)
    }

    fn count(&self) -> u64 {
        self.dock.history().len() as u64 + u64::from(self.dock.answer().is_failure())
    }

    ghost one_loose = { λ h legal. few_loose h legal };
}
