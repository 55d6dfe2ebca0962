//! A sender's end that is of its run.
ghost use Rattle.std.specs.Prelude.{◌≡◌, ◌≢◌, ℕ, ◌+◌, ◌≤◌, ◌^◌, ◌-◌, List, [], ◌++◌, length, Some, IfErr, IfOk};
ghost use Rattle.wdt_units.specs.Lanes.{AllOf, Below, few_loose};
ghost use Rattle.wdt_sender_fsm.specs.PlainSender.{lane_at};
ghost use Rattle.wdt_sender_fsm.specs.SenderHistory.{lane_of};
ghost use Rattle.wdt_sender_fsm.specs.Turn.{send_turn};
ghost use Rattle.wdt_sender_fsm.specs.Writes.{FitsAct};
ghost use Rattle.wdt_sender_fsm.specs.declared.acts.SendAct.TheVariants as acts;
ghost use Rattle.wdt_sender_fsm.specs.declared.events.SendEvent.{SendEvent as PlainEvent};
ghost use Rattle.wdt_tree.specs.declared.entry.Entry.{Entry};
ghost use Rattle.wdt_yard.specs.Turns.{IsLegalOfSome, IsTurn, count_of};
ghost use Rattle.wdt_lanes.specs.Acts.{IsActSaid, IsInSaid};
ghost use Rattle.wdt_lanes.specs.Kept.{Begun, IsKept, Lists};

use crate::said_acts::{SaidIn, SaidSend};
use std::marker::{Brand, Model, PhantomData};
use wdt_codec::Frame;
use wdt_sender_fsm::{
    SendAct, SendEvent, SendIn, SendLane, steps_answer_rightly, steps_touch_their_lane,
};
use wdt_tree::Run;
use wdt_units::{Header, Lane, Machine, Name};
use wdt_yard::Yard;

/// What an end was opened with. Contracts see it, and no code computes it. A type parameter `B: Begin`
/// lets an end say which tree it sends, and in blocks of what size.
pub trait Begin {
    ghost begun: { Begun };
}

/// A beginning that is picked where it is known: code that is generic over `B: Begin` is called with `Brand`.
impl Begin for Brand {
    ghost begun = { record { manifest = []; block = 1 } };
}

/// A yard. Its type says that it is within the limits and of the manifest and the greatest length of a block
/// that it was opened with; and where the run is told, that its manifest lists the run's tree, that what it
/// read of the destination is the run's have, and that it refuses the tree only for what that have is
/// refused for. Contracts see it as the plain sender.
#[derive(Drop)]
pub struct KeptYard<N: Run, B: Begin> {
    yard: Yard,
    of: PhantomData<N>,
    begun: PhantomData<B>,
}

impl<N: Run, B: Begin> Model for KeptYard<N, B> {
    ghost use Rattle.wdt_sender_fsm.specs.PlainSender.{PlainSender};
    ghost use Rattle.wdt_lanes.specs.Kept.{IsKept};

    ghost Value = { PlainSender };

    ghost view = { λ s. s.yard };

    ghost invariant = { λ s. IsKept N.told B.begun s.yard };
}

impl<N: Run, B: Begin> KeptYard<N, B> {
    /// A yard that is of the run, and was opened so.
    pub fn of(yard: Yard) -> KeptYard<N, B>
        requires { IsKept N.told B.begun yard }
        ensures { result ≡ yard }
    {
        KeptYard {
            yard,
            of: PhantomData,
            begun: PhantomData,
        }
    }

    /// The yard, taken out.
    pub fn into_yard(self) -> Yard
        ensures value { result ≡ self }
        ensures kept { IsKept N.told B.begun result }
    {
        self.yard
    }
}

// A frame that a sender of this manifest writes, as said of the run.
fn said_frame<N: Run>(frame: Frame) -> SaidSend<N>
    requires own { (manifest : List Entry) × Lists N.told manifest × FitsAct manifest (acts.Write frame) }
    ensures { result ≡ acts.Write frame }
{
    SaidSend::of(SendAct::Write(frame))
}

// A block that a sender of this manifest sends, as said of the run. By its type a stamp is one of 64 bits.
fn said_block<N: Run>(path: Name, size: u64, stamp: u64, offset: u64, length: u32) -> SaidSend<N>
    requires own { (manifest : List Entry) × Lists N.told manifest × FitsAct manifest (acts.SendBlock record { path = path; size = size; stamp = stamp; offset = offset; length = length }) }
    ensures { result ≡ acts.SendBlock record { path = path; size = size; stamp = stamp; offset = offset; length = length } }
{
    SaidSend::of(SendAct::SendBlock(Header {
        path,
        size,
        stamp,
        offset,
        length,
    }))
}

// An act of a sender of this manifest, as said of the run.
fn said_act<N: Run>(act: SendAct) -> SaidSend<N>
    requires own { (manifest : List Entry) × Lists N.told manifest × FitsAct manifest act }
    ensures { result ≡ act }
{
    match act {
        SendAct::Dial(conn) => SaidSend::of(SendAct::Dial(conn)),
        SendAct::Write(frame) => said_frame(frame),
        SendAct::SendBlock(
            Header {
                path,
                size,
                stamp,
                offset,
                length,
            },
        ) => said_block(path, size, stamp, offset, length),
        SendAct::Read => SaidSend::of(SendAct::Read),
        SendAct::Stop => SaidSend::of(SendAct::Stop),
    }
}

// What a step answers, as said of the run.
fn said<N: Run>(answer: Result<SendAct, SendIn>) -> Result<SaidSend<N>, SaidIn<N>>
    requires own { IfOk answer (λ act. (manifest : List Entry) × Lists N.told manifest × FitsAct manifest act) }
    requires back { IfErr answer (λ put. IsInSaid N.told put) }
    ensures { result ≡ answer }
{
    match answer {
        Ok(act) => Ok(said_act(act)),
        Err(put) => Err(SaidIn::of(put)),
    }
}

impl<N: Run, B: Begin> Machine for KeptYard<N, B> {
    type Put = SaidIn<N>;

    type Act = SaidSend<N>;

    type Entry = SendEvent;

    type Stand = SendLane;

    ghost fits = { λ put. Unit {0} };

    ghost lanes = { λ s. Some (length s.lanes) };

    ghost history = { λ s. s.history };

    ghost lane_of = { λ e. Some (lane_of e) };

    ghost stand = { lane_at };

    ghost legal = { IsLegalOfSome };

    ghost turned = { λ lane put h before act more after. IsTurn lane put h before act more after };

    ghost counted = { count_of };

    /// One step of a lane, as `Yard::step` makes it.
    fn turn(&mut self, lane: Lane, put: SaidIn<N>) -> Result<SaidSend<N>, SaidIn<N>>
        requires lane { Below (Some (length self.old.lanes)) lane.0 }
        ensures ok { IfOk result (λ act. (more : List PlainEvent) × (self.new.history ≡ self.old.history ++ more)
            × AllOf (λ e. Some (lane_of e)) lane.0 more × (count_of self.old + length more ≤ count_of self.new)
            × IsTurn lane.0 put self.old.history (lane_at self.old lane.0) act more (lane_at self.new lane.0)) }
        ensures err { IfErr result (λ back. (back ≡ put) × (self.new.history ≡ self.old.history)
            × (lane_at self.new lane.0 ≡ lane_at self.old lane.0) × (count_of self.new ≡ count_of self.old)) }
        ensures others { (other : ℕ) → other ≢ lane.0 → lane_at self.new other ≡ lane_at self.old other }
        ensures lanes { Some (length self.new.lanes) ≡ Some (length self.old.lanes) }
        ensures legal { IsLegalOfSome self.new.history }
        ensures step { IfOk result (λ act. send_turn self.old lane put ≡ (act, self.new)) }
        ensures back { IfErr result (λ back. (back ≡ put) × (self.new ≡ self.old)) }
        ensures kept { IsKept N.told B.begun self.new }
    {
        // The laws: what a step leaves as it is, what it makes of the plan, and why the end fails.
        steps_touch_their_lane();
        steps_answer_rightly();
        let answer = self.yard.turn(lane, put.into_put());
        said(answer)
    }

    fn count(&self) -> u64 {
        self.yard.count()
    }

    ghost one_loose = { λ h legal. few_loose lane_of h };
}
