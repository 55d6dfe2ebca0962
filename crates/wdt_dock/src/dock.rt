//! A receiver's end with its files, as its lanes share it, over a depot.
ghost use Rattle.std.specs.Prelude.{◌≡◌, ◌↔◌, ◌<◌, ◌≤◌, false, true, List, [], length, option_map, replicate, IfErr, IfOk, IfSome, IsErrOf, None, OnOk};
ghost use Rattle.wdt_units.specs.declared.limits.TheConstants.{PIECE};
ghost use Rattle.wdt_units.specs.Tree.{File};
ghost use Rattle.wdt_depot.specs.Disk.{seen_of};
ghost use Rattle.wdt_depot.specs.Moments.{IfTold};
ghost use Rattle.wdt_depot.specs.State.{Counts};
ghost use Rattle.wdt_good.specs.LogState.{SaysAs};
ghost use Rattle.wdt_good.specs.Logged.{AllFit, GoodSince};
ghost use Rattle.wdt_log.specs.Flushing.{ReadsStand};
ghost use Rattle.wdt_log.specs.Others.{OthersStand, SlipsStand};
ghost use Rattle.wdt_sender_fsm.specs.Rules.{is_failure};
ghost use Rattle.wdt_receiver_fsm.specs.Answered.{HasNoLane, IsHeard, has_all_done};
ghost use Rattle.wdt_receiver_fsm.specs.Batched.{IsBatched};
ghost use Rattle.wdt_receiver_fsm.specs.Logging.{all_logged, flush_calls};
ghost use Rattle.wdt_receiver_fsm.specs.PlainReceiver.{failed, has_finish, lane_at, new_lane, opened, state_at};
ghost use Rattle.wdt_receiver_fsm.specs.Receiver.{IsReceiver};
ghost use Rattle.wdt_receiver_fsm.specs.Writes.{CanTell};
ghost use Rattle.wdt_dock.specs.Booked.{KnownStand};
ghost use Rattle.wdt_dock.specs.Dock.{FailedBy, IsRefusal, LogRests, RanFlush, RanOpen, depot_behind, wanted};
ghost use Rattle.wdt_dock.specs.DockGood.{IsGoodFor};
ghost use Rattle.wdt_dock.specs.DockView.{HasLostDisk};
ghost use Rattle.wdt_dock.specs.Landed.{AllLogged, EachLogged};

mod stepping;

use crate::flushing::{FlushFail, flush};
use crate::opening::{DockFail, of_log, parts_of};
use crate::wanting::wants;
use std::alloc::Global;
use std::marker::Model;
use wdt_depot::Depot;
use wdt_log::Log;
use wdt_receiver_fsm::{RecvEnd, RecvEvent, RecvState, batches_add_up, receivers_stay_receivers};
use wdt_sender_fsm::EndAnswer;
use wdt_units::{Lane, MAX_LANES, Name, NoMemory};
use wdt_writer::Writer;

/// A receiver's end with its files, over a depot. It is seen as the plain receiver, and the depot.
#[derive(Drop)]
pub struct Dock<D: Depot + Drop> {
    alloc: Global,
    depot: D,
    log: Log,
    writer: Writer,
    end: RecvEnd,
}

impl<D: Depot + Drop> Model for Dock<D> {
    ghost use Rattle.wdt_dock.specs.Desk.{plain_of};
    ghost use Rattle.wdt_dock.specs.Dock.{IsDock};
    ghost use Rattle.wdt_dock.specs.DockView.{DockView};

    ghost Value = { DockView D };

    ghost view = { λ dock. record { plain = plain_of dock.end dock.log dock.writer; depot = dock.depot } };

    ghost invariant = { λ dock. IsDock dock.end dock.log dock.writer (D.state dock.depot) };
}

impl<D: Depot + Drop> Dock<D> {
    /// Opens the log of the depot, in which no file is entered, and begins an end behind what it says: 1 to
    /// 16 lanes, and what landed is logged from `batch` bytes on, at least 1.
    ///
    /// `Disk` comes only where the depot counted a fault, and `BadLog` only where the log has no reading
    /// from that place on. The depot is handed back. After `NoMemory` calls that were made may stand, and
    /// the log means what it meant before.
    pub fn open(
        alloc: Global,
        mut depot: D,
        lanes: u8,
        batch: u64,
    ) -> Result<Dock<D>, (DockFail, D)>
        requires some_lanes { 1 ≤ lanes }
        requires few_lanes { lanes ≤ MAX_LANES }
        requires some_bytes { 0 < batch }
        requires spots { (D.state depot).spots ≡ [] }

        ensures opened { IfOk result (λ dock. dock.plain ≡ opened dock.plain.log batch (replicate lanes new_lane)) }
        ensures says { IfOk result (λ dock. IfTold (λ t. SaysAs (seen_of t.now) dock.plain.log.files) (D.state depot).told) }
        ensures rests { IfOk result (λ dock. LogRests dock.plain (D.state dock.depot)) }
        ensures receiver { IfOk result (λ dock. IsReceiver dock.plain) }
        ensures batched { IfOk result (λ dock. IsBatched dock.plain) }
        ensures tells { IfOk result (λ dock. CanTell dock.plain) }
        ensures refused { IfErr result (λ back. IsRefusal (D.state depot).told back.0) }

        // At each moment, inside each call too, each image is good for the tree and for what was logged
        // before, also where a call fails; and an end that was opened and its disk are good for the tree.
        ensures images { (T : List File) → IfTold (λ t. AllFit T t.now) (D.state depot).told → GoodSince T [] (D.state depot).told (D.state (depot_behind result)).told }
        ensures good { (T : List File) → IfTold (λ t. AllFit T t.now) (D.state depot).told → IfOk result (λ dock. IsGoodFor T dock.plain (D.state dock.depot)) }

        ensures others { OthersStand (D.state depot).told (D.state (depot_behind result)).told }
        ensures exact { RanOpen result (D.state depot) (D.state (depot_behind result)) }
        ensures up { IfOk result (λ dock. (D.state dock.depot).stop.struck ≡ None) }
        ensures spots { (D.state (depot_behind result)).spots ≡ [] }
        ensures counts { Counts (FailedBy DockFail.Disk result) (D.state depot) (D.state (depot_behind result)) }
        ensures slips { SlipsStand (D.state depot) (D.state (depot_behind result)) }
    {
        // The laws: an end that begins is a receiver's, and nothing of it is to be logged.
        receivers_stay_receivers();
        batches_add_up();
        let log = match Log::open(alloc, &mut depot) {
            Ok(log) => log,
            Err(fail) => return Err((of_log(fail), depot)),
        };
        match parts_of(alloc, log.view(), lanes, batch) {
            Ok((writer, end)) => Ok(Dock {
                alloc,
                depot,
                log,
                writer,
                end,
            }),
            Err(NoMemory) => Err((DockFail::NoMemory, depot)),
        }
    }

    /// Logs all that landed. Where nothing is to be logged, no call is made.
    ///
    /// `Shut` comes exactly where the disk failed before, and no call is made then. `Disk` comes only where
    /// the depot counted a fault, and the end has failed by it from then on. After `NoMemory` the end is
    /// as it was.
    pub fn flush(&mut self) -> Result<(), FlushFail>
        ensures shut { IsErrOf result FlushFail.Shut ↔ HasLostDisk self.old.plain.answer }
        ensures untouched { IsErrOf result FlushFail.Shut → D.state self.new.depot ≡ D.state self.old.depot }
        ensures same { IsErrOf result FlushFail.Shut → self.new.plain ≡ self.old.plain }
        ensures logged { OnOk result (self.new.plain ≡ all_logged self.old.plain) }
        ensures failed { IsErrOf result FlushFail.Disk → self.new.plain ≡ failed self.old.plain EndAnswer.Disk }
        ensures memory { IsErrOf result FlushFail.NoMemory → self.new.plain ≡ self.old.plain }
        ensures receiver { IsReceiver self.new.plain }
        ensures batched { IsBatched self.new.plain }

        // At each moment, inside each call too, each image is good for the tree and for what was logged
        // before, also where a call fails; and behind it the end and its disk are good for the tree.
        ensures images { (T : List File) → IsGoodFor T self.old.plain (D.state self.old.depot) → GoodSince T [] (D.state self.old.depot).told (D.state self.new.depot).told }
        ensures good { (T : List File) → IsGoodFor T self.old.plain (D.state self.old.depot) → IsGoodFor T self.new.plain (D.state self.new.depot) }

        ensures reads { ReadsStand (D.state self.old.depot).told (D.state self.new.depot).told }
        ensures exact { RanFlush (flush_calls self.old.plain) result (D.state self.old.depot) (D.state self.new.depot) }
        ensures counts { Counts (IsErrOf result FlushFail.Disk) (D.state self.old.depot) (D.state self.new.depot) }
        ensures slips { IfTold (λ t. KnownStand self.old.plain.known t.now → (D.state self.new.depot).slips ≡ (D.state self.old.depot).slips) (D.state self.old.depot).told }
    {
        flush(
            self.alloc,
            &mut self.depot,
            &mut self.log,
            &mut self.writer,
            &mut self.end,
        )
    }

    /// What a lane takes next, where it takes bytes of a block: the path of the block's file, where the
    /// bytes go there, and how many they are, at most 65,536.
    pub fn wants(&self, lane: Lane) -> Option<(&Name, u64, u32)>
        requires { lane.0 < length self.now.plain.lanes }
        ensures value { option_map (λ told. ((told.0).now, told.1, told.2)) result ≡ wanted self.now.plain lane.0 }
        ensures takes { IfSome result (λ told. (state_at self.now.plain lane.0 ≡ RecvState.TakeBlock) × (told.2 ≤ PIECE) × (told.2 ≤ (lane_at self.now.plain lane.0).left)) }
    {
        wants(&self.writer, &self.end, lane)
    }

    /// All that happened, in order. It is the history of a receiver.
    pub fn history(&self) -> &[RecvEvent]
        ensures value { result.now ≡ self.now.plain.history }
        ensures receiver { IsReceiver self.now.plain }
        ensures batched { IsBatched self.now.plain }
    {
        self.end.history()
    }

    /// How the end fares: unless it has failed, that follows from its lanes. Of what landed all is logged but
    /// for less than a batch, unless the end has failed; and behind the finish all is. Where the answer is
    /// what the sender did wrong, or that it failed, the history has it.
    pub fn answer(&self) -> &EndAnswer
        ensures value { result.now ≡ self.now.plain.answer }
        ensures receiver { IsReceiver self.now.plain }
        ensures batched { IsBatched self.now.plain }
        ensures done { (self.now.plain.answer ≡ EndAnswer.Done) ↔ (has_all_done self.now.plain ≡ true) }
        ensures link { (self.now.plain.answer ≡ EndAnswer.Link) ↔ HasNoLane self.now.plain }
        ensures heard { IsHeard self.now.plain.answer self.now.plain.history }
        ensures logged { is_failure self.now.plain.answer ≡ false → IfTold (λ t. AllLogged self.now.plain t.now) (D.state self.now.depot).told }
        ensures finished { has_finish self.now.plain ≡ true → (HasLostDisk self.now.plain.answer → ⊥) → IfTold (λ t. EachLogged self.now.plain t.now) (D.state self.now.depot).told }
    {
        // What the log said as it was opened is a view.
        let _opening = self.end.opening();
        self.end.answer()
    }

    /// Where a lane stands.
    pub fn state(&self, lane: Lane) -> RecvState
        requires { lane.0 < length self.now.plain.lanes }
        ensures { result ≡ state_at self.now.plain lane.0 }
    {
        self.end.lane(lane).state
    }

    /// The depot, in which no file is entered, the history and the answer. What of the blocks that landed is
    /// logged there is as `answer` says.
    pub fn close(self) -> (D, Vec<RecvEvent>, EndAnswer)
        ensures depot { result.0 ≡ self.depot }
        ensures spots { (D.state result.0).spots ≡ [] }
        ensures history { result.1.items ≡ self.plain.history }
        ensures answer { result.2 ≡ self.plain.answer }
        ensures receiver { IsReceiver self.plain }
        ensures batched { IsBatched self.plain }
        ensures done { (self.plain.answer ≡ EndAnswer.Done) ↔ (has_all_done self.plain ≡ true) }
        ensures link { (self.plain.answer ≡ EndAnswer.Link) ↔ HasNoLane self.plain }
        ensures heard { IsHeard self.plain.answer self.plain.history }
        ensures logged { is_failure self.plain.answer ≡ false → IfTold (λ t. AllLogged self.plain t.now) (D.state result.0).told }
        ensures finished { has_finish self.plain ≡ true → (HasLostDisk self.plain.answer → ⊥) → IfTold (λ t. EachLogged self.plain t.now) (D.state result.0).told }
        ensures rests { (HasLostDisk self.plain.answer → ⊥) → LogRests self.plain (D.state result.0) }
    {
        // What the log said as it was opened is a view.
        let _opening = self.end.opening();
        let (history, answer) = self.end.into_parts();
        (self.depot, history, answer)
    }
}
