//! Blocks, as a lane's state and the history say them.
ghost use Rattle.std.specs.Prelude.{◌≡◌, ◌+◌, ◌<◌, ◌≤◌, [], ◌∷◌, length};
ghost use Rattle.wdt_units.specs.declared.limits.TheConstants.{MAX_BLOCKS};
ghost use Rattle.wdt_receiver_fsm.specs.PlainReceiver.{goes, noted, with_lane};
ghost use Rattle.wdt_receiver_fsm.specs.ReceiverHistory.{past_of};
ghost use Rattle.wdt_receiver_fsm.specs.Turn.{reads, takes_piece};
ghost use Rattle.wdt_receiver_fsm.specs.declared.states.RecvState.TheVariants as states;
ghost use Rattle.wdt_receiver_fsm.specs.End.{Books, lane_in, plain_with};

use crate::{RecvAct, RecvEnd, RecvEvent, RecvLane, RecvState};
use wdt_units::{Block, Lane, PIECE};

impl RecvEnd {
    /// So many bytes of a lane's block are left, 1 or more: the next of them are taken.
    pub fn take_piece(&mut self, lane: Lane, left: u32) -> RecvAct
        requires { lane.0 < length self.old.lanes }
        ensures { (books : Books) → takes_piece (plain_with self.old books) lane left ≡ (result, plain_with self.new books) }
    {
        let stand = RecvLane {
            state: RecvState::TakeBlock,
            left,
            ..self.lane(lane)
        };
        self.stand(lane, stand);
        RecvAct::TakePiece(left.min(PIECE as u32))
    }

    /// A block with bytes begins, and the first of them are taken.
    pub fn begin_block(&mut self, lane: Lane, block: Block) -> RecvAct
        requires lane { lane.0 < length self.old.lanes }
        requires few { length (past_of self.old.history lane.0).landed < MAX_BLOCKS }
        requires room { 0 < self.old.room }
        ensures { (books : Books) → takes_piece (noted (plain_with self.old books) (RecvEvent.Begin lane block ∷ [])) lane block.length ≡ (result, plain_with self.new books) }
    {
        self.note(RecvEvent::Begin(lane, block));
        self.take_piece(lane, block.length)
    }

    /// An empty block begins, and has landed.
    pub fn place_block(&mut self, lane: Lane, block: Block) -> RecvAct
        requires lane { lane.0 < length self.old.lanes }
        requires few { length (past_of self.old.history lane.0).landed < MAX_BLOCKS }
        requires room { 2 ≤ self.old.room }
        ensures { (books : Books) → reads (goes (noted (noted (plain_with self.old books) (RecvEvent.Begin lane block ∷ [])) (RecvEvent.Land lane ∷ [])) lane.0 states.ReadNextCmd)
            ≡ (result, plain_with self.new books) }
    {
        self.note(RecvEvent::Begin(lane, block));
        self.note(RecvEvent::Land(lane));
        self.read_on(lane)
    }

    /// The last bytes of a lane's block are there: it has landed.
    pub fn land_block(&mut self, lane: Lane)
        requires lane { lane.0 < length self.old.lanes }
        requires room { 0 < self.old.room }
        ensures plain { (books : Books) → noted (with_lane (plain_with self.old books) lane.0 record (lane_in self.old lane.0) { left = 0 }) (RecvEvent.Land lane ∷ []) ≡ plain_with self.new books }
        ensures lanes { length self.new.lanes ≡ length self.old.lanes }
    {
        let stand = RecvLane {
            left: 0,
            ..self.lane(lane)
        };
        self.stand(lane, stand);
        self.note(RecvEvent::Land(lane));
    }
}
