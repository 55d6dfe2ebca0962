//! Laws of what every plain sender keeps. The functions do nothing: their contracts are the laws.
ghost use Rattle.std.specs.Prelude.{◌≡◌, ◌≢◌, ◌↔◌, ℕ, ◌<◌, ◌≤◌, true, false, List, length, replicate, IfSome};
ghost use Rattle.std.specs.List.{All, Contains};
ghost use Rattle.wdt_units.specs.declared.blocks.Block.{Block};
ghost use Rattle.wdt_units.specs.declared.numbers.Lane.{Lane};
ghost use Rattle.wdt_claims.specs.declared.place.Place.TheVariants.{Confirmed};
ghost use Rattle.wdt_claims.specs.Blocks.{count_of, is_same};
ghost use Rattle.wdt_claims.specs.Places.{is_among};
ghost use Rattle.wdt_tree.specs.Rest.{IsRest, holds, is_empty_of};
ghost use Rattle.wdt_tree.specs.declared.entry.Entry.{Entry};
ghost use Rattle.wdt_sender_fsm.specs.declared.answers.EndAnswer.TheVariants as answers;
ghost use Rattle.wdt_sender_fsm.specs.declared.answers.RefusedKind.{RefusedKind};
ghost use Rattle.wdt_sender_fsm.specs.declared.events.SendEvent.TheVariants as events;
ghost use Rattle.wdt_sender_fsm.specs.declared.inputs.SendIn.{SendIn};
ghost use Rattle.wdt_sender_fsm.specs.declared.inputs.SendIn.TheVariants.{Starved};
ghost use Rattle.wdt_sender_fsm.specs.declared.peers.PeerKind.{PeerKind};
ghost use Rattle.wdt_sender_fsm.specs.declared.states.SendState.{SendState};
ghost use Rattle.wdt_sender_fsm.specs.Acts.{IsActOf, act_of, is_answer};
ghost use Rattle.wdt_sender_fsm.specs.PlainSender.{HasPlaces, PlainSender, block_place, blocks_of, is_closed, is_ended, new_lane, lane_at, opened, past_at, state_at};
ghost use Rattle.wdt_sender_fsm.specs.Causes.{Follows, HasNoLane, Refuses, RefusesRightly, has_all_done};
ghost use Rattle.wdt_sender_fsm.specs.Rows.{is_allowed, row_of};
ghost use Rattle.wdt_sender_fsm.specs.Rules.{is_failure};
ghost use Rattle.wdt_sender_fsm.specs.Legal.{IsLegal};
ghost use Rattle.wdt_sender_fsm.specs.Outcomes.{Makes, Outcome, came_to};
ghost use Rattle.wdt_sender_fsm.specs.Reasons.{Comes, GivesUp, LeavesClosed, Serves};
ghost use Rattle.wdt_sender_fsm.specs.Runs.{IsStepOf, LaneStep, after_steps};
ghost use Rattle.wdt_sender_fsm.specs.Sender.{Fares, FitsIn, IsSender};
ghost use Rattle.wdt_sender_fsm.specs.SenderHistory.{end_of};
ghost use Rattle.wdt_sender_fsm.specs.Stops.{is_stop, is_through, stops};
ghost use Rattle.wdt_sender_fsm.specs.Touches.{Touches};
ghost use Rattle.wdt_sender_fsm.specs.Turn.{send_turn, turn_row};
ghost use Rattle.wdt_sender_fsm.specs.Writes.{FitsAct, IsLawful};

/// An end that begins is a plain sender as steps leave it, and so is an end behind a step of one of its
/// lanes. So its history is legal at all times, whatever steps its lanes take, in whatever order.
pub fn senders_stay_senders()
    ensures opens { (manifest : List Entry) (block session n : ℕ) → 1 ≤ n → IsSender (opened manifest block session (replicate n new_lane)) }
    ensures steps { (s : PlainSender) (l : Lane) (input : SendIn) → IsSender s → l.0 < length s.lanes → FitsIn input → IsSender (send_turn s l input).1 }
    ensures legal { (manifest : List Entry) (block session n : ℕ) (steps : List LaneStep) → 1 ≤ n → All (IsStepOf n) steps → IsLegal n (blocks_of (after_steps (opened manifest block session (replicate n new_lane)) steps)) (after_steps (opened manifest block session (replicate n new_lane)) steps).history }
{}

/// The blocks that are to be sent are the rest of the tree: what the destination lacks, once that is known.
pub fn the_plan_is_the_rest()
    ensures { (s : PlainSender) → IsSender s → 1 ≤ s.block → IfSome s.have (λ have. IsRest s.manifest have s.block (blocks_of s)) }
{}

/// Blocks are apart: different ones of the plan share no position of a file, and of a file without a byte
/// there is one block; and what lanes keep are blocks of the plan, each of one lane and once in its list.
pub fn blocks_are_apart()
    ensures positions { (s : PlainSender) (b c : Block) (file position : ℕ) → IsSender s → 1 ≤ s.block → is_among (blocks_of s) b ≡ true → is_among (blocks_of s) c ≡ true → is_same b c ≡ false → holds file position b ≡ true → holds file position c ≡ false }
    ensures planned { (s : PlainSender) (b : Block) (l : ℕ) → IsSender s → 1 ≤ s.block → l < length s.lanes → is_among (past_at s l).claims.kept b ≡ true → is_among (blocks_of s) b ≡ true }
    ensures once { (s : PlainSender) (b : Block) (l : ℕ) → IsSender s → 1 ≤ s.block → l < length s.lanes → count_of b (past_at s l).claims.kept ≤ 1 }
    ensures by_one { (s : PlainSender) (b : Block) (k l : ℕ) → IsSender s → 1 ≤ s.block → k < length s.lanes → l < length s.lanes → k ≢ l → is_among (past_at s k).claims.kept b ≡ true → is_among (past_at s l).claims.kept b ≡ false }
    ensures empties { (s : PlainSender) (b c : Block) (file : ℕ) → IsSender s → 1 ≤ s.block → is_among (blocks_of s) b ≡ true → is_among (blocks_of s) c ≡ true → is_same b c ≡ false → is_empty_of file b ≡ true → is_empty_of file c ≡ false }
{}

/// Blocks keep their places: each block of the plan stands once, in the queue or in one lane's list, and
/// a step leaves each confirmed block confirmed.
pub fn blocks_keep_their_places()
    ensures places { (s : PlainSender) → IsSender s → 1 ≤ s.block → HasPlaces s }
    ensures confirmed { (s : PlainSender) (l : Lane) (input : SendIn) (b : Block) → IsSender s → l.0 < length s.lanes → FitsIn input → block_place s b ≡ Confirmed → block_place (send_turn s l input).1 b ≡ Confirmed }
{}

/// A step of a lane leaves the other lanes and what is sent as they are, and notes entries of that lane;
/// the plan is as before but where the lane is the first that reads what the destination has. So an end
/// within the limits stays within them.
pub fn steps_touch_their_lane()
    ensures touches { (s : PlainSender) (l : Lane) (input : SendIn) → Touches s l input (send_turn s l input).1 }
    ensures lawful { (s : PlainSender) (l : Lane) (input : SendIn) → IsLawful s → IsLawful (send_turn s l input).1 }
{}

/// What a step answers: the act is Stop exactly where it must be; on a failed end nothing more is noted
/// and the answer stays, and a new failure has its cause; and what a sender within the limits is to write
/// lies in the grammar's ranges, each block being a part of one of its files.
pub fn steps_answer_rightly()
    ensures stops { (s : PlainSender) (l : Lane) (input : SendIn) → IsSender s → l.0 < length s.lanes → FitsIn input → is_stop (send_turn s l input).0 ≡ stops (state_at s l.0) input (is_through (send_turn s l input).1 l.0) (is_failure (send_turn s l input).1.answer) }
    ensures follows { (s : PlainSender) (l : Lane) (input : SendIn) → IsSender s → l.0 < length s.lanes → FitsIn input → Follows s l input (send_turn s l input).1 }
    ensures fits { (s : PlainSender) (l : Lane) (input : SendIn) → IsSender s → IsLawful s → l.0 < length s.lanes → FitsIn input → FitsAct s.manifest (send_turn s l input).0 }
{}

/// Why an end has its answer, where no step's cause says it: it is done exactly where a lane read the
/// receiver's last word and each is acknowledged or closed, it has no lane left exactly where that isn't
/// so and each has ended or is closed; it failed by the receiver's fault or failure exactly where an entry
/// of the history says so; and the tree is refused by the first lane that reads what the destination has.
pub fn answers_have_their_causes()
    ensures done { (s : PlainSender) → IsSender s → (s.answer ≡ answers.Done) ↔ (has_all_done s ≡ true) }
    ensures link { (s : PlainSender) → IsSender s → (s.answer ≡ answers.Link) ↔ HasNoLane s }
    ensures peer { (s : PlainSender) (kind : PeerKind) → IsSender s → (s.answer ≡ answers.Peer kind) ↔ ((l : Lane) × Contains s.history (events.Peer l kind)) }
    ensures aborted { (s : PlainSender) (code : ℕ) → IsSender s → (s.answer ≡ answers.Aborted code) ↔ ((l : Lane) × Contains s.history (events.Abort l code)) }
    ensures exactly { (s : PlainSender) (l : Lane) (input : SendIn) → IsSender s → l.0 < length s.lanes → FitsIn input → RefusesRightly s l input (send_turn s l input).1 }
    ensures refused { (s : PlainSender) (l : Lane) (input : SendIn) (kind : RefusedKind) → is_failure s.answer ≡ false → is_closed s l.0 ≡ false → Refuses s l.0 input kind → (send_turn s l input).1.answer ≡ answers.Refused kind }
{}

/// The act that a lane holds follows from the plain sender and the lane alone: what a step answers is the
/// act of its lane as it stands behind the step, but for the Stop where an input doesn't belong to the
/// lane's state; what may become of an act belongs to the state; and each other lane that isn't closed keeps its act.
pub fn acts_follow_from_lanes()
    ensures own { (s : PlainSender) (l : Lane) (input : SendIn) → IsSender s → l.0 < length s.lanes → IsActOf s l input (send_turn s l input) }
    ensures answers { (s : PlainSender) (l : Lane) (input : SendIn) → is_answer (act_of s l) input ≡ true → is_allowed (state_at s l.0) input ≡ true }
    ensures others { (s : PlainSender) (l : Lane) (input : SendIn) (k : Lane) → IsSender s → l.0 < length s.lanes → FitsIn input → k.0 < length s.lanes → k.0 ≢ l.0 → is_closed (send_turn s l input).1 k.0 ≡ false → act_of (send_turn s l input).1 k ≡ act_of s k }
{}

/// A step of a lane comes to one of the outcomes, for its reason: what each makes of the plain sender is
/// said there, and nowhere else has to be asked which row of the table it was. A lane that the table serves
/// stands as its state says.
pub fn steps_have_outcomes()
    ensures comes { (s : PlainSender) (l : Lane) (input : SendIn) → Comes s l input (send_turn s l input) }
    ensures makes { (s : PlainSender) (l : Lane) (o : Outcome) → Makes s l o (came_to s l o).1 }
    ensures fares { (s : PlainSender) (l : Lane) (state : SendState) → IsSender s → l.0 < length s.lanes → Serves s l state → Fares false state (lane_at s l.0).ask (past_at s l.0) (end_of s.history) }
{}

/// The rules before the table, and the table: on a failed end a lane ends or tells of the failure, a closed
/// lane ends, and of an open lane of an end that hasn't failed the row that fits is done.
pub fn steps_go_by_the_rules()
    ensures failed { (s : PlainSender) (l : Lane) (input : SendIn) → is_failure s.answer ≡ true → GivesUp s l (send_turn s l input) }
    ensures closed { (s : PlainSender) (l : Lane) (input : SendIn) → is_closed s l.0 ≡ true → LeavesClosed s l (send_turn s l input) }
    ensures served { (s : PlainSender) (l : Lane) (input : SendIn) → is_closed s l.0 ≡ false → is_failure s.answer ≡ false → is_ended (state_at s l.0) ≡ false → input ≢ Starved → send_turn s l input ≡ turn_row s l (row_of (state_at s l.0) input) }
{}
