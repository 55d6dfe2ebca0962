//! Laws of a receiver's definitions.
ghost use Rattle.std.specs.Prelude.{◌≡◌, ◌⊎◌, ◌+◌, ◌<◌, ◌≤◌, ℕ, Bool, true, false, List, ◌∷◌, ◌++◌, [], length, map, replicate, slice_get, IsTrue, Some};
ghost use Rattle.wdt_units.specs.declared.numbers.Lane.{Lane};
ghost use Rattle.wdt_units.specs.declared.blocks.Block.{Block};
ghost use Rattle.wdt_codec.specs.declared.frames.Frame.{Frame};
ghost use Rattle.wdt_codec.specs.declared.frames.Frame.TheVariants as frames;
ghost use Rattle.wdt_sender_fsm.specs.declared.answers.EndAnswer.TheVariants as answers;
ghost use Rattle.wdt_sender_fsm.specs.declared.peers.PeerKind.{PeerKind};
ghost use Rattle.wdt_sender_fsm.specs.declared.peers.PeerKind.TheVariants.{Overlap, SizeDiffers};
ghost use Rattle.wdt_sender_fsm.specs.Phases.{Framed, Phase};
ghost use Rattle.wdt_sender_fsm.specs.Rules.{code_of, is_failure, starved};
ghost use Rattle.wdt_receiver_fsm.specs.declared.events.RecvEvent.{RecvEvent};
ghost use Rattle.wdt_receiver_fsm.specs.declared.events.RecvEvent.TheVariants as events;
ghost use Rattle.wdt_receiver_fsm.specs.declared.inputs.RecvIn.TheVariants.{Got, Wrote};
ghost use Rattle.wdt_receiver_fsm.specs.declared.states.RecvLane.{RecvLane};
ghost use Rattle.wdt_receiver_fsm.specs.declared.states.RecvState.{RecvState};
ghost use Rattle.wdt_receiver_fsm.specs.declared.states.RecvState.TheVariants as states;
ghost use Rattle.wdt_receiver_fsm.specs.Acts.{IsActOf, act_of};
ghost use Rattle.wdt_receiver_fsm.specs.Causes.{FallsShort, Follows, Misspeaks};
ghost use Rattle.wdt_receiver_fsm.specs.Legal.{IsLegal, IsOff, IsSound, Terms};
ghost use Rattle.wdt_receiver_fsm.specs.Outcomes.{Comes};
ghost use Rattle.wdt_receiver_fsm.specs.Phases.{AsksPiece, FitsLane, StandsIn, is_named, phase_by, phase_heard, phase_taking, phase_with};
ghost use Rattle.wdt_receiver_fsm.specs.Plan.{EndsIn, ends};
ghost use Rattle.wdt_logfmt.specs.Marks.{is_marked, is_there, marked_of, marks_of};
ghost use Rattle.wdt_logfmt.specs.View.{Meaning, NamedFile, is_view};
ghost use Rattle.wdt_receiver_fsm.specs.Batched.{CanLog, Continues, IsBatched};
ghost use Rattle.wdt_receiver_fsm.specs.Logging.{all_logged, log_after};
ghost use Rattle.wdt_receiver_fsm.specs.PlainReceiver.{PlainReceiver, failed, has_finish, lane_at, marks_at, new_lane, noted, opened, past_at, state_at};
ghost use Rattle.wdt_receiver_fsm.specs.Receiver.{IsReceiver};
ghost use Rattle.wdt_receiver_fsm.specs.ReceiverHistory.{begun_list, confirm_from, confirm_of, end_from, end_of, landed_of, lands_none, past_from, past_of};
ghost use Rattle.wdt_receiver_fsm.specs.Rows.{Over, Row, Starved, row_of};
ghost use Rattle.wdt_receiver_fsm.specs.Sets.{has};
ghost use Rattle.wdt_receiver_fsm.specs.Touches.{Touches};
ghost use Rattle.wdt_receiver_fsm.specs.Turn.{Put, Step, gives_up, is_over, is_starved, recv_plan, rests, row_at, take_plan, tells_failure, turn_plan, turn_row};
ghost use Rattle.wdt_receiver_fsm.specs.Writes.{CanTell, FitsAct, FitsPut};
ghost use Rattle.wdt_receiver_fsm.specs.Worked.{lane, header, one_lane, one_begun, named_landed, two_lanes, two_waiting, half_closed, makes_the_file, writes_the_bytes, finishes, two_faulted, tells, waits, parks};

/// Worked steps: a file of two bytes over one lane, from its header to the last word; and on two lanes a
/// block that is on its way already, a file that is told otherwise, a closed lane that is told of, and a
/// lane that waits.
pub fn worked_steps()
    ensures makes { recv_plan one_lane (lane 0) (Got (frames.Block (header 2))) ≡ makes_the_file }
    ensures writes { take_plan one_begun (lane 0) (104 ∷ 105 ∷ []) ≡ writes_the_bytes }
    ensures finishes { recv_plan named_landed (lane 0) (Got frames.Done) ≡ finishes }
    ensures overlaps { recv_plan two_lanes (lane 1) (Got (frames.Block (header 2))) ≡ two_faulted (Overlap 0) }
    ensures differs { recv_plan two_lanes (lane 1) (Got (frames.Block (header 3))) ≡ two_faulted (SizeDiffers 2 0 3 0) }
    ensures tells { recv_plan half_closed (lane 1) (Got frames.Done) ≡ tells }
    ensures waits { recv_plan two_lanes (lane 1) (Got frames.Done) ≡ waits }
    ensures parks { recv_plan two_waiting (lane 1) Wrote ≡ parks }
{}

/// Whatever the disk does, a step of a lane comes to one of the outcomes, for its reason: what each makes
/// of the plain receiver is said there, and nowhere else has to be asked which row of the table it was.
pub fn steps_have_outcomes()
    ensures { (r : PlainReceiver) (l : Lane) (put : Put) (step : Step) → EndsIn (Unit {0}) (turn_plan r l put) step → Comes r l put step }
{}

/// Why an end fails, and with which answer: by the values that were read, as the end kept the first ones; as
/// the finish found something else; since a call on the disk failed; for want of memory. What the sender says
/// that it may not say is told in that very step; so is a finish that finds something else, unless a call on
/// the disk failed. On an end that has failed nothing changes but the lane.
pub fn failures_have_causes()
    ensures follows { (r : PlainReceiver) (l : Lane) (put : Put) (step : Step) → EndsIn (Unit {0}) (turn_plan r l put) step → Follows r l put step.1 }
    ensures told { (r : PlainReceiver) (l : Lane) (put : Put) (kind : PeerKind) → Misspeaks r l put kind
        → turn_plan r l put ≡ ends (tells_failure (failed (noted r (events.Peer l kind ∷ [])) (answers.Peer kind)) l) }
    ensures short { (r : PlainReceiver) (l : Lane) (put : Put) (kind : PeerKind) (step : Step) → FallsShort r l put kind → EndsIn (Unit {0}) (turn_plan r l put) step
        → (step.1.answer ≡ answers.Peer kind) ⊎ (step.1.answer ≡ answers.Disk) }
{}

/// A step by its row: a lane that has ended does nothing more; on a failed end a lane gives up; where memory
/// runs out, that is the answer of an end that had none, and nothing changes of one that is done or has no
/// lane left; else the table has the step.
pub fn steps_follow_their_rows()
    ensures over { (r : PlainReceiver) (l : Lane) (put : Put) → row_at r l put ≡ Over → turn_plan r l put ≡ ends (rests r) }
    ensures failed { (r : PlainReceiver) (l : Lane) (put : Put) (row : Row) → row_at r l put ≡ row → is_failure r.answer ≡ true → is_over row ≡ false
        → turn_plan r l put ≡ ends (gives_up r l row) }
    ensures starved { (r : PlainReceiver) (l : Lane) (put : Put) (mute : Bool) → row_at r l put ≡ Starved mute → r.answer ≡ answers.Going
        → turn_plan r l put ≡ ends (gives_up (failed r answers.NoMemory) l (Starved mute)) }
    ensures settled { (r : PlainReceiver) (l : Lane) (put : Put) (mute : Bool) → row_at r l put ≡ Starved mute → is_failure (starved r.answer) ≡ false → turn_plan r l put ≡ ends (rests r) }
    ensures serves { (r : PlainReceiver) (l : Lane) (put : Put) (row : Row) → row_at r l put ≡ row → is_failure r.answer ≡ false → is_over row ≡ false → is_starved row ≡ false
        → turn_plan r l put ≡ turn_row r l row }
{}

/// What further entries make of what a history says of a lane, of the end, of a lane that is told of, and of
/// what has landed.
pub fn pasts_follow_the_history()
    ensures lane { (g es : List RecvEvent) (l : ℕ) → past_of (g ++ es) l ≡ past_from l (past_of g l) es }
    ensures end { (g es : List RecvEvent) → end_of (g ++ es) ≡ end_from (end_of g) es }
    ensures landed { (g : List RecvEvent) (l : Lane) → landed_of (g ++ events.Land l ∷ []) ≡ landed_of g ++ begun_list (past_of g l.0).begun }
    ensures still { (g : List RecvEvent) (e : RecvEvent) → lands_none e ≡ true → landed_of (g ++ e ∷ []) ≡ landed_of g }
    ensures confirm { (g es : List RecvEvent) (c : ℕ) → confirm_of (g ++ es) c ≡ confirm_from c (confirm_of g c) es }
{}

/// The act that a lane holds follows from the plain receiver and the lane alone: what a step answers is the
/// act of its lane as it stands behind the step, but where nothing changes: the lane has ended, what it
/// handed in doesn't belong to its state, or memory ran out on an end that had its answer.
pub fn acts_follow_from_lanes()
    ensures { (r : PlainReceiver) (l : Lane) (put : Put) (step : Step) → length r.lanes ≤ 16 → l.0 < length r.lanes → EndsIn (Unit {0}) (turn_plan r l put) step → IsActOf r l step }
{}

/// A step leaves what isn't its lane's: what it notes are entries of that lane, or the finish, behind those
/// that were there; the other lanes stand as they did; and each known file keeps its number.
pub fn steps_touch_their_lane()
    ensures { (r : PlainReceiver) (l : Lane) (put : Put) (step : Step) → EndsIn (Unit {0}) (turn_plan r l put) step → Touches r l step.1 }
{}

/// An end that begins is a receiver, and so is one behind each end of any step, whatever the disk does: its
/// history is legal, entry by entry, and each lane stands as its state says, also on an end that has failed.
pub fn receivers_stay_receivers()
    ensures begins { (log : Meaning) (batch n : ℕ) → n ≤ 16 → IsReceiver (opened log batch (replicate n new_lane)) }
    ensures keeps { (r : PlainReceiver) (l : Lane) (put : Put) (step : Step) → IsReceiver r → l.0 < length r.lanes → EndsIn (Unit {0}) (turn_plan r l put) step → IsReceiver step.1 }
{}

/// What a legal history says of each lane: what landed has its place in a frame; a lane with no connection
/// has no begun block, isn't idle and tells of no closed lane; nor does an idle one; and a closed lane, or one
/// that is given up, has no connection. A lane tells of another exactly where it is among those that told of it
/// and weren't idle since. A receiver's closed lane has ended.
pub fn lanes_are_sound()
    ensures sound { (t : Terms) (g : List RecvEvent) (l : ℕ) → IsLegal t g → IsSound (past_of g l) }
    ensures tells { (t : Terms) (g : List RecvEvent) (l q : ℕ) → IsLegal t g → has (past_of g l).telling q ≡ has (confirm_of g q).tellers l }
    ensures closed { (r : PlainReceiver) (l : ℕ) → IsReceiver r → l < length r.lanes → (past_at r l).is_closed ≡ true
        → (state_at r l ≡ states.Ended) × ((past_at r l).is_acked ≡ false) × IsOff (past_at r l) }
{}

/// The receiver's end of what the two ends say in turn: what a lane does fits its phase; its phase with what
/// it hands in is its phase behind the step, or the end fails in it; and what may be said to it has a row of
/// the table.
pub fn a_receiver_speaks_in_turn()
    ensures writes { (r : PlainReceiver) (l : Lane) → FitsLane (lane_at r l.0) (past_at r l.0) (act_of r l) }
    ensures stands { (r : PlainReceiver) (l : Lane) (put : Put) (step : Step) (p : Phase) → IsReceiver r → l.0 < length r.lanes → is_failure r.answer ≡ false
        → phase_with (lane_at r l.0) (past_at r l.0) put ≡ Some p → EndsIn (Unit {0}) (turn_plan r l put) step → StandsIn p l step.1 }
    ensures hears { (lane : RecvLane) (idle acked : Bool) (state : RecvState) (frame : Frame) (q : Phase) → phase_heard (Framed frame) (phase_by lane idle acked state) ≡ Some q
        → is_named (row_of lane.is_sized state (Got frame)) ≡ true }
    ensures takes { (lane : RecvLane) (count : ℕ) (q : Phase) → phase_taking lane count ≡ Some q → AsksPiece lane count }
{}

/// What landed adds up: block for block it is what is logged of it and then what isn't, of which an end that
/// hasn't failed has less than a batch behind each end of each step. Once all that landed is logged, the log
/// names and covers what is there: after the finish, it does. Behind blocks that landed, each one's file is named,
/// an empty one's, too, and each of its positions is there. That what is still to be logged continues the log
/// is asked of the caller.
pub fn batches_add_up()
    ensures begins { (log : Meaning) (batch n : ℕ) → IsTrue (is_view log.files) → 0 < batch → IsBatched (opened log batch (replicate n new_lane)) }
    ensures keeps { (r : PlainReceiver) (l : Lane) (put : Put) (step : Step) → IsBatched r → CanLog r l put → EndsIn (Unit {0}) (turn_plan r l put) step → IsBatched step.1 }
    ensures flushes { (r : PlainReceiver) → IsBatched r → Continues r.known r.log.files r.unlogged → IsBatched (all_logged r) }
    ensures follows { (r : PlainReceiver) → IsBatched r → Continues r.known r.log.files r.unlogged → marks_at r ≡ map marked_of (log_after r).files }
    ensures finished { (r : PlainReceiver) → IsReceiver r → IsBatched r → has_finish r ≡ true → (r.unlogged ≡ []) × (marks_at r ≡ map marked_of r.log.files) }
    ensures named { (files : List NamedFile) (blocks : List Block) (k : ℕ) (b : Block) → slice_get blocks k ≡ Some b → is_marked (marks_of files blocks) b.file ≡ true }
    ensures covered { (files : List NamedFile) (blocks : List Block) (k : ℕ) (b : Block) (position : ℕ) → IsTrue (is_view files) → slice_get blocks k ≡ Some b
        → b.offset ≤ position → position < b.offset + b.length → is_there (marks_of files blocks) b.file position ≡ true }
{}

/// What a receiver writes is its own to say and lies in the grammar's ranges, where what the log said as it was
/// opened can be told and the answer's code is one byte; and it stays one where what is read is in the ranges.
pub fn what_is_written_fits()
    ensures fits { (r : PlainReceiver) (l : Lane) → IsReceiver r → l.0 < length r.lanes → CanTell r → FitsAct (act_of r l) }
    ensures code { (r : PlainReceiver) (l : Lane) (put : Put) (step : Step) → FitsPut put → code_of r.answer ≤ 255 → EndsIn (Unit {0}) (turn_plan r l put) step → code_of step.1.answer ≤ 255 }
{}
