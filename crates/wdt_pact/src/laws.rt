//! Laws of two ends and their connections, by messages. The functions do nothing: their contracts are
//! the laws. `specs/Conversation` says how the two ends of each lane fit together; that a step keeps it is
//! said of each kind of step.
ghost use Rattle.std.specs.Prelude.{◌≡◌, ◌⊎◌, ℕ, ◌-◌, ◌^◌, ◌<◌, ◌≤◌, ◌++◌, List, [], ◌∷◌, length, replicate, slice_get, take, true, false, Bool, is_some, Option, Some, None};
ghost use Rattle.wdt_units.specs.declared.blocks.Block.{Block};
ghost use Rattle.wdt_units.specs.declared.blocks.Header.{Header};
ghost use Rattle.wdt_units.specs.declared.numbers.Conn.{Conn};
ghost use Rattle.wdt_codec.specs.Chunks.{FitsChunks};
ghost use Rattle.wdt_logfmt.specs.View.{Meaning, is_view};
ghost use Rattle.wdt_tree.specs.declared.entry.Entry.{Entry};
ghost use Rattle.wdt_codec.specs.Frames.{Fits};
ghost use Rattle.wdt_codec.specs.declared.frames.Frame.{Frame};
ghost use Rattle.wdt_codec.specs.declared.frames.Frame.TheVariants as frames;
ghost use Rattle.wdt_codec.specs.declared.frames.Mark.{Mark};
ghost use Rattle.wdt_codec.specs.declared.frames.Settings.{Settings};
ghost use Rattle.wdt_sender_fsm.specs.declared.acts.SendAct.TheVariants as acts;
ghost use Rattle.wdt_sender_fsm.specs.declared.answers.EndAnswer.TheVariants as answers;
ghost use Rattle.wdt_sender_fsm.specs.declared.peers.PeerKind.{PeerKind};
ghost use Rattle.wdt_sender_fsm.specs.Chunks.{unordered_at};
ghost use Rattle.wdt_sender_fsm.specs.declared.events.SendEvent.TheVariants.{Sent};
ghost use Rattle.wdt_sender_fsm.specs.declared.inputs.SendIn.TheVariants as inputs;
ghost use Rattle.wdt_sender_fsm.specs.declared.states.SendState.TheVariants as states;
ghost use Rattle.wdt_pact.specs.Stances.{IsTalking, has_link};
ghost use Rattle.wdt_sender_fsm.specs.PlainSender.{is_closed, lane_at, least_queued, new_lane, noted, opened, past_at, state_at, waiting_blocks};
ghost use Rattle.wdt_sender_fsm.specs.Faults.{count_fault, has_stranger, marks_fault};
ghost use Rattle.wdt_sender_fsm.specs.Phases.{Message, is_abort, is_named};
ghost use Rattle.wdt_sender_fsm.specs.Rows.{is_reading, row_of};
ghost use Rattle.wdt_sender_fsm.specs.Rules.{is_failure};
ghost use Rattle.wdt_sender_fsm.specs.Sender.{FitsIn};
ghost use Rattle.wdt_sender_fsm.specs.Writes.{IsLawful};
ghost use Rattle.wdt_receiver_fsm.specs.declared.acts.RecvAct.TheVariants as recv_acts;
ghost use Rattle.wdt_receiver_fsm.specs.declared.events.RecvEvent.TheVariants.{Idle};
ghost use Rattle.wdt_receiver_fsm.specs.declared.inputs.RecvIn.TheVariants.{Got};
ghost use Rattle.wdt_receiver_fsm.specs.declared.states.RecvState.TheVariants as recv_states;
ghost use Rattle.wdt_receiver_fsm.specs.Phases as recv_phases;
ghost use Rattle.wdt_receiver_fsm.specs.PlainReceiver as recv;
ghost use Rattle.wdt_receiver_fsm.specs.PlainReceiver.{have_now};
ghost use Rattle.wdt_receiver_fsm.specs.Rows as recv_rows;
ghost use Rattle.wdt_receiver_fsm.specs.Rows.{is_reading as receives_in};
ghost use Rattle.wdt_receiver_fsm.specs.Ready.{is_confirmed, is_ready};
ghost use Rattle.wdt_receiver_fsm.specs.ReceiverHistory.{end_of};
ghost use Rattle.std.specs.List.{flat_map, list_any};
ghost use Rattle.wdt_receiver_fsm.specs.Sets.{has, numbers};
ghost use Rattle.wdt_receiver_fsm.specs.Writes.{CanTell};
ghost use Rattle.wdt_pact.specs.Belongs.{RecvBelongsAt, RecvFits, SendBelongsAt};
ghost use Rattle.wdt_pact.specs.Bytes.{FitsFront, FrontDown, FrontUp, bytes_down, bytes_up};
ghost use Rattle.wdt_pact.specs.Clashes.{IsMissing, clash, heads_of};
ghost use Rattle.wdt_pact.specs.Conversation.{Conversation, common, receives, receiving, sending, sends};
ghost use Rattle.wdt_pact.specs.Each.{Each};
ghost use Rattle.wdt_pact.specs.Finishing.{ComesOfPlan, Finishing, IsBusy, IsTelling, receives_at, telling};
ghost use Rattle.wdt_pact.specs.Fitting.{AreOfLanes, GoesDown, IsSound, lane_of};
ghost use Rattle.wdt_pact.specs.Links.{front, size_down, size_up};
ghost use Rattle.wdt_pact.specs.Lists.{Splits};
ghost use Rattle.wdt_pact.specs.Measure.{measure};
ghost use Rattle.wdt_pact.specs.Meeting.{Meeting, totals_of};
ghost use Rattle.wdt_pact.specs.Pairs.{RecvDoes, RecvHas, RecvTook, SendDoes, SendHas};
ghost use Rattle.wdt_pact.specs.Progress.{GoesOn, HasStopped, Holds, Moves};
ghost use Rattle.wdt_pact.specs.Right.{IsRight};
ghost use Rattle.wdt_pact.specs.World.{Cut, PlainWorld, Receives, Sends, WorldEvent, all_happen, first_world, happens, number, pair_at, recv_steps, round_of, rounds, send_steps};
ghost use Rattle.wdt_sender_fsm.specs.declared.states.SendState.{SendState};

use wdt_receiver_fsm::receivers_stay_receivers;
use wdt_sender_fsm::{
    a_sender_speaks_in_turn, blocks_are_apart, blocks_keep_their_places, file_lists_are_compared,
    histories_are_sound, senders_stay_senders, steps_answer_rightly, steps_have_outcomes,
    steps_touch_their_lane, the_plan_is_the_rest,
};

/// A sender's lane comes to its blocks: its connection stands, what the sender is is written, and it is told
/// its count, of which it keeps so many of its blocks, so that these are what has landed on it.
pub fn a_lane_takes_up_its_connection()
    ensures linked { (w : PlainWorld) (l : ℕ) (lost : Option ℕ) → Conversation w → l < length w.pairs → state_at w.sender l ≡ states.Connect
        → (past_at w.sender l).claims.closed ≡ None → is_failure w.sender.answer ≡ false → (pair_at w l).send ≡ SendHas inputs.Linked
        → Conversation (send_steps w l lost) }
    ensures settings { (w : PlainWorld) (l : ℕ) (lost : Option ℕ) → Conversation w → l < length w.pairs → state_at w.sender l ≡ states.SendSettings
        → (past_at w.sender l).claims.closed ≡ None → is_failure w.sender.answer ≡ false → (pair_at w l).send ≡ SendHas inputs.Wrote
        → Conversation (send_steps w l lost) }
    ensures greeted { (w : PlainWorld) (l : ℕ) (lost : Option ℕ) (mark : Mark) → Conversation w → l < length w.pairs → state_at w.sender l ≡ states.ReadLocalCheckpoint
        → (past_at w.sender l).claims.closed ≡ None → is_failure w.sender.answer ≡ false → (pair_at w l).send ≡ SendHas (inputs.Got (frames.Greeting mark))
        → FitsIn (inputs.Got (frames.Greeting mark)) → Conversation (send_steps w l lost) }
{
    senders_stay_senders();
}

/// A sender's lane takes a block, and writes it, whole or until the source fails, and takes the next; or no block waits, and it says
/// that nothing more is to come, which is answered by a word to wait.
pub fn a_lane_sends_its_blocks()
    ensures claims { (w : PlainWorld) (l : ℕ) (lost : Option ℕ) (b : Block) → Conversation w → l < length w.pairs → state_at w.sender l ≡ states.SendSize
        → (past_at w.sender l).claims.closed ≡ None → is_failure w.sender.answer ≡ false → (pair_at w l).send ≡ SendHas inputs.Wrote
        → least_queued w.sender ≡ Some b → ((common w.receiver).finish ≡ true → ⊥) → Conversation (send_steps w l lost) }
    ensures writes { (w : PlainWorld) (l : ℕ) (lost : Option ℕ) (header : Header) → Conversation w → l < length w.pairs → state_at w.sender l ≡ states.SendBlocks
        → (pair_at w l).send ≡ SendDoes (acts.SendBlock header) → Conversation (send_steps w l lost) }
    ensures next { (w : PlainWorld) (l : ℕ) (lost : Option ℕ) (b : Block) → Conversation w → l < length w.pairs → state_at w.sender l ≡ states.SendBlocks
        → (past_at w.sender l).claims.closed ≡ None → is_failure w.sender.answer ≡ false → (pair_at w l).send ≡ SendHas inputs.Wrote
        → least_queued (noted w.sender (Sent (number l) ∷ [])) ≡ Some b → ((common w.receiver).finish ≡ true → ⊥) → Conversation (send_steps w l lost) }
    ensures fails { (w : PlainWorld) (l : ℕ) (lost : Option ℕ) (unwritten : Bool) → Conversation w → l < length w.pairs → state_at w.sender l ≡ states.SendBlocks
        → (past_at w.sender l).claims.closed ≡ None → (past_at w.sender l).is_acked ≡ false → is_failure w.sender.answer ≡ false
        → (pair_at w l).send ≡ SendHas (inputs.SourceLost unwritten) → Conversation (send_steps w l lost) }
    ensures empties { (w : PlainWorld) (l : ℕ) (lost : Option ℕ) → Conversation w → l < length w.pairs → state_at w.sender l ≡ states.SendSize
        → (past_at w.sender l).claims.closed ≡ None → is_failure w.sender.answer ≡ false → (pair_at w l).send ≡ SendHas inputs.Wrote
        → least_queued w.sender ≡ None → Conversation (send_steps w l lost) }
    ensures concludes { (w : PlainWorld) (l : ℕ) (lost : Option ℕ) → Conversation w → l < length w.pairs → state_at w.sender l ≡ states.SendDone
        → (past_at w.sender l).claims.closed ≡ None → is_failure w.sender.answer ≡ false → (pair_at w l).send ≡ SendHas inputs.Wrote
        → Conversation (send_steps w l lost) }
    ensures waits { (w : PlainWorld) (l : ℕ) (lost : Option ℕ) → Conversation w → l < length w.pairs → state_at w.sender l ≡ states.ReadReceiverCmd
        → (past_at w.sender l).claims.closed ≡ None → is_failure w.sender.answer ≡ false → (pair_at w l).send ≡ SendHas (inputs.Got frames.Wait)
        → Conversation (send_steps w l lost) }
{
    senders_stay_senders();
}

/// What a sender's lane writes of itself, of all that is sent, as its last word and of a failure is a move of
/// its phase there, or told behind the others, on the taken connection and on one that waits.
pub fn what_is_written_is_a_move()
    ensures settings { (w : PlainWorld) (l : ℕ) (lost : Option ℕ) (settings : Settings) → Conversation w → l < length w.pairs → state_at w.sender l ≡ states.SendSettings
        → (pair_at w l).send ≡ SendDoes (acts.Write (frames.Settings settings)) → settings.ask ≡ (lane_at w.sender l).ask → Conversation (send_steps w l lost) }
    ensures size { (w : PlainWorld) (l : ℕ) (lost : Option ℕ) (files bytes : ℕ) → Conversation w → l < length w.pairs → state_at w.sender l ≡ states.SendSize
        → (pair_at w l).send ≡ SendDoes (acts.Write (frames.Size files bytes)) → Conversation (send_steps w l lost) }
    ensures done { (w : PlainWorld) (l : ℕ) (lost : Option ℕ) → Conversation w → l < length w.pairs → state_at w.sender l ≡ states.SendDone
        → (pair_at w l).send ≡ SendDoes (acts.Write frames.Done) → Conversation (send_steps w l lost) }
    ensures abort { (w : PlainWorld) (l : ℕ) (lost : Option ℕ) (code : ℕ) → Conversation w → l < length w.pairs → state_at w.sender l ≡ states.SendAbort
        → (pair_at w l).send ≡ SendDoes (acts.Write (frames.Abort code)) → Conversation (send_steps w l lost) }
{}

/// A lane that reads is given the frame at the front, which leads to a phase or tells of a failure; or its
/// connection is lost; or nothing changes.
pub fn what_is_read_is_understood()
    ensures sends { (w : PlainWorld) (l : ℕ) (lost : Option ℕ) → Conversation w → l < length w.pairs → is_reading (state_at w.sender l) ≡ true
        → (pair_at w l).send ≡ SendDoes acts.Read → Conversation (send_steps w l lost) }
    ensures receives { (w : PlainWorld) (l : ℕ) (broken : Option ℕ) → Conversation w → l < length w.pairs → receives_in (recv.state_at w.receiver l) ≡ true
        → (pair_at w l).recv ≡ RecvDoes recv_acts.Read → Conversation (recv_steps w l broken) }
{}

/// A lane that loses its connection dials again, or is given up where its counts are used up.
pub fn a_lost_connection_is_made_again()
    ensures { (w : PlainWorld) (l : ℕ) (lost : Option ℕ) (state : SendState) → Conversation w → l < length w.pairs → has_link state ≡ true → state_at w.sender l ≡ state
        → (past_at w.sender l).claims.closed ≡ None → is_failure w.sender.answer ≡ false → (pair_at w l).send ≡ SendHas inputs.Lost → Conversation (send_steps w l lost) }
{
    senders_stay_senders();
}

/// A connection may be cut at any time, and the receiver's lane may take the next one.
pub fn connections_are_cut_and_taken()
    ensures cut { (w : PlainWorld) (l down up : ℕ) → Conversation w → l < length w.pairs → Conversation (happens w (Cut l down up)) }
    ensures taken { (w : PlainWorld) (l : ℕ) → Conversation w → l < length w.pairs → recv.state_at w.receiver l ≡ recv_states.Listen
        → (pair_at w l).recv ≡ RecvDoes recv_acts.Accept → Conversation (recv_steps w l None) }
{}

/// A piece of a block is taken from the front, or the connection is lost; and the last piece lands the block.
pub fn blocks_land()
    ensures taken { (w : PlainWorld) (l wanted : ℕ) (broken : Option ℕ) → Conversation w → l < length w.pairs → recv.state_at w.receiver l ≡ recv_states.TakeBlock
        → (pair_at w l).recv ≡ RecvDoes (recv_acts.TakePiece wanted) → Conversation (recv_steps w l broken) }
    ensures landed { (w : PlainWorld) (l n : ℕ) (b : Block) → Conversation w → l < length w.pairs → recv.state_at w.receiver l ≡ recv_states.TakeBlock
        → is_failure w.receiver.answer ≡ false → (pair_at w l).recv ≡ RecvTook n → (recv.lane_at w.receiver l).left - n ≡ 0
        → (recv.past_at w.receiver l).begun ≡ Some b → Conversation (recv_steps w l None) }
{
    receivers_stay_receivers();
}

/// Whatever a sender's lane holds, and wherever its source fails, behind its step the two ends of each lane fit
/// together, and what each lane of the sender holds belongs to its state.
pub fn a_sender_keeps_the_conversation()
    ensures talks { (w : PlainWorld) (l : ℕ) (lost : Option ℕ) → Conversation w → Finishing w → l < length w.pairs → SendBelongsAt w l → Conversation (send_steps w l lost) }
    ensures belongs { (w : PlainWorld) (l k : ℕ) (lost : Option ℕ) → Conversation w → l < length w.pairs → ((i : ℕ) → i < length w.pairs → SendBelongsAt w i)
        → k < length (send_steps w l lost).pairs → SendBelongsAt (send_steps w l lost) k }
{
    senders_stay_senders();
    steps_have_outcomes();
    steps_touch_their_lane();
}

/// Whatever a receiver's lane holds, and whichever program of its calls on the disk fails, behind its step the two
/// ends of each lane fit together, and what each lane of the receiver holds belongs to its state. What is read is asked
/// to lie in the grammar's ranges, and what the log said as it was opened in those of a frame.
pub fn a_receiver_keeps_the_conversation()
    ensures talks { (w : PlainWorld) (l : ℕ) (broken : Option ℕ) → Conversation w → Finishing w → l < length w.pairs → RecvBelongsAt w l
        → RecvFits (pair_at w l).recv → CanTell w.receiver → Conversation (recv_steps w l broken) }
    ensures belongs { (w : PlainWorld) (l k : ℕ) (broken : Option ℕ) → Conversation w → l < length w.pairs → ((i : ℕ) → i < length w.pairs → RecvBelongsAt w i)
        → k < length (recv_steps w l broken).pairs → RecvBelongsAt (recv_steps w l broken) k }
{
    histories_are_sound();
}

/// A world that begins is sound, and its finish is as it must be: of a tree within the sender's limits, and a log that
/// the receiver can tell.
pub fn worlds_begin_sound()
    ensures sound { (manifest : List Entry) (block session : ℕ) (log : Meaning) (batch n : ℕ) (conn : Conn) → 1 ≤ n → n ≤ 16
        → IsLawful (opened manifest block session (replicate n new_lane)) → ((file : ℕ) (entry : Entry) → slice_get manifest file ≡ Some entry → entry.stamp ≤ 2 ^ 64 - 1)
        → FitsChunks (have_now log.files []) → IsSound (first_world manifest block session log batch n conn) }
    ensures finishing { (manifest : List Entry) (block session : ℕ) (log : Meaning) (batch n : ℕ) (conn : Conn) → 1 ≤ n → Finishing (first_world manifest block session log batch n conn) }
{
    receivers_stay_receivers();
    senders_stay_senders();
}

/// In a sound world no lane reads what may not come: each frame that one has read tells of a failure, or has its row of
/// the table.
pub fn what_is_read_may_come()
    ensures receives { (w : PlainWorld) (l : ℕ) (frame : Frame) → IsSound w → l < length w.pairs → (pair_at w l).recv ≡ RecvHas (Got frame) → is_abort frame ≡ false
        → recv_phases.is_named (recv_rows.row_of (recv.lane_at w.receiver l).is_sized (recv.state_at w.receiver l) (Got frame)) ≡ true }
    ensures sends { (w : PlainWorld) (l : ℕ) (frame : Frame) → IsSound w → l < length w.pairs → (pair_at w l).send ≡ SendHas (inputs.Got frame) → is_abort frame ≡ false
        → is_named (row_of (state_at w.sender l) (inputs.Got frame)) ≡ true }
{
    a_sender_speaks_in_turn();
}

/// A count that a sender's lane has read is right: it is told of that lane, or of another one that is there, and lies
/// between what has surely landed and all that the lane has claimed; of a closed lane it is the one that closed it.
pub fn counts_are_right()
    ensures greeting { (w : PlainWorld) (l : ℕ) (mark : Mark) → Conversation w → l < length w.pairs → state_at w.sender l ≡ states.ReadLocalCheckpoint
        → (pair_at w l).send ≡ SendHas (inputs.Got (frames.Greeting mark)) → (mark.lane.0 ≡ l) × (count_fault (past_at w.sender l).claims mark.count ≡ None) }
    ensures marks { (w : PlainWorld) (l : ℕ) (marks : List Mark) → Conversation w → l < length w.pairs → state_at w.sender l ≡ states.ReadReceiverCmd
        → (pair_at w l).send ≡ SendHas (inputs.Got (frames.ErrMarks marks)) → (has_stranger (length w.sender.lanes) l marks ≡ false) × (marks_fault w.sender.history marks ≡ None) }
{
    histories_are_sound();
}

/// The blocks that have landed on a lane are the first that its sender claimed, in the same order.
pub fn blocks_land_in_order()
    ensures { (w : PlainWorld) (l : ℕ) → Conversation w → l < length w.pairs → take (length (receiving w.receiver l).landed) (sending w.sender l).kept ≡ (receiving w.receiver l).landed }
{}

/// Whatever happens to a sound world, a step of either end, a cut, or a try to make or to take a connection that is to
/// fail, it stays sound: the ends of each lane fit together, what each lane holds belongs to its state, and what is
/// said lies in the grammar's ranges.
pub fn every_event_keeps_a_world_sound()
    ensures { (w : PlainWorld) (e : WorldEvent) → IsSound w → Finishing w → lane_of e < length w.pairs → IsSound (happens w e) }
{
    histories_are_sound();
    senders_stay_senders();
    steps_answer_rightly();
    steps_have_outcomes();
    steps_touch_their_lane();
}

/// A receiver's lane tells of closed lanes alone. What it told of on its connection the sender knows, or the lane isn't
/// idle and tells of it still.
pub fn lanes_tell_of_closed_lanes()
    ensures closed { (w : PlainWorld) (l q : ℕ) → Conversation w → has (recv.past_at w.receiver l).telling q ≡ true → (recv.past_at w.receiver q).is_closed ≡ true }
    ensures known { (w : PlainWorld) (l q : ℕ) → Conversation w → (recv.past_at w.receiver l).is_up ≡ true → has (recv.past_at w.receiver l).told q ≡ true
        → (is_confirmed w.receiver.history q ≡ true) ⊎ (((recv.past_at w.receiver l).is_idle ≡ false) × (has (recv.past_at w.receiver l).telling q ≡ true)) }
{}

/// Whatever happens to a sound world, a closed lane that is confirmed at the receiver is closed at the sender, too: where the
/// lane that told of it asks for the end again, the sender has read that it is closed.
pub fn confirmed_lanes_are_known()
    ensures { (w : PlainWorld) (e : WorldEvent) → IsSound w → Finishing w → lane_of e < length w.pairs → (q : ℕ) → is_confirmed (happens w e).receiver.history q ≡ true
        → is_closed (happens w e).sender q ≡ true }
{
    histories_are_sound();
    steps_touch_their_lane();
}

/// Whatever happens to a sound world, a finish that is ready comes in the very step with which it is, unless the receiver's
/// end fails in it.
pub fn a_ready_finish_comes()
    ensures { (w : PlainWorld) (e : WorldEvent) → IsSound w → Finishing w → lane_of e < length w.pairs → is_failure (happens w e).receiver.answer ≡ false
        → recv.can_finish (happens w e).receiver ≡ true → recv.has_finish (happens w e).receiver ≡ true }
{
    histories_are_sound();
    steps_touch_their_lane();
}

/// Whatever happens to a sound world, of a closed lane of which a lane that talks has told the sender knows or will know: the mark
/// is to be written, or on its way to a sender that listens; or the sender says nothing more there, and its last word isn't
/// on its way.
pub fn tellings_reach_the_sender()
    ensures { (w : PlainWorld) (e : WorldEvent) → IsSound w → Finishing w → lane_of e < length w.pairs → (l q : ℕ) → l < length (happens w e).pairs
        → IsTalking (receives_at (happens w e) l) → has (telling (happens w e) l) q ≡ true → IsTelling (happens w e) l q }
{
    histories_are_sound();
    steps_have_outcomes();
    steps_touch_their_lane();
}

/// Whatever happens to a sound world, behind the finish no block waits at the sender, and the sender has a plan, so that none will.
/// What is sent in all is told, and was read, only where the sender has one.
pub fn nothing_waits_behind_the_finish()
    ensures empty { (w : PlainWorld) (e : WorldEvent) → IsSound w → Finishing w → lane_of e < length w.pairs → recv.has_finish (happens w e).receiver ≡ true → waiting_blocks (happens w e).sender ≡ [] }
    ensures planned { (w : PlainWorld) (e : WorldEvent) → IsSound w → Finishing w → lane_of e < length w.pairs → recv.has_finish (happens w e).receiver ≡ true → is_some (happens w e).sender.have ≡ true }
    ensures told { (w : PlainWorld) (e : WorldEvent) (l : ℕ) → IsSound w → Finishing w → lane_of e < length w.pairs → l < length (happens w e).pairs
        → GoesDown (ComesOfPlan (is_some (happens w e).sender.have)) (pair_at (happens w e) l) }
    ensures sized { (w : PlainWorld) (e : WorldEvent) → IsSound w → Finishing w → lane_of e < length w.pairs → ((end_of (happens w e).receiver.history).sized ≡ None → ⊥)
        → is_some (happens w e).sender.have ≡ true }
{
    histories_are_sound();
    steps_have_outcomes();
    steps_touch_their_lane();
}

/// Whatever happens to a sound world, as long as blocks wait at the sender and the receiver's end hasn't failed, some lane may
/// still take them: an open one on which the sender's last word neither was read nor comes, or a closed one whose blocks
/// will go to such a lane.
pub fn waiting_blocks_have_a_lane()
    ensures { (w : PlainWorld) (e : WorldEvent) → IsSound w → Finishing w → lane_of e < length w.pairs → is_failure (happens w e).receiver.answer ≡ false → (waiting_blocks (happens w e).sender ≡ [] → ⊥)
        → (l : ℕ) × (l < length (happens w e).pairs) × IsBusy (happens w e) l }
{
    histories_are_sound();
    senders_stay_senders();
    steps_answer_rightly();
    steps_have_outcomes();
    steps_touch_their_lane();
}

/// Whatever happens to a sound world whose finish is as it must be, event after event, it stays sound, and its finish as it must
/// be. So does a world that begins, of a tree within the sender's limits and a log that the receiver can tell.
pub fn worlds_stay_sound()
    ensures event { (w : PlainWorld) (e : WorldEvent) → IsSound w → Finishing w → lane_of e < length w.pairs → Finishing (happens w e) }
    ensures events { (w : PlainWorld) (es : List WorldEvent) → IsSound w → Finishing w → AreOfLanes (length w.pairs) es → IsSound (all_happen w es) × Finishing (all_happen w es) }
    ensures begun { (manifest : List Entry) (block session : ℕ) (log : Meaning) (batch n : ℕ) (conn : Conn) (es : List WorldEvent) → 1 ≤ n → n ≤ 16
        → IsLawful (opened manifest block session (replicate n new_lane)) → ((file : ℕ) (entry : Entry) → slice_get manifest file ≡ Some entry → entry.stamp ≤ 2 ^ 64 - 1)
        → FitsChunks (have_now log.files []) → AreOfLanes n es → IsSound (all_happen (first_world manifest block session log batch n conn) es) × Finishing (all_happen (first_world manifest block session log batch n conn) es) }
{
    histories_are_sound();
    senders_stay_senders();
    receivers_stay_receivers();
    steps_answer_rightly();
    steps_have_outcomes();
    steps_touch_their_lane();
}

/// In a sound world whose finish is as it must be nothing goes wrong at any lane, and so in each that began, whatever happened
/// to it: no frame is unexpected, no count is wrong, and neither the finish nor the last word that tells of it is early.
pub fn nothing_goes_wrong()
    ensures lane { (w : PlainWorld) (l : ℕ) → IsSound w → Finishing w → l < length w.pairs → IsRight w l }
    ensures begun { (manifest : List Entry) (block session : ℕ) (log : Meaning) (batch n : ℕ) (conn : Conn) (es : List WorldEvent) (l : ℕ) → 1 ≤ n → n ≤ 16
        → IsLawful (opened manifest block session (replicate n new_lane)) → ((file : ℕ) (entry : Entry) → slice_get manifest file ≡ Some entry → entry.stamp ≤ 2 ^ 64 - 1)
        → FitsChunks (have_now log.files []) → AreOfLanes n es → l < n → IsRight (all_happen (first_world manifest block session log batch n conn) es) l }
{
    histories_are_sound();
    senders_stay_senders();
    receivers_stay_receivers();
    steps_answer_rightly();
    steps_have_outcomes();
    steps_touch_their_lane();
    a_sender_speaks_in_turn();
}

/// Where what the destination had is in order, a sender finds no fault with its receiver: whatever happens to a sound world
/// whose finish is as it must be, the sender's end doesn't come to say what the receiver did wrong; and in a world that
/// began it never does.
pub fn a_sender_finds_no_fault()
    ensures event { (w : PlainWorld) (e : WorldEvent) (kind : PeerKind) → IsSound w → Finishing w → unordered_at (have_now w.receiver.opening w.receiver.history) ≡ None → lane_of e < length w.pairs
        → (happens w e).sender.answer ≡ answers.Peer kind → w.sender.answer ≡ answers.Peer kind }
    ensures begun { (manifest : List Entry) (block session : ℕ) (log : Meaning) (batch n : ℕ) (conn : Conn) (es : List WorldEvent) (kind : PeerKind) → 1 ≤ n → n ≤ 16
        → IsLawful (opened manifest block session (replicate n new_lane)) → ((file : ℕ) (entry : Entry) → slice_get manifest file ≡ Some entry → entry.stamp ≤ 2 ^ 64 - 1)
        → FitsChunks (have_now log.files []) → unordered_at (have_now log.files []) ≡ None → AreOfLanes n es
        → (all_happen (first_world manifest block session log batch n conn) es).sender.answer ≡ answers.Peer kind → ⊥ }
{
    histories_are_sound();
    senders_stay_senders();
    receivers_stay_receivers();
    steps_answer_rightly();
    steps_have_outcomes();
    steps_touch_their_lane();
    a_sender_speaks_in_turn();
    file_lists_are_compared();
}

/// What a sender says of itself, of all that is sent and of its files is so, whatever happens to a sound world, and what its
/// receiver knows is what it said: the settings and totals that were read first, and each file's size and stamp; and the
/// numbers of connections that it tells rise. So it is in a world that begins.
pub fn the_ends_have_met()
    ensures event { (w : PlainWorld) (e : WorldEvent) → IsSound w → Meeting w → lane_of e < length w.pairs → Meeting (happens w e) }
    ensures begins { (manifest : List Entry) (block session : ℕ) (log : Meaning) (batch n : ℕ) (conn : Conn) → Meeting (first_world manifest block session log batch n conn) }
{
    steps_answer_rightly();
    steps_have_outcomes();
    steps_touch_their_lane();
}

/// Where the log is one that can be read, a receiver finds no fault with its sender: whatever happens to a sound world whose
/// finish is as it must be, the receiver's end doesn't come to say what the sender did wrong, neither with what it tells of
/// itself, of all that is sent and of its files, nor with a block's place, a count's limit or the sum at the finish; and in a
/// world that began it never does.
pub fn a_receiver_finds_no_fault()
    ensures event { (w : PlainWorld) (e : WorldEvent) (kind : PeerKind) → IsSound w → Finishing w → Meeting w → is_view w.receiver.opening ≡ true → lane_of e < length w.pairs
        → (happens w e).receiver.answer ≡ answers.Peer kind → w.receiver.answer ≡ answers.Peer kind }
    ensures begun { (manifest : List Entry) (block session : ℕ) (log : Meaning) (batch n : ℕ) (conn : Conn) (es : List WorldEvent) (kind : PeerKind) → 1 ≤ n → n ≤ 16
        → IsLawful (opened manifest block session (replicate n new_lane)) → ((file : ℕ) (entry : Entry) → slice_get manifest file ≡ Some entry → entry.stamp ≤ 2 ^ 64 - 1)
        → FitsChunks (have_now log.files []) → is_view log.files ≡ true → AreOfLanes n es
        → (all_happen (first_world manifest block session log batch n conn) es).receiver.answer ≡ answers.Peer kind → ⊥ }
{
    histories_are_sound();
    senders_stay_senders();
    receivers_stay_receivers();
    steps_answer_rightly();
    steps_have_outcomes();
    steps_touch_their_lane();
    blocks_are_apart();
    blocks_keep_their_places();
    the_plan_is_the_rest();
    file_lists_are_compared();
}

/// A block that a lane of the receiver has read in a sound world is new: on no lane a block that landed or is begun clashes with it, and
/// the destination had nothing of it. So none of its positions is written twice.
pub fn the_next_block_is_new()
    ensures apart { (w : PlainWorld) (l : ℕ) (h : Header) → IsSound w → l < length w.pairs → recv.state_at w.receiver l ≡ recv_states.ReadNextCmd
        → (pair_at w l).recv ≡ RecvHas (Got (frames.Block h)) → list_any (clash h) (flat_map (λ (k : ℕ). heads_of (receiving w.receiver k)) (numbers (length w.pairs))) ≡ false }
    ensures missing { (w : PlainWorld) (l : ℕ) (h : Header) → IsSound w → Finishing w → l < length w.pairs → recv.state_at w.receiver l ≡ recv_states.ReadNextCmd
        → (pair_at w l).recv ≡ RecvHas (Got (frames.Block h)) → IsMissing (common w.receiver).have h }
{
    blocks_are_apart();
    the_plan_is_the_rest();
}

/// Where the finish has come, the totals that the receiver read are those of the sender's tree. A receiver finishes only where as
/// many files are named and as many bytes are there as it read, so these are as many as the tree's.
pub fn the_finish_is_of_the_tree()
    ensures { (w : PlainWorld) → IsSound w → Meeting w → recv.has_finish w.receiver ≡ true → (end_of w.receiver.history).sized ≡ Some (totals_of w.sender.manifest) }
{}

/// Where the sender's answer is that it is done, the receiver's finish has come, and so each lane has landed all that it claimed,
/// in the same order, and no block waits.
pub fn a_done_sender_has_all_landed()
    ensures finish { (w : PlainWorld) → IsSound w → Finishing w → w.sender.answer ≡ answers.Done → recv.has_finish w.receiver ≡ true }
    ensures landed { (w : PlainWorld) (l : ℕ) → IsSound w → Finishing w → l < length w.pairs → w.sender.answer ≡ answers.Done
        → ((sending w.sender l).kept ≡ (receiving w.receiver l).landed) × (waiting_blocks w.sender ≡ []) }
{
    histories_are_sound();
    a_sender_speaks_in_turn();
}

/// Where a lane reads that nothing more is to come, and the receiver is ready for the finish with it, no block
/// waits at the sender, and each lane has landed all that it claimed, and holds no block.
pub fn the_finish_is_right()
    ensures empty { (w : PlainWorld) (l : ℕ) → Conversation w → Finishing w → l < length w.pairs → recv.state_at w.receiver l ≡ recv_states.ReadNextCmd
        → (recv.lane_at w.receiver l).is_sized ≡ true → (pair_at w l).recv ≡ RecvHas (Got frames.Done) → is_failure w.receiver.answer ≡ false
        → is_ready (length w.receiver.lanes) (w.receiver.history ++ Idle (number l) ∷ []) ≡ true → waiting_blocks w.sender ≡ [] }
    ensures landed { (w : PlainWorld) (l k : ℕ) → Conversation w → Finishing w → l < length w.pairs → recv.state_at w.receiver l ≡ recv_states.ReadNextCmd
        → (recv.lane_at w.receiver l).is_sized ≡ true → (pair_at w l).recv ≡ RecvHas (Got frames.Done) → is_failure w.receiver.answer ≡ false
        → is_ready (length w.receiver.lanes) (w.receiver.history ++ Idle (number l) ∷ []) ≡ true → k < length w.pairs
        → Splits (sending w.sender k).kept (receiving w.receiver k).landed [] × ((past_at w.sender k).claims.held ≡ false) }
{
    histories_are_sound();
}

/// In a sound world its readers listen, what is about to be written are moves, and what was left behind is cut. So at
/// each lane an end can move, or the receiver waits for other lanes, or both ends have stopped.
pub fn one_end_can_move()
    ensures holds { (w : PlainWorld) (l : ℕ) → IsSound w → l < length w.pairs
        → Holds (sends (sending w.sender l) (pair_at w l)) (receives (receiving w.receiver l) (pair_at w l)) (state_at w.sender l) (recv.state_at w.receiver l) (pair_at w l) }
    ensures moves { (w : PlainWorld) (l : ℕ) → IsSound w → l < length w.pairs → Moves (pair_at w l) }
{}

/// A sound world stands still only where both ends of all its lanes have stopped: else an end of some lane can move, or a lane of the
/// receiver that waits for the others goes on once woken, since it is told that they are through, or has to tell of one.
pub fn no_world_stands_still()
    ensures { (w : PlainWorld) → IsSound w → ((l : ℕ) × (l < length w.pairs) × GoesOn w l) ⊎ ((l : ℕ) → l < length w.pairs → HasStopped w l) }
{}

/// Each step of either end leaves a sound world, whose finish is as it must be, as it is, or makes its measure fall, a number that
/// is reckoned from what is held, what is on its way and what may still be done. A cut doesn't raise it.
pub fn every_step_leaves_less_to_do()
    ensures sends { (w : PlainWorld) (l : ℕ) (lost : Option ℕ) → IsSound w → Finishing w → l < length w.pairs
        → (happens w (Sends l lost) ≡ w) ⊎ (measure (happens w (Sends l lost)) < measure w) }
    ensures receives { (w : PlainWorld) (l : ℕ) (broken : Option ℕ) → IsSound w → l < length w.pairs
        → (happens w (Receives l broken) ≡ w) ⊎ (measure (happens w (Receives l broken)) < measure w) }
    ensures cut { (w : PlainWorld) (l down up : ℕ) → l < length w.pairs → measure (happens w (Cut l down up)) ≤ measure w }
{
    histories_are_sound();
    senders_stay_senders();
    steps_answer_rightly();
    steps_have_outcomes();
    steps_touch_their_lane();
    blocks_keep_their_places();
}

/// A sound world whose finish is as it must be settles: behind as many rounds as its measure says, in each of which each lane of both
/// ends takes a step, a further round changes nothing. Where a round changes nothing, both ends of each lane have stopped. So they
/// have in each world that began, whatever happened to it, once it has settled.
pub fn a_world_settles()
    ensures settled { (w : PlainWorld) → IsSound w → Finishing w → round_of (rounds (measure w) w) ≡ rounds (measure w) w }
    ensures ended { (w : PlainWorld) (l : ℕ) → IsSound w → Finishing w → round_of w ≡ w → l < length w.pairs → HasStopped w l }
    ensures begun { (manifest : List Entry) (block session : ℕ) (log : Meaning) (batch n : ℕ) (conn : Conn) (es : List WorldEvent) (l : ℕ) → 1 ≤ n → n ≤ 16
        → IsLawful (opened manifest block session (replicate n new_lane)) → ((file : ℕ) (entry : Entry) → slice_get manifest file ≡ Some entry → entry.stamp ≤ 2 ^ 64 - 1)
        → FitsChunks (have_now log.files []) → AreOfLanes n es → l < n → let v = all_happen (first_world manifest block session log batch n conn) es in HasStopped (rounds (measure v) v) l }
{
    histories_are_sound();
    senders_stay_senders();
    receivers_stay_receivers();
    steps_answer_rightly();
    steps_have_outcomes();
    steps_touch_their_lane();
    blocks_keep_their_places();
}

/// What is read of bytes that were cut anywhere is the message at the front, exactly where it can be taken
/// whole: of the receiver's frames, and of the sender's frames and pieces, whatever the blocks hold.
pub fn what_is_read_was_written()
    ensures up { (sent : List Frame) (room : Option ℕ) → Each Fits sent → FrontUp (front size_up record { sent = sent; room = room }) (bytes_up record { sent = sent; room = room }) }
    ensures down { (content : Header → List ℕ) (left : List ℕ) (sent : List Message) (room : Option ℕ) → FitsFront left sent
        → FrontDown content left (front size_down record { sent = sent; room = room }) (bytes_down content left record { sent = sent; room = room }) }
{}
