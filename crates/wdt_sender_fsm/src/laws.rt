//! Laws of what the specifications of this crate define. The functions do nothing: their contracts
//! are the laws.
ghost use Rattle.std.specs.Prelude.{◌≡◌, ℕ, ◌+◌, ◌<◌, Bool, ◌↔◌, ◌⊎◌, true, false, List, [], ◌∷◌, ◌++◌, length, map, replicate, slice_index_or, slice_set, None, Some};
ghost use Rattle.wdt_units.specs.Have.{HaveFile};
ghost use Rattle.wdt_claims.specs.LaneWords.{no_claims, claimed, cut_to, finished, sent};
ghost use Rattle.wdt_units.specs.declared.blocks.Block.{Block};
ghost use Rattle.wdt_units.specs.declared.numbers.Lane.{Lane};
ghost use Rattle.wdt_claims.specs.Places.{is_among, place_of};
ghost use Rattle.wdt_claims.specs.declared.place.Place.TheVariants.{Confirmed};
ghost use Rattle.wdt_codec.specs.declared.frames.Frame.{Frame};
ghost use Rattle.wdt_codec.specs.declared.frames.Frame.TheVariants as frames;
ghost use Rattle.wdt_ranges.specs.Files.{is_in_order};
ghost use Rattle.wdt_tree.specs.Rest.{is_earlier, is_rising};
ghost use Rattle.wdt_sender_fsm.specs.declared.events.SendEvent.{SendEvent};
ghost use Rattle.wdt_sender_fsm.specs.declared.events.SendEvent.TheVariants as events;
ghost use Rattle.wdt_sender_fsm.specs.declared.inputs.SendIn.{SendIn};
ghost use Rattle.wdt_sender_fsm.specs.declared.inputs.SendIn.TheVariants.{Got};
ghost use Rattle.wdt_sender_fsm.specs.declared.states.SendState.{SendState};
ghost use Rattle.wdt_sender_fsm.specs.Chunks.{different_at, unordered_at};
ghost use Rattle.wdt_sender_fsm.specs.Legal.{HasLanded, IsAllowed, IsLegal, IsSound};
ghost use Rattle.wdt_sender_fsm.specs.Phases.{Phase, Message, Agree, FitsLane, StandsIn, down, up, phase_by, phase_heard, phase_holding, is_named};
ghost use Rattle.wdt_sender_fsm.specs.Places.{AreShared, changes_claims, claims_of, least_of, planned_now, queued};
ghost use Rattle.wdt_sender_fsm.specs.PlainSender.{PlainSender, is_closed, lane_at};
ghost use Rattle.wdt_sender_fsm.specs.Rows.{row_of};
ghost use Rattle.wdt_sender_fsm.specs.Rules.{is_failure};
ghost use Rattle.wdt_sender_fsm.specs.SenderHistory.{close_by, end_from, end_of, past_from, past_of};
ghost use Rattle.wdt_sender_fsm.specs.Turn.{send_turn};
ghost use Rattle.wdt_sender_fsm.specs.Worked.{lane, mark, one_lane, wrongly_greeted, rightly_greeted, two_lanes, done_early, two_unlisted, done_before_a_plan, half_lost, taken_over};

/// Steps that were worked out by hand: counts that may not be told and one that may, a last word that
/// comes too early, and a block that is taken over from a closed lane.
pub fn worked_steps()
    ensures greeted_wrongly { send_turn one_lane (lane 0) (Got (frames.Greeting (mark 0 1))) ≡ wrongly_greeted }
    ensures greeted_rightly { send_turn one_lane (lane 0) (Got (frames.Greeting (mark 0 0))) ≡ rightly_greeted }
    ensures finished_early { send_turn two_lanes (lane 1) (Got frames.Done) ≡ done_early }
    ensures finished_before_a_plan { send_turn two_unlisted (lane 1) (Got frames.Done) ≡ done_before_a_plan }
    ensures took_over { send_turn half_lost (lane 1) (Got (frames.ErrMarks (mark 0 0 ∷ []))) ≡ taken_over }
{}

/// What a legal history says: of each lane; that a closed lane stays closed; that a block which has
/// surely landed stays so, and that each of the plan has once a lane read the receiver's last word, when
/// nothing waits or is being written either; and
/// that each block of the plan stands once, in the queue or in one lane's list.
pub fn histories_are_sound()
    ensures sound { (n : ℕ) (planned : List Block) (h : List SendEvent) (l : ℕ) → IsLegal n planned h → IsSound (past_of h l) }
    ensures landed { (n : ℕ) (planned : List Block) (h : List SendEvent) → IsLegal n planned h → (end_of h).has_finish ≡ true → HasLanded n planned h }
    ensures last_word { (n : ℕ) (planned : List Block) (h : List SendEvent) (l : ℕ) → IsLegal n planned h → (past_of h l).has_finish ≡ true → (end_of h).has_finish ≡ true }
    ensures closed { (h : List SendEvent) (e : SendEvent) (l m : ℕ) → (past_of h l).claims.closed ≡ Some m → (past_of (h ++ e ∷ []) l).claims.closed ≡ Some m }
    ensures confirmed { (n : ℕ) (planned : List Block) (h : List SendEvent) (e : SendEvent) (b : Block) → IsAllowed n planned h e → place_of b (claims_of n h) ≡ Confirmed → place_of b (claims_of n (h ++ e ∷ [])) ≡ Confirmed }
    ensures finished { (n : ℕ) (planned : List Block) (h : List SendEvent) (b : Block) → IsLegal n planned h → (end_of h).has_finish ≡ true → is_among planned b ≡ true → place_of b (claims_of n h) ≡ Confirmed }
    ensures placed { (n : ℕ) (planned : List Block) (h : List SendEvent) → is_rising planned ≡ true → IsLegal n planned h → AreShared (planned_now planned h) (queued n planned h) (claims_of n h) }
{}

/// The two ends of a connection speak in turn: in no phase both have the word, and where they agree,
/// what one says keeps them agreed, and what the other hears has its move.
pub fn ends_speak_in_turn()
    ensures one_talker { (p q r : Phase) (m : Message) (f : Frame) → down p m ≡ Some q → up p f ≡ Some r → ⊥ }
    ensures says_down { (s r t : Phase) (ds : List Message) (us : List Frame) (m : Message) → Agree s r ds us → down s m ≡ Some t → Agree t r (ds ++ m ∷ []) us }
    ensures says_up { (s r t : Phase) (ds : List Message) (us : List Frame) (f : Frame) → Agree s r ds us → up r f ≡ Some t → Agree s t ds (us ++ f ∷ []) }
    ensures hears_down { (s r : Phase) (ds : List Message) (us : List Frame) (m : Message) → Agree s r (m ∷ ds) us → (q : Phase) × (down r m ≡ Some q) × Agree s q ds us }
    ensures hears_up { (s r : Phase) (ds : List Message) (us : List Frame) (f : Frame) → Agree s r ds (f ∷ us) → (q : Phase) × (up s f ≡ Some q) × Agree q r ds us }
{}

/// The sender's end of that talk: what a lane is to write are moves of its phase; its phase with the
/// input that it holds is its phase behind the step, or the end fails in it; and what may be said to it
/// has a row of the table.
pub fn a_sender_speaks_in_turn()
    ensures writes { (s : PlainSender) (l : Lane) (input : SendIn) → l.0 < length s.lanes → FitsLane (lane_at (send_turn s l input).1 l.0) (send_turn s l input).0 }
    ensures stands { (s : PlainSender) (l : Lane) (input : SendIn) (p : Phase) → l.0 < length s.lanes → is_closed s l.0 ≡ false → is_failure s.answer ≡ false → phase_holding (lane_at s l.0) input ≡ Some p → StandsIn p l (send_turn s l input).1 }
    ensures hears { (state : SendState) (ask acked : Bool) (frame : Frame) (q : Phase) → phase_heard frame (phase_by ask acked state) ≡ Some q → is_named (row_of state (Got frame)) ≡ true }
{}

/// What further entries make of the pasts that a history says.
pub fn pasts_follow_the_history()
    ensures lane { (h es : List SendEvent) (l : ℕ) → past_of (h ++ es) l ≡ past_from l (past_of h l) es }
    ensures end { (h es : List SendEvent) → end_of (h ++ es) ≡ end_from (end_of h) es }
{}

/// What all lanes have claimed, lane for lane, and what each kind of entry makes of it.
pub fn claims_follow_the_history()
    ensures lanes { (n : ℕ) (h : List SendEvent) → length (claims_of n h) ≡ n }
    ensures at { (n : ℕ) (h : List SendEvent) (l : ℕ) → l < n → slice_index_or (claims_of n h) l no_claims ≡ (past_of h l).claims }
    ensures none { (n : ℕ) → claims_of n [] ≡ replicate n no_claims }
    ensures greet { (n : ℕ) (h : List SendEvent) (l : Lane) (count : ℕ) → l.0 < n → claims_of n (h ++ events.Greet l count ∷ []) ≡ slice_set (claims_of n h) l.0 (cut_to count 0 (past_of h l.0).claims) }
    ensures claim { (n : ℕ) (h : List SendEvent) (l : Lane) (b : Block) → l.0 < n → claims_of n (h ++ events.Claim l b ∷ []) ≡ slice_set (claims_of n h) l.0 (claimed b (past_of h l.0).claims) }
    ensures sent { (n : ℕ) (h : List SendEvent) (l : Lane) → l.0 < n → claims_of n (h ++ events.Sent l ∷ []) ≡ slice_set (claims_of n h) l.0 (sent (past_of h l.0).claims) }
    ensures global { (n : ℕ) (h : List SendEvent) (k l : Lane) (count : ℕ) → l.0 < n → claims_of n (h ++ events.Global k l count ∷ []) ≡ slice_set (claims_of n h) l.0 (close_by (past_of h l.0).claims.closed count (past_of h l.0).claims) }
    ensures finish { (n : ℕ) (h : List SendEvent) (l : Lane) → claims_of n (h ++ events.Finish l ∷ []) ≡ map finished (claims_of n h) }
    ensures others { (n : ℕ) (h : List SendEvent) (e : SendEvent) → changes_claims e ≡ false → claims_of n (h ++ e ∷ []) ≡ claims_of n h }
{}

/// A list of files has no place out of order exactly where its paths rise, and two lists differ nowhere
/// exactly where they are one.
pub fn file_lists_are_compared()
    ensures ordered { (files : List HaveFile) → (unordered_at files ≡ None) ↔ (is_in_order files ≡ true) }
    ensures same { (first later : List HaveFile) → (different_at first later ≡ None) ↔ (first ≡ later) }
{}

/// The queue rises as the plan does, so the block that a lane takes is the least that waits; and it takes
/// the head of the queue away.
pub fn a_lane_takes_the_least_block()
    ensures rising { (n : ℕ) (planned : List Block) (h : List SendEvent) → is_rising planned ≡ true → is_rising (queued n planned h) ≡ true }
    ensures head { (n : ℕ) (planned : List Block) (h : List SendEvent) (l : Lane) (b : Block) (bs : List Block) → is_rising planned ≡ true → l.0 < n → queued n planned h ≡ b ∷ bs → queued n planned (h ++ events.Claim l b ∷ []) ≡ bs }
    ensures least { (n : ℕ) (planned : List Block) (h : List SendEvent) (b c : Block) → is_rising planned ≡ true → least_of (queued n planned h) ≡ Some b → is_among (queued n planned h) c ≡ true → (c ≡ b) ⊎ (is_earlier b c ≡ true) }
{}
