//! Laws of what the specifications of this crate define. The functions do nothing: their contracts
//! are the laws.
ghost use Rattle.std.specs.Prelude.{◌≡◌, ◌<◌, ◌≤◌, ℕ, List};
ghost use Rattle.wdt_units.specs.declared.limits.TheConstants.{MAX_LANES};
ghost use Rattle.wdt_funnel.specs.Happenings as funnel;
ghost use Rattle.wdt_receiver_fsm.specs.declared.events.RecvEvent.{RecvEvent};
ghost use Rattle.wdt_receiver_fsm.specs.Legal.{IsAllowed, Terms};
ghost use Rattle.wdt_receiver_fsm.specs.Ready.{is_closed, is_confirmed, is_idle, is_ready, is_untold};
ghost use Rattle.wdt_receiver_fsm.specs.Happened.{happenings_of};
ghost use Rattle.wdt_receiver_fsm.specs.Notable.{MayNote};

/// What a history says of its lanes and of the finish, a funnel's words say of what happened, whatever
/// the history: which lanes are idle, closed, confirmed and untold, and whether the finish is ready.
pub fn a_funnel_says_what_a_history_says()
    ensures idle { (g : List RecvEvent) (l : ℕ) → funnel.is_idle (happenings_of g) l ≡ is_idle g l }
    ensures closed { (g : List RecvEvent) (l : ℕ) → funnel.is_closed (happenings_of g) l ≡ is_closed g l }
    ensures confirmed { (g : List RecvEvent) (c : ℕ) → c < MAX_LANES → funnel.is_heard (happenings_of g) c ≡ is_confirmed g c }
    ensures untold { (g : List RecvEvent) (l c : ℕ) → c < MAX_LANES → funnel.is_untold (happenings_of g) l c ≡ is_untold g l c }
    ensures ready { (n : ℕ) (g : List RecvEvent) → n ≤ MAX_LANES → funnel.is_ready n (happenings_of g) ≡ is_ready n g }
{}

/// Any entry that is allowed by those before it may be noted.
pub fn what_is_allowed_may_be_noted()
    ensures { (t : Terms) (g : List RecvEvent) (e : RecvEvent) → IsAllowed t g e → MayNote t.lanes g e }
{}
