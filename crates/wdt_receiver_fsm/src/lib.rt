//! What a receiver's lanes do: the states, the inputs, the acts and the table that joins them.
//!
//! A lane holds an input, hands it to its end, and gets an act to perform; what it answers is the next
//! input. `row` says which row of the table fits a state and an input, `allowed` whether the input
//! belongs to the state at all. The rest of a step is a definition: `specs/Turn` gives for each plain
//! receiver, lane and input a plan, which is the act and the plain receiver behind it, or a program of
//! calls on the disk with what stands where one of them fails and how the step goes on where none does.
//! The history tells what has landed, which lanes are idle, who was told of a closed lane, and whether
//! the finish is ready (`specs/ReceiverHistory`, `specs/Ready`); `specs/Legal` says which entries may
//! follow which, and `specs/Phases` what a receiver's lane says in turn.
//!
//! `Notes` are a history that answers at once what the definitions read off all of it: they keep a tally of
//! each lane, what is said of the whole end, and a funnel (`wdt_funnel`), and their invariant is that the
//! history says the same.
//!
//! `RecvEnd` is a receiver's end without its files: its lanes, its notes and its answer. Its calls are the
//! steps of the table's rows that make no call on the disk, whatever is kept of the files (`specs/End`).
#![tactic(auto)]

mod acts;
mod common;
mod end;
mod events;
mod idling;
mod inputs;
mod laws;
mod note_laws;
mod notes;
mod noting;
mod rows;
mod states;
mod tally;

pub use acts::RecvAct;
pub use end::RecvEnd;
pub use events::RecvEvent;
pub use idling::Idling;
pub use inputs::RecvIn;
pub use laws::{
    a_receiver_speaks_in_turn, acts_follow_from_lanes, batches_add_up, failures_have_causes,
    lanes_are_sound, pasts_follow_the_history, receivers_stay_receivers, steps_follow_their_rows,
    steps_have_outcomes, steps_touch_their_lane, what_is_written_fits, worked_steps,
};
pub use note_laws::{a_funnel_says_what_a_history_says, what_is_allowed_may_be_noted};
pub use notes::Notes;
pub use rows::{RecvRow, allowed, row};
pub use states::{RecvLane, RecvState};
