//! What a sender's lanes do: the states, the inputs, the acts and the table that joins them.
//!
//! A lane holds an input, hands it to its end, and gets an act to perform; what it answers is the next
//! input. `row` says which row of the table fits a state and an input, `allowed` whether the input
//! belongs to the state at all. The rest of a step is a definition: `specs/Turn` gives for each plain
//! sender, lane and input the one act and the one plain sender behind it. What a step notes is an entry
//! of the sender's history, and the history tells nearly all that a plain sender is: what each lane has
//! claimed, what has surely landed, what still waits (`specs/SenderHistory`, `specs/Places`).
//! `specs/Legal` says which entries may follow which, and `specs/Phases` what the two ends of a
//! connection say to each other in turn. An end's answer and its kinds stand here for both ends.
#![tactic(auto)]

mod acts;
mod answers;
mod comparing;
mod events;
mod inputs;
mod keeping;
mod laws;
mod peers;
mod rows;
mod states;

pub use acts::SendAct;
pub use answers::{EndAnswer, RefusedKind};
pub use comparing::{different_at, unordered_at};
pub use events::SendEvent;
pub use inputs::SendIn;
pub use keeping::{
    acts_follow_from_lanes, answers_have_their_causes, blocks_are_apart, blocks_keep_their_places,
    senders_stay_senders, steps_answer_rightly, steps_go_by_the_rules, steps_have_outcomes,
    steps_touch_their_lane, the_plan_is_the_rest,
};
pub use laws::{
    a_lane_takes_the_least_block, a_sender_speaks_in_turn, claims_follow_the_history,
    ends_speak_in_turn, file_lists_are_compared, histories_are_sound, pasts_follow_the_history,
    worked_steps,
};
pub use peers::PeerKind;
pub use rows::{SendRow, allowed, command_of, row};
pub use states::{SendLane, SendState};

#[cfg(test)]
mod tests;
