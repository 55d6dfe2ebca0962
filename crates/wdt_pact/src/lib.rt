//! Both ends of a transfer together, and their connections: definitions and laws.
//!
//! A world is two plain ends and, for each lane, what both hold and the connections between them, by
//! messages (`specs/World`, `specs/Pairs`, `specs/Links`). `specs/Stances` says how the ends stand on a
//! connection and what may be on its way, `specs/Lists` what lies between what a lane has claimed and what
//! has landed, `specs/Conversation` how the two ends of each lane fit together, `specs/Finishing` what holds
//! of all lanes together, `specs/Meeting` that what the sender tells is so, `specs/Right` what never goes wrong, and `specs/Progress` who can move.
//! `specs/Bytes` says what messages are in bytes, and `specs/Measure` gives a number that falls. There is no
//! code but empty bodies: the contracts are laws.
#![tactic(auto)]

mod laws;

pub use laws::{
    a_done_sender_has_all_landed, a_lane_sends_its_blocks, a_lane_takes_up_its_connection,
    a_lost_connection_is_made_again, a_ready_finish_comes, a_receiver_finds_no_fault,
    a_receiver_keeps_the_conversation, a_sender_finds_no_fault, a_sender_keeps_the_conversation,
    a_world_settles, blocks_land, blocks_land_in_order, confirmed_lanes_are_known,
    connections_are_cut_and_taken, counts_are_right, every_event_keeps_a_world_sound,
    every_step_leaves_less_to_do, lanes_tell_of_closed_lanes, no_world_stands_still,
    nothing_goes_wrong, nothing_waits_behind_the_finish, one_end_can_move,
    tellings_reach_the_sender, the_ends_have_met, the_finish_is_of_the_tree, the_finish_is_right,
    the_next_block_is_new, waiting_blocks_have_a_lane, what_is_read_is_understood,
    what_is_read_may_come, what_is_read_was_written, what_is_written_is_a_move, worlds_begin_sound,
    worlds_stay_sound,
};
