//! The plain server: what a frame does, without tree, lists and threads, as definitions and laws.
#![tactic(auto)]

pub use laws::{
    entries_hit_one_at_most, frames_are_in_turn, frames_begin_with_states,
    frames_begin_with_their_tick, frames_end_with_their_moves, frames_have_one_taker,
    items_have_one_taker, journals_are_right_in_order, journals_decide_states,
    moves_keep_worlds_valid, moves_leave_what_they_made, nobody_is_down_for_long,
    numbers_rise_across_frames, only_hits_hurt, only_items_and_players_are_got,
    opening_is_as_the_map_says, order_leaves_one_journal_each, players_keep_room, ports_stay_apart,
    right_journals_are_in_range, taken_items_stay_away, worlds_stay_valid,
};

mod laws;
