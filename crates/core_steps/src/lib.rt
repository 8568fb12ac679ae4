//! The moves of several seats on shared words, step by step, as definitions and laws without threads.
#![tactic(auto)]

pub use laws::{
    begun_move_stands, claimed_node_stands, committed_free_stands, committed_held_stands,
    each_tree_fits, encoded_is_decoded, ended_seat_keeps_items, ended_seat_stands,
    given_node_stands, layout_is_right, loaded_again_stands, loaded_count_stands,
    loaded_list_stands, loaded_own_stands, loaded_player_stands, loaded_state_stands,
    made_seat_stands, not_all_wait, plans_come_in_order, read_is_right_while_leaves_are_held,
    refused_node_stands, start_stands, stored_next_stands, table_is_known, taken_node_stands,
    takes_come_in_order, unused_words_are_zero, yielded_node_stands, yielded_nothing_stands,
};
pub use machine_laws::{
    count_is_within_the_rooms, each_machine_stands, each_place_is_logged_once,
    each_take_comes_later, each_view_reads_little, effect_may_be_asked, first_view_is_right,
    given_command_stands, loaded_record_is_taken, log_holds_the_commands_kept,
    logs_grow_by_commits, machine_start_stands, next_exists, next_step_stands, quitting_stands,
    refused_take_is_right, refused_takes_change_their_record, region_may_be_asked,
    rooms_are_those_given, seat_at_a_take_may_give_up, some_seat_is_free, steps_bring_no_command,
    steps_change_one_view, steps_change_one_word, steps_follow_their_word, steps_have_their_word,
};
pub use sizes::{
    COUNT_WORD, FIRST_LIST_WORD, FIRST_NODE_WORD, FIRST_RECORD_WORD, FIRST_STATE_WORD, MOST_SEATS,
    NODE_HOLDERS, TABLE_LEAVES, TABLE_NODES, TABLE_STATES, TABLE_WORDS,
};
pub use step::{Step, StepKind};
pub use words::{PlayerWords, decode, encode, list_word, node_word, record_word, state_word};

mod laws;
mod machine_laws;
mod sizes;
mod step;
mod words;
