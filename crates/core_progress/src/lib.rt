//! That the moves of the pure core come to their end, as definitions and laws without threads.
#![tactic(auto)]

pub use laws::{
    busy_rounds_are_few, commands_in_hand_are_seen, commands_take_few_steps,
    ended_commands_are_logged, fair_schedules_end_all_commands, rounds_end_all_commands,
    seats_step_or_wait, served_steps_are_bounded, served_steps_leave_fewer, some_seat_can_step,
    sound_views_count, turns_are_rounds, turns_end_all_commands,
};

mod laws;
