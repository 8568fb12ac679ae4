//! World physics: what happens in the arena by itself when a frame begins. Items return, and lifts move.
#![tactic(auto)]

pub use laws::{
    ids_stay, items_return_at_their_frame, lifts_make_their_step, lifts_stay_on_their_way,
    lifts_step_in_turn, only_origins_and_states_change, only_players_hold_lifts, players_go_along,
    players_keep_room, standing_is_known, steps_are_whole, worlds_stay_valid,
};
pub use ticking::tick;

mod carrying;
mod laws;
mod lift_step;
mod pressing;
mod returns;
mod ticking;
