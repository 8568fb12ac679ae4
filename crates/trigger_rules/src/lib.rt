//! Touching: what the triggers that a player touches after a move do: items, goals and teleporters.
#![tactic(auto)]

pub use laws::{
    ammunition_is_counted, goals_take_what_is_carried, got_ids_rise, items_are_left_without_room,
    items_were_there, leaps_are_free, leaps_are_from_teleporters, no_gem_is_lost, only_leaps_move,
    only_touched_matters, passed_teleporters_are_blocked, players_stay_on, players_stay_themselves,
    scores_are_counted, scores_never_fall, states_are_apart, things_stay_few, touched_are_in_reach,
    touched_items_are_taken,
};
pub use touch::touch_all;

mod laws;
mod touch;
