//! What a command does in an arena, and the region outside of which it reads and writes nothing, as definitions and laws.
#![tactic(auto)]

pub use laws::{
    down_players_lie, down_players_rise, flags_are_known, maps_decide, movers_stay_free,
    movers_stay_on_maps, movers_stay_themselves, moves_are_made, moves_keep_who_moves,
    moves_take_what_is_there, new_states_are_apart, players_are_where_they_moved,
    players_stay_free, players_stay_on_maps, regions_are_near, replied_ids_rise, replies_are_short,
    replies_have_the_origin, rooms_are_known, shots_follow_moves, taken_records_are_valid,
    touching_follows_moves, valid_records_are_taken,
};
pub use sizes::{ROOM, SHOT_ROOM};

mod laws;
mod sizes;
