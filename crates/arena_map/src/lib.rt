//! The map of an arena: its lines as text, its rules, and the solids, spawns and things that the lines give.
#![tactic(auto)]

pub use laws::{
    broken_rules_are_the_first, data_follow_kinds, fields_are_spaced, lifts_stay_inside,
    limits_are_known, lines_change_their_parts, lines_give_their_things, lines_keep_the_rules,
    live_records_have_data, map_lines_read_back, opening_world_is_valid, solids_have_walls,
};
pub use lift::Lift;
pub use limits::{
    DEFAULT_BLOCKS, DEFAULT_DEPTH, LEAST_SIDE, MOST_BLOCKS, MOST_BOXES, MOST_FRAMES, MOST_ITEMS,
    MOST_SPAWNS, MOST_THINGS,
};
pub use map::ArenaMap;
pub use map_fault::{MapFault, MapRefusal};
pub use map_line::MapLine;
pub use map_word::{MapField, MapWord};
pub use reading::{NO_FORM, NO_WORD, OUT_OF_LIMIT, read_map_line};
pub use spelling::print_map_line;

mod laws;
mod lift;
mod limits;
mod map;
mod map_fault;
mod map_line;
mod map_word;
mod reading;
mod rules;
mod settings;
mod spelling;
mod things;
