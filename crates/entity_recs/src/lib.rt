//! Records of what is in the arena, the commands that move players, and the boxes of records.
#![tactic(auto)]

pub use action::Action;
pub use bodies::{
    ITEM_MAXS, ITEM_MINS, PLAYER_MAXS, PLAYER_MINS, abs_box, body_box, growth, is_touched,
    player_box,
};
pub use cmd::Cmd;
pub use effect::{Effect, Entry, NewState, Reply};
pub use kind::Kind;
pub use laws::{
    abs_contains_body, abs_ignores_state, boxes_are_known, clones_are_the_records,
    effects_change_what_is_listed, moves_see_all_others, others_are_known, records_have_boxes,
    sizes_are_known, touches_are_known,
};
pub use limits::{IDS, SLOTS};
pub use lists::{IdList, LIST_LEN, StateList};
pub use rec::Rec;

mod action;
mod bodies;
mod cmd;
mod effect;
mod kind;
mod laws;
mod limits;
mod lists;
mod rec;
