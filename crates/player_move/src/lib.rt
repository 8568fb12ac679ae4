//! The whole move of a player: the rules of its speed, the slide, and the stairs.
#![tactic(auto)]

pub use ground::on_ground;
pub use laws::{
    free_moves_go_by_the_rules, free_players_fall, free_players_jump, free_players_slow_down,
    ground_is_tested, limits_are_known, move_ends_free, move_goes_no_less_far, move_looks_within,
    move_reach, move_stays_inside, move_stays_slow, on_ground_is_standing, stairs_are_taken,
    stairs_go_up_and_down,
};
pub use limits::FARTHEST_ORIGIN;
pub use moved::Moved;
pub use moving::move_player;
pub use stairs::STAIR_HEIGHT;

mod ground;
mod laws;
mod limits;
mod moved;
mod moving;
mod stairs;
mod velocity;
mod walk;
