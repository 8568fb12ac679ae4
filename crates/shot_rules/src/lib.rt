//! Shots: when a player fires, what stops the shot first, and what a hit does.
#![tactic(auto)]

pub use aiming::shot_range;
pub use firing::{fire, is_down};
pub use laws::{
    at_most_one_is_hit, damage_grows, firing_is_known, hits_are_in_the_way, numbers_are_known,
    only_the_way_matters, shooters_stay_themselves, shots_follow_the_wish, shots_stay_in_range,
    shots_stay_near, shots_take_ammunition, who_is_first_is_met, who_stands_first_is_hit,
};
pub use numbers::{DAMAGE, DOWN, FIRE, FRAMES_DOWN, HALF_WIDTH, RANGE};

mod aiming;
mod firing;
mod laws;
mod meeting;
mod numbers;
