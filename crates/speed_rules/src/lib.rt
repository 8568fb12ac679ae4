//! The rules of a player's velocity: friction, acceleration, gravity and the clamp, in whole numbers.
#![tactic(auto)]

pub use acceleration::accelerate;
pub use arithmetic::{length, scale};
pub use constants::{
    ACCELERATE, FRICTION, GRAVITY, JUMP_SPEED, MAX_AIR_SPEED, MAX_SPEED, MAX_UNCLAMPED,
    MAX_VELOCITY, SECOND, STOP_SPEED, UNIT,
};
pub use laws::{
    acceleration_acts_along_the_wish, acceleration_acts_below_the_cap, acceleration_is_bounded,
    acceleration_reaches_the_cap, acceleration_stops_at_the_cap, clamp_is_idempotent,
    clamp_keeps_what_is_in_range, fliers_keep_their_course, friction_keeps_zeros,
    friction_shortens, friction_slows, friction_stops, gravity_pulls_down, heights_are_known,
    jumps_push_up, numbers_are_quakes, walkers_are_slowed, what_enters_the_clamp_is_near,
    wishes_are_followed,
};
pub use rules::{clamp, friction, gravity};

mod acceleration;
mod arithmetic;
mod constants;
mod laws;
mod rules;
