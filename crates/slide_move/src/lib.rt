//! The slide of a body along the solids that stop it.
#![tactic(auto)]

pub use laws::{
    at_most_three_traces, bodies_are_free, bodies_are_in_range, ends_at_last_body,
    ends_still_where_stopped, free_slide_goes_all, free_slides_go_by_their_velocity,
    goes_on_where_not_stopped, limit_is_known, reach_suffices, shift_is_part, side_is_sideways_hit,
    slide_stays_inside, velocity_is_kept_or_stopped,
};
pub use slid::Slid;
pub use sliding::{GREATEST_SPEED, slide};

mod laws;
mod leg;
mod slid;
mod sliding;
#[cfg(test)]
mod tests;
mod vector;
