//! The trace: how far a box comes before a solid stops it.
#![tactic(auto)]

pub use axis::Axis;
pub use by_steps::trace_by_steps;
pub use by_windows::trace;
pub use hit::{Hit, MOST_SOLIDS};
pub use laws::{
    axis_is_moved_along, first_axis_is_named, free_way_is_gone, limits_are_known,
    named_solid_stops, steps_are_free, steps_stay_in_range, trace_is_unique, trace_stays_inside,
    walls_leave_inside_free, ways_are_straight,
};
pub use walls::{WALLS, arena_walls};
pub use way::{REACH, shift_at, step_count};

mod axis;
mod by_steps;
mod by_windows;
mod hit;
mod laws;
mod meeting;
mod span;
mod walls;
mod way;
mod window;
