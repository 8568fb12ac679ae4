//! Shortest ways of a bot between the spawns of a map, with the least lengths that show that they are shortest, and the
//! recordings in which a bot walks along them.
#![tactic(auto)]

pub use laws::{
    bots_follow_their_ways, certificates_are_least, edges_are_known, lengths_are_written,
    moves_are_known, plan_texts_are_bounded, plans_are_recordings, ways_are_unique,
};
pub use lists::{LeastList, MOST_WAYPOINTS, WayList};
pub use map_text::spell_map;
pub use plan::{Plan, plan_way};
pub use plan_stop::PlanStop;
pub use plan_text::PlanText;
pub use writing::{MOST_PLAN_BYTES, write_least, write_plan};

mod certificate;
mod edges;
mod laws;
mod lists;
mod map_text;
mod moves;
mod plan;
mod plan_stop;
mod plan_text;
mod search;
mod walk_text;
mod writing;
