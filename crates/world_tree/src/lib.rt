//! The linked world: live records by id, each linked at the node of the areanode tree that its absolute box demands.
#![tactic(auto)]

pub use laws::{found_ids_rise, live_ids_have_records, live_ids_rise, live_records_by_id};
pub use near_list::NearList;
pub use steps::Steps;
pub use world::World;

mod laws;
mod live_ids;
mod near_list;
mod steps;
mod walk;
mod world;
