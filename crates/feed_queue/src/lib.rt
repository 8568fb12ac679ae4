//! The order of arrival of a frame's packets, as two client threads send them.
#![tactic(auto)]

pub use arrival_order::ArrivalOrder;
pub use gate::{FeedHold, NoFeedHold};
pub use gathering::gather;
pub use laws::{orders_have_each_place_once, orders_keep_each_port};
pub use place_list::MOST_PLACES;

mod arrival_order;
mod gate;
mod gathering;
mod hand;
mod laws;
mod place_list;
mod sending;
#[cfg(test)]
mod tests;
