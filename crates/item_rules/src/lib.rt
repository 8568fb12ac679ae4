//! Items: what a player that touches ammunition or a gem gets, and when the item returns.
#![tactic(auto)]

pub use items::{AMMO_OF_ITEM, MOST_AMMO, MOST_GEMS, take_item};

mod items;
