//! The arena's action: what a command does to its player, and to what the player touches.
#![tactic(auto)]

pub use arena_action::ArenaAction;
pub use map_action::MapAction;
pub use shot_action::ShotAction;

mod arena_action;
mod boxes;
mod lawful;
mod leaps;
mod looking;
mod map_action;
mod moving;
mod reaching;
mod region;
mod shot_action;
mod solid_index;
