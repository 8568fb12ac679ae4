//! Threads that are kept over many rounds: in each round they change the items of a slice, side by side.
#![tactic(auto)]

pub use helper::Helpers;
pub use play::play_with;
pub use rounds::Crew;
pub use task::Task;

mod desk;
mod helper;
mod play;
mod post;
mod rounds;
mod steps;
mod task;
#[cfg(test)]
mod tests;
mod turns;
mod view;
