//! Recordings that `serve` plays from memory into memory: what a caller knows of them by its contract, and tests.
#![tactic(auto)]

pub use from_memory::played;
pub use known::{ONE_JOIN, one_join_played, two_players_made, two_players_resent};

mod from_memory;
mod known;
#[cfg(test)]
mod tests;
