//! The pure core on trial: rows of steps, and random schedules of moves with an item and a teleporter against the same
//! commands in a row.
#![tactic(auto)]

pub use errand::Errand;
pub use players::{FAR, FAR_AT_ONE, FIRST, LOW, MIDDLE, MIDDLE_AT_ONE, NEAR};
pub use staying::Staying;
pub use taking::is_taken;

mod errand;
#[cfg(test)]
mod layout;
#[cfg(test)]
mod plain;
mod players;
#[cfg(test)]
mod rows;
#[cfg(test)]
mod schedule;
mod staying;
mod taking;
#[cfg(test)]
mod tests;
#[cfg(test)]
mod words;
