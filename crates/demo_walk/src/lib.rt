//! Recordings of players that join and walk on a map that was read, as those of `demo_make` do on theirs.
#![tactic(auto)]

pub use laws::{
    enough_places_are_as_made, joins_are_known, nothing_is_refused, packets_are_read,
    places_are_known, walks_read_back,
};
pub use places::place_count;
pub use walk::Walk;
pub use writing::write_walk;

mod laws;
mod places;
mod schedule;
mod walk;
mod writing;
