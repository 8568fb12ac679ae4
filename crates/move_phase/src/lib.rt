//! The moves of a frame on several workers, and the journal of what they did.
#![tactic(auto)]

pub use laws::limits_are_known;
pub use rooms::MOST_WORKERS;
pub use runners::Runners;
pub use started::StartedMoves;
pub use turn::Turn;

mod frame_moves;
mod laws;
mod rooms;
mod runners;
mod serve;
mod started;
mod turn;
mod workers;
