//! The state of a server between two frames, and what a frame does to it before and after its moves.
#![tactic(auto)]

pub use state::State;

mod state;
