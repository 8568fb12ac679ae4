//! Moves on threads: each worker runs its moves on the shared words, and what they did is a history.
#![tactic(auto)]

pub use again::{Again, again_after};
pub use gate::{Gate, NoGate};
pub use gate_point::GatePoint;
pub use holder::{Holder, holder_in};
pub use moment::Moment;
pub use move_room::MoveRoom;
pub use pass::{Pass, PassList};
pub use shared::Shared;
pub use walking::walk;

mod again;
mod gate;
mod gate_point;
mod holder;
mod moment;
mod move_room;
mod pass;
mod run;
mod shared;
mod walking;
