//! Player slots: which port is joined in each of 64 slots, and where the next join goes.
#![tactic(auto)]

pub use join_fault::JoinFault;
pub use laws::{least_free_slot_is_least, ports_are_apart};
pub use slots::Slots;

mod join_fault;
mod laws;
mod slots;
