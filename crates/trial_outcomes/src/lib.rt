//! What the actions that tests run do, as definitions, with the proofs that they are lawful.
#![tactic(auto)]

pub use places::{ARRIVAL, ITEM};

mod places;
