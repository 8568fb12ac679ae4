//! How a hand takes nodes and gives them back.

mod giving;
mod giving_up;
pub(crate) mod taking;
