//! How a step is made on the shared words, by a seat and by a hand.

pub(crate) mod hand_steps;
pub(crate) mod one_step;
pub(crate) mod seats;
