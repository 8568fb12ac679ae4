//! An index over a list of boxes, by strips of an area: which of them may touch a box, as a bit for each.
#![tactic(auto)]

pub use bits::next_place;
pub use box_strips::BoxStrips;

mod axis;
mod bits;
mod box_strips;
mod rows;
