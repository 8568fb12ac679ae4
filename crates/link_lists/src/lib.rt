//! Doubly linked lists over one pool of ids.
#![tactic(auto)]

mod lists;

pub use lists::Lists;
