//! The rule on the shared words: what its table is given, what a seat has in view, its plays and its laws.

pub(crate) mod key;
pub(crate) mod laws;
pub(crate) mod plays;
pub(crate) mod sight;
