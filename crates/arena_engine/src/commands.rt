//! What each command of `serve` does, a file a command.

pub(crate) mod audit;
pub(crate) mod bots;
pub(crate) mod check;
pub(crate) mod explain;
pub(crate) mod judging;
pub(crate) mod make;
pub(crate) mod match_seed;
pub(crate) mod play;
pub(crate) mod walk;
