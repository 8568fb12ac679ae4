//! Worlds, commands and passes for tests of moves.
#![tactic(auto)]

pub use passes::{close_both, give_up, ran, refused, table_of_two, take};
pub use stepping::{MOST_CALLS, finish, go};
pub use worlds::{BY_LAST, FAR, LAST, far_world, last_world, near_world, plain};

mod passes;
mod stepping;
mod worlds;
