//! Matches: the recording that a number gives is played without being written.
#![tactic(auto)]

pub use game::{MatchGame, match_action};
pub use laws::{
    counts_are_known, items_are_of_the_map, limits_are_known, lost_packets_lose_no_command,
    matches_are_played_as_written, order_leaves_one_match, scores_are_of_the_clients,
    totals_are_of_the_output,
};
pub use limits::MOST_MATCH_FRAMES;
pub use played::play_match;
pub use totals::Totals;

mod game;
mod items;
mod laws;
mod limits;
mod played;
mod totals;
