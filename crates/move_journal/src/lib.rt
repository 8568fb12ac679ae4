//! Journals of moves: the lists that hold their entries, and when a journal is right.
#![tactic(auto)]

pub use copies::{same_entry, same_reply};
pub use journal::{Journal, Log};
pub use laws::{
    merges_have_whole_histories, moves_in_order_are_right, moves_keep_records_in_bounds,
    numbered_records_are_in_bounds, order_leaves_one_journal,
};
pub use lists::{JournalList, LogList, MOST_LOGS};
pub use merging::merge;

mod copies;
mod journal;
mod laws;
mod lists;
mod merging;
#[cfg(test)]
mod tests;
