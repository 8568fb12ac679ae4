//! The replies of a frame at once: each is the snapshot of one player, written by one of a few threads.
#![tactic(auto)]

pub use writing::write_replies;

#[cfg(test)]
mod tests;
mod threads;
mod writing;
