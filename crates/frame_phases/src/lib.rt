//! The frame as one call: the tick, the receive pass, the moves, the replies, and the leaves.
#![tactic(auto)]

pub use frame_out::FrameOut;
pub use laws::limits_are_known;
pub use replies::ReplyList;
pub use server::{Server, run_frame};
pub use slots::SlotList;

mod frame_out;
mod laws;
mod phases;
mod replies;
mod scores;
mod server;
mod shows;
mod slots;
#[cfg(test)]
mod tests;
