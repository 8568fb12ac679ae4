//! A server over events: each goes to it at one place, which gives back the journal of the frame that it closed.
#![tactic(auto)]

pub use host::Host;
pub use playback::Playback;

mod host;
mod playback;
