//! Recordings from a number: an arena, players that join in the first frame, and a command of each in each frame.
#![tactic(auto)]

pub use arena::generated_map;
pub use events::Events;
pub use generated_event::GeneratedEvent;
pub use generator::{Generator, words_of};
pub use laws::{
    all_is_accepted, commands_arrive_once, frames_are_known, generated_recordings_read_back,
    generated_texts_are_bounded, map_is_known, packets_are_read, resent_recordings_read_back,
    resent_texts_are_bounded, spawns_are_clear, words_are_known,
};
pub use make_stop::MakeStop;
pub use map_lines::{MAP_LINES, map_line};
pub use moves::drawn_move;
pub use writing::{make, resend, write_events};

mod arena;
mod events;
mod generated_event;
mod generator;
mod last_words;
mod laws;
mod make_stop;
mod map_lines;
mod moves;
mod sending;
mod text;
mod writing;
