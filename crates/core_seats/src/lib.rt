//! What the rules say of an action's world: regions and their leaves, the index of things, and what is near; and what a
//! seat of the pure core does next by them, as definitions.
#![tactic(auto)]

pub use laws::standing_views_are_sound;
pub use lists::{is_set, with_top_bit};
pub use near_kept::{lowest_bit, without_bit};
pub use queue::{NodeQueue, Queue, WordList};
pub use reading::read_record;
pub use reads::{LoadedPlayer, LoadedPlayers, PlayerRead, player_words};
pub use refusals::{Refusals, Refused};
pub use rules::Rules;
pub use thing_bits::{THING_WORDS, ThingBits, next_thing};

mod boxes;
mod laws;
mod lists;
mod near;
mod near_kept;
mod queue;
mod reading;
mod reads;
mod records;
mod refusals;
mod rules;
mod thing_bits;
