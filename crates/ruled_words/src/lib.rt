//! The shared words of parallel moves under one rule, and the steps that a seat makes on them.
#![tactic(auto)]

pub use hand::Hand;
pub use held::Held;
pub use patience::{AtOnce, GivenUp, NoTries, Patience, Waiting};
pub use reading::index_of_word;
pub use rule::laws::{
    closed_table_is_its_run, ended_seats_keep_the_rule, held_words_name_their_holder,
    looks_keep_the_rule, made_seats_keep_the_rule, refused_takes_were_served, start_is_ruled,
    steps_keep_the_rule, unused_words_stay_zero,
};
pub use setting::Setting;
pub use shared_words::SharedWords;
pub use word_step::WordStep;

mod end;
mod hand;
mod held;
mod nodes;
mod opening;
mod patience;
mod reading;
mod rule;
mod setting;
mod shared_words;
mod steps;
mod word_step;
mod writing;
