//! Passes at shared words under one rule, a call at a time: each call of a pass is a step of the pure core, or a stated run
//! of steps. So two passes can be interleaved at any step.
#![tactic(auto)]

pub use pass::Pass;
pub use ruled_words::{
    closed_table_is_its_run, ended_seats_keep_the_rule, held_words_name_their_holder,
    looks_keep_the_rule, made_seats_keep_the_rule, refused_takes_were_served, start_is_ruled,
    steps_keep_the_rule, unused_words_stay_zero,
};
pub use table::{NodeTable, PassList};

mod calls;
mod close;
mod follow;
mod leaves;
mod owed;
mod pass;
mod table;
