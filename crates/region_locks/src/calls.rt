//! The calls of a pass, each a step on a word, a stated run of such steps, or none.

mod begin;
mod commit;
mod effect;
mod load_rec;
mod quit;
mod resolve;
mod step_word;
mod stores;
mod take;
mod try_run;
