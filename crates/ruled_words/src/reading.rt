//! How a hand reads what a move needs: the own record, the nodes of its region and the things that it touches.

pub use own_words::index_of_word;

mod own_words;
mod read_effect;
mod states;
mod visiting;
