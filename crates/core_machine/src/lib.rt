//! The pure core as a machine in code: a seat with what it has in view and its next step, the words that the seats share,
//! and a step of any seat on them.
#![tactic(auto)]

pub use log::SeatLog;
pub use machine::Core;
pub use point::{Cell, Point, Queues, SlotQueue, Store, StoreQueue};
pub use seat::{ListRead, Seat};
pub use thing_reads::ThingReads;
pub use words::Words;

mod claiming;
mod committing;
mod giving;
mod go;
mod left;
mod lists;
mod loading;
mod log;
mod machine;
mod next;
mod plan;
mod point;
mod seat;
mod start;
mod stepping;
mod table;
mod taking;
mod thing_reads;
mod word_steps;
mod words;
