//! Recordings: an arena, and the packets that reached it frame by frame, as lines of text.
#![tactic(auto)]

pub use demo_reader::DemoReader;
pub use demo_stop::DemoStop;
pub use event::{Event, EventKind};
pub use laws::{
    faults_are_the_first, limits_are_known, limits_cut_nothing, lines_are_bounded, lines_read_back,
    memory_is_for_the_map, nothing_after_a_refusal, nothing_after_the_end, nothing_needs_the_map,
    packet_reads_back, packets_have_room, recordings_read_back, small_recording_can_be_written,
};
pub use line::{Line, LineKind};
pub use line_fault::LineFault;
pub use line_refusal::LineRefusal;
pub use rest::{LONGEST_REST, RestBuf};
pub use stage::Stage;
pub use word::Word;

mod demo_reader;
mod demo_stop;
mod event;
mod laws;
mod line;
mod line_fault;
mod line_refusal;
mod next_event;
mod one_line;
mod packet;
mod reading;
mod rest;
mod stage;
mod word;
