//! The output: its lines, the text of a frame, and what a text says of the moves that were done.
#![tactic(auto)]

pub use edge_io::LineBuf;
pub use laws::{
    faultless_recordings_have_fed_outputs, faultless_recordings_have_outputs,
    fed_lines_are_in_turn, fed_outputs_are_bounded, fed_outputs_are_outputs,
    frames_answer_their_packets, frames_have_one_reply_each, frames_have_the_events,
    journals_are_in_turn, last_moves_are_shown, lines_are_in_turn, lines_are_printed_apart,
    lines_read_back, one_worker_has_one_fed_output, one_worker_has_one_output,
    only_printed_lines_are_read, outputs_are_bounded, outputs_have_one_taker,
    outputs_spell_their_journals, recordings_have_maps, written_recordings_have_outputs,
};
pub use out_line::{OutLine, Printed};
pub use pending::MOST_PENDING;
pub use printer::Printer;
pub use printing::print_line;
pub use reading::read_line;

mod laws;
mod names;
mod number;
mod out_line;
mod pending;
mod printer;
mod printing;
mod reading;
