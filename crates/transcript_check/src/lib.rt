//! Checks the output of a recording: whether it is what a plain server writes with the journals that it spells.
#![tactic(auto)]

pub use auditing::audit;
pub use checking::check;
pub use laws::{
    log_verdicts_are_one, outputs_are_right, outputs_are_right_logs, recordings_end_once,
    right_logs_are_outputs, right_logs_count_their_lines, right_ones_are_outputs,
    right_ones_count_their_lines, verdicts_are_on_outputs, verdicts_are_one,
    verdicts_exclude_each_other,
};
pub use verdict::Verdict;

mod auditing;
mod checker;
mod checking;
mod comparison;
mod input;
mod laws;
mod lines;
mod mover;
mod other_list;
mod packets;
mod pending;
mod recorded;
mod verdict;
