//! The arena server as a program: its words are the command, its input a recording, its output what the players
//! receive.
//!
//! It ends with the status of the report. For every status but 0 it prints why, in one line on standard error.
#![tactic(auto)]

ghost use Rattle.std.specs.Prelude.{◌≡◌};
ghost use Rattle.std.specs.Process.{exit_status};

use answer::answer;
use arena_engine::Report;
use edge_io::{StdSink, StdSource};
use notice::notice_of;
use shared_moves::NoGate;
use std::env;
use std::process::ExitCode;

mod answer;
mod arguments;
mod notice;

/// The exit status of a report: its own status.
fn exit_of(report: &Report) -> ExitCode
    ensures { exit_status result ≡ report.now.status }
{
    ExitCode::from(report.status)
}

/// Answers over the process's own streams, which have no buffer: `serve` reads in blocks, and writes a frame at a time.
///
/// No contract says what is joined here, since none can say what a stream of the process holds: that the words are the
/// system's, the source is standard input and the sink standard output, that this is done once and no byte is read or
/// written beside it, that the notice goes to standard error, and that the process ends with the status of this report.
/// What `answer` writes to the sink, and the status that it reports, are contracts. `checks/play` tries the rest.
fn main(rt: HostRuntime) -> ExitCode {
    let report = answer(
        &rt,
        rt.alloc(),
        env::args(&rt),
        &mut StdSource::new(rt.stdin()),
        &mut StdSink::new(rt.stdout()),
        &NoGate,
    );
    if let Some(notice) = notice_of(&report) {
        // Where nobody reads standard error, the exit status is all there is.
        let _ = eprintln!(rt; "{notice}");
    }
    exit_of(&report)
}
