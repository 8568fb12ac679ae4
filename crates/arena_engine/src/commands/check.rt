ghost use Rattle.std.specs.Prelude.{◌≡◌, IfOk, IfErr, None};
ghost use Rattle.transcript_check.specs.Verdicts.{Judges, StopsChecking};
ghost use Rattle.arena_engine.specs.Checked.{IsChecked};
ghost use Rattle.arena_engine.specs.Endings.{Ends};

use crate::commands::judging::report_found;
use crate::report::Report;
use crate::status::Status;
use demo_lines::{DemoReader, DemoStop};
use edge_io::{LineBuf, Sink, Source};
use std::alloc::Global;
use transcript_check::{Verdict, check};

/// The most frames of a recording whose output is checked.
pub const MOST_CHECKED_FRAMES: u32 = 2_000;

/// Reads a recording, and compares what follows it with its output.
fn verdict_of<S: Source>(alloc: Global, source: &mut S) -> Result<Verdict, DemoStop>
    ensures ok { IfOk result (Judges S.Source MOST_CHECKED_FRAMES source.old source.new) }
    ensures err { IfErr result (StopsChecking S.Source MOST_CHECKED_FRAMES source.old source.new) }
{
    let reader = DemoReader::with_frame_limit(alloc, MOST_CHECKED_FRAMES)?;
    check(alloc, reader, source)
}

/// Reads a recording, compares what follows it with its output, and writes what was found, where that is right. The
/// report has how that ended.
pub fn check_transcript<S: Source, K: Sink>(alloc: Global, source: &mut S, sink: &mut K) -> Report
    ensures checked { IsChecked S.Source K.Sink source.old source.new sink.old sink.new result }
    ensures ends { Ends S.Source K.Sink source.old source.new sink.old sink.new result }
    ensures served { result.status ≡ 2 → ⊥ }
    ensures orderless { result.order ≡ None }
{
    let Ok(mut line) = LineBuf::new(alloc) else {
        return Report::of_status_alone(alloc, Status::NoMemory);
    };
    let found = verdict_of(alloc, source);
    report_found(alloc, found, &mut line, sink)
}
