ghost use Rattle.std.specs.Prelude.{◌≡◌, IfOk, IfErr, None};
ghost use Rattle.transcript_check.specs.Audits.{JudgesLog};
ghost use Rattle.transcript_check.specs.Verdicts.{StopsChecking};
ghost use Rattle.arena_engine.specs.Checked.{IsAudited};
ghost use Rattle.arena_engine.specs.Endings.{Ends};

use crate::commands::judging::report_found;
use crate::report::Report;
use crate::status::Status;
use demo_lines::{DemoReader, DemoStop};
use edge_io::{LineBuf, Sink, Source};
use std::alloc::Global;
use transcript_check::{Verdict, audit};

/// Reads the lines of a map, and judges the log of a match after it.
fn verdict_of<S: Source>(alloc: Global, source: &mut S) -> Result<Verdict, DemoStop>
    ensures ok { IfOk result (JudgesLog S.Source source.old source.new) }
    ensures err { IfErr result (StopsChecking S.Source 0 source.old source.new) }
{
    let reader = DemoReader::with_frame_limit(alloc, 0)?;
    audit(alloc, reader, source)
}

/// Reads the lines of a map, judges the log of a match after it, and writes what was found, where that is right. The report
/// has how that ended.
pub fn audit_log<S: Source, K: Sink>(alloc: Global, source: &mut S, sink: &mut K) -> Report
    ensures audited { IsAudited S.Source K.Sink source.old source.new sink.old sink.new result }
    ensures ends { Ends S.Source K.Sink source.old source.new sink.old sink.new result }
    ensures served { result.status ≡ 2 → ⊥ }
    ensures orderless { result.order ≡ None }
{
    let Ok(mut line) = LineBuf::new(alloc) else {
        return Report::of_status_alone(alloc, Status::NoMemory);
    };
    let found = verdict_of(alloc, source);
    report_found(alloc, found, &mut line, sink)
}
