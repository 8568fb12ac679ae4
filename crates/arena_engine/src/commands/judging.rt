ghost use Rattle.std.specs.Prelude.{◌≡◌, [], None};
ghost use Rattle.arena_engine.specs.Judgments.{ReportsFound, ReportsRight};

use crate::report::Report;
use crate::status::Status;
use crate::stop::Stop;
use crate::summary::push_right;
use demo_lines::DemoStop;
use edge_io::{LineBuf, Sink, write_whole};
use move_journal::JournalList;
use std::alloc::Global;
use transcript_check::Verdict;

/// Writes the line of what is right, whose buffer is empty.
fn write_right<K: Sink>(
    alloc: Global,
    frames: u32,
    moves: u64,
    line: &mut LineBuf,
    sink: &mut K,
) -> Report
    requires { line.old ≡ [] }
    ensures right { ReportsRight K.Sink sink.old sink.new result frames moves }
    ensures order { result.order ≡ None }
{
    push_right(frames, moves, line);
    match write_whole(sink, line.as_slice()) {
        Ok(()) => Report::of_status_alone(alloc, Status::Done),
        Err(_) => Report::of_status_alone(alloc, Status::WriteFault),
    }
}

/// The report of what was found of an input. Where it is right, the line that says so is written, by way of an empty
/// buffer.
pub fn report_found<K: Sink>(
    alloc: Global,
    found: Result<Verdict, DemoStop>,
    line: &mut LineBuf,
    sink: &mut K,
) -> Report
    requires { line.old ≡ [] }
    ensures found { ReportsFound K.Sink sink.old sink.new result found }
    ensures served { result.status ≡ 2 → ⊥ }
    ensures orderless { result.order ≡ None }
{
    match found {
        Ok(Verdict::Right { frames, moves }) => write_right(alloc, frames, moves, line, sink),
        Ok(Verdict::Wrong { line }) => Report::of_wrong_line(alloc, line),
        Err(stop) => Report::of_stop(Stop::from(stop), None, JournalList::new(alloc)),
    }
}
