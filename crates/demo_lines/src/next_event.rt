ghost use Rattle.std.specs.Prelude.{◌≡◌, false, IfOk, IfErr};
ghost use Rattle.demo_lines.specs.Kinds.{event_of_kind};
ghost use Rattle.demo_lines.specs.Known.{is_over};
ghost use Rattle.demo_lines.specs.Readings.{IsReading};
ghost use Rattle.demo_lines.specs.Outcomes.{reader_without_stop, reader_after, GivesEvent, IsStoppedBy};

use crate::demo_stop::DemoStop;
use crate::event::EventKind;
use crate::line_fault::LineFault;
use crate::one_line::{refused_after, take_last, take_line};
use crate::reading::Reading;
use edge_io::{LineBuf, LineReader, NextLine, Source};
use packet_read::Arrival;
use std::alloc::Global;

/// Takes lines up to the first that gives an event, whose packet is put into `arrival`, and says whether the input ended
/// with that line.
pub(crate) fn next_event<S: Source>(
    alloc: Global,
    lines: &mut LineReader,
    line: &mut LineBuf,
    reading: &mut Reading,
    is_cut: &mut bool,
    source: &mut S,
    arrival: &mut Arrival,
) -> Result<EventKind, DemoStop>
    requires reading { IsReading reading.old }
    requires going { is_over reading.old.stage ≡ false }
    ensures event { IfOk result (λ kind. GivesEvent S.Source (reader_without_stop lines.old reading.old is_cut.old)
        (reader_after lines.new reading.new is_cut.new result) source.old source.new
        (event_of_kind kind arrival.new)) }
    ensures stop { IfErr result (IsStoppedBy S.Source (reader_without_stop lines.old reading.old is_cut.old)
        (reader_after lines.new reading.new is_cut.new result) source.old source.new) }
{
    loop {
        match lines.next_line(source, line) {
            Ok(NextLine::Whole) => {
                if let Some(kind) = take_line(alloc, reading, line.as_slice(), arrival)? {
                    return Ok(kind);
                }
            }
            Ok(NextLine::Long) => return Err(refused_after(reading, LineFault::Long)),
            Ok(NextLine::Ended) => {
                let kind = take_last(alloc, reading, line.as_slice(), arrival)?;
                *is_cut = true;
                return Ok(kind);
            }
            Err(_) => return Err(DemoStop::ReadFault),
        }
    }
}
