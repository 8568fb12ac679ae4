ghost use Rattle.std.specs.Prelude.{◌≡◌, ◌+◌, ◌^◌, ◌≤◌, ◌<◌, true, false, [], ◌∷◌, length, option_to_list, IfOk, IfErr, OnOk};
ghost use Rattle.demo_lines.specs.Known.{is_over, is_refused};
ghost use Rattle.demo_lines.specs.Kinds.{event_of_kind, event_if};
ghost use Rattle.demo_lines.specs.Lines.{is_end};
ghost use Rattle.demo_lines.specs.Recording.{next, events_of_line, lines_left};
ghost use Rattle.demo_lines.specs.Said.{line_said};
ghost use Rattle.demo_lines.specs.Bytes.{refusal};
ghost use Rattle.demo_lines.specs.Readings.{IsReading};
ghost use Rattle.demo_lines.specs.Reads.{stop_at, IsQuiet, IsRefusedAt, IsRefusedLast, OnRefused, OnReadFault, OnNoMemory};

use crate::demo_stop::DemoStop;
use crate::event::EventKind;
use crate::line::{is_end, line_at};
use crate::line_fault::LineFault;
use crate::line_refusal::LineRefusal;
use crate::reading::{Reading, event_of};
use crate::stage::Stage;
use edge_io::LONGEST;
use packet_read::Arrival;
use std::alloc::Global;

/// The stop at this line, for this fault.
fn refused(line: u64, why: LineFault) -> DemoStop
    ensures { result ≡ stop_at (refusal line why) }
{
    DemoStop::from(LineRefusal {
        line,
        fault: why.number(),
        rule: why.rule(),
    })
}

/// Takes one more line, and answers its event, whose packet is put into `arrival`.
pub(crate) fn take_line(
    alloc: Global,
    reading: &mut Reading,
    line: &[u8],
    arrival: &mut Arrival,
) -> Result<Option<EventKind>, DemoStop>
    requires reading { IsReading reading.old }
    requires open { is_over reading.old.stage ≡ false }
    requires fits { length line.now ≤ LONGEST }
    ensures next { OnOk result (reading.new ≡ next reading.old line.now) }
    ensures event { IfOk result (λ kind. option_to_list (event_if kind arrival.new)
        ≡ events_of_line reading.old line.now) }
    ensures goes_on { OnOk result (is_refused reading.new.stage ≡ false) }
    ensures refused { IfErr result (λ stop. OnRefused stop (IsRefusedAt reading.old reading.new line.now)) }
    ensures memory { IfErr result (λ stop. OnNoMemory stop
        ((reading.new ≡ reading.old) × IsQuiet reading.old (line_said reading.old.stage line.now))) }
    ensures no_fault { IfErr result (λ stop. OnReadFault stop ⊥) }
    ensures holds { IsReading reading.new }
    ensures fewer { OnOk result (lines_left reading.new < lines_left reading.old) }
{
    let said = line_at(reading.stage(), line, arrival);
    reading.take(alloc, &said)?;
    if let Stage::Refused(why) = reading.stage() {
        return Err(refused(reading.lines(), why));
    }
    Ok(event_of(&said))
}

/// The line after those that were read is refused.
pub(crate) fn refused_after(reading: &Reading, why: LineFault) -> DemoStop
    requires { reading.now.lines < 2 ^ 63 }
    ensures { result ≡ stop_at (refusal (reading.now.lines + 1) why) }
{
    refused(reading.lines() + 1, why)
}

/// Takes what the input ended with and no line feed ends: a line where it is `end`.
pub(crate) fn take_last(
    alloc: Global,
    reading: &mut Reading,
    line: &[u8],
    arrival: &mut Arrival,
) -> Result<EventKind, DemoStop>
    requires reading { IsReading reading.old }
    requires open { is_over reading.old.stage ≡ false }
    requires fits { length line.now ≤ LONGEST }
    ensures end { OnOk result (is_end line.now ≡ true) }
    ensures next { OnOk result (reading.new ≡ next reading.old line.now) }
    ensures event { IfOk result (λ kind. events_of_line reading.old line.now ≡ event_of_kind kind arrival.new ∷ []) }
    ensures goes_on { OnOk result (is_refused reading.new.stage ≡ false) }
    ensures refused { IfErr result (λ stop. OnRefused stop (IsRefusedLast reading.old reading.new line.now)) }
    ensures no_memory { IfErr result (λ stop. OnNoMemory stop ⊥) }
    ensures no_fault { IfErr result (λ stop. OnReadFault stop ⊥) }
    ensures holds { IsReading reading.new }
    ensures fewer { OnOk result (lines_left reading.new < lines_left reading.old) }
{
    if !is_end(line) {
        return Err(refused_after(reading, LineFault::NoEnd));
    }
    match take_line(alloc, reading, line, arrival)? {
        Some(kind) => Ok(kind),
        None => unreachable!(),
    }
}
