use crate::demo_stop::DemoStop;
use crate::event::{Event, EventKind, no_arrival};
use crate::next_event::next_event;
use crate::reading::Reading;
use crate::rest::{RestBuf, next_rest};
use crate::stage::Stage;
use arena_map::{ArenaMap, MOST_FRAMES};
use edge_io::{LineBuf, LineReader, Source};
use packet_read::Arrival;
use std::alloc::{AllocError, Global};
use std::marker::Model;

/// Reads a recording from a source, one event after another, and then what follows it, line by line. It holds a buffer
/// of input, one line of it, and the map until it is taken.
#[derive(Drop)]
pub struct DemoReader {
    lines: LineReader,
    line: LineBuf,
    reading: Reading,
    stop: Option<DemoStop>,
    /// No line follows the recording: the input ended with its `end`, or `rest` has answered false.
    is_cut: bool,
}

impl Model for DemoReader {
    ghost use Rattle.demo_lines.specs.Reads.{DemoReaderView, IsDemoReader};

    ghost Value = { DemoReaderView };

    ghost view = { λ d. record { pending = d.lines; reading = d.reading; stop = d.stop; cut = d.is_cut } };

    ghost invariant = { λ d. IsDemoReader d.reading d.stop };
}

impl DemoReader {
    ghost use Rattle.std.specs.Prelude.{◌≡◌, ◌≤◌, true, false, [], Ok, Err, None, IfOk, IfErr, IfSome};
    ghost use Rattle.std.specs.Bool.{OnTrue, OnFalse};
    ghost use Rattle.demo_lines.specs.Kinds.{event_of_kind};
    ghost use Rattle.demo_lines.specs.Known.{is_map_whole, is_refused};
    ghost use Rattle.demo_lines.specs.Readings.{IsReading};
    ghost use Rattle.demo_lines.specs.Reads.{fresh_reader, fresh_within, map_taken};
    ghost use Rattle.demo_lines.specs.Outcomes.{GivesEvent, IsStoppedBy};
    ghost use Rattle.demo_lines.specs.Rest.{GivesNextLine, GivesNoLine, FailsToGiveLine};

    /// A reader that has read nothing.
    pub fn new(alloc: Global) -> Result<DemoReader, AllocError>
        ensures { IfOk result (λ demo. demo ≡ fresh_reader) }
    {
        DemoReader::with_frame_limit(alloc, MOST_FRAMES)
    }

    /// A reader that has read nothing, of a recording with at most so many frames: one more is refused, as with
    /// [`new`](Self::new) the 100,001st is.
    pub fn with_frame_limit(alloc: Global, frames: u32) -> Result<DemoReader, AllocError>
        requires { frames ≤ MOST_FRAMES }
        ensures { IfOk result (λ demo. demo ≡ fresh_within frames) }
    {
        Ok(DemoReader {
            lines: LineReader::new(alloc)?,
            line: LineBuf::new(alloc)?,
            reading: Reading::within(frames),
            stop: None,
            is_cut: false,
        })
    }

    /// The number of the line `end` in the input, from 1. It is to be called where [`next`](Self::next) has given
    /// [`Event::End`].
    pub fn end_line(&self) -> u64
        requires { self.now.reading.stage ≡ Stage.Ended }
        ensures { result ≡ self.now.reading.lines }
    {
        self.reading.lines()
    }

    /// Gives the map, once. `None` exactly where it was taken before. It is to be called where [`next`](Self::next) has
    /// given an event and refused no line, and nothing that is read later needs the map.
    pub fn take_map(&mut self) -> Option<ArenaMap>
        requires holds { IsReading self.old.reading }
        requires given { is_map_whole self.old.reading.stage ≡ true }
        requires accepted { is_refused self.old.reading.stage ≡ false }
        ensures map { result ≡ self.old.reading.map }
        ensures rest { self.new ≡ map_taken self.old }
        ensures holds { IsReading self.new.reading }
    {
        self.reading.take_map()
    }

    /// Reads up to the next event. The reader is to be used with one source alone.
    ///
    /// After [`Event::End`] each later call gives it again, and after a stop each later call gives the stop again;
    /// neither reads anything. [`DemoStop::ReadFault`] first comes only where the source's count of faults rose, and
    /// the count rises nowhere else. No more is read than is needed for the event or the refusal: an `end` without its
    /// line feed is known where the source has given its end. Memory is taken for the map alone.
    pub fn next<S: Source>(&mut self, alloc: Global, source: &mut S) -> Result<Event, DemoStop>
        ensures event { IfOk result (GivesEvent S.Source self.old self.new source.old source.new) }
        ensures stop { IfErr result (IsStoppedBy S.Source self.old self.new source.old source.new) }
        ensures stopped { IfSome self.old.stop (λ stop.
            (result ≡ Err stop) × (self.new ≡ self.old) × (source.new ≡ source.old)) }
        ensures ended { self.old.stop ≡ None → self.old.reading.stage ≡ Stage.Ended →
            (result ≡ Ok Event.End) × (self.new ≡ self.old) × (source.new ≡ source.old) }
    {
        let mut arrival = no_arrival();
        match self.next_into(alloc, source, &mut arrival) {
            Ok(kind) => Ok(kind.with_packet(arrival)),
            Err(stop) => Err(stop),
        }
    }

    /// Reads up to the next event, as [`next`](Self::next) does, and puts its packet, where it has one, into `arrival`
    /// in place of the one there: so a packet isn't moved. What is there after another event or a stop isn't said.
    pub fn next_into<S: Source>(
        &mut self,
        alloc: Global,
        source: &mut S,
        arrival: &mut Arrival,
    ) -> Result<EventKind, DemoStop>
        ensures event { IfOk result (λ kind. GivesEvent S.Source self.old self.new source.old source.new
            (event_of_kind kind arrival.new)) }
        ensures stop { IfErr result (IsStoppedBy S.Source self.old self.new source.old source.new) }
        ensures stopped { IfSome self.old.stop (λ stop.
            (result ≡ Err stop) × (self.new ≡ self.old) × (source.new ≡ source.old)) }
        ensures ended { self.old.stop ≡ None → self.old.reading.stage ≡ Stage.Ended →
            (result ≡ Ok EventKind.End) × (self.new ≡ self.old) × (source.new ≡ source.old) }
    {
        if let Some(stop) = self.stop {
            return Err(stop);
        }
        if self.reading.stage() == Stage::Ended {
            return Ok(EventKind::End);
        }
        let result = next_event(
            alloc,
            &mut self.lines,
            &mut self.line,
            &mut self.reading,
            &mut self.is_cut,
            source,
            arrival,
        );
        self.stop = result.as_ref().err().copied();
        result
    }

    /// Puts the next line after the recording into `out`, which is empty, without its line feed. It is to be called
    /// where [`next`](Self::next) has given [`Event::End`], with the same source.
    ///
    /// `false` exactly where the input ends before a line feed, or the line has more than [`LONGEST_REST`] bytes; each
    /// later call then gives `false` again and reads nothing. Where the input ended with the recording, the first call
    /// does so too. No more is read than the line needs, or than shows that there is none. [`DemoStop::ReadFault`] first
    /// comes only where the source's count of faults rose, and the count rises nowhere else; each later call then gives
    /// it again. It takes no memory.
    pub fn rest<S: Source>(&mut self, source: &mut S, out: &mut RestBuf) -> Result<bool, DemoStop>
        requires over { self.old.reading.stage ≡ Stage.Ended }
        requires empty { out.old ≡ [] }

        ensures line { IfOk result (λ is. OnTrue is
            (GivesNextLine S.Source self.old self.new source.old source.new out.new)) }
        ensures none { IfOk result (λ is. OnFalse is (GivesNoLine S.Source self.old self.new source.old source.new)) }
        ensures stop { IfErr result (FailsToGiveLine S.Source self.old self.new source.old source.new) }
        ensures keeps { S.never_fails source.old → S.never_fails source.new }
        ensures reading { self.new.reading ≡ self.old.reading }
        ensures stopped { IfSome self.old.stop (λ stop.
            (result ≡ Err stop) × (self.new ≡ self.old) × (source.new ≡ source.old)) }
        ensures ended { self.old.stop ≡ None → self.old.cut ≡ true →
            (result ≡ Ok false) × (self.new ≡ self.old) × (source.new ≡ source.old) }
    {
        if let Some(stop) = self.stop {
            return Err(stop);
        }
        if self.is_cut {
            return Ok(false);
        }
        match next_rest(&mut self.lines, &mut self.line, source, out) {
            Ok(is_line) => {
                self.is_cut = !is_line;
                Ok(is_line)
            }
            Err(_) => {
                self.stop = Some(DemoStop::ReadFault);
                Err(DemoStop::ReadFault)
            }
        }
    }
}
