ghost use Rattle.std.specs.Prelude.{◌≡◌, ◌↔◌, ◌<◌, ◌≤◌, ◌^◌, true, false, Some, None, Ok, Err, IsSome, IfOk, OnOk, OnErr};
ghost use Rattle.std.specs.Prelude.{option_to_list};
ghost use Rattle.std.specs.Result.{result_ok};
ghost use Rattle.arena_map.specs.declared.map_fault.MapFault.{MapFault};
ghost use Rattle.arena_map.specs.declared.map_fault.MapRefusal.TheVariants as refusal;
ghost use Rattle.arena_map.specs.MapLines as map_lines;
ghost use Rattle.packet_read.specs.declared.arrival.Arrival.{Arrival};
ghost use Rattle.arena_map.specs.MapLines.{IsWithinLimits};
ghost use Rattle.demo_lines.specs.Known as known;
ghost use Rattle.demo_lines.specs.Faults as faults;
ghost use Rattle.demo_lines.specs.declared.line.Line.{Line};
ghost use Rattle.demo_lines.specs.Kinds.{event_if, said_with};
ghost use Rattle.demo_lines.specs.Recording as recording;
ghost use Rattle.demo_lines.specs.Said as said;
ghost use Rattle.demo_lines.specs.Readings.{IsReading, IsAllowedAt};
ghost use Rattle.demo_lines.specs.Reads.{IsQuiet};

use crate::event::EventKind;
use crate::line::LineKind;
use crate::line_fault::LineFault;
use crate::stage::Stage;
use arena_map::{ArenaMap, MOST_FRAMES, MapFault, MapLine, MapRefusal};
use packet_read::MOST_ARRIVALS;
use std::alloc::{AllocError, Global};
use std::marker::Model;

/// What is known of a recording from the lines that were read.
#[derive(Drop)]
pub struct Reading {
    /// How far the lines have come.
    stage: Stage,
    /// The map, from the arena's line on, until it is given out.
    map: Option<ArenaMap>,
    /// How many frames there may be, at most [`MOST_FRAMES`].
    limit: u32,
    /// How many frames were opened, at most `limit`.
    frames: u32,
    /// How many packets the open frame has so far, at most [`MOST_ARRIVALS`].
    arrivals: u32,
    /// How many lines were read; the number of the faulty one, where one was refused.
    lines: u64,
}

impl Model for Reading {
    ghost use Rattle.demo_lines.specs.Known as known;

    ghost Value = { known.Reading };

    ghost view = { λ r. record {
      stage = r.stage;
      map = r.map;
      limit = r.limit;
      frames = r.frames;
      arrivals = r.arrivals;
      lines = r.lines;
    } };
}

/// Adds a line to a map, or begins the map with it where there is none. `Rule` exactly where the line breaks that rule
/// and none before it. The map is unchanged where the line isn't added.
fn add_to(map: &mut Option<ArenaMap>, alloc: Global, line: &MapLine) -> Result<(), MapRefusal>
    requires limits { IsWithinLimits line.now }
    requires first { map.old ≡ None → map_lines.is_arena line.now ≡ true }
    requires later { IsSome map.old → map_lines.is_added line.now ≡ true }
    ensures map { OnOk result (map.new ≡ recording.with_map_line map.old line.now) }
    ensures unchanged { OnErr result (map.new ≡ map.old) }
    ensures rule { (fault : MapFault) → (result ≡ Err (refusal.Rule fault)) ↔ (faults.broken_by_line map.old line.now
        ≡ Some fault) }
{
    match map {
        Some(map) => map.add(line),
        None => match ArenaMap::new(alloc, line) {
            Ok(begun) => {
                *map = Some(begun);
                Ok(())
            }
            Err(refusal) => Err(refusal),
        },
    }
}

impl Reading {
    /// Before the first line of a recording that may have so many frames.
    pub fn within(limit: u32) -> Reading
        requires { limit ≤ MOST_FRAMES }
        ensures value { result ≡ known.start_within limit }
        ensures holds { IsReading result }
    {
        Reading {
            stage: Stage::Start,
            map: None,
            limit,
            frames: 0,
            arrivals: 0,
            lines: 0,
        }
    }

    /// How far the lines have come.
    pub fn stage(&self) -> Stage
        ensures { result ≡ self.now.stage }
    {
        self.stage
    }

    /// How many lines were read; the number of the faulty one, where one was refused.
    pub fn lines(&self) -> u64
        ensures { result ≡ self.now.lines }
    {
        self.lines
    }

    /// Gives out the map.
    pub fn take_map(&mut self) -> Option<ArenaMap>
        requires reading { IsReading self.old }
        requires whole { known.is_map_whole self.old.stage ≡ true }
        ensures map { result ≡ self.old.map }
        ensures rest { self.new ≡ known.without_map self.old }
        ensures holds { IsReading self.new }
    {
        self.map.take()
    }

    /// Whether the map has a spawn.
    fn has_spawn(&self) -> bool
        ensures { result ≡ faults.has_spawn self.now.map }
    {
        self.map.as_ref().is_some_and(|map| map.ready())
    }

    /// One more line, after which the recording is at this stage.
    fn go_to(&mut self, stage: Stage)
        requires { self.old.lines < 2 ^ 63 }
        ensures { self.new ≡ known.at_stage stage self.old }
    {
        self.stage = stage;
        self.lines += 1;
    }

    /// The fault of a line that opens a frame.
    fn frame_fault(&self) -> Option<LineFault>
        ensures { result ≡ said.stage_fault self.now Line.Frame }
    {
        if !self.stage.is_map_whole() && !self.has_spawn() {
            Some(LineFault::Rule(MapFault::NoSpawn))
        } else if self.frames >= self.limit {
            Some(LineFault::Count)
        } else {
            None
        }
    }

    /// One more line, which opens a frame.
    fn take_frame(&mut self)
        requires { self.old.lines < 2 ^ 63 }
        ensures { self.new ≡ said.after_said self.old (Ok Line.Frame) }
    {
        match self.frame_fault() {
            Some(why) => self.go_to(Stage::Refused(why)),
            None => {
                self.frames += 1;
                self.arrivals = 0;
                self.go_to(Stage::Playing);
            }
        }
    }

    /// One more line, which has a packet.
    fn take_arrival(&mut self)
        requires { self.old.lines < 2 ^ 63 }
        ensures { (a : Arrival) → self.new ≡ said.after_said self.old (Ok (Line.From a)) }
    {
        if self.arrivals >= MOST_ARRIVALS {
            self.go_to(Stage::Refused(LineFault::Count));
        } else {
            self.arrivals += 1;
            self.go_to(Stage::Playing);
        }
    }

    /// One more line, which is one of the map.
    fn take_map_line(&mut self, alloc: Global, line: &MapLine) -> Result<(), AllocError>
        requires lines { self.old.lines < 2 ^ 63 }
        requires limits { IsWithinLimits line.now }
        requires first { self.old.map ≡ None → map_lines.is_arena line.now ≡ true }
        requires later { IsSome self.old.map → map_lines.is_added line.now ≡ true }
        ensures next { OnOk result (self.new ≡ said.after_said self.old (Ok (Line.OfMap line.now))) }
        ensures unchanged { OnErr result (self.new ≡ self.old) }
        ensures quiet { OnErr result (faults.broken_by_line self.old.map line.now ≡ None) }
    {
        match add_to(&mut self.map, alloc, line) {
            Ok(()) => self.go_to(Stage::Map),
            Err(MapRefusal::Rule(rule)) => self.go_to(Stage::Refused(LineFault::Rule(rule))),
            Err(MapRefusal::NoMemory) => return Err(AllocError),
        }
        Ok(())
    }

    /// What is known after a line that says this, or has this fault.
    fn go_on(&mut self, alloc: Global, line: &Result<LineKind, LineFault>) -> Result<(), AllocError>
        requires reading { IsReading self.old }
        requires going { known.is_over self.old.stage ≡ false }
        requires placed { (a : Arrival) → IfOk (said_with a line.now) (IsAllowedAt self.old.stage) }
        ensures next { (a : Arrival) → OnOk result (self.new ≡ said.after_said self.old (said_with a line.now)) }
        ensures unchanged { OnErr result (self.new ≡ self.old) }
        ensures quiet { (a : Arrival) → OnErr result (IsQuiet self.old (said_with a line.now)) }
    {
        match line {
            Err(why) => self.go_to(Stage::Refused(*why)),
            Ok(LineKind::OfMap(line)) => self.take_map_line(alloc, line)?,
            Ok(LineKind::Frame) => self.take_frame(),
            Ok(LineKind::From) => self.take_arrival(),
            Ok(LineKind::End) => self.go_to(Stage::Ended),
        }
        Ok(())
    }

    /// Takes one more line, which says this, or has this fault, whatever its packet is. Nothing changes where memory is
    /// refused, which comes only at a line of the map that would be taken.
    pub fn take(
        &mut self,
        alloc: Global,
        line: &Result<LineKind, LineFault>,
    ) -> Result<(), AllocError>
        requires reading { IsReading self.old }
        requires going { known.is_over self.old.stage ≡ false }
        requires placed { (a : Arrival) → IfOk (said_with a line.now) (IsAllowedAt self.old.stage) }
        ensures next { (a : Arrival) → OnOk result (self.new ≡ said.after_said self.old (said_with a line.now)) }
        ensures unchanged { OnErr result (self.new ≡ self.old) }
        ensures quiet { (a : Arrival) → OnErr result (IsQuiet self.old (said_with a line.now)) }
        ensures holds { IsReading self.new }
        ensures fewer { OnOk result (recording.lines_left self.new < recording.lines_left self.old) }
    {
        self.go_on(alloc, line)
    }
}

/// The event of a line, where it has no fault.
pub fn event_of(line: &Result<LineKind, LineFault>) -> Option<EventKind>
    ensures { (a : Arrival) →
        option_to_list (event_if result a) ≡ recording.event_of (result_ok (said_with a line.now)) }
{
    match line {
        Ok(LineKind::Frame) => Some(EventKind::Frame),
        Ok(LineKind::From) => Some(EventKind::From),
        Ok(LineKind::End) => Some(EventKind::End),
        Ok(LineKind::OfMap(_)) | Err(_) => None,
    }
}
