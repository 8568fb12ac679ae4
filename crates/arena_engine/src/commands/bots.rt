ghost use Rattle.std.specs.Prelude.{◌≡◌, None, IfOk, IfErr};
ghost use Rattle.arena_engine.specs.Endings.{Ends};
ghost use Rattle.arena_engine.specs.Games as games;
ghost use Rattle.arena_engine.specs.MapReads.{GivesMap, GivesStop, WritesWays, WritesStop};
ghost use Rattle.arena_engine.specs.Planned.{IsPlanned};

use crate::report::Report;
use crate::status::Status;
use crate::stop::Stop;
use arena_map::ArenaMap;
use bot_ways::{PlanStop, plan_way, write_least, write_plan};
use demo_lines::{DemoReader, DemoStop, Event};
use edge_io::{Sink, Source};
use move_journal::JournalList;
use std::alloc::Global;

/// What was found of the ways to a spawn.
#[derive(Clone, Copy, Debug, PartialEq, Eq)]
pub enum Ways {
    /// A shortest one.
    Found,
    /// The map has no such spawn.
    NoSpawn,
    /// No walk leads there.
    NoWalk,
}

/// Whether the event is the recording's end.
fn is_end(event: &Event) -> bool
    ensures { result ≡ games.is_end event.now }
{
    match event {
        Event::End => true,
        Event::Frame | Event::From(_) => false,
    }
}

/// Reads a recording to its line `end`, and gives its map.
fn read_map<S: Source>(alloc: Global, source: &mut S) -> Result<ArenaMap, DemoStop>
    ensures ok { IfOk result (GivesMap S.Source source.old source.new) }
    ensures err { IfErr result (GivesStop S.Source source.old source.new) }
{
    let mut demo = DemoReader::new(alloc)?;
    'events: loop {
        let event = demo.next(alloc, source)?;
        if is_end(&event) {
            return Ok(demo.take_map().unwrap());
        }
    }
}

/// Plans the way to a spawn of a map, and writes what that comes to.
fn write_ways<K: Sink>(
    alloc: Global,
    map: &ArenaMap,
    target: u8,
    sink: &mut K,
) -> Result<Ways, PlanStop>
    ensures ok { IfOk result (WritesWays K.Sink map.now target sink.old sink.new) }
    ensures err { IfErr result (WritesStop K.Sink map.now target sink.old sink.new) }
{
    if usize::from(target) >= map.spawns().len() {
        return Ok(Ways::NoSpawn);
    }
    let plan = plan_way(alloc, map, target)?;
    if plan.way.as_slice().is_empty() {
        write_least(alloc, &plan.least, sink)?;
        return Ok(Ways::NoWalk);
    }
    write_plan(alloc, map, &plan, sink)?;
    Ok(Ways::Found)
}

/// Reads a recording for its map, and writes the recording of a bot that walks the shortest way from the first spawn to
/// this one. The report has how that ended.
pub fn plan_recording<S: Source, K: Sink>(
    alloc: Global,
    target: u8,
    source: &mut S,
    sink: &mut K,
) -> Report
    ensures planned { IsPlanned S.Source K.Sink target source.old source.new sink.old sink.new result }
    ensures ends { Ends S.Source K.Sink source.old source.new sink.old sink.new result }
    ensures served { result.status ≡ 2 → ⊥ }
    ensures orderless { result.order ≡ None }
{
    let map = match read_map(alloc, source) {
        Ok(map) => map,
        Err(stop) => return Report::of_stop(Stop::from(stop), None, JournalList::new(alloc)),
    };
    match write_ways(alloc, &map, target, sink) {
        Ok(Ways::Found) => Report::of_status_alone(alloc, Status::Done),
        Ok(Ways::NoSpawn) => Report::of_no_way(alloc, 1),
        Ok(Ways::NoWalk) => Report::of_no_way(alloc, 2),
        Err(PlanStop::WriteFault) => Report::of_status_alone(alloc, Status::WriteFault),
        Err(PlanStop::NoMemory) => Report::of_status_alone(alloc, Status::NoMemory),
    }
}
