ghost use Rattle.std.specs.Prelude.{◌≡◌, None, IfOk, IfErr};
ghost use Rattle.demo_make.specs.GeneratedFrames.{IsInRange};
ghost use Rattle.arena_engine.specs.Endings.{Ends};
ghost use Rattle.arena_engine.specs.Walked.{GivesFirstMap, StopsBefore, IsWalked};

use crate::commands::make::report_of;
use crate::report::Report;
use crate::stop::Stop;
use arena_map::ArenaMap;
use demo_lines::{DemoReader, DemoStop};
use demo_walk::write_walk;
use edge_io::{Sink, Source};
use move_journal::JournalList;
use std::alloc::Global;

/// Reads a recording to its first frame, or to its end where it has none, and gives its map.
fn read_first_map<S: Source>(alloc: Global, source: &mut S) -> Result<ArenaMap, DemoStop>
    ensures ok { IfOk result (GivesFirstMap S.Source source.old source.new) }
    ensures err { IfErr result (StopsBefore S.Source source.old source.new) }
{
    let mut demo = DemoReader::new(alloc)?;
    let _event = demo.next(alloc, source)?;
    Ok(demo.take_map().unwrap())
}

/// Reads the lines of a map, and writes the recording in which so many players join and walk on it in so many frames, by
/// the words of this seed. The report has how that ended.
pub fn write_walk_on_map<S: Source, K: Sink>(
    alloc: Global,
    seed: u64,
    players: u8,
    frames: u32,
    source: &mut S,
    sink: &mut K,
) -> Report
    requires { IsInRange players frames }
    ensures walked { IsWalked S.Source K.Sink seed players frames source.old source.new sink.old sink.new result }
    ensures ends { Ends S.Source K.Sink source.old source.new sink.old sink.new result }
    ensures served { result.status ≡ 2 → ⊥ }
    ensures orderless { result.order ≡ None }
{
    let map = match read_first_map(alloc, source) {
        Ok(map) => map,
        Err(stop) => return Report::of_stop(Stop::from(stop), None, JournalList::new(alloc)),
    };
    report_of(alloc, write_walk(alloc, &map, seed, players, frames, sink))
}
