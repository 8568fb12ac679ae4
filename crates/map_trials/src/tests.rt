ghost use Rattle.std.specs.Prelude.{IfOk};
ghost use Rattle.arena_map.specs.MapLines.{IsWithinLimits};

use arena_map::{ArenaMap, MapLine, MapRefusal, read_map_line};
use edge_io::cut;
use std::alloc::Global;

mod maps;
mod ways;

/// The arena of most rows.
const ARENA: &[u8] = b"arena -131072 -131072 0 131072 131072 65536";

/// What a map line says, or its fault. A word of play gives 0.
fn read(text: &[u8]) -> Result<MapLine, u8>
    ensures { IfOk result IsWithinLimits }
{
    let (word, _) = cut(text);
    if word == b"frame".as_slice() || word == b"from".as_slice() || word == b"end".as_slice() {
        return Err(0);
    }
    read_map_line(text)
}

/// The map of an arena's line.
fn begun(alloc: Global, text: &[u8]) -> Result<ArenaMap, &'static str> {
    let line = read(text).map_err(|_| "a line")?;
    let MapLine::Arena { .. } = line else {
        return Err("an arena");
    };
    ArenaMap::new(alloc, &line).map_err(|_| "a map")
}

/// The number of the rule that a line breaks, added to a map: 0 for none.
fn rule_of(map: &mut ArenaMap, text: &[u8]) -> Result<u8, &'static str> {
    let line = read(text).map_err(|_| "a line")?;
    if let MapLine::Arena { .. } = line {
        return Err("no arena");
    }
    match map.add(&line) {
        Ok(()) => Ok(0),
        Err(MapRefusal::Rule(fault)) => Ok(fault.number()),
        Err(MapRefusal::NoMemory) => Err("memory"),
    }
}
