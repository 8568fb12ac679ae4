ghost use Rattle.std.specs.Prelude.{◌≡◌, ◌≢◌, ◌+◌, ◌≤◌, [], ◌++◌, length, Err, OnOk, OnErr, IsOk};
ghost use Rattle.std.specs.Io.KnownBytes.{Appends};
ghost use Rattle.edge_io.specs.Counts.{HasRisen};
ghost use Rattle.edge_io.specs.Writes.{AppendsPart};
ghost use Rattle.arena_map.specs.declared.limits.TheConstants.{MOST_FRAMES};
ghost use Rattle.arena_map.specs.Maps.{IsMap};
ghost use Rattle.demo_make.specs.declared.make_stop.MakeStop.TheVariants.{WriteFault, NoMemory};
ghost use Rattle.demo_make.specs.GeneratedFrames.{IsInRange};
ghost use Rattle.demo_make.specs.Remaining.{events_text};
ghost use Rattle.demo_lines.specs.Spelling.{recording_events};
ghost use Rattle.demo_walk.specs.Remaining.{remaining_events};
ghost use Rattle.demo_walk.specs.WalkedFrames as walked;
ghost use Rattle.demo_walk.specs.WalkedFrames.{frames_on, walk_text};

use crate::places::place_count;
use crate::walk::Walk;
use arena_map::ArenaMap;
use bot_ways::spell_map;
use demo_make::{MakeStop, write_events};
use edge_io::{Failed, LineBuf, Sink, write_whole};
use std::alloc::Global;

/// How many frames there are of so many: none where the map has no spawn, since none may come there.
fn frames_for(map: &ArenaMap, frames: u32) -> u32
    requires { frames ≤ MOST_FRAMES }
    ensures value { result ≡ walked.frames_for map.now frames }
    ensures few { result ≤ MOST_FRAMES }
{
    if map.ready() { frames } else { 0 }
}

/// The walk of so many players in so many frames on a map, before its first event. It has no frame where the map has no
/// spawn.
fn walk_on(map: &ArenaMap, seed: u64, players: u8, frames: u32) -> Walk
    requires { IsInRange players frames }
    ensures events { remaining_events result ≡ recording_events (frames_on map.now seed players frames) }
    ensures rules { IsMap map.now }
{
    Walk::new(seed, players, place_count(map), frames_for(map, frames))
}

/// Writes the lines of a map and then those of the events, in two pieces.
fn write_parts<K: Sink>(
    sink: &mut K,
    lines: &[u8],
    text: &mut LineBuf,
    events: Walk,
) -> Result<(), Failed>
    requires { text.old ≡ [] }
    ensures ok { OnOk result
        (Appends (K.taken sink.old) (K.taken sink.new) (lines.now ++ events_text (remaining_events events))) }
    ensures err { OnErr result
        (AppendsPart (K.taken sink.old) (K.taken sink.new) (lines.now ++ events_text (remaining_events events))) }

    ensures later { K.faults sink.old ≤ K.faults sink.new }
    ensures fault { OnErr result (HasRisen (K.faults sink.old) (K.faults sink.new)) }
    ensures uncounted { OnOk result (K.faults sink.new ≡ K.faults sink.old) }
    ensures sure { length (lines.now ++ events_text (remaining_events events)) ≤ K.room sink.old → IsOk result }
    ensures room { OnOk result (K.room sink.old
        ≤ K.room sink.new + length (lines.now ++ events_text (remaining_events events))) }
{
    write_whole(sink, lines)?;
    write_events(sink, text, events)
}

/// Writes the recording in which players join and walk on this map, by the words of this seed: 1 to 64 players, in 1 to
/// 100,000 frames. The lines of the map are written by kind, and then the frames, a buffer of lines at a time.
///
/// [`MakeStop::WriteFault`] comes only where the sink's count of faults rose, and never where the sink is sure to have
/// room for the recording; the sink has then taken a front of it, but not all. [`MakeStop::NoMemory`] comes before the
/// first write, and the sink is as it was.
pub fn write_walk<K: Sink>(
    alloc: Global,
    map: &ArenaMap,
    seed: u64,
    players: u8,
    frames: u32,
    sink: &mut K,
) -> Result<(), MakeStop>
    requires { IsInRange players frames }
    ensures ok { OnOk result (Appends (K.taken sink.old) (K.taken sink.new) (walk_text map.now seed players frames)) }
    ensures write_fault { result ≡ Err WriteFault
        → AppendsPart (K.taken sink.old) (K.taken sink.new) (walk_text map.now seed players frames) }
    ensures no_memory { result ≡ Err NoMemory → sink.new ≡ sink.old }
    ensures rules { OnOk result (IsMap map.now) }

    ensures later { K.faults sink.old ≤ K.faults sink.new }
    ensures fault { result ≡ Err WriteFault → HasRisen (K.faults sink.old) (K.faults sink.new) }
    ensures uncounted { OnOk result (K.faults sink.new ≡ K.faults sink.old) }
    ensures sure { length (walk_text map.now seed players frames) ≤ K.room sink.old → result ≢ Err WriteFault }
    ensures room { OnOk result (K.room sink.old ≤ K.room sink.new + length (walk_text map.now seed players frames)) }
{
    let lines = spell_map(alloc, map)?;
    let mut text = LineBuf::new(alloc)?;
    write_parts(
        sink,
        lines.as_slice(),
        &mut text,
        walk_on(map, seed, players, frames),
    )?;
    Ok(())
}
