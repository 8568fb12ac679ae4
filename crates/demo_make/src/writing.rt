ghost use Rattle.std.specs.Prelude.{◌≡◌, ◌≢◌, ◌+◌, ◌≤◌, ◌++◌, length, Err, OnOk, OnErr, IsOk};
ghost use Rattle.std.specs.Io.KnownBytes.{Appends};
ghost use Rattle.edge_io.specs.Counts.{HasRisen};
ghost use Rattle.edge_io.specs.Writes.{AppendsPart};
ghost use Rattle.demo_make.specs.declared.make_stop.MakeStop.TheVariants.{WriteFault, NoMemory};
ghost use Rattle.demo_make.specs.GeneratedFrames.{IsInRange, generated_text};
ghost use Rattle.demo_make.specs.ResentFrames.{resent_text};
ghost use Rattle.demo_make.specs.Remaining.{remaining_events, events_text, text_with};
ghost use Rattle.demo_make.specs.Passing.{PassesFront};

use crate::events::Events;
use crate::generator::Generator;
use crate::make_stop::MakeStop;
use crate::text::{LONGEST_EVENT, push_event, push_map};
use edge_io::{Failed, LineBuf, ROOM, Sink, write_whole};
use std::alloc::Global;

/// Writes the text that was gathered, where it has no room for one more line.
fn make_room<K: Sink>(sink: &mut K, text: &mut LineBuf) -> Result<(), Failed>
    ensures free { OnOk result (length text.new + LONGEST_EVENT ≤ ROOM) }
    ensures ok { OnOk result (PassesFront (K.taken sink.old) (K.taken sink.new) text.old text.new) }
    ensures err { OnErr result (AppendsPart (K.taken sink.old) (K.taken sink.new) text.old) }

    ensures later { K.faults sink.old ≤ K.faults sink.new }
    ensures fault { OnErr result (HasRisen (K.faults sink.old) (K.faults sink.new)) }
    ensures uncounted { OnOk result (K.faults sink.new ≡ K.faults sink.old) }
    ensures sure { length text.old ≤ K.room sink.old → IsOk result }
    ensures room { OnOk result (K.room sink.old + length text.new ≤ K.room sink.new + length text.old) }
{
    if text.len() + LONGEST_EVENT > ROOM {
        write_whole(sink, text.as_slice())?;
        text.clear();
    }
    Ok(())
}

/// Writes the text that was gathered and then the lines of the events, a buffer of them at a time.
pub fn write_events<K: Sink, E: Events + Drop>(
    sink: &mut K,
    text: &mut LineBuf,
    events: E,
) -> Result<(), Failed>
    ensures ok { OnOk result
        (Appends (K.taken sink.old) (K.taken sink.new) (text.old ++ events_text (E.left events))) }
    ensures err { OnErr result
        (AppendsPart (K.taken sink.old) (K.taken sink.new) (text.old ++ events_text (E.left events))) }

    ensures later { K.faults sink.old ≤ K.faults sink.new }
    ensures fault { OnErr result (HasRisen (K.faults sink.old) (K.faults sink.new)) }
    ensures uncounted { OnOk result (K.faults sink.new ≡ K.faults sink.old) }
    ensures sure { length (text.old ++ events_text (E.left events)) ≤ K.room sink.old → IsOk result }
    ensures room { OnOk result (K.room sink.old
        ≤ K.room sink.new + length (text.old ++ events_text (E.left events))) }
{
    for event in events {
        make_room(sink, text)?;
        push_event(text, &event);
    }
    write_whole(sink, text.as_slice())
}

/// Writes the map and then the events, a buffer of lines at a time. Memory is taken before the first write.
fn write_recording<K: Sink>(alloc: Global, events: Generator, sink: &mut K) -> Result<(), MakeStop>
    ensures ok { OnOk result
        (Appends (K.taken sink.old) (K.taken sink.new) (text_with (remaining_events events))) }
    ensures write_fault { result ≡ Err WriteFault
        → AppendsPart (K.taken sink.old) (K.taken sink.new) (text_with (remaining_events events)) }
    ensures no_memory { result ≡ Err NoMemory → sink.new ≡ sink.old }

    ensures later { K.faults sink.old ≤ K.faults sink.new }
    ensures fault { result ≡ Err WriteFault → HasRisen (K.faults sink.old) (K.faults sink.new) }
    ensures uncounted { OnOk result (K.faults sink.new ≡ K.faults sink.old) }
    ensures sure { length (text_with (remaining_events events)) ≤ K.room sink.old → result ≢ Err WriteFault }
    ensures room { OnOk result (K.room sink.old ≤ K.room sink.new + length (text_with (remaining_events events))) }
{
    let mut text = LineBuf::new(alloc)?;
    let mut line = LineBuf::new(alloc)?;
    push_map(&mut text, &mut line);
    write_events(sink, &mut text, events)?;
    Ok(())
}

/// Writes the recording of this seed, with 1 to 64 players and 1 to 100,000 frames. It writes a buffer of lines at a
/// time.
///
/// [`MakeStop::WriteFault`] comes only where the sink's count of faults rose, and never where the sink is sure to have
/// room for the recording; the sink has then taken a front of it, but not all. [`MakeStop::NoMemory`] comes before the
/// first write, and the sink is as it was.
pub fn make<K: Sink>(
    alloc: Global,
    seed: u64,
    players: u8,
    frames: u32,
    sink: &mut K,
) -> Result<(), MakeStop>
    requires { IsInRange players frames }
    ensures ok { OnOk result (Appends (K.taken sink.old) (K.taken sink.new) (generated_text seed players frames)) }
    ensures write_fault { result ≡ Err WriteFault
        → AppendsPart (K.taken sink.old) (K.taken sink.new) (generated_text seed players frames) }
    ensures no_memory { result ≡ Err NoMemory → sink.new ≡ sink.old }

    ensures later { K.faults sink.old ≤ K.faults sink.new }
    ensures fault { result ≡ Err WriteFault → HasRisen (K.faults sink.old) (K.faults sink.new) }
    ensures uncounted { OnOk result (K.faults sink.new ≡ K.faults sink.old) }
    ensures sure { length (generated_text seed players frames) ≤ K.room sink.old → result ≢ Err WriteFault }
    ensures room { OnOk result (K.room sink.old ≤ K.room sink.new + length (generated_text seed players frames)) }
{
    write_recording(alloc, Generator::new(seed, players, frames), sink)
}

/// Writes the recording of this seed in which commands are resent: each packet repeats the two commands before its own,
/// and one of three arrives, but each one of the last frame. It has 1 to 64 players and 1 to 100,000 frames, and is
/// written a buffer of lines at a time.
///
/// Its errors are those of [`make`].
pub fn resend<K: Sink>(
    alloc: Global,
    seed: u64,
    players: u8,
    frames: u32,
    sink: &mut K,
) -> Result<(), MakeStop>
    requires { IsInRange players frames }
    ensures ok { OnOk result (Appends (K.taken sink.old) (K.taken sink.new) (resent_text seed players frames)) }
    ensures write_fault { result ≡ Err WriteFault
        → AppendsPart (K.taken sink.old) (K.taken sink.new) (resent_text seed players frames) }
    ensures no_memory { result ≡ Err NoMemory → sink.new ≡ sink.old }

    ensures later { K.faults sink.old ≤ K.faults sink.new }
    ensures fault { result ≡ Err WriteFault → HasRisen (K.faults sink.old) (K.faults sink.new) }
    ensures uncounted { OnOk result (K.faults sink.new ≡ K.faults sink.old) }
    ensures sure { length (resent_text seed players frames) ≤ K.room sink.old → result ≢ Err WriteFault }
    ensures room { OnOk result (K.room sink.old ≤ K.room sink.new + length (resent_text seed players frames)) }
{
    write_recording(alloc, Generator::with_resends(seed, players, frames), sink)
}
