ghost use Rattle.demo_make.specs.GeneratedFrames.{IsInRange};

use demo_lines::Event;
use demo_make::{Generator, MakeStop, generated_map, make, resend};
use edge_io::MemSink;
use packet_read::Arrival;
use std::alloc::Global;
use std::test::Fail;

/// A sink in memory with this room, and what `make` answers over it.
fn made(
    alloc: Global,
    seed: u64,
    players: u8,
    frames: u32,
    room: usize,
) -> Result<(MemSink, Result<(), MakeStop>), Fail>
    requires { IsInRange players frames }
{
    let mut sink = MemSink::new(alloc, room, 1_000)?;
    let answer = make(alloc, seed, players, frames, &mut sink);
    Ok((sink, answer))
}

/// How many lines of a text are equal to `line`.
fn count_of(text: &[u8], line: &[u8]) -> usize {
    text.split(|byte| *byte == b'\n')
        .filter(|l| *l == line)
        .count()
}

#[test]
fn two_players_and_one_frame(rt: HostRuntime) -> Result<(), Fail> {
    let (sink, answer) = made(rt.alloc(), 7, 2, 1, 4_096)?;
    assert_eq!(rt; answer, Ok(()));
    let text = sink.bytes();
    let front = b"arena -262144 -262144 0 262144 262144 131072\nspawn -172032 -172032 6144\n";
    let back =
        b"frame\nfrom 1 0101\nfrom 2 0101\nfrom 1 010201000000320a000f0100\nfrom 2 010201000000323000890000\nend\n";
    assert!(rt; text.starts_with(front.as_slice()));
    assert!(rt; text.ends_with(back.as_slice()));
    assert_eq!(rt; text.iter().filter(|byte| **byte == b'\n').count(), 107);
    Ok(())
}

#[test]
fn each_frame_has_a_move_of_each_player(rt: HostRuntime) -> Result<(), Fail> {
    // The seed and its first words are those of a published table.
    let (sink, answer) = made(rt.alloc(), 1_477_776_061_723_855_037, 3, 2, 4_096)?;
    assert_eq!(rt; answer, Ok(()));
    let back =
        b"lift 204800 -229376 0 229376 -204800 2560 25600 512\nframe\nfrom 1 0101\nfrom 2 0101\nfrom 3 0101\nfrom 1 010201000000323f01d8ff00\nfrom 2 01020100000032a5ffc60000\nfrom 3 01020100000032b7ffc80000\nframe\nfrom 1 010202000000325300aaff00\nfrom 2 010202000000320eff2dff00\nfrom 3 010202000000320b011f0100\nend\n";
    assert!(rt; sink.bytes().ends_with(back.as_slice()));
    Ok(())
}

#[test]
fn a_match_of_32_players_has_19_934_lines(rt: HostRuntime) -> Result<(), Fail> {
    let (sink, answer) = made(rt.alloc(), 7, 32, 600, 700_000)?;
    assert_eq!(rt; answer, Ok(()));
    let text = sink.bytes();
    assert_eq!(rt; text.len(), 635_187);
    assert_eq!(rt; text.iter().filter(|byte| **byte == b'\n').count(), 19_934);
    assert_eq!(rt; count_of(text, b"frame"), 600);
    assert_eq!(rt; count_of(text, b"from 32 0101"), 1);
    assert_eq!(rt; count_of(text, b"end"), 1);
    Ok(())
}

#[test]
fn a_sink_without_room_has_a_front(rt: HostRuntime) -> Result<(), Fail> {
    let (sink, answer) = made(rt.alloc(), 7, 2, 1, 3_000)?;
    assert_eq!(rt; answer, Err(MakeStop::WriteFault));
    let back = b"25600 512\nframe\nfrom 1 0101\nfrom 2";
    assert_eq!(rt; sink.bytes().len(), 3_000);
    assert!(rt; sink.bytes().ends_with(back.as_slice()));
    Ok(())
}

/// How many frames, packets and ends a generator gives.
fn counts_of(events: Generator) -> (u32, u32, u32) {
    let mut frames = 0u32;
    let mut packets = 0u32;
    let mut ends = 0u32;
    for event in events {
        match event.to_event() {
            Event::Frame => frames = frames.saturating_add(1),
            Event::From(Arrival { port: _, bytes: _ }) => packets = packets.saturating_add(1),
            Event::End => ends = ends.saturating_add(1),
        }
    }
    (frames, packets, ends)
}

#[test]
fn a_generator_gives_the_events(rt: HostRuntime) {
    assert_eq!(rt; counts_of(Generator::new(7, 2, 1)), (1, 4, 1));
}

/// In each of the first two frames one packet of a player arrives or none, and in the last one those of both.
#[test]
fn a_resending_generator_gives_the_events(rt: HostRuntime) {
    assert_eq!(rt; counts_of(Generator::with_resends(7, 2, 3)), (3, 5, 1));
}

#[test]
fn commands_are_resent(rt: HostRuntime) -> Result<(), Fail> {
    let mut sink = MemSink::new(rt.alloc(), 4_096, 1_000)?;
    assert_eq!(rt; resend(rt.alloc(), 7, 2, 1, &mut sink), Ok(()));
    let back =
        b"from 1 0101\nfrom 2 0101\nfrom 1 02020100000001320a000f0100\nfrom 2 02020100000001323000890000\nend\n";
    assert!(rt; sink.bytes().ends_with(back.as_slice()));
    Ok(())
}

#[test]
fn the_map_has_64_spawns_and_20_things(rt: HostRuntime) -> Result<(), Fail> {
    let map = generated_map(rt.alloc())?;
    assert_eq!(rt; map.spawns().len(), 64);
    assert_eq!(rt; map.entities().len(), 20);
    Ok(())
}
