ghost use Rattle.std.specs.Prelude.{◌≡◌, true, false, IfOk};
ghost use Rattle.demo_lines.specs.Known.{is_map_whole, is_refused};
ghost use Rattle.demo_lines.specs.Readings.{IsReading};

use arena_geo::{Aabb, Vec3};
use arena_map::ArenaMap;
use demo_lines::{DemoReader, DemoStop, Event, EventKind};
use edge_io::MemSource;
use packet_read::{Arrival, ArrivalBytes};
use std::alloc::Global;
use std::process::Abort;
use std::test::Fail;

/// What a call of `next` is to answer.
#[derive(Clone, Copy, Drop)]
enum Answer<'a> {
    Frame,
    From(u16, &'a [u8]),
    End,
    Stop(DemoStop),
}

use Answer::{End, Frame, From, Stop};

/// The arena of most rows.
const ARENA: &[u8] = b"arena -131072 -131072 0 131072 131072 65536\n";

/// A player that joins here touches the arena's floor.
const SPAWN: &[u8] = b"spawn 0 0 6144\n";

const FRAME: &[u8] = b"frame\n";

/// The widest arena.
const WIDEST: &[u8] = b"arena -1048576 -1048576 -1048576 1048576 1048576 1048576\n";

/// A block that touches the arena's low faces.
const BLOCK: &[u8] = b"block -131072 -131072 0 -131071 0 1\n";

fn refused(line: u64, fault: u8, rule: u8) -> Answer<'static> {
    Stop(DemoStop::Refused { line, fault, rule })
}

fn is_answer(answer: Result<Event, DemoStop>, want: Answer<'_>) -> bool {
    match (answer, want) {
        (Ok(Event::Frame), Frame) | (Ok(Event::End), End) => true,
        (Ok(Event::From(arrival)), From(port, bytes)) => {
            arrival.port == port && arrival.bytes.as_slice() == bytes
        }
        (Err(stop), Stop(want)) => stop == want,
        _ => false,
    }
}

fn is_answer_into(
    answer: Result<EventKind, DemoStop>,
    arrival: &Arrival,
    want: Answer<'_>,
) -> bool {
    match (answer, want) {
        (Ok(EventKind::Frame), Frame) | (Ok(EventKind::End), End) => true,
        (Ok(EventKind::From), From(port, bytes)) => {
            arrival.port == port && arrival.bytes.as_slice() == bytes
        }
        (Err(stop), Stop(want)) => stop == want,
        _ => false,
    }
}

fn point((x, y, z): (i32, i32, i32)) -> Vec3 {
    Vec3 { x, y, z }
}

fn between(lo: (i32, i32, i32), hi: (i32, i32, i32)) -> Option<Aabb> {
    Aabb::new(point(lo), point(hi))
}

/// Reads `source` to these answers.
fn expect(
    rt: &impl Abort,
    alloc: Global,
    demo: &mut DemoReader,
    source: &mut MemSource<'_>,
    want: &[Answer<'_>],
) {
    for (place, answer) in want.iter().enumerate() {
        let given = demo.next(alloc, source);
        assert!(rt; is_answer(given, *answer), "answer {place}");
    }
}

/// Reads `source` to these answers, each packet into one that is lent to all calls.
fn expect_into(
    rt: &impl Abort,
    alloc: Global,
    demo: &mut DemoReader,
    source: &mut MemSource<'_>,
    want: &[Answer<'_>],
) {
    let mut arrival = Arrival {
        port: 1,
        bytes: ArrivalBytes::new(),
    };
    for (place, answer) in want.iter().enumerate() {
        let given = demo.next_into(alloc, source, &mut arrival);
        assert!(rt; is_answer_into(given, &arrival, *answer), "answer {place}");
    }
}

/// The lines as one text.
fn text_of(alloc: Global, lines: &[&[u8]]) -> Result<Vec<u8>, Fail> {
    let mut text = Vec::new(alloc);
    for line in lines {
        text.extend_from_slice(line)?;
    }
    Ok(text)
}

/// Reads `front` and then `rest` to the answers in `want` and then to `last`, twice.
fn expect_recording(
    rt: &impl Abort,
    alloc: Global,
    front: &[&[u8]],
    rest: &[u8],
    want: &[Answer<'_>],
    last: Answer<'_>,
) -> Result<(), Fail> {
    let mut text = text_of(alloc, front)?;
    text.extend_from_slice(rest)?;
    let mut demo = DemoReader::new(alloc)?;
    let mut source = MemSource::new(text.as_slice(), 7, &[]);
    expect(rt, alloc, &mut demo, &mut source, want);
    expect(rt, alloc, &mut demo, &mut source, &[last, last]);
    Ok(())
}

/// A reader that has read the first event of a text.
fn begun(alloc: Global, text: &[u8]) -> Result<DemoReader, Fail>
    ensures holds { IfOk result (λ demo. IsReading demo.reading) }
    ensures given { IfOk result (λ demo. is_map_whole demo.reading.stage ≡ true) }
    ensures accepted { IfOk result (λ demo. is_refused demo.reading.stage ≡ false) }
{
    let mut demo = DemoReader::new(alloc)?;
    let mut source = MemSource::new(text, 8_192, &[]);
    match demo.next(alloc, &mut source) {
        Ok(_) => Ok(demo),
        Err(_) => Err(Fail::from("no event")),
    }
}

/// The map of a reader, which is given once.
fn taken_map(rt: &impl Abort, demo: &mut DemoReader) -> Result<ArenaMap, Fail>
    requires holds { IsReading demo.old.reading }
    requires given { is_map_whole demo.old.reading.stage ≡ true }
    requires accepted { is_refused demo.old.reading.stage ≡ false }
{
    let map = demo.take_map().ok_or("no map")?;
    assert!(rt; demo.take_map().is_none());
    Ok(map)
}

/// The map that a recording of these lines has before its first event.
fn map_of(rt: &impl Abort, alloc: Global, lines: &[&[u8]]) -> Result<ArenaMap, Fail> {
    let text = text_of(alloc, lines)?;
    let mut demo = begun(alloc, text.as_slice())?;
    taken_map(rt, &mut demo)
}

/// The lines of `front`, and then one line this many times.
fn repeated(
    alloc: Global,
    front: &[&'static [u8]],
    line: &'static [u8],
    count: u32,
) -> Result<Vec<&'static [u8]>, Fail> {
    let mut lines = Vec::new(alloc);
    lines.extend_from_slice(front)?;
    for _ in 0..count {
        lines.push(line)?;
    }
    Ok(lines)
}

fn expect_blocks(rt: &impl Abort, map: &ArenaMap, want: &[Option<Aabb>]) {
    let blocks = &map.solids()[6..];
    assert_eq!(rt; blocks.len(), want.len());
    for (block, want) in blocks.iter().zip(want) {
        assert_eq!(rt; Some(*block), *want);
    }
}

#[test]
fn recordings_without_a_frame_give_the_end(rt: HostRuntime) -> Result<(), Fail> {
    let rows: [(&[&[u8]], &[u8]); 6] = [
        (&[ARENA], b"end\n"),
        (&[ARENA], b"end\nfrob\nframe"),
        (&[ARENA, SPAWN, SPAWN], b"end\n"),
        (&[ARENA], b"spawn 126976 -126976 57344\nend\n"),
        (&[], b"arena 0 0 0 32768 32768 32768\nend\n"),
        (&[WIDEST], b"end\n"),
    ];
    for (front, rest) in rows {
        expect_recording(&rt, rt.alloc(), front, rest, &[], End)?;
    }
    Ok(())
}

#[test]
fn recordings_give_their_events_to_the_end(rt: HostRuntime) -> Result<(), Fail> {
    let rows: [(&[&[u8]], &[u8], &[Answer<'_>]); 4] = [
        (&[ARENA, SPAWN], b"frame\nend\n", &[Frame]),
        (
            &[ARENA, SPAWN, FRAME],
            b"from 7 0101\nend\n",
            &[Frame, From(7, &[1, 1])],
        ),
        (
            &[ARENA, SPAWN, FRAME],
            b"from 7 0101\nframe\nend\n",
            &[Frame, From(7, &[1, 1]), Frame],
        ),
        (
            &[ARENA, SPAWN, FRAME],
            b"from 0 -\nfrom 65535 0aFf\nend\n",
            &[Frame, From(0, &[]), From(65_535, &[10, 255])],
        ),
    ];
    for (front, rest, want) in rows {
        expect_recording(&rt, rt.alloc(), front, rest, want, End)?;
    }
    Ok(())
}

#[test]
fn packets_are_put_into_one_that_is_lent(rt: HostRuntime) -> Result<(), Fail> {
    let lines = [
        ARENA,
        b"spawn 0 0 6144\nblock 0 0 60000 1 1 65536\nframe\nfrom 7 0102\nfrom 8 -\n",
        b"frame\nfrom 65535 0aFf03\nfrom 9 5\nfrom 9 05\nend\n",
    ];
    let want = [
        Frame,
        From(7, &[1, 2]),
        From(8, &[]),
        Frame,
        From(65_535, &[10, 255, 3]),
        refused(9, 8, 0),
        refused(9, 8, 0),
    ];
    let text = text_of(rt.alloc(), &lines)?;
    let mut demo = DemoReader::new(rt.alloc())?;
    let mut source = MemSource::new(text.as_slice(), 7, &[]);
    expect_into(&rt, rt.alloc(), &mut demo, &mut source, &want);
    Ok(())
}

#[test]
fn the_first_line_has_its_first_fault(rt: HostRuntime) -> Result<(), Fail> {
    let rows: [(&[u8], u8, u8); 8] = [
        (b"frob\n", 3, 0),
        (b"\n", 3, 0),
        (b"arena 1 2\n", 4, 0),
        (b"frame\n", 5, 0),
        (b"end", 5, 0),
        (b"arena -2000000 0 0 1 1 1\n", 6, 0),
        (b"arena 0 0 0 0 1 1\n", 7, 1),
        (b"", 10, 0),
    ];
    for (rest, fault, rule) in rows {
        let last = refused(1, fault, rule);
        expect_recording(&rt, rt.alloc(), &[], rest, &[], last)?;
    }
    Ok(())
}

#[test]
fn a_line_after_the_arena_has_its_first_fault(rt: HostRuntime) -> Result<(), Fail> {
    let rows: [(&[u8], u8, u8); 16] = [
        (b"frame\n", 7, 7),
        (b"blocks 1023\n", 6, 0),
        (b"blocks 4097\n", 6, 0),
        (b"blocks 01024\n", 4, 0),
        (b"depth 6\n", 6, 0),
        (b"depth\n", 4, 0),
        (b"depth 3 3\n", 4, 0),
        (b"shots 1\n", 4, 0),
        (b"spawn 0 0\t6144\n", 2, 0),
        (b"arena 0 0 0 1 1 1\n", 5, 0),
        (b"spawn 0 0 6143\n", 7, 4),
        (b"spawn 0 0 06144\n", 4, 0),
        (b"lift 0 0 0 10000 10000 100 70000 10\n", 7, 6),
        (b"block 0 0 0 0 10 10\n", 7, 2),
        (b"from 7 -\n", 5, 0),
        (b"", 10, 0),
    ];
    for (rest, fault, rule) in rows {
        let last = refused(2, fault, rule);
        expect_recording(&rt, rt.alloc(), &[ARENA], rest, &[], last)?;
    }
    let long = [b'a'; 513];
    expect_recording(&rt, rt.alloc(), &[ARENA], &long, &[], refused(2, 1, 0))
}

#[test]
fn a_second_line_of_a_setting_breaks_rule_3(rt: HostRuntime) -> Result<(), Fail> {
    let rows: [(&[&[u8]], &[u8]); 7] = [
        (&[ARENA, b"blocks 2000\n"], b"blocks 2000\n"),
        (&[ARENA, b"blocks 1024\n"], b"blocks 4096\n"),
        (&[ARENA, BLOCK], b"blocks 4096\n"),
        (&[ARENA, b"depth 3\n"], b"depth 3\n"),
        (&[ARENA, b"depth 3\n"], b"depth 4\n"),
        (&[ARENA, b"depth 4\n"], b"depth 4\n"),
        (&[ARENA, b"shots\n"], b"shots\n"),
    ];
    for (front, rest) in rows {
        expect_recording(&rt, rt.alloc(), front, rest, &[], refused(3, 7, 3))?;
    }
    Ok(())
}

#[test]
fn no_line_of_a_setting_comes_after_a_frame(rt: HostRuntime) -> Result<(), Fail> {
    let rows: [(&[u8], u8); 6] = [
        (b"blocks 2000\n", 5),
        (b"depth 3\n", 5),
        (b"depth 6\n", 5),
        (b"depth\n", 4),
        (b"shots\n", 5),
        (b"shots 1\n", 4),
    ];
    for (rest, fault) in rows {
        let front = &[ARENA, SPAWN, FRAME];
        let last = refused(4, fault, 0);
        expect_recording(&rt, rt.alloc(), front, rest, &[Frame], last)?;
    }
    Ok(())
}

#[test]
fn a_recording_has_its_settings(rt: HostRuntime) -> Result<(), Fail> {
    let lines = [
        ARENA,
        b"shots\nspawn 0 0 6144\nblock 0 0 60000 1 1 65536\ndepth 3\nframe\n",
    ];
    let map = map_of(&rt, rt.alloc(), &lines)?;
    assert_eq!(rt; (map.depth(), map.shots()), (3, true));
    let plain = map_of(&rt, rt.alloc(), &[ARENA, SPAWN, FRAME])?;
    assert_eq!(rt; (plain.depth(), plain.shots()), (4, false));
    Ok(())
}

#[test]
fn a_packet_has_a_port_and_digits(rt: HostRuntime) -> Result<(), Fail> {
    let rows: [(&[u8], u8); 8] = [
        (b"from 7 010\n", 8),
        (b"from 7 \n", 8),
        (b"from 65536 -\n", 6),
        (b"from -7 010\n", 6),
        (b"from 7\n", 4),
        (b"from 07 -\n", 4),
        (b"from 7  -\n", 4),
        (b"from 7 01", 10),
    ];
    for (rest, fault) in rows {
        let front = &[ARENA, SPAWN, FRAME];
        let last = refused(4, fault, 0);
        expect_recording(&rt, rt.alloc(), front, rest, &[Frame], last)?;
    }
    Ok(())
}

#[test]
fn a_carriage_return_and_an_end_without_a_line_feed_pass(rt: HostRuntime) -> Result<(), Fail> {
    let lines = [
        b"arena -131072 -131072 0 131072 131072 65536\r\n".as_slice(),
        b"spawn 0 0 6144\r\nframe\r\nfrom 7 0101\r\n",
    ];
    let want = [Frame, From(7, &[1, 1])];
    expect_recording(&rt, rt.alloc(), &lines, b"end", &want, End)?;
    expect_recording(&rt, rt.alloc(), &lines, b"end\r", &want, End)?;
    expect_recording(
        &rt,
        rt.alloc(),
        &lines,
        b"end\r\r",
        &want,
        refused(5, 10, 0),
    )
}

#[test]
fn a_map_has_things(rt: HostRuntime) -> Result<(), Fail> {
    let lines = [
        ARENA,
        b"item 0 0 6144 gem 30\nteleport 0 0 0 10 10 10 0 0 6144\n",
        b"goal 0 0 0 10 10 10\nlift 0 0 0 10 10 10 5 1\nend",
    ];
    let map = map_of(&rt, rt.alloc(), &lines)?;
    assert_eq!(rt; map.entities().len(), 4);
    assert_eq!(rt; map.delay_of(64), Some(30));
    assert_eq!(rt; map.dest_of(65), Some(point((0, 0, 6_144))));
    Ok(())
}

#[test]
fn blocks_are_before_and_after_the_spawn(rt: HostRuntime) -> Result<(), Fail> {
    let rows: [(&[&[u8]], &[u8], &[Answer<'_>]); 6] = [
        (&[ARENA, BLOCK], b"end\n", &[]),
        (&[WIDEST], b"block 1048575 0 0 1048576 1 1\nend\n", &[]),
        (&[ARENA, BLOCK, SPAWN], b"frame\nend\n", &[Frame]),
        (&[ARENA, SPAWN, BLOCK], b"frame\nend\n", &[Frame]),
        (&[ARENA, BLOCK, SPAWN, BLOCK], b"frame\nend\n", &[Frame]),
        (
            &[ARENA, b"block -131072 -131072 0 131072 131072 65536\n"],
            b"spawn 0 0 6144\nframe\nend\n",
            &[Frame],
        ),
    ];
    for (front, rest, want) in rows {
        expect_recording(&rt, rt.alloc(), front, rest, want, End)?;
    }
    Ok(())
}

#[test]
fn an_arena_has_at_most_1024_blocks(rt: HostRuntime) -> Result<(), Fail> {
    let mut front = repeated(rt.alloc(), &[ARENA], BLOCK, 1024)?;
    front.push(SPAWN)?;
    let front = front.as_slice();
    let over: &[u8] = b"block 0 0 0 1 1 1\nend\n";
    expect_recording(&rt, rt.alloc(), front, b"frame\nend\n", &[Frame], End)?;
    expect_recording(&rt, rt.alloc(), front, over, &[], refused(1027, 7, 3))
}

#[test]
fn a_line_allows_an_arena_more_blocks(rt: HostRuntime) -> Result<(), Fail> {
    let mut front = repeated(rt.alloc(), &[ARENA, b"blocks 1025\n"], BLOCK, 1025)?;
    front.push(SPAWN)?;
    let front = front.as_slice();
    let over: &[u8] = b"block 0 0 0 1 1 1\nend\n";
    expect_recording(&rt, rt.alloc(), front, b"frame\nend\n", &[Frame], End)?;
    expect_recording(&rt, rt.alloc(), front, over, &[], refused(1029, 7, 3))
}

#[test]
fn a_line_has_at_most_512_bytes(rt: HostRuntime) -> Result<(), Fail> {
    let digits = [b'a'; 504];
    let longest: &[&[u8]] = &[ARENA, SPAWN, FRAME, b"from 75 ", &digits, b"\n"];
    let most = From(75, &[0xaa; 252]);
    expect_recording(&rt, rt.alloc(), longest, b"end\n", &[Frame, most], End)?;
    let long: &[&[u8]] = &[ARENA, SPAWN, FRAME, b"from 750 ", &digits, b"\n"];
    expect_recording(&rt, rt.alloc(), long, b"end\n", &[Frame], refused(4, 1, 0))?;
    let number: &[&[u8]] = &[ARENA, SPAWN, FRAME, b"from ", &[b'7'; 400], b" -\n"];
    expect_recording(
        &rt,
        rt.alloc(),
        number,
        b"end\n",
        &[Frame],
        refused(4, 6, 0),
    )
}

/// A frame and 512 empty packets of a port.
fn full_frame(alloc: Global) -> Result<Vec<Answer<'static>>, Fail> {
    let mut want = Vec::new(alloc);
    want.push(Frame)?;
    for _ in 0..512 {
        want.push(From(7, &[]))?;
    }
    Ok(want)
}

#[test]
fn a_frame_has_at_most_512_packets(rt: HostRuntime) -> Result<(), Fail> {
    let front = repeated(rt.alloc(), &[ARENA, SPAWN, FRAME], b"from 7 -\n", 512)?;
    let want = full_frame(rt.alloc())?;
    let (front, want) = (front.as_slice(), want.as_slice());
    expect_recording(&rt, rt.alloc(), front, b"end\n", want, End)?;
    expect_recording(
        &rt,
        rt.alloc(),
        front,
        b"from 7 -\nend\n",
        want,
        refused(516, 9, 0),
    )
}

/// Reads the arena's line, which has 44 bytes, and `rest`, a byte in each read, from a source at which these reads
/// fail.
fn expect_faults(
    rt: &impl Abort,
    alloc: Global,
    rest: &[u8],
    fails: &[u64],
    want: &[Answer<'_>],
) -> Result<(), Fail> {
    let mut text = text_of(alloc, &[ARENA])?;
    text.extend_from_slice(rest)?;
    let mut demo = DemoReader::new(alloc)?;
    let mut source = MemSource::new(text.as_slice(), 1, fails);
    expect(rt, alloc, &mut demo, &mut source, want);
    Ok(())
}

#[test]
fn a_fault_of_the_source_stops_the_reader(rt: HostRuntime) -> Result<(), Fail> {
    let stop = Stop(DemoStop::ReadFault);
    // In the arena's line, and in the one after the frame's.
    expect_faults(&rt, rt.alloc(), b"end\n", &[3], &[stop, stop])?;
    let rest = b"spawn 0 0 6144\nframe\nfrom 7 0101\nend\n";
    expect_faults(&rt, rt.alloc(), rest, &[70], &[Frame, stop, stop])
}

#[test]
fn a_fault_that_comes_later_changes_nothing(rt: HostRuntime) -> Result<(), Fail> {
    // After a refused line, the line `end`, and the end of input.
    let rows: [(&[u8], u64, Answer<'_>); 4] = [
        (b"frob\n", 49, refused(2, 3, 0)),
        (b"end\n", 48, End),
        (b"end\nfrob\n", 48, End),
        (b"frame", 50, refused(2, 10, 0)),
    ];
    for (rest, call, last) in rows {
        expect_faults(&rt, rt.alloc(), rest, &[call], &[last, last])?;
    }
    Ok(())
}

/// The lines of a map of two blocks and two spawns, before a frame.
const TWO_OF_EACH: &[&[u8]] = &[
    ARENA,
    BLOCK,
    SPAWN,
    b"block 0 0 0 1 2 3\n",
    b"spawn 1 2 6145\n",
    FRAME,
];

#[test]
fn a_recording_gives_its_map_once(rt: HostRuntime) -> Result<(), Fail> {
    let map = map_of(&rt, rt.alloc(), TWO_OF_EACH)?;
    let arena = between((-131_072, -131_072, 0), (131_072, 131_072, 65_536));
    let spawns = [point((0, 0, 6_144)), point((1, 2, 6_145))];
    assert_eq!(rt; Some(*map.bounds()), arena);
    assert_eq!(rt; map.spawns(), spawns.as_slice());
    Ok(())
}

#[test]
fn a_map_has_its_blocks_in_order(rt: HostRuntime) -> Result<(), Fail> {
    let map = map_of(&rt, rt.alloc(), TWO_OF_EACH)?;
    let blocks = [
        between((-131_072, -131_072, 0), (-131_071, 0, 1)),
        between((0, 0, 0), (1, 2, 3)),
    ];
    expect_blocks(&rt, &map, &blocks);
    Ok(())
}

#[test]
fn a_map_has_at_most_64_spawns(rt: HostRuntime) -> Result<(), Fail> {
    let front = repeated(rt.alloc(), &[ARENA], SPAWN, 64)?;
    let front = front.as_slice();
    expect_recording(&rt, rt.alloc(), front, b"frame\nend\n", &[Frame], End)?;
    expect_recording(&rt, rt.alloc(), front, SPAWN, &[], refused(66, 7, 3))
}
