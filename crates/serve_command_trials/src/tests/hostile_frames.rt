use super::{ARENA, report_of};
use edge_io::{MemSink, MemSource};
use std::alloc::{AllocError, Global};
use std::test::Fail;

/// Where a row of 8 spawns lies, and where each of its spawns does: in sub-units.
const PLACES: [i32; 8] = [-35840, -25600, -15360, -5120, 5120, 15360, 25600, 35840];

/// Eight commands of a player without a wish, in three packets of version 2.
const EIGHT_COMMANDS: [&str; 3] = [
    "02020300000003320000000000320000000000320000000000",
    "02020600000003320000000000320000000000320000000000",
    "02020800000002320000000000320000000000",
];

/// A frame of 512 packets of one port, which has not joined, and a frame without packets.
fn one_port(alloc: Global) -> Result<String, AllocError> {
    let mut text = String::new(alloc);
    text.push_str(ARENA)?;
    text.push_str("spawn 0 0 6144\nframe\n")?;
    for _ in 0..512 {
        text.push_str("from 7 -\n")?;
    }
    text.push_str("frame\nend\n")?;
    Ok(text)
}

/// What `feed` writes of it, in whatever order the packets arrive.
fn one_port_fed(alloc: Global) -> Result<String, AllocError> {
    let mut text = String::new(alloc);
    text.push_str("frame 0\n")?;
    for _ in 0..512 {
        text.push_str("from 7 -\n")?;
    }
    for place in 0..512_u16 {
        writeln!(text, "no {place} Empty")?;
    }
    text.push_str("frame 1\nend 2\n")?;
    Ok(text)
}

/// The packets of one port arrive as they were sent, and a frame without packets has an order without a place.
#[test]
fn a_frame_of_512_packets_of_one_port_is_fed(rt: HostRuntime) -> Result<(), Fail> {
    let text = one_port(rt.alloc())?;
    let wanted = one_port_fed(rt.alloc())?;
    let mut source = MemSource::new(text.as_bytes(), 65_536, &[]);
    let mut sink = MemSink::new(rt.alloc(), 100_000, 65_536)?;
    let report = report_of(&rt, &["feed", "2"], &mut source, &mut sink);
    assert_eq!(rt; report.status, 0);
    assert_eq!(rt; sink.bytes(), wanted.as_bytes());
    let Some(order) = &report.order else {
        return Err("no order".into());
    };
    assert!(rt; order.as_slice().is_empty());
    Ok(())
}

/// An arena with 64 spawns, a frame of 64 joins, and one in which each player sends eight commands in three packets.
fn all_moves(alloc: Global) -> Result<String, AllocError> {
    let mut text = String::new(alloc);
    text.push_str(ARENA)?;
    for y in PLACES {
        for x in PLACES {
            writeln!(text, "spawn {x} {y} 6144")?;
        }
    }
    text.push_str("frame\n")?;
    for port in 1..65_u16 {
        writeln!(text, "from {port} 0101")?;
    }
    text.push_str("frame\n")?;
    for packet in EIGHT_COMMANDS {
        for port in 1..65_u16 {
            writeln!(text, "from {port} {packet}")?;
        }
    }
    text.push_str("end\n")?;
    Ok(text)
}

/// How many lines of a text begin so.
fn count_of(text: &[u8], front: &[u8]) -> usize {
    text.split(|byte| *byte == b'\n')
        .filter(|line| line.starts_with(front))
        .count()
}

/// 192 packets give all 512 moves that a frame may have, and none is refused.
#[test]
fn repeated_commands_fill_all_moves_of_a_frame(rt: HostRuntime) -> Result<(), Fail> {
    let text = all_moves(rt.alloc())?;
    for words in [["play", "4"], ["feed", "2"]] {
        let mut source = MemSource::new(text.as_bytes(), 65_536, &[]);
        let mut sink = MemSink::new(rt.alloc(), 1_000_000, 65_536)?;
        let report = report_of(&rt, &words, &mut source, &mut sink);
        assert_eq!(rt; report.status, 0);
        assert_eq!(rt; count_of(sink.bytes(), b"did "), 512);
        assert_eq!(rt; count_of(sink.bytes(), b"no "), 0);
        let Some(last) = &report.last else {
            return Err("no journal".into());
        };
        assert_eq!(rt; last.as_slice().len(), 512);
    }
    Ok(())
}
