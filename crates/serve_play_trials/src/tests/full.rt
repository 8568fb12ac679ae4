ghost use Rattle.std.specs.Prelude.{◌<◌, length};

use super::report_of;
use edge_io::{MemSink, MemSource};
use std::alloc::{AllocError, Global};
use std::test::Fail;

const WIDE: &str = "arena -150000 -150000 0 150000 150000 65536\nspawn 0 0 6144\n";

const BLOCK: &str = "block 149000 149000 60000 150000 150000 61000\n";

/// Where a row of 8 spawns lies, and where each of its spawns does: in sub-units.
const PLACES: [i32; 8] = [-35840, -25600, -15360, -5120, 5120, 15360, 25600, 35840];

/// An arena with 64 spawns, and a frame of 65 joins.
fn full_of_players(alloc: Global) -> Result<String, AllocError> {
    let mut text = String::new(alloc);
    text.push_str("arena -131072 -131072 0 131072 131072 65536\n")?;
    for y in PLACES {
        for x in PLACES {
            writeln!(text, "spawn {x} {y} 6144")?;
        }
    }
    text.push_str("frame\n")?;
    for port in 1..66_u16 {
        writeln!(text, "from {port} 0101")?;
    }
    text.push_str("end\n")?;
    Ok(text)
}

/// The lines of that frame before its replies.
fn joined_lines(alloc: Global) -> Result<String, AllocError> {
    let mut text = String::new(alloc);
    text.push_str("frame 0\nno 64 Full\n")?;
    for slot in 0..64_u16 {
        let port = slot + 1;
        writeln!(text, "joined {port} {slot}")?;
    }
    text.push_str("to 0 ")?;
    Ok(text)
}

/// As many blocks as an arena may have, and a frame of as many packets as a frame may have: a join, and moves.
fn full_of_blocks_and_packets(alloc: Global) -> Result<String, AllocError> {
    let mut text = String::new(alloc);
    text.push_str(WIDE)?;
    text.push_str("blocks 4096\n")?;
    for _ in 0..4_096 {
        text.push_str(BLOCK)?;
    }
    text.push_str("frame\nfrom 7 0101\n")?;
    for k in 0..511_u16 {
        let low = 10 + k % 90;
        let high = 10 + k / 90;
        writeln!(text, "from 7 0102{low}{high}0000010000000000")?;
    }
    text.push_str("end\n")?;
    Ok(text)
}

/// As many items as an arena may have, on a square of 20 by 20 places.
fn full_of_items(alloc: Global) -> Result<String, AllocError> {
    let mut text = String::new(alloc);
    text.push_str("arena -131072 -131072 0 131072 131072 65536\nspawn 0 0 6144\n")?;
    for row in 0..20_u8 {
        for column in 0..20_u8 {
            let x = i32::from(column) * 10_240 - 102_400;
            let y = i32::from(row) * 10_240 - 102_400;
            writeln!(text, "item {x} {y} 0 gem 100")?;
        }
    }
    Ok(text)
}

/// The digits of the one `to` line of an output, whose last line is that of the end.
fn digits_of(output: &[u8]) -> &[u8] {
    let lines = output.strip_suffix(b"\nend 1\n").unwrap_or(b"");
    lines
        .strip_prefix(b"frame 0\njoined 7 0\nto 0 ")
        .unwrap_or(b"")
}

/// Whether `part` is in `text`.
fn has(text: &[u8], part: &[u8]) -> bool
    requires { 0 < length part.now }
{
    text.windows(part.len()).any(|window| window == part)
}

#[test]
fn sixty_four_players_join(rt: HostRuntime) -> Result<(), Fail> {
    let text = full_of_players(rt.alloc())?;
    let lines = joined_lines(rt.alloc())?;
    let mut source = MemSource::new(text.as_bytes(), 65_536, &[]);
    let mut sink = MemSink::new(rt.alloc(), 1_000_000, 65_536)?;
    let report = report_of(&rt, &["play", "1"], &mut source, &mut sink);
    assert_eq!(rt; report.status, 0);
    assert!(rt; sink.bytes().starts_with(lines.as_bytes()));
    assert!(rt; sink.bytes().ends_with(b"\nend 1\n"));
    Ok(())
}

#[test]
fn a_player_sees_400_items(rt: HostRuntime) -> Result<(), Fail> {
    let mut text = full_of_items(rt.alloc())?;
    text.push_str("frame\nfrom 7 0101\nend\n")?;
    let mut source = MemSource::new(text.as_bytes(), 65_536, &[]);
    let mut sink = MemSink::new(rt.alloc(), 100_000, 65_536)?;
    let report = report_of(&rt, &["play", "1"], &mut source, &mut sink);
    assert_eq!(rt; report.status, 0);
    let digits = digits_of(sink.bytes());
    assert_eq!(rt; digits.len(), 12_886);
    assert_eq!(rt; digits.get(82..86), Some(b"9001".as_slice()));
    Ok(())
}

#[test]
fn the_401st_item_is_refused(rt: HostRuntime) -> Result<(), Fail> {
    let mut text = full_of_items(rt.alloc())?;
    text.push_str("item 0 0 0 gem 100\nend\n")?;
    let mut source = MemSource::new(text.as_bytes(), 65_536, &[]);
    let mut sink = MemSink::new(rt.alloc(), 1_000, 65_536)?;
    let report = report_of(&rt, &["play", "1"], &mut source, &mut sink);
    assert_eq!(rt; (report.status, report.line), (1, 403));
    assert_eq!(rt; (report.fault, report.rule), (7, 3));
    Ok(())
}

#[test]
fn a_frame_of_512_packets_is_played(rt: HostRuntime) -> Result<(), Fail> {
    let text = full_of_blocks_and_packets(rt.alloc())?;
    let mut source = MemSource::new(text.as_bytes(), 65_536, &[]);
    let mut sink = MemSink::new(rt.alloc(), 100_000, 65_536)?;
    let report = report_of(&rt, &["play", "1"], &mut source, &mut sink);
    assert_eq!(rt; report.status, 0);
    assert!(rt; has(sink.bytes(), b"\nno 511 Many\njoined 7 0\ndid 0 "));
    assert!(rt; sink.bytes().ends_with(b"\nend 1\n"));
    Ok(())
}
