use super::feeders::{FIRST_OR_SECOND, ONE_JOIN_FED};
use super::transcripts::{MANY, expect_judged, written_of};
use super::{ARENA, report_of};
use edge_io::{MemSink, MemSource};
use std::alloc::{AllocError, AllocGlobal};
use std::process::Abort;
use std::sync::Wait;
use std::test::Fail;
use std::thread::Threads;

/// The lines of a map with one spawn, 1 to 3.
const MAP: &str = "arena -131072 -131072 0 131072 131072 65536\nspawn 0 0 6144\nend\n";

/// What is answered of one join in a frame, and the last line.
const ANSWERS: &str =
    "joined 7 0\nto 0 01000000000000000000000000000018000000000000000000000000000000000000000000000000000000\nend 1\n";

/// What `feed` writes of one join in the first of two frames: lines 4 to 7, 8 and 9, and 10.
const TWO_FRAMES: &str =
    "frame 0\nfrom 7 0101\njoined 7 0\nto 0 01000000000000000000000000000018000000000000000000000000000000000000000000000000000000\nframe 1\nto 0 01010000000000000000000000000018000000000000000000000000000000000000000000000000000000\nend 2\n";

/// The same, where the pieces of the two frames are exchanged.
const EXCHANGED_FRAMES: &str =
    "frame 1\nto 0 01010000000000000000000000000018000000000000000000000000000000000000000000000000000000\nframe 0\nfrom 7 0101\njoined 7 0\nto 0 01000000000000000000000000000018000000000000000000000000000000000000000000000000000000\nend 2\n";

/// The lines of a map with two spawns and an item that players at both can reach, 1 to 5.
const ITEM_MAP: &str =
    "arena -131072 -131072 0 131072 131072 65536\nspawn 24096 14000 6144\nspawn 24096 -14000 6144\nitem 20000 -4096 0 ammo 100\nend\n";

/// What `feed` writes of a frame in which two players join and move, where slot 0 moves first and has the item.
const SLOT_0_FIRST: &str =
    "frame 0\nfrom 7 0101\nfrom 8 0101\nfrom 7 010201000000320000c0fe00\nfrom 8 010201000000320000400100\njoined 7 0\njoined 8 1\ndid 0 1 24096 11952 6144 64\ndid 1 1 24096 -11952 6144 -\nto 0 010000000000205e0000b02e000000180000000000000060ffff000000000114000000000001000000020001000001205e000050d1ffff0018000040000100204e000000f0ffff00000000\nto 1 010000000001205e000050d1ffff001800000000000000a00000000000000100000000000001000000020000000001205e0000b02e00000018000040000100204e000000f0ffff00000000\nend 1\n";

/// The same, where slot 1 moves first and has it.
const SLOT_1_FIRST: &str =
    "frame 0\nfrom 7 0101\nfrom 8 0101\nfrom 7 010201000000320000c0fe00\nfrom 8 010201000000320000400100\njoined 7 0\njoined 8 1\ndid 1 1 24096 -11952 6144 64\ndid 0 1 24096 11952 6144 -\nto 0 010000000000205e0000b02e000000180000000000000060ffff000000000100000000000001000000020001000001205e000050d1ffff0018000040000100204e000000f0ffff00000000\nto 1 010000000001205e000050d1ffff001800000000000000a00000000000000114000000000001000000020000000001205e0000b02e00000018000040000100204e000000f0ffff00000000\nend 1\n";

/// The first one, with its two `did` lines exchanged: slot 1 moves first, and the item isn't its.
const EXCHANGED_MOVES: &str =
    "frame 0\nfrom 7 0101\nfrom 8 0101\nfrom 7 010201000000320000c0fe00\nfrom 8 010201000000320000400100\njoined 7 0\njoined 8 1\ndid 1 1 24096 -11952 6144 -\ndid 0 1 24096 11952 6144 64\nto 0 010000000000205e0000b02e000000180000000000000060ffff000000000114000000000001000000020001000001205e000050d1ffff0018000040000100204e000000f0ffff00000000\nto 1 010000000001205e000050d1ffff001800000000000000a00000000000000100000000000001000000020000000001205e0000b02e00000018000040000100204e000000f0ffff00000000\nend 1\n";

/// Audits a log after the lines of a map, of which a read gives 100 bytes at the most.
fn expect_audited(
    rt: &(impl AllocGlobal + Abort + Threads + Wait + Sync),
    map: &str,
    log: &str,
    wanted: (u8, u64),
    written: &str,
) -> Result<(), AllocError> {
    let input = format!(in rt.alloc(); "{map}{log}")?;
    let mut source = MemSource::new(input.as_bytes(), 100, &[]);
    expect_judged(rt, "audit", &mut source, wanted, written)
}

#[test]
fn what_feed_writes_is_a_right_log(rt: HostRuntime) -> Result<(), Fail> {
    expect_audited(&rt, MAP, ONE_JOIN_FED, (0, 0), "right frames 1 moves 0\n")?;
    expect_audited(&rt, MAP, TWO_FRAMES, (0, 0), "right frames 2 moves 0\n")?;
    for log in FIRST_OR_SECOND {
        expect_audited(&rt, MAP, log, (0, 0), "right frames 1 moves 0\n")?;
    }
    Ok(())
}

#[test]
fn a_log_may_have_no_frame(rt: HostRuntime) -> Result<(), Fail> {
    expect_audited(&rt, MAP, "end 0\n", (0, 0), "right frames 0 moves 0\n")?;
    expect_audited(
        &rt,
        ARENA,
        "end\nend 0\n",
        (0, 0),
        "right frames 0 moves 0\n",
    )?;
    expect_audited(&rt, ARENA, "end\nframe 0\nend 1\n", (6, 3), "")?;
    Ok(())
}

#[test]
fn either_order_of_two_moves_is_right(rt: HostRuntime) -> Result<(), Fail> {
    expect_audited(
        &rt,
        ITEM_MAP,
        SLOT_0_FIRST,
        (0, 0),
        "right frames 1 moves 2\n",
    )?;
    expect_audited(
        &rt,
        ITEM_MAP,
        SLOT_1_FIRST,
        (0, 0),
        "right frames 1 moves 2\n",
    )?;
    expect_audited(&rt, ITEM_MAP, EXCHANGED_MOVES, (6, 6), "")?;
    Ok(())
}

#[test]
fn exchanged_frames_are_wrong_at_the_first(rt: HostRuntime) -> Result<(), Fail> {
    expect_audited(&rt, MAP, EXCHANGED_FRAMES, (6, 4), "")?;
    Ok(())
}

/// The packet is that of port 8, it is there twice, or not at all: then the first line alone is a right frame.
#[test]
fn packets_are_those_of_the_from_lines(rt: HostRuntime) -> Result<(), Fail> {
    let rows = [
        ("from 8 0101\n", 4),
        ("from 7 0101\nfrom 7 0101\n", 4),
        ("", 5),
    ];
    for (packets, line) in rows {
        let log = format!(in rt.alloc(); "frame 0\n{packets}{ANSWERS}")?;
        expect_audited(&rt, MAP, &log, (6, line), "")?;
    }
    Ok(())
}

/// The piece in which a log ends is wrong, and so is the last line where it is missing.
#[test]
fn cut_logs_are_wrong(rt: HostRuntime) -> Result<(), Fail> {
    let second = TWO_FRAMES.find("frame 1").ok_or("a second frame")?;
    let last = TWO_FRAMES.find("end 2").ok_or("a last line")?;
    for bytes in 0..TWO_FRAMES.len() {
        let line = if bytes < second {
            4
        } else if bytes < last {
            8
        } else {
            10
        };
        let mut input = Vec::new(rt.alloc());
        input.extend_from_slice(MAP.as_bytes())?;
        input.extend_from_slice(&TWO_FRAMES.as_bytes()[..bytes])?;
        let mut source = MemSource::new(input.as_slice(), 100, &[]);
        expect_judged(&rt, "audit", &mut source, (6, line), "")?;
    }
    Ok(())
}

/// The last line has another number.
#[test]
fn a_wrong_last_line_is_named(rt: HostRuntime) -> Result<(), Fail> {
    let last = TWO_FRAMES.find("end 2").ok_or("a last line")?;
    for line in ["end 1\n", "end 3\n", "end\n", "frame 3\n"] {
        let log = format!(in rt.alloc(); "{}{line}", &TWO_FRAMES[..last])?;
        expect_audited(&rt, MAP, &log, (6, 10), "")?;
    }
    Ok(())
}

#[test]
fn a_map_is_refused_for_its_first_fault(rt: HostRuntime) -> Result<(), Fail> {
    let rows = [
        ("frob\n", (2, 3)),
        ("frame\nend\n", (2, 7)),
        ("spawn 0 0 6144\nframe\n", (3, 9)),
    ];
    for (lines, (line, fault)) in rows {
        let input = format!(in rt.alloc(); "{ARENA}{lines}")?;
        let mut source = MemSource::new(input.as_bytes(), 100, &[]);
        let mut sink = MemSink::new(rt.alloc(), 1_000, 100)?;
        let report = report_of(&rt, &["audit"], &mut source, &mut sink);
        assert_eq!(rt;
            (report.status, report.line, report.fault),
            (1, line, fault)
        );
        assert!(rt; sink.bytes().is_empty());
    }
    Ok(())
}

/// The first read gives the whole input, and a second would fail.
#[test]
fn no_more_is_read_of_a_log_than_the_verdict_needs(rt: HostRuntime) -> Result<(), Fail> {
    let rows = [
        (TWO_FRAMES, (0, 0), "right frames 2 moves 0\n"),
        (EXCHANGED_FRAMES, (6, 4), ""),
    ];
    for (log, wanted, written) in rows {
        let input = format!(in rt.alloc(); "{MAP}{log}end 2\n")?;
        let mut source = MemSource::new(input.as_bytes(), 1_000, &[1]);
        expect_judged(&rt, "audit", &mut source, wanted, written)?;
    }
    Ok(())
}

/// Puts the lines of a recording before its first frame last, and the line `end`.
fn put_map(recording: &[u8], input: &mut Vec<u8>) -> Result<(), AllocError> {
    for line in recording.split(|byte| *byte == b'\n') {
        if line == b"frame".as_slice() {
            break;
        }
        input.extend_from_slice(line)?;
        input.push(b'\n')?;
    }
    input.extend_from_slice(b"end\n")
}

#[test]
fn what_feed_writes_of_many_moves_is_a_right_log(rt: HostRuntime) -> Result<(), Fail> {
    let recording = written_of(&rt, &["make", "7", "32", "20"], b"")?;
    let fed = written_of(&rt, &["feed", "4"], recording.bytes())?;
    let mut input = Vec::new(rt.alloc());
    put_map(recording.bytes(), &mut input)?;
    input.extend_from_slice(fed.bytes())?;
    let mut source = MemSource::new(input.as_slice(), MANY, &[]);
    expect_judged(
        &rt,
        "audit",
        &mut source,
        (0, 0),
        "right frames 20 moves 640\n",
    )?;
    Ok(())
}
