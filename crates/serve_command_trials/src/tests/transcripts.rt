use super::report_of;
use edge_io::{MemSink, MemSource};
use std::alloc::{AllocError, AllocGlobal};
use std::process::Abort;
use std::sync::Wait;
use std::test::Fail;
use std::thread::Threads;

/// A recording of one frame, in which a player joins, and its output: lines 1 to 5, and lines 6 to 9.
pub const RIGHT: &str =
    "arena -131072 -131072 0 131072 131072 65536\nspawn 0 0 6144\nframe\nfrom 7 0101\nend\nframe 0\njoined 7 0\nto 0 01000000000000000000000000000018000000000000000000000000000000000000000000000000000000\nend 1\n";

/// The same, with another slot in the line of the join.
const WRONG_JOIN: &str =
    "arena -131072 -131072 0 131072 131072 65536\nspawn 0 0 6144\nframe\nfrom 7 0101\nend\nframe 0\njoined 7 1\nto 0 01000000000000000000000000000018000000000000000000000000000000000000000000000000000000\nend 1\n";

/// The same, with another number of frames in the last line.
const WRONG_END: &str =
    "arena -131072 -131072 0 131072 131072 65536\nspawn 0 0 6144\nframe\nfrom 7 0101\nend\nframe 0\njoined 7 0\nto 0 01000000000000000000000000000018000000000000000000000000000000000000000000000000000000\nend 2\n";

/// The right one, with more after its last line.
const MORE_AFTER: &str =
    "arena -131072 -131072 0 131072 131072 65536\nspawn 0 0 6144\nframe\nfrom 7 0101\nend\nframe 0\njoined 7 0\nto 0 01000000000000000000000000000018000000000000000000000000000000000000000000000000000000\nend 1\nend 1\n";

/// The recording alone, whose `end` ends the input without a line feed.
const NOTHING_AFTER: &str =
    "arena -131072 -131072 0 131072 131072 65536\nspawn 0 0 6144\nframe\nfrom 7 0101\nend";

/// Two players that can reach one item, in one frame: lines 1 to 10. Then what is written where slot 0 moves first.
const SLOT_0_FIRST: &str =
    "arena -131072 -131072 0 131072 131072 65536\nspawn 24096 14000 6144\nspawn 24096 -14000 6144\nitem 20000 -4096 0 ammo 100\nframe\nfrom 7 0101\nfrom 8 0101\nfrom 7 010201000000320000c0fe00\nfrom 8 010201000000320000400100\nend\nframe 0\njoined 7 0\njoined 8 1\ndid 0 1 24096 11952 6144 64\ndid 1 1 24096 -11952 6144 -\nto 0 010000000000205e0000b02e000000180000000000000060ffff000000000114000000000001000000020001000001205e000050d1ffff0018000040000100204e000000f0ffff00000000\nto 1 010000000001205e000050d1ffff001800000000000000a00000000000000100000000000001000000020000000001205e0000b02e00000018000040000100204e000000f0ffff00000000\nend 1\n";

/// The same, where slot 1 moves first: it has the item, and slot 0 hasn't.
const SLOT_1_FIRST: &str =
    "arena -131072 -131072 0 131072 131072 65536\nspawn 24096 14000 6144\nspawn 24096 -14000 6144\nitem 20000 -4096 0 ammo 100\nframe\nfrom 7 0101\nfrom 8 0101\nfrom 7 010201000000320000c0fe00\nfrom 8 010201000000320000400100\nend\nframe 0\njoined 7 0\njoined 8 1\ndid 1 1 24096 -11952 6144 64\ndid 0 1 24096 11952 6144 -\nto 0 010000000000205e0000b02e000000180000000000000060ffff000000000100000000000001000000020001000001205e000050d1ffff0018000040000100204e000000f0ffff00000000\nto 1 010000000001205e000050d1ffff001800000000000000a00000000000000114000000000001000000020000000001205e0000b02e00000018000040000100204e000000f0ffff00000000\nend 1\n";

/// The first one, with its two `did` lines exchanged: slot 1 moves first, and the item isn't its.
const EXCHANGED: &str =
    "arena -131072 -131072 0 131072 131072 65536\nspawn 24096 14000 6144\nspawn 24096 -14000 6144\nitem 20000 -4096 0 ammo 100\nframe\nfrom 7 0101\nfrom 8 0101\nfrom 7 010201000000320000c0fe00\nfrom 8 010201000000320000400100\nend\nframe 0\njoined 7 0\njoined 8 1\ndid 1 1 24096 -11952 6144 -\ndid 0 1 24096 11952 6144 64\nto 0 010000000000205e0000b02e000000180000000000000060ffff000000000114000000000001000000020001000001205e000050d1ffff0018000040000100204e000000f0ffff00000000\nto 1 010000000001205e000050d1ffff001800000000000000a00000000000000100000000000001000000020000000001205e0000b02e00000018000040000100204e000000f0ffff00000000\nend 1\n";

/// The first line of the output alone.
const FRAME_ALONE: &str =
    "arena -131072 -131072 0 131072 131072 65536\nspawn 24096 14000 6144\nspawn 24096 -14000 6144\nitem 20000 -4096 0 ammo 100\nframe\nfrom 7 0101\nfrom 8 0101\nfrom 7 010201000000320000c0fe00\nfrom 8 010201000000320000400100\nend\nframe 0\n";

/// A line that is none of a recording's.
const FAULTY: &str = "arena -131072 -131072 0 131072 131072 65536\nfrob\n";

/// Room for what `make 7 32 20` writes, and for the output of its recording.
const MANY_BYTES: usize = 2_000_000;

/// How many of them a read gives and a write takes.
pub const MANY: usize = 65_536;

/// Judges what a source has by this word, and compares the status, the line and what is written.
pub fn expect_judged(
    rt: &(impl AllocGlobal + Abort + Threads + Wait + Sync),
    word: &str,
    source: &mut MemSource,
    wanted: (u8, u64),
    written: &str,
) -> Result<(), AllocError> {
    let mut sink = MemSink::new(rt.alloc(), 1_000, 100)?;
    let report = report_of(rt, &[word], source, &mut sink);
    assert_eq!(rt; (report.status, report.line), wanted);
    assert_eq!(rt; sink.bytes(), written.as_bytes());
    Ok(())
}

/// Checks what a source has, and compares the status, the line and what is written.
fn expect_verdict(
    rt: &(impl AllocGlobal + Abort + Threads + Wait + Sync),
    source: &mut MemSource,
    wanted: (u8, u64),
    written: &str,
) -> Result<(), AllocError> {
    expect_judged(rt, "check", source, wanted, written)
}

/// Checks an input, of which a read gives 100 bytes at the most.
fn expect_checked(
    rt: &(impl AllocGlobal + Abort + Threads + Wait + Sync),
    input: &str,
    wanted: (u8, u64),
    written: &str,
) -> Result<(), AllocError> {
    let mut source = MemSource::new(input.as_bytes(), 100, &[]);
    expect_verdict(rt, &mut source, wanted, written)
}

#[test]
fn a_right_transcript_is_called_right(rt: HostRuntime) -> Result<(), Fail> {
    expect_checked(&rt, RIGHT, (0, 0), "right frames 1 moves 0\n")?;
    Ok(())
}

#[test]
fn what_follows_the_last_line_is_not_looked_at(rt: HostRuntime) -> Result<(), Fail> {
    expect_checked(&rt, MORE_AFTER, (0, 0), "right frames 1 moves 0\n")?;
    Ok(())
}

#[test]
fn the_first_line_of_the_wrong_frame_is_named(rt: HostRuntime) -> Result<(), Fail> {
    expect_checked(&rt, WRONG_JOIN, (6, 6), "")?;
    Ok(())
}

#[test]
fn a_wrong_last_line_is_named(rt: HostRuntime) -> Result<(), Fail> {
    expect_checked(&rt, WRONG_END, (6, 9), "")?;
    Ok(())
}

#[test]
fn an_empty_transcript_is_wrong_at_the_line_after_the_end(rt: HostRuntime) -> Result<(), Fail> {
    expect_checked(&rt, NOTHING_AFTER, (6, 6), "")?;
    let recording = RIGHT.find("frame 0").ok_or("a transcript")?;
    expect_checked(&rt, &RIGHT[..recording], (6, 6), "")?;
    Ok(())
}

/// The first read gives the whole input, the second its end, and a third would fail.
#[test]
fn a_source_that_has_told_its_end_is_not_asked_again(rt: HostRuntime) -> Result<(), Fail> {
    let mut source = MemSource::new(NOTHING_AFTER.as_bytes(), 1_000, &[2]);
    expect_verdict(&rt, &mut source, (6, 6), "")?;
    Ok(())
}

/// The first read gives the whole input, and a second would fail.
#[test]
fn no_more_is_read_than_the_verdict_needs(rt: HostRuntime) -> Result<(), Fail> {
    let rows = [
        (RIGHT, (0, 0), "right frames 1 moves 0\n"),
        (WRONG_JOIN, (6, 6), ""),
        (WRONG_END, (6, 9), ""),
        (FAULTY, (1, 2), ""),
    ];
    for (input, wanted, written) in rows {
        let mut source = MemSource::new(input.as_bytes(), 1_000, &[1]);
        expect_verdict(&rt, &mut source, wanted, written)?;
    }
    Ok(())
}

#[test]
fn either_order_of_two_moves_is_right(rt: HostRuntime) -> Result<(), Fail> {
    expect_checked(&rt, SLOT_0_FIRST, (0, 0), "right frames 1 moves 2\n")?;
    expect_checked(&rt, SLOT_1_FIRST, (0, 0), "right frames 1 moves 2\n")?;
    Ok(())
}

#[test]
fn exchanged_lines_and_a_line_alone_are_wrong(rt: HostRuntime) -> Result<(), Fail> {
    expect_checked(&rt, EXCHANGED, (6, 11), "")?;
    expect_checked(&rt, FRAME_ALONE, (6, 11), "")?;
    Ok(())
}

/// What these words write, of this input; the status is 0.
pub fn written_of(
    rt: &(impl AllocGlobal + Abort + Threads + Wait + Sync),
    words: &[&str],
    input: &[u8],
) -> Result<MemSink, AllocError> {
    let mut source = MemSource::new(input, MANY, &[]);
    let mut sink = MemSink::new(rt.alloc(), MANY_BYTES, MANY)?;
    let report = report_of(rt, words, &mut source, &mut sink);
    assert_eq!(rt; report.status, 0);
    Ok(sink)
}

/// Puts what these words write, of this input, after it.
fn put_written(
    rt: &(impl AllocGlobal + Abort + Threads + Wait + Sync),
    words: &[&str],
    input: &mut Vec<u8>,
) -> Result<(), AllocError> {
    let sink = written_of(rt, words, input.as_slice())?;
    input.extend_from_slice(sink.bytes())
}

#[test]
fn the_output_of_four_workers_is_right(rt: HostRuntime) -> Result<(), Fail> {
    let mut input = Vec::new(rt.alloc());
    put_written(&rt, &["make", "7", "32", "20"], &mut input)?;
    put_written(&rt, &["play", "4"], &mut input)?;
    let mut source = MemSource::new(input.as_slice(), MANY, &[]);
    expect_verdict(&rt, &mut source, (0, 0), "right frames 20 moves 640\n")?;
    Ok(())
}
