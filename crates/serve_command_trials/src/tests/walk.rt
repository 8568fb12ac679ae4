use super::{ARENA, ONE_JOIN, report_of};
use edge_io::{MemSink, MemSource};
use std::alloc::{AllocError, AllocGlobal};
use std::process::Abort;
use std::sync::Wait;
use std::test::Fail;
use std::thread::Threads;

/// Two spawns with a block beside them, its line between theirs, and a frame whose line isn't looked at.
const TWO: &str =
    "arena -131072 -131072 0 131072 131072 65536\nspawn 0 0 6144\nblock 15000 15000 0 25000 25000 20000\nspawn 40000 0 6144\nframe\nno line\n";

/// What `walk 7 2 3` writes of it, by a program that was written apart from this one: both join in frame 0.
const TWO_WALKED: &str =
    "arena -131072 -131072 0 131072 131072 65536\nblock 15000 15000 0 25000 25000 20000\nspawn 0 0 6144\nspawn 40000 0 6144\nframe\nfrom 1 0101\nfrom 2 0101\nfrom 1 010201000000320a000f0100\nfrom 2 010201000000323000890000\nframe\nfrom 1 01020200000032e200ecff01\nfrom 2 01020200000032ddff270101\nframe\nfrom 1 01020300000032b200a6ff00\nfrom 2 010203000000326000c30000\nend\n";

/// How many bytes of `TWO` there are up to its frame.
const TWO_TO_FRAME: usize = TWO.len() - "no line\n".len();

/// Two spawns at which nobody can be at once.
const CLOSE: &str =
    "arena -131072 -131072 0 131072 131072 65536\nspawn 0 0 6144\nspawn 1000 0 6144\nend\n";

/// What `walk 7 2 2` writes of it: the second player would join in frame 64.
const CLOSE_WALKED: &str =
    "arena -131072 -131072 0 131072 131072 65536\nspawn 0 0 6144\nspawn 1000 0 6144\nframe\nfrom 1 0101\nfrom 1 010201000000320a000f0100\nframe\nfrom 1 010202000000323000890000\nend\n";

/// A map without a spawn, which is what is written of it.
const NO_SPAWN: &str = "arena -131072 -131072 0 131072 131072 65536\nend\n";

/// The status, the line and the fault of these words over an input, and what is written.
fn expect_walk(
    rt: &(impl AllocGlobal + Abort + Threads + Wait + Sync),
    words: &[&str],
    input: &str,
    wanted: (u8, u64, u8),
    output: &str,
) -> Result<(), AllocError> {
    let mut source = MemSource::new(input.as_bytes(), 100, &[]);
    let mut sink = MemSink::new(rt.alloc(), 10_000, 100)?;
    let report = report_of(rt, words, &mut source, &mut sink);
    assert_eq!(rt; (report.status, report.line, report.fault), wanted);
    assert!(rt; report.last.is_none());
    assert_eq!(rt; sink.bytes(), output.as_bytes());
    Ok(())
}

#[test]
fn players_join_and_walk_on_a_map(rt: HostRuntime) -> Result<(), Fail> {
    expect_walk(&rt, &["walk", "7", "2", "3"], TWO, (0, 0, 0), TWO_WALKED)?;
    expect_walk(
        &rt,
        &["walk", "7", "2", "2"],
        CLOSE,
        (0, 0, 0),
        CLOSE_WALKED,
    )?;
    expect_walk(
        &rt,
        &["walk", "7", "64", "9"],
        NO_SPAWN,
        (0, 0, 0),
        NO_SPAWN,
    )?;
    Ok(())
}

#[test]
fn what_was_written_has_the_same_map(rt: HostRuntime) -> Result<(), Fail> {
    expect_walk(
        &rt,
        &["walk", "7", "2", "3"],
        TWO_WALKED,
        (0, 0, 0),
        TWO_WALKED,
    )?;
    Ok(())
}

#[test]
fn what_was_written_is_played(rt: HostRuntime) -> Result<(), Fail> {
    for recording in [TWO_WALKED, CLOSE_WALKED, NO_SPAWN] {
        let mut source = MemSource::new(recording.as_bytes(), 100, &[]);
        let mut sink = MemSink::new(rt.alloc(), 10_000, 100)?;
        let report = report_of(&rt, &["play", "1"], &mut source, &mut sink);
        assert_eq!(rt; report.status, 0);
    }
    Ok(())
}

#[test]
fn a_map_with_a_fault_is_refused(rt: HostRuntime) -> Result<(), Fail> {
    let words = ["walk", "7", "2", "3"];
    let rows = [
        ("arena 1 2\n", (1, 1, 4)),
        ("spawn 0 0 6144\n", (1, 1, 5)),
        (ARENA, (1, 2, 10)),
        (
            "arena -131072 -131072 0 131072 131072 65536\nspawn 0 0 6144\nblock 1 2 3\nframe\n",
            (1, 3, 4),
        ),
        (
            "arena -131072 -131072 0 131072 131072 65536\nframe\n",
            (1, 2, 7),
        ),
    ];
    for (input, wanted) in rows {
        expect_walk(&rt, &words, input, wanted, "")?;
    }
    Ok(())
}

/// The second read would fail: it isn't made where the first one has given the line of the first frame.
#[test]
fn nothing_is_read_after_the_first_frame(rt: HostRuntime) -> Result<(), Fail> {
    let mut source = MemSource::new(TWO.as_bytes(), TWO_TO_FRAME, &[1]);
    let mut sink = MemSink::new(rt.alloc(), 10_000, 100)?;
    let report = report_of(&rt, &["walk", "7", "2", "3"], &mut source, &mut sink);
    assert_eq!(rt; report.status, 0);
    assert_eq!(rt; sink.bytes(), TWO_WALKED.as_bytes());
    Ok(())
}

#[test]
fn each_read_of_a_map_fails_in_turn(rt: HostRuntime) -> Result<(), Fail> {
    let map = &TWO.as_bytes()[..TWO_TO_FRAME];
    for (read, _) in map.chunks(8).enumerate() {
        let fails = [read as u64];
        let mut source = MemSource::new(TWO.as_bytes(), 8, &fails);
        let mut sink = MemSink::new(rt.alloc(), 10_000, 100)?;
        let report = report_of(&rt, &["walk", "7", "2", "3"], &mut source, &mut sink);
        assert_eq!(rt; report.status, 3, "at read {read}");
        assert!(rt; sink.bytes().is_empty(), "at read {read}");
    }
    Ok(())
}

#[test]
fn each_front_of_a_walk_is_written(rt: HostRuntime) -> Result<(), Fail> {
    for room in 0..CLOSE_WALKED.len() {
        let mut source = MemSource::new(CLOSE.as_bytes(), 100, &[]);
        let mut sink = MemSink::new(rt.alloc(), room, 64)?;
        let report = report_of(&rt, &["walk", "7", "2", "2"], &mut source, &mut sink);
        assert_eq!(rt; report.status, 4, "in {room} bytes");
        assert_eq!(rt; sink.bytes(), &CLOSE_WALKED.as_bytes()[..room]);
    }
    Ok(())
}

#[test]
fn other_words_for_a_walk_are_refused(rt: HostRuntime) -> Result<(), Fail> {
    let rows: [&[&str]; 9] = [
        &["walk"],
        &["walk", "7", "2"],
        &["walk", "7", "2", "3", "1"],
        &["walk", "07", "2", "3"],
        &["walk", "18446744073709551616", "2", "3"],
        &["walk", "7", "0", "3"],
        &["walk", "7", "65", "3"],
        &["walk", "7", "2", "0"],
        &["walk", "7", "2", "100001"],
    ];
    for words in rows {
        let mut source = MemSource::new(ONE_JOIN.as_bytes(), 100, &[0]);
        let mut sink = MemSink::new(rt.alloc(), 10_000, 100)?;
        let report = report_of(&rt, words, &mut source, &mut sink);
        assert_eq!(rt; report.status, 2);
        assert!(rt; sink.bytes().is_empty());
    }
    Ok(())
}
