use super::{CUT_END, ONE_JOIN, report_of};
use edge_io::{MemSink, MemSource};
use std::alloc::{AllocError, AllocGlobal};
use std::process::Abort;
use std::sync::Wait;
use std::test::Fail;
use std::thread::Threads;

/// Plays a recording, and compares the line, the fault and the rule that it is refused for. Nothing is written.
pub fn expect_refused(
    rt: &(impl AllocGlobal + Abort + Threads + Wait + Sync),
    recording: &str,
    why: (u64, u8, u8),
) -> Result<(), AllocError> {
    let mut source = MemSource::new(recording.as_bytes(), 100, &[]);
    let mut sink = MemSink::new(rt.alloc(), 10_000, 100)?;
    let report = report_of(rt, &["play", "1"], &mut source, &mut sink);
    assert_eq!(rt; report.status, 1);
    assert_eq!(rt; (report.line, report.fault, report.rule), why);
    assert!(rt; sink.bytes().is_empty());
    Ok(())
}

#[test]
fn the_first_faulty_line_is_reported(rt: HostRuntime) -> Result<(), Fail> {
    let rows = [
        ("frob\n", (1, 3, 0)),
        ("arena 1 2\n", (1, 4, 0)),
        ("frame\n", (1, 5, 0)),
        ("arena -2000000 0 0 1 1 1\n", (1, 6, 0)),
        ("arena 0 0 0 0 1 1\n", (1, 7, 1)),
        (
            "arena -131072 -131072 0 131072 131072 65536\nframe\n",
            (2, 7, 7),
        ),
        (
            "arena -131072 -131072 0 131072 131072 65536\nspawn 0 0 6144\nframe\nfrom 7 010\n",
            (4, 8, 0),
        ),
        ("", (1, 10, 0)),
    ];
    for (recording, why) in rows {
        expect_refused(&rt, recording, why)?;
    }
    Ok(())
}

#[test]
fn other_words_are_refused(rt: HostRuntime) -> Result<(), Fail> {
    let rows: [&[&str]; 15] = [
        &[],
        &["play"],
        &["play", "0"],
        &["play", "17"],
        &["play", "01"],
        &["make", "7", "65", "10"],
        &["resend", "7", "65", "10"],
        &["resend", "7", "32", "100001"],
        &["resend", "7", "32"],
        &["match", "7", "32", "2001", "1"],
        &["match", "7", "32", "600", "0"],
        &["match", "7", "32", "600", "17"],
        &["bots"],
        &["bots", "64"],
        &["bots", "00"],
    ];
    for words in rows {
        let mut source = MemSource::new(ONE_JOIN.as_bytes(), 100, &[]);
        let mut sink = MemSink::new(rt.alloc(), 1_000, 100)?;
        let report = report_of(&rt, words, &mut source, &mut sink);
        assert_eq!(rt; report.status, 2);
        assert!(rt; sink.bytes().is_empty());
    }
    Ok(())
}

#[test]
fn a_failing_read_is_reported(rt: HostRuntime) -> Result<(), Fail> {
    let mut source = MemSource::new(ONE_JOIN.as_bytes(), 8, &[3]);
    let mut sink = MemSink::new(rt.alloc(), 1_000, 100)?;
    let report = report_of(&rt, &["play", "1"], &mut source, &mut sink);
    assert_eq!(rt; report.status, 3);
    assert!(rt; sink.bytes().is_empty());
    Ok(())
}

#[test]
fn an_end_whose_line_feed_is_not_read_closes_no_frame(rt: HostRuntime) -> Result<(), Fail> {
    let mut source = MemSource::new(CUT_END.as_bytes(), 100, &[1]);
    let mut sink = MemSink::new(rt.alloc(), 1_000, 100)?;
    let report = report_of(&rt, &["play", "1"], &mut source, &mut sink);
    assert_eq!(rt; report.status, 3);
    assert!(rt; sink.bytes().is_empty());
    Ok(())
}

#[test]
fn a_full_sink_keeps_what_it_took(rt: HostRuntime) -> Result<(), Fail> {
    let mut source = MemSource::new(ONE_JOIN.as_bytes(), 8, &[]);
    let mut sink = MemSink::new(rt.alloc(), 12, 5)?;
    let report = report_of(&rt, &["play", "1"], &mut source, &mut sink);
    assert_eq!(rt; report.status, 4);
    assert_eq!(rt; sink.bytes(), b"frame 0\njoin".as_slice());
    Ok(())
}
