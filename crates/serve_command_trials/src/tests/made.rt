use super::report_of;
use edge_io::{MemSink, MemSource};
use std::alloc::AllocGlobal;
use std::sync::Wait;
use std::test::Fail;
use std::thread::Threads;

/// What is written for words that need no source, and the status.
pub fn written(
    rt: &(impl AllocGlobal + Threads + Wait + Sync),
    words: &[&str],
) -> Result<(MemSink, u8), Fail> {
    let mut source = MemSource::new(&[], 1, &[]);
    let mut sink = MemSink::new(rt.alloc(), 10_000, 10_000)?;
    let report = report_of(rt, words, &mut source, &mut sink);
    Ok((sink, report.status))
}

#[test]
fn a_recording_of_two_players_has_107_lines(rt: HostRuntime) -> Result<(), Fail> {
    let (sink, status) = written(&rt, &["make", "7", "2", "1"])?;
    assert_eq!(rt; status, 0);
    let text = sink.bytes();
    let front = b"arena -262144 -262144 0 262144 262144 131072\nspawn -172032 -172032 6144\n";
    assert!(rt; text.starts_with(front.as_slice()));
    assert_eq!(rt; text.iter().filter(|b| **b == b'\n').count(), 107);
    Ok(())
}

#[test]
fn a_match_of_two_players_is_one_line(rt: HostRuntime) -> Result<(), Fail> {
    let (sink, status) = written(&rt, &["match", "7", "2", "1", "1"])?;
    assert_eq!(rt; status, 0);
    let line = b"frames 1 joins 2 moves 2 refused 0 items 0 scores 0\n";
    assert_eq!(rt; sink.bytes(), line.as_slice());
    Ok(())
}

/// On four workers a match has the same frames, joins, moves and refusals; who took which item isn't known.
#[test]
fn a_match_on_four_workers_begins_alike(rt: HostRuntime) -> Result<(), Fail> {
    let (sink, status) = written(&rt, &["match", "7", "4", "8", "4"])?;
    assert_eq!(rt; status, 0);
    let front = b"frames 8 joins 4 moves 32 refused 0 items ";
    assert!(rt; sink.bytes().starts_with(front.as_slice()));
    assert!(rt; sink.bytes().ends_with(b"\n"));
    Ok(())
}
