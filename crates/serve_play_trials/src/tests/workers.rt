use super::things::ONE_ITEM;
use super::{ONE_JOIN, ONE_JOIN_OUTPUT, report_of};
use edge_io::{MemSink, MemSource};
use std::test::Fail;

/// How the output begins where the player in slot 0 moves first, and where the one in slot 1 does.
const FIRST_OR_SECOND: [&str; 2] = [
    "frame 0\njoined 7 0\njoined 8 1\ndid 0 1 24096 11952 6144 64\ndid 1 1 24096 -11952 6144 -\nto 0 ",
    "frame 0\njoined 7 0\njoined 8 1\ndid 1 1 24096 -11952 6144 64\ndid 0 1 24096 11952 6144 -\nto 0 ",
];

#[test]
fn who_moves_first_takes_the_item(rt: HostRuntime) -> Result<(), Fail> {
    let mut source = MemSource::new(ONE_ITEM.as_bytes(), 1_000, &[]);
    let mut sink = MemSink::new(rt.alloc(), 10_000, 1_000)?;
    let report = report_of(&rt, &["play", "2"], &mut source, &mut sink);
    assert_eq!(rt; report.status, 0);
    let [first, second] = FIRST_OR_SECOND;
    let is_first = sink.bytes().starts_with(first.as_bytes());
    let is_second = sink.bytes().starts_with(second.as_bytes());
    assert!(rt; is_first || is_second);
    Ok(())
}

#[test]
fn sixteen_workers_play(rt: HostRuntime) -> Result<(), Fail> {
    let mut source = MemSource::new(ONE_JOIN.as_bytes(), 1_000, &[]);
    let mut sink = MemSink::new(rt.alloc(), 10_000, 1_000)?;
    let report = report_of(&rt, &["play", "16"], &mut source, &mut sink);
    assert_eq!(rt; report.status, 0);
    assert_eq!(rt; sink.bytes(), ONE_JOIN_OUTPUT.as_bytes());
    Ok(())
}
