use super::{CROWDED, ONE_JOIN, report_of};
use edge_io::{MemSink, MemSource};
use std::test::Fail;

/// What `feed 1` writes of one join: the line of its packet, and what `play 1` writes.
pub const ONE_JOIN_FED: &str =
    "frame 0\nfrom 7 0101\njoined 7 0\nto 0 01000000000000000000000000000018000000000000000000000000000000000000000000000000000000\nend 1\n";

/// What it writes of two joins for one slot, where the packet of the one arrives first, and where that of the other does.
pub const FIRST_OR_SECOND: [&str; 2] = [
    "frame 0\nfrom 7 0101\nfrom 8 0101\nno 1 Crowded\njoined 7 0\nto 0 01000000000000000000000000000018000000000000000000000000000000000000000000000000000000\nend 1\n",
    "frame 0\nfrom 8 0101\nfrom 7 0101\nno 1 Crowded\njoined 8 0\nto 0 01000000000000000000000000000018000000000000000000000000000000000000000000000000000000\nend 1\n",
];

#[test]
fn packets_that_arrive_are_printed(rt: HostRuntime) -> Result<(), Fail> {
    for words in [["feed", "1"], ["feed", "2"], ["feed", "16"]] {
        let mut source = MemSource::new(ONE_JOIN.as_bytes(), 1_000, &[]);
        let mut sink = MemSink::new(rt.alloc(), 10_000, 1_000)?;
        let report = report_of(&rt, &words, &mut source, &mut sink);
        assert_eq!(rt; report.status, 0);
        assert_eq!(rt; sink.bytes(), ONE_JOIN_FED.as_bytes());
        let Some(order) = &report.order else {
            return Err("no order".into());
        };
        assert_eq!(rt; order.as_slice(), [0].as_slice());
    }
    Ok(())
}

#[test]
fn first_that_arrives_joins(rt: HostRuntime) -> Result<(), Fail> {
    let mut source = MemSource::new(CROWDED.as_bytes(), 1_000, &[]);
    let mut sink = MemSink::new(rt.alloc(), 10_000, 1_000)?;
    let report = report_of(&rt, &["feed", "1"], &mut source, &mut sink);
    assert_eq!(rt; report.status, 0);
    let Some(order) = &report.order else {
        return Err("no order".into());
    };
    let [first, second] = FIRST_OR_SECOND;
    if order.as_slice() == [0, 1].as_slice() {
        assert_eq!(rt; sink.bytes(), first.as_bytes());
    } else {
        assert_eq!(rt; order.as_slice(), [1, 0].as_slice());
        assert_eq!(rt; sink.bytes(), second.as_bytes());
    }
    Ok(())
}

#[test]
fn only_one_to_sixteen_workers_are_fed(rt: HostRuntime) -> Result<(), Fail> {
    let rows: [&[&str]; 5] = [
        &["feed"],
        &["feed", "0"],
        &["feed", "17"],
        &["feed", "01"],
        &["feed", "1", "1"],
    ];
    for words in rows {
        let mut source = MemSource::new(ONE_JOIN.as_bytes(), 1_000, &[]);
        let mut sink = MemSink::new(rt.alloc(), 10_000, 1_000)?;
        let report = report_of(&rt, words, &mut source, &mut sink);
        assert_eq!(rt; report.status, 2);
        assert!(rt; sink.bytes().is_empty());
    }
    Ok(())
}

/// A recording whose fifth line is no line of one.
const UNKNOWN_WORD: &str =
    "arena -131072 -131072 0 131072 131072 65536\nspawn 0 0 6144\nframe\nfrom 7 0101\nfrob\n";

#[test]
fn faulty_recordings_are_refused_as_by_play(rt: HostRuntime) -> Result<(), Fail> {
    for words in [["play", "1"], ["feed", "1"]] {
        let mut source = MemSource::new(UNKNOWN_WORD.as_bytes(), 1_000, &[]);
        let mut sink = MemSink::new(rt.alloc(), 10_000, 1_000)?;
        let report = report_of(&rt, &words, &mut source, &mut sink);
        assert_eq!(rt;
            (report.status, report.line, report.fault, report.rule),
            (1, 5, 3, 0)
        );
        assert!(rt; sink.bytes().is_empty());
    }
    Ok(())
}
