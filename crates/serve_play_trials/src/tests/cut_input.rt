use super::report_of;
use edge_io::{MemSink, MemSource};
use std::test::Fail;

/// Three whole frames, and the front of a line in the fourth.
const CUT_IN_FRAME_3: &str =
    "arena -131072 -131072 0 131072 131072 65536\nspawn 0 0 6144\nframe\nfrom 7 0101\nframe\nframe\nfrom 7 010201000000324001000000\nframe\nfrom 7 01";

/// The text of the three frames.
const THREE_FRAMES: &str =
    "frame 0\njoined 7 0\nto 0 01000000000000000000000000000018000000000000000000000000000000000000000000000000000000\nframe 1\nto 0 01010000000000000000000000000018000000000000000000000000000000000000000000000000000000\nframe 2\ndid 0 1 2048 0 6144 -\nto 0 01020000000000080000000000000018000000a00000000000000000000001000000000000010000000000\n";

#[test]
fn frames_before_a_cut_line_are_written(rt: HostRuntime) -> Result<(), Fail> {
    let mut source = MemSource::new(CUT_IN_FRAME_3.as_bytes(), 100, &[]);
    let mut sink = MemSink::new(rt.alloc(), 10_000, 100)?;
    let report = report_of(&rt, &["play", "1"], &mut source, &mut sink);
    assert_eq!(rt; report.status, 1);
    assert_eq!(rt; (report.line, report.fault, report.rule), (9, 10, 0));
    assert_eq!(rt; sink.bytes(), THREE_FRAMES.as_bytes());
    Ok(())
}
