use super::{THREE_MOVES, THREE_MOVES_OUTPUT, report_of};
use edge_io::{MemSink, MemSource};
use std::alloc::{AllocError, AllocGlobal};
use std::process::Abort;
use std::sync::Wait;
use std::test::Fail;
use std::thread::Threads;

/// The lines of the recording up to the one that closes its frame 0, and that frame's text.
const TO_THE_SECOND_FRAME: &str =
    "arena -131072 -131072 0 131072 131072 65536\nspawn 0 0 6144\nframe\nfrom 7 0101\nframe\n";

const FRAME_0: &str =
    "frame 0\njoined 7 0\nto 0 01000000000000000000000000000018000000000000000000000000000000000000000000000000000000\n";

/// What a read gives at the most.
const MOST: usize = 8;

/// Plays the recording over a source whose read of this number fails: exactly this text is written.
fn expect_written(
    rt: &(impl AllocGlobal + Abort + Threads + Wait + Sync),
    read: u64,
    text: &str,
) -> Result<(), AllocError> {
    let fails = [read];
    let mut source = MemSource::new(THREE_MOVES.as_bytes(), MOST, &fails);
    let mut sink = MemSink::new(rt.alloc(), 10_000, 100)?;
    let report = report_of(rt, &["play", "1"], &mut source, &mut sink);
    assert_eq!(rt; report.status, 3, "at read {read}");
    assert_eq!(rt; sink.bytes(), text.as_bytes(), "at read {read}");
    Ok(())
}

/// The last line of the recording closes its last frame, and its line feed is taken by the last read. So until then
/// frame 0 alone may be closed.
#[test]
fn each_read_fails_in_turn(rt: HostRuntime) -> Result<(), Fail> {
    assert!(rt; THREE_MOVES.starts_with(TO_THE_SECOND_FRAME));
    assert!(rt; THREE_MOVES_OUTPUT.starts_with(FRAME_0));
    for (read, _) in THREE_MOVES.as_bytes().chunks(MOST).enumerate() {
        let taken = read * MOST;
        let is_closed = taken >= TO_THE_SECOND_FRAME.len();
        expect_written(&rt, read as u64, if is_closed { FRAME_0 } else { "" })?;
    }
    Ok(())
}
