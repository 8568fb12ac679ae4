use super::{THREE_MOVES, THREE_MOVES_OUTPUT, report_of};
use edge_io::{MemSink, MemSource};
use std::alloc::{AllocError, AllocGlobal};
use std::process::Abort;
use std::sync::Wait;
use std::test::Fail;
use std::thread::Threads;

/// Plays the recording into a sink with room for this front of its output: exactly the front is written.
fn expect_front(
    rt: &(impl AllocGlobal + Abort + Threads + Wait + Sync),
    front: &[u8],
) -> Result<(), AllocError> {
    let mut source = MemSource::new(THREE_MOVES.as_bytes(), 100, &[]);
    let mut sink = MemSink::new(rt.alloc(), front.len(), 64)?;
    let report = report_of(rt, &["play", "1"], &mut source, &mut sink);
    assert_eq!(rt; report.status, 4, "in {} bytes", front.len());
    assert_eq!(rt; sink.bytes(), front);
    Ok(())
}

#[test]
fn each_room_below_the_output_is_used_up(rt: HostRuntime) -> Result<(), Fail> {
    let output = THREE_MOVES_OUTPUT.as_bytes();
    for room in 0..output.len() {
        expect_front(&rt, &output[..room])?;
    }
    Ok(())
}
