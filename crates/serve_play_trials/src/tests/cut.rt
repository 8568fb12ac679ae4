use super::report_of;
use edge_io::{MemSink, MemSource};
use entity_recs::Entry;
use std::process::Abort;
use std::test::Fail;

/// A frame in which a player joins, one of no packet, and one in which it moves.
const MOVE_IN_FRAME_2: &str =
    "arena -131072 -131072 0 131072 131072 65536\nspawn 0 0 6144\nframe\nfrom 7 0101\nframe\nframe\nfrom 7 010201000000324001000000\nend\n";

/// The text of the first two frames, which has 211 bytes, and 5 bytes of that of the third.
const CUT_IN_FRAME_2: &str =
    "frame 0\njoined 7 0\nto 0 01000000000000000000000000000018000000000000000000000000000000000000000000000000000000\nframe 1\nto 0 01010000000000000000000000000018000000000000000000000000000000000000000000000000000000\nframe";

/// Compares the entry with that of the move.
fn expect_move(rt: &impl Abort, entry: &Entry) {
    assert_eq!(rt; entry.place, 0);
    assert_eq!(rt; entry.slot, 0);
    assert_eq!(rt; entry.seq, 1);
    let origin = entry.reply.origin;
    assert_eq!(rt; (origin.x, origin.y, origin.z), (2_048, 0, 6_144));
    assert!(rt; entry.reply.got.as_slice().is_empty());
}

#[test]
fn a_frame_whose_text_is_cut_leaves_its_journal(rt: HostRuntime) -> Result<(), Fail> {
    let mut source = MemSource::new(MOVE_IN_FRAME_2.as_bytes(), 100, &[]);
    let mut sink = MemSink::new(rt.alloc(), 216, 100)?;
    let report = report_of(&rt, &["play", "1"], &mut source, &mut sink);
    assert_eq!(rt; report.status, 4);
    assert_eq!(rt; sink.bytes(), CUT_IN_FRAME_2.as_bytes());
    assert!(rt; report.all.as_slice().is_empty());
    let last = report.last.as_ref().ok_or("a journal")?;
    let [entry] = last.as_slice() else {
        return Err("one entry".into());
    };
    expect_move(&rt, entry);
    Ok(())
}
