use super::report_of;
use arena_engine::Report;
use edge_io::{MemSink, MemSource};
use std::alloc::{AllocError, AllocGlobal};
use std::process::Abort;
use std::sync::Wait;
use std::test::Fail;
use std::thread::Threads;

/// Three spawns with nothing between them.
pub const FREE: &str =
    "arena -131072 -131072 0 131072 131072 65536\nspawn 0 0 6144\nspawn 40000 0 6144\nspawn 40000 40000 6144\nend\n";

/// What `bots 2` writes of it: one edge, in ten moves.
pub const FREE_TO_2: &str =
    "arena -131072 -131072 0 131072 131072 65536\nspawn 0 0 6144\nspawn 40000 0 6144\nspawn 40000 40000 6144\nframe\nfrom 1 0101\nframe\nfrom 1 010201000000324001400100\nframe\nfrom 1 010202000000324001400100\nframe\nfrom 1 010203000000324001400100\nframe\nfrom 1 010204000000324001400100\nframe\nfrom 1 010205000000324001400100\nframe\nfrom 1 010206000000324001400100\nframe\nfrom 1 010207000000324001400100\nframe\nfrom 1 010208000000324001400100\nframe\nfrom 1 010209000000324001400100\nframe\nfrom 1 01020a000000324001400100\nend\nway 0 2\nlength 40000\nleast 0 40000 40000\n";

/// The same with a block in the way.
const BLOCKED: &str =
    "arena -131072 -131072 0 131072 131072 65536\nspawn 0 0 6144\nspawn 40000 0 6144\nspawn 40000 40000 6144\nblock 15000 15000 0 25000 25000 20000\nend\n";

/// What `bots 2` writes of it: two edges, in twenty moves.
const BLOCKED_TO_2: &str =
    "arena -131072 -131072 0 131072 131072 65536\nblock 15000 15000 0 25000 25000 20000\nspawn 0 0 6144\nspawn 40000 0 6144\nspawn 40000 40000 6144\nframe\nfrom 1 0101\nframe\nfrom 1 010201000000324001000000\nframe\nfrom 1 010202000000324001000000\nframe\nfrom 1 010203000000324001000000\nframe\nfrom 1 010204000000324001000000\nframe\nfrom 1 010205000000324001000000\nframe\nfrom 1 010206000000324001000000\nframe\nfrom 1 010207000000324001000000\nframe\nfrom 1 010208000000324001000000\nframe\nfrom 1 010209000000324001000000\nframe\nfrom 1 01020a000000324001000000\nframe\nfrom 1 01020b000000320000400100\nframe\nfrom 1 01020c000000320000400100\nframe\nfrom 1 01020d000000320000400100\nframe\nfrom 1 01020e000000320000400100\nframe\nfrom 1 01020f000000320000400100\nframe\nfrom 1 010210000000320000400100\nframe\nfrom 1 010211000000320000400100\nframe\nfrom 1 010212000000320000400100\nframe\nfrom 1 010213000000320000400100\nframe\nfrom 1 010214000000320000400100\nend\nway 0 1 2\nlength 80000\nleast 0 40000 80000\n";

/// A map with one thing of each kind, its lines in no order, and two spawns that are not on a line along an axis.
const THINGS: &str =
    "arena -131072 -131072 0 131072 131072 65536\nitem 0 4000 0 ammo 100\nspawn 0 0 6144\nlift -60000 -60000 0 -50000 -50000 1000 5000 40\ngoal -30000 0 0 -20000 9000 9000\nspawn 5000 -3000 6144\nteleport 60000 60000 0 70000 70000 9000 1000 2000 6144\nblock 90000 90000 0 91000 91000 7000\nend\n";

/// What `bots 1` writes of it: the lines by kind and id.
const THINGS_TO_1: &str =
    "arena -131072 -131072 0 131072 131072 65536\nblock 90000 90000 0 91000 91000 7000\nspawn 0 0 6144\nspawn 5000 -3000 6144\nitem 0 4000 0 ammo 100\nlift -60000 -60000 0 -50000 -50000 1000 5000 40\ngoal -30000 0 0 -20000 9000 9000\nteleport 60000 60000 0 70000 70000 9000 1000 2000 6144\nframe\nfrom 1 0101\nframe\nfrom 1 01020100000032400140ff00\nframe\nfrom 1 01020200000032400140ff00\nend\nway 0 1\nlength 5000\nleast 0 5000\n";

/// A map whose tree has depth 3 and whose players can shoot, with its settings after a spawn.
const SETTINGS: &str =
    "arena -131072 -131072 0 131072 131072 65536\nspawn 0 0 6144\nshots\ndepth 3\nspawn 4096 0 6144\nend\n";

/// What `bots 1` writes of it: the settings come before the spawns, the depth first.
const SETTINGS_TO_1: &str =
    "arena -131072 -131072 0 131072 131072 65536\ndepth 3\nshots\nspawn 0 0 6144\nspawn 4096 0 6144\nframe\nfrom 1 0101\nframe\nfrom 1 010201000000324001000000\nend\nway 0 1\nlength 4096\nleast 0 4096\n";

/// A map with a line of the depth that a map has without one.
const DEPTH_4: &str =
    "arena -131072 -131072 0 131072 131072 65536\ndepth 4\nspawn 0 0 6144\nspawn 4096 0 6144\nend\n";

/// What `bots 1` writes of it: that line isn't written again.
const DEPTH_4_TO_1: &str =
    "arena -131072 -131072 0 131072 131072 65536\nspawn 0 0 6144\nspawn 4096 0 6144\nframe\nfrom 1 0101\nframe\nfrom 1 010201000000324001000000\nend\nway 0 1\nlength 4096\nleast 0 4096\n";

/// A map with lines on how many blocks there may be, and what `bots 1` writes of it: the line comes before the block.
const BLOCKS: &str =
    "arena -131072 -131072 0 131072 131072 65536\nspawn 0 0 6144\nblocks 1025\nblock 90000 90000 0 91000 91000 7000\nspawn 4096 0 6144\nshots\nend\n";

const BLOCKS_TO_1: &str =
    "arena -131072 -131072 0 131072 131072 65536\nshots\nblocks 1025\nblock 90000 90000 0 91000 91000 7000\nspawn 0 0 6144\nspawn 4096 0 6144\nframe\nfrom 1 0101\nframe\nfrom 1 010201000000324001000000\nend\nway 0 1\nlength 4096\nleast 0 4096\n";

/// The same with as many blocks as a map may have without a line; what `bots` writes of it has none.
const BLOCKS_1024: &str =
    "arena -131072 -131072 0 131072 131072 65536\nblocks 1024\nspawn 0 0 6144\nspawn 4096 0 6144\nend\n";

/// A spawn that is too far from the others.
pub const FAR: &str =
    "arena -131072 -131072 0 131072 131072 65536\nspawn 0 0 6144\nspawn 40000 0 6144\nspawn 120000 0 6144\nend\n";

/// What comes of `bots` with this target over a recording, into a sink with so much room.
fn plan_into(
    rt: &(impl AllocGlobal + Abort + Threads + Wait + Sync),
    recording: &str,
    target: &str,
    sink: &mut MemSink,
) -> Report {
    let mut source = MemSource::new(recording.as_bytes(), 100, &[]);
    report_of(rt, &["bots", target], &mut source, sink)
}

/// Plans the way to a spawn, and compares the status, the fault and what is written.
fn expect_ways(
    rt: &(impl AllocGlobal + Abort + Threads + Wait + Sync),
    recording: &str,
    target: &str,
    status: (u8, u8),
    output: &str,
) -> Result<(), AllocError> {
    let mut sink = MemSink::new(rt.alloc(), 10_000, 100)?;
    let report = plan_into(rt, recording, target, &mut sink);
    assert_eq!(rt; (report.status, report.fault), status);
    assert_eq!(rt; (report.line, report.rule), (0, 0));
    assert!(rt; report.last.is_none());
    assert_eq!(rt; sink.bytes(), output.as_bytes());
    Ok(())
}

#[test]
fn ways_are_written_with_their_certificates(rt: HostRuntime) -> Result<(), Fail> {
    expect_ways(&rt, FREE, "2", (0, 0), FREE_TO_2)?;
    expect_ways(&rt, BLOCKED, "2", (0, 0), BLOCKED_TO_2)?;
    expect_ways(&rt, THINGS, "1", (0, 0), THINGS_TO_1)?;
    Ok(())
}

#[test]
fn settings_are_written_before_the_blocks(rt: HostRuntime) -> Result<(), Fail> {
    expect_ways(&rt, SETTINGS, "1", (0, 0), SETTINGS_TO_1)?;
    expect_ways(&rt, DEPTH_4, "1", (0, 0), DEPTH_4_TO_1)?;
    expect_ways(&rt, BLOCKS, "1", (0, 0), BLOCKS_TO_1)?;
    expect_ways(&rt, BLOCKS_TO_1, "1", (0, 0), BLOCKS_TO_1)?;
    expect_ways(&rt, BLOCKS_1024, "1", (0, 0), DEPTH_4_TO_1)?;
    Ok(())
}

#[test]
fn what_was_written_gives_the_same_way(rt: HostRuntime) -> Result<(), Fail> {
    expect_ways(&rt, BLOCKED_TO_2, "2", (0, 0), BLOCKED_TO_2)?;
    expect_ways(&rt, THINGS_TO_1, "1", (0, 0), THINGS_TO_1)?;
    Ok(())
}

#[test]
fn a_missing_way_is_shown(rt: HostRuntime) -> Result<(), Fail> {
    expect_ways(&rt, FREE, "3", (7, 1), "")?;
    expect_ways(&rt, FAR, "2", (7, 2), "least 0 40000 -\n")?;
    Ok(())
}

#[test]
fn what_was_written_is_played(rt: HostRuntime) -> Result<(), Fail> {
    let rows = [FREE_TO_2, BLOCKED_TO_2, THINGS_TO_1];
    for recording in rows {
        let mut source = MemSource::new(recording.as_bytes(), 100, &[]);
        let mut sink = MemSink::new(rt.alloc(), 10_000, 100)?;
        let report = report_of(&rt, &["play", "1"], &mut source, &mut sink);
        assert_eq!(rt; report.status, 0);
    }
    Ok(())
}

#[test]
fn nothing_is_written_where_the_map_is_not_read(rt: HostRuntime) -> Result<(), Fail> {
    let mut sink = MemSink::new(rt.alloc(), 10_000, 100)?;
    let mut source = MemSource::new(FREE.as_bytes(), 8, &[5]);
    let report = report_of(&rt, &["bots", "2"], &mut source, &mut sink);
    assert_eq!(rt; report.status, 3);
    let report = plan_into(&rt, "arena 1 2\n", "2", &mut sink);
    assert_eq!(rt; (report.status, report.line, report.fault), (1, 1, 4));
    assert!(rt; sink.bytes().is_empty());
    Ok(())
}

#[test]
fn a_front_is_written_where_there_is_no_room(rt: HostRuntime) -> Result<(), Fail> {
    let mut sink = MemSink::new(rt.alloc(), 50, 7)?;
    let report = plan_into(&rt, FREE, "2", &mut sink);
    assert_eq!(rt; report.status, 4);
    assert_eq!(rt; sink.bytes(), &FREE_TO_2.as_bytes()[..50]);
    Ok(())
}
