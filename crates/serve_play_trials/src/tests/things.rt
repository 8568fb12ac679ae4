use super::report_of;
use edge_io::{MemSink, MemSource};
use std::alloc::{AllocError, AllocGlobal, Global};
use std::process::Abort;
use std::sync::Wait;
use std::test::Fail;
use std::thread::Threads;

/// Two players that reach for one item from both sides.
pub const ONE_ITEM: &str =
    "arena -131072 -131072 0 131072 131072 65536\nspawn 24096 14000 6144\nspawn 24096 -14000 6144\nitem 20000 -4096 0 ammo 100\nframe\nfrom 7 0101\nfrom 8 0101\nfrom 7 010201000000320000c0fe00\nfrom 8 010201000000320000400100\nend\n";

const ONE_ITEM_LINES: &str =
    "frame 0\njoined 7 0\njoined 8 1\ndid 0 1 24096 11952 6144 64\ndid 1 1 24096 -11952 6144 -\nto 0 ";

/// Two players in one teleporter, whose destination is free for the first alone.
const ONE_TELEPORTER: &str =
    "arena -131072 -131072 0 131072 131072 65536\nspawn 0 0 6144\nspawn 12800 0 6144\nteleport -25600 -25600 0 25600 25600 25600 -65536 65536 6144\nframe\nfrom 7 0101\nfrom 8 0101\nfrom 7 010201000000320000000000\nfrom 8 010201000000320000000000\nend\n";

const ONE_TELEPORTER_LINES: &str =
    "frame 0\njoined 7 0\njoined 8 1\ndid 0 1 -65536 65536 6144 -\ndid 1 1 12800 0 6144 -\nto 0 ";

/// A gem that is taken, is away for a frame, and is taken again.
const RETURNS: &str =
    "arena -131072 -131072 0 131072 131072 65536\nspawn 0 0 6144\nitem -4096 -4096 0 gem 2\nframe\nfrom 7 0101\nfrom 7 010201000000320000000000\nframe\nfrom 7 010202000000320000000000\nframe\nfrom 7 010203000000320000000000\nend\n";

const RETURNS_OUTPUT: &str =
    "frame 0\njoined 7 0\ndid 0 1 0 0 6144 64\nto 0 010000000000000000000000000000180000000000000000000000000000010001000000000100000001004000020000f0ffff00f0ffff00000000\nframe 1\ndid 0 2 0 0 6144 -\nto 0 010100000000000000000000000000180000000000000000000000000000010001000000000200000001004000020000f0ffff00f0ffff00000000\nframe 2\ndid 0 3 0 0 6144 64\nto 0 010200000000000000000000000000180000000000000000000000000000010002000000000300000001004000020000f0ffff00f0ffff00000000\nend 3\n";

/// A lift that rises once, before a player joins on it, and then would press the player against a block.
const PRESSED: &str =
    "arena -131072 -131072 0 131072 131072 65536\nspawn 0 0 11264\nlift -12800 -12800 0 0 12800 2560 25600 2560\nblock 0 -12800 20000 12800 12800 30000\nframe\nfrom 7 0101\nframe\nend\n";

const PRESSED_OUTPUT: &str =
    "frame 0\njoined 7 0\nto 0 0100000000000000000000000000002c0000000000000000000000000000000000000000000000000001004000050100ceffff00ceffff000a0000\nframe 1\nto 0 0101000000000000000000000000002c0000000000000000000000000000000000000000000000000001004000050100ceffff00ceffff000a0000\nend 2\n";

/// An arena with two spawns, 199 items out of sight of both, the item of [`ONE_ITEM`], which gets the id 263, and two
/// frames.
fn with_item_263(alloc: Global) -> Result<String, AllocError> {
    let mut text = String::new(alloc);
    text.push_str(
        "arena -131072 -131072 0 1048576 131072 65536\nspawn 24096 14000 6144\nspawn 24096 -14000 6144\n",
    )?;
    for _ in 0..199u16 {
        text.push_str("item 1000000 0 0 gem 100\n")?;
    }
    text.push_str(
        "item 20000 -4096 0 ammo 100\nframe\nfrom 7 0101\nfrom 8 0101\nfrom 7 010201000000320000c0fe00\nfrom 8 010201000000320000400100\nframe\nfrom 8 010202000000320000000000\nend\n",
    )?;
    Ok(text)
}

/// The first player to move takes the item; the second, which touches it in both frames, finds it away.
const ITEM_263_OUTPUT: &str =
    "frame 0\njoined 7 0\njoined 8 1\ndid 0 1 24096 11952 6144 263\ndid 1 1 24096 -11952 6144 -\nto 0 010000000000205e0000b02e000000180000000000000060ffff000000000114000000000001000000020001000001205e000050d1ffff0018000007010100204e000000f0ffff00000000\nto 1 010000000001205e000050d1ffff001800000000000000a00000000000000100000000000001000000020000000001205e0000b02e00000018000007010100204e000000f0ffff00000000\nframe 1\ndid 1 2 24096 -10314 6144 -\nto 0 010100000000205e0000b02e000000180000000000000060ffff000000000114000000000001000000020001000001205e0000b6d7ffff0018000007010100204e000000f0ffff00000000\nto 1 010100000001205e0000b6d7ffff001800000000000000800000000000000100000000000002000000020000000001205e0000b02e00000018000007010100204e000000f0ffff00000000\nend 2\n";

/// Plays a recording, and compares how its output begins.
fn expect_front(
    rt: &(impl AllocGlobal + Abort + Threads + Wait + Sync),
    recording: &str,
    front: &str,
) -> Result<(), Fail> {
    let mut source = MemSource::new(recording.as_bytes(), 1_000, &[]);
    let mut sink = MemSink::new(rt.alloc(), 10_000, 1_000)?;
    let report = report_of(rt, &["play", "1"], &mut source, &mut sink);
    assert_eq!(rt; report.status, 0);
    assert!(rt; sink.bytes().starts_with(front.as_bytes()));
    assert!(rt; sink.bytes().ends_with(b"\n"));
    Ok(())
}

#[test]
fn things_have_their_effects(rt: HostRuntime) -> Result<(), Fail> {
    let rows = [
        (ONE_ITEM, ONE_ITEM_LINES),
        (ONE_TELEPORTER, ONE_TELEPORTER_LINES),
        (RETURNS, RETURNS_OUTPUT),
        (PRESSED, PRESSED_OUTPUT),
    ];
    for (recording, front) in rows {
        expect_front(&rt, recording, front)?;
    }
    Ok(())
}

#[test]
fn things_of_high_ids_are_taken(rt: HostRuntime) -> Result<(), Fail> {
    let recording = with_item_263(rt.alloc())?;
    expect_front(&rt, &recording, ITEM_263_OUTPUT)
}
