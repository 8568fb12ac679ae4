use crate::ONE_JOIN;
use arena_engine::{Report, serve};
use edge_io::{MemSink, MemSource};
use shared_moves::NoGate;
use std::alloc::{AllocError, AllocGlobal, Global};
use std::process::Abort;
use std::sync::Wait;
use std::test::Fail;
use std::thread::Threads;

mod cut;
mod cut_input;
mod failing_reads;
mod full;
mod known;
mod pipe;
mod refused;
mod rooms;
mod statuses;
mod things;
mod workers;

const ARENA: &str = "arena -131072 -131072 0 131072 131072 65536\n";

const ONE_JOIN_OUTPUT: &str =
    "frame 0\njoined 7 0\nto 0 01000000000000000000000000000018000000000000000000000000000000000000000000000000000000\nend 1\n";

/// The arena, a front, a piece so many times, and a back.
fn write_pieces(
    alloc: Global,
    front: &str,
    piece: &str,
    times: u16,
    back: &str,
) -> Result<String, AllocError> {
    let mut text = String::new(alloc);
    text.push_str(ARENA)?;
    text.push_str(front)?;
    for _ in 0..times {
        text.push_str(piece)?;
    }
    text.push_str(back)?;
    Ok(text)
}

/// What comes of these words, over memory and without a gate.
pub fn report_of(
    rt: &(impl AllocGlobal + Threads + Wait + Sync),
    words: &[&str],
    source: &mut MemSource,
    sink: &mut MemSink,
) -> Report {
    serve(rt, rt.alloc(), words, source, sink, &NoGate)
}

/// Plays a recording without a fault, and compares the status and the output.
fn expect(
    rt: &(impl AllocGlobal + Abort + Threads + Wait + Sync),
    recording: &str,
    status: u8,
    output: &str,
) -> Result<(), AllocError> {
    let mut source = MemSource::new(recording.as_bytes(), 100, &[]);
    let mut sink = MemSink::new(rt.alloc(), 10_000, 100)?;
    let report = report_of(rt, &["play", "1"], &mut source, &mut sink);
    assert_eq!(rt; report.status, status);
    assert_eq!(rt; sink.bytes(), output.as_bytes());
    Ok(())
}

const SECOND_FRAME: &str =
    "arena -131072 -131072 0 131072 131072 65536\nspawn 0 0 6144\nframe\nfrom 7 0101\nframe\nend\n";

const SECOND_OUTPUT: &str =
    "frame 0\njoined 7 0\nto 0 01000000000000000000000000000018000000000000000000000000000000000000000000000000000000\nframe 1\nto 0 01010000000000000000000000000018000000000000000000000000000000000000000000000000000000\nend 2\n";

const CROWDED: &str =
    "arena -131072 -131072 0 131072 131072 65536\nspawn 0 0 6144\nframe\nfrom 7 0101\nfrom 8 0101\nend\n";

const CROWDED_OUTPUT: &str =
    "frame 0\nno 1 Crowded\njoined 7 0\nto 0 01000000000000000000000000000018000000000000000000000000000000000000000000000000000000\nend 1\n";

const NO_FRAME: &str = "arena -131072 -131072 0 131072 131072 65536\nend\nframe\n";

/// One join, with a carriage return before each line feed, and no line feed after `end`.
const CARRIAGE_RETURNS: &str =
    "arena -131072 -131072 0 131072 131072 65536\r\nspawn 0 0 6144\r\nframe\r\nfrom 7 0101\r\nend\r";

/// A recording whose `end` has no line feed.
const CUT_END: &str = "arena -131072 -131072 0 131072 131072 65536\nspawn 0 0 6144\nframe\nend";

const STEP: &str =
    "arena -131072 -131072 0 131072 131072 65536\nspawn 0 0 6144\nblock 5120 -12800 0 12800 12800 4608\nframe\nfrom 7 0101\nfrom 7 010201000000324001000000\nend\n";

const STEP_OUTPUT: &str =
    "frame 0\njoined 7 0\ndid 0 1 2048 0 10752 -\nto 0 0100000000000008000000000000002a000000a00000000000000000000001000000000000010000000000\nend 1\n";

const WALL: &str =
    "arena -131072 -131072 0 131072 131072 65536\nspawn 0 0 6144\nblock 5120 -12800 0 12800 12800 4609\nframe\nfrom 7 0101\nfrom 7 010201000000324001000000\nend\n";

const WALL_OUTPUT: &str =
    "frame 0\njoined 7 0\ndid 0 1 1024 0 6144 -\nto 0 01000000000000040000000000000018000000000000000000000000000001000000000000010000000000\nend 1\n";

const JUMP: &str =
    "arena -131072 -131072 0 131072 131072 65536\nspawn 0 0 6144\nframe\nfrom 7 0101\nfrom 7 010201000000320000000001\nfrom 7 010202000000320000000001\nend\n";

const JUMP_OUTPUT: &str =
    "frame 0\njoined 7 0\ndid 0 1 0 0 9088 -\ndid 0 2 0 0 11520 -\nto 0 0100000000000000000000000000002d0000000000000000000000be000000000000000000020000000000\nend 1\n";

const OLD: &str =
    "arena -131072 -131072 0 131072 131072 65536\nspawn 0 0 6144\nframe\nfrom 7 0101\nfrom 7 010205000000320000000000\nfrom 7 010205000000320000000000\nfrom 7 010204000000320000000000\nfrom 7 010206000000320000000000\nend\n";

const OLD_OUTPUT: &str =
    "frame 0\nno 2 Old\nno 3 Old\njoined 7 0\ndid 0 5 0 0 6144 -\ndid 0 6 0 0 6144 -\nto 0 01000000000000000000000000000018000000000000000000000000000001000000000000060000000000\nend 1\n";

/// More moves of a player than a frame takes.
const MANY: &str =
    "arena -131072 -131072 0 131072 131072 65536\nspawn 0 0 6144\nframe\nfrom 7 0101\nfrom 7 010201000000320000000000\nfrom 7 010202000000320000000000\nfrom 7 010203000000320000000000\nfrom 7 010204000000320000000000\nfrom 7 010205000000320000000000\nfrom 7 010206000000320000000000\nfrom 7 010207000000320000000000\nfrom 7 010208000000320000000000\nfrom 7 010209000000320000000000\nend\n";

const MANY_OUTPUT: &str =
    "frame 0\nno 9 Many\njoined 7 0\ndid 0 1 0 0 6144 -\ndid 0 2 0 0 6144 -\ndid 0 3 0 0 6144 -\ndid 0 4 0 0 6144 -\ndid 0 5 0 0 6144 -\ndid 0 6 0 0 6144 -\ndid 0 7 0 0 6144 -\ndid 0 8 0 0 6144 -\nto 0 01000000000000000000000000000018000000000000000000000000000001000000000000080000000000\nend 1\n";

/// A player that leaves between two moves, and one that takes its place in the next frame.
const LEAVING: &str =
    "arena -131072 -131072 0 131072 131072 65536\nspawn 0 0 6144\nframe\nfrom 7 0101\nfrom 7 010201000000320000000000\nfrom 7 0103\nfrom 7 010202000000320000000000\nframe\nfrom 8 0101\nend\n";

const LEAVING_OUTPUT: &str =
    "frame 0\nno 3 Leaving\njoined 7 0\ndid 0 1 0 0 6144 -\nto 0 01000000000000000000000000000018000000000000000000000000000001000000000000010000000000\nframe 1\njoined 8 0\nto 0 01010000000000000000000000000018000000000000000000000000000000000000000000000000000000\nend 2\n";

const FAULTY: &str =
    "arena -131072 -131072 0 131072 131072 65536\nspawn 0 0 6144\nframe\nfrom 7 -\nfrom 7 02\nfrom 7 0109\nfrom 7 01\nfrom 7 010100\nfrom 7 010201000000004001000000\nfrom 7 010201000000324001000080\nfrom 7 0103\nfrom 7 010201000000320000000000\nend\n";

const FAULTY_OUTPUT: &str =
    "frame 0\nno 0 Empty\nno 1 Short\nno 2 Kind\nno 3 Short\nno 4 Long\nno 5 Time\nno 6 Buttons\nno 7 NotJoined\nno 8 NotJoined\nend 1\n";

const BLOCKED: &str =
    "arena -131072 -131072 0 131072 131072 65536\nspawn 0 0 6144\nblock 4095 -12800 0 12800 12800 4608\nframe\nfrom 7 0101\nend\n";

/// Two frames: a join, and then three moves along x, with the wish 320 and 50 milliseconds each.
const THREE_MOVES: &str =
    "arena -131072 -131072 0 131072 131072 65536\nspawn 0 0 6144\nframe\nfrom 7 0101\nframe\nfrom 7 010201000000324001000000\nfrom 7 010202000000324001000000\nfrom 7 010203000000324001000000\nend\n";

const THREE_MOVES_OUTPUT: &str =
    "frame 0\njoined 7 0\nto 0 01000000000000000000000000000018000000000000000000000000000000000000000000000000000000\nframe 1\ndid 0 1 2048 0 6144 -\ndid 0 2 5734 0 6144 -\ndid 0 3 9830 0 6144 -\nto 0 01010000000066260000000000000018000000400100000000000000000001000000000000030000000000\nend 2\n";

/// A join, then the commands 1 and 2 in a packet, then 1 to 3 in another, which comes twice.
const REPEATED: &str =
    "arena -131072 -131072 0 131072 131072 65536\nspawn 0 0 6144\nframe\nfrom 7 0101\nfrom 7 02020200000002320000000000320000000000\nfrom 7 02020300000003320000000000320000000000320000000000\nfrom 7 02020300000003320000000000320000000000320000000000\nend\n";

const REPEATED_OUTPUT: &str =
    "frame 0\nno 3 Old\njoined 7 0\ndid 0 1 0 0 6144 -\ndid 0 2 0 0 6144 -\ndid 0 3 0 0 6144 -\nto 0 01000000000000000000000000000018000000000000000000000000000001000000000000030000000000\nend 1\n";

/// A join and the command 1, then the commands 5 to 7 in a packet, then 7 to 9 in another.
const GAP: &str =
    "arena -131072 -131072 0 131072 131072 65536\nspawn 0 0 6144\nframe\nfrom 7 0101\nfrom 7 02020100000001320000000000\nframe\nfrom 7 02020700000003324001000000324001000000324001000000\nframe\nfrom 7 02020900000003324001000000324001000000324001000000\nend\n";

const GAP_OUTPUT: &str =
    "frame 0\njoined 7 0\ndid 0 1 0 0 6144 -\nto 0 01000000000000000000000000000018000000000000000000000000000001000000000000010000000000\nframe 1\ndid 0 5 2048 0 6144 -\ndid 0 6 5734 0 6144 -\ndid 0 7 9830 0 6144 -\nto 0 01010000000066260000000000000018000000400100000000000000000001000000000000070000000000\nframe 2\ndid 0 8 13926 0 6144 -\ndid 0 9 18022 0 6144 -\nto 0 01020000000066460000000000000018000000400100000000000000000001000000000000090000000000\nend 3\n";

/// Five shots at a player, of which the fourth fells it.
const SHOTS: &str =
    "arena -131072 -131072 0 131072 131072 65536\nshots\nspawn 0 0 6144\nspawn 20000 0 6144\nitem 0 4000 0 ammo 100\nframe\nfrom 7 0101\nfrom 8 0101\nfrom 7 02020100000001320100000002\nfrom 7 02020200000001320100000002\nfrom 7 02020300000001320100000002\nfrom 7 02020400000001320100000002\nfrom 7 02020500000001320100000002\nfrom 8 010201000000324001000000\nend\n";

const SHOTS_OUTPUT: &str =
    "frame 0\njoined 7 0\njoined 8 1\ndid 0 1 6 0 6144 1,64\ndid 0 2 12 0 6144 1\ndid 0 3 18 0 6144 1\ndid 0 4 24 0 6144 1\ndid 0 5 30 0 6144 -\ndid 1 1 20000 0 6144 -\nto 0 0100000000001e0000000000000000180000800000000000000000000000010f000100000005000000020001000001204e000000000000001800004000010000000000a00f000000000000\nto 1 010000000001204e0000000000000018000000000000000000000000000000000000000000010000000200000000011e00000000000000001800004000010000000000a00f000000000000\nend 1\n";

/// The same shots, with a block between the two players.
const SHOTS_AT_A_BLOCK: &str =
    "arena -131072 -131072 0 131072 131072 65536\nshots\nblock 8000 -12800 0 9000 12800 20000\nspawn 0 0 6144\nspawn 20000 0 6144\nitem 0 4000 0 ammo 100\nframe\nfrom 7 0101\nfrom 8 0101\nfrom 7 02020100000001320100000002\nfrom 7 02020200000001320100000002\nfrom 7 02020300000001320100000002\nfrom 7 02020400000001320100000002\nfrom 7 02020500000001320100000002\nfrom 8 010201000000324001000000\nend\n";

const SHOTS_AT_A_BLOCK_OUTPUT: &str =
    "frame 0\njoined 7 0\njoined 8 1\ndid 0 1 6 0 6144 64\ndid 0 2 12 0 6144 -\ndid 0 3 18 0 6144 -\ndid 0 4 24 0 6144 -\ndid 0 5 30 0 6144 -\ndid 1 1 22048 0 6144 -\nto 0 0100000000001e0000000000000000180000800000000000000000000000010f0000000000050000000200010000012056000000000000001800004000010000000000a00f000000000000\nto 1 01000000000120560000000000000018000000a00000000000000000000001000000000000010000000200000000011e00000000000000001800004000010000000000a00f000000000000\nend 1\n";

#[test]
fn frames_are_printed_in_order(rt: HostRuntime) -> Result<(), Fail> {
    let rows = [
        (ONE_JOIN, ONE_JOIN_OUTPUT),
        (SECOND_FRAME, SECOND_OUTPUT),
        (CROWDED, CROWDED_OUTPUT),
        (NO_FRAME, "end 0\n"),
        (CUT_END, "frame 0\nend 1\n"),
        (CARRIAGE_RETURNS, ONE_JOIN_OUTPUT),
    ];
    for (recording, output) in rows {
        expect(&rt, recording, 0, output)?;
    }
    Ok(())
}

#[test]
fn players_move(rt: HostRuntime) -> Result<(), Fail> {
    let rows = [
        (THREE_MOVES, THREE_MOVES_OUTPUT),
        (REPEATED, REPEATED_OUTPUT),
        (GAP, GAP_OUTPUT),
        (STEP, STEP_OUTPUT),
        (WALL, WALL_OUTPUT),
        (JUMP, JUMP_OUTPUT),
    ];
    for (recording, output) in rows {
        expect(&rt, recording, 0, output)?;
    }
    Ok(())
}

#[test]
fn players_shoot(rt: HostRuntime) -> Result<(), Fail> {
    let rows = [
        (SHOTS, SHOTS_OUTPUT),
        (SHOTS_AT_A_BLOCK, SHOTS_AT_A_BLOCK_OUTPUT),
    ];
    for (recording, output) in rows {
        expect(&rt, recording, 0, output)?;
    }
    Ok(())
}

#[test]
fn packets_are_refused_by_name(rt: HostRuntime) -> Result<(), Fail> {
    let rows = [
        (OLD, OLD_OUTPUT),
        (MANY, MANY_OUTPUT),
        (FAULTY, FAULTY_OUTPUT),
        (BLOCKED, "frame 0\nno 0 Crowded\nend 1\n"),
    ];
    for (recording, output) in rows {
        expect(&rt, recording, 0, output)?;
    }
    Ok(())
}

#[test]
fn players_leave_after_the_replies(rt: HostRuntime) -> Result<(), Fail> {
    expect(&rt, LEAVING, 0, LEAVING_OUTPUT)?;
    Ok(())
}

#[test]
fn a_refused_recording_keeps_its_whole_frames(rt: HostRuntime) -> Result<(), Fail> {
    expect(&rt, ARENA, 1, "")?;
    let late =
        "arena -131072 -131072 0 131072 131072 65536\nspawn 0 0 6144\nframe\nframe\nfrob\nend\n";
    expect(&rt, late, 1, "frame 0\n")?;
    Ok(())
}
