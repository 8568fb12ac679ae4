ghost use Rattle.std.specs.Prelude.{◌≡◌, true};
ghost use Rattle.arena_map.specs.MapLines.{IsWithinLimits, is_added};

use super::for_helpers::ForHelpers;
use super::oracle::{Move, arrivals_of, play_on};
use super::{action_of, at, expect_no_replies, map_of, server_of};
use crate::{FrameOut, Server};
use arena_map::{ArenaMap, MapLine, MapRefusal};
use entity_recs::{Entry, Kind};
use move_phase::Runners;
use packet_read::Arrival;
use std::alloc::{AllocError, AllocGlobal, Global};
use std::process::Abort;
use std::sync::Wait;
use std::test::Fail;
use std::thread::Threads;

/// Two players reach for one item from both sides.
const REACHES: [Move; 2] = [
    Move {
        slot: 0,
        seq: 1,
        wish_x: 0,
        wish_y: -320,
    },
    Move {
        slot: 1,
        seq: 1,
        wish_x: 0,
        wish_y: 320,
    },
];

/// The spawn on one side of the item.
fn near_spawn() -> MapLine
    ensures added { is_added result ≡ true }
    ensures limits { IsWithinLimits result }
{
    MapLine::Spawn {
        at: at(24_096, 14_000, 6_144),
    }
}

/// The spawn on the other side.
fn far_spawn() -> MapLine
    ensures added { is_added result ≡ true }
    ensures limits { IsWithinLimits result }
{
    MapLine::Spawn {
        at: at(24_096, -14_000, 6_144),
    }
}

/// The item between the spawns.
fn item() -> MapLine
    ensures added { is_added result ≡ true }
    ensures limits { IsWithinLimits result }
{
    MapLine::Item {
        at: at(20_000, -4_096, 0),
        kind: Kind::Ammo,
        delay: 100,
    }
}

/// The arena with the item between the spawns.
fn item_map(alloc: Global) -> Result<ArenaMap, MapRefusal> {
    let mut map = map_of(alloc, &near_spawn(), &far_spawn())?;
    map.add(&item())?;
    Ok(map)
}

/// A place for what a frame gives out.
fn frame_out(alloc: Global) -> Result<FrameOut, Fail> {
    Ok(FrameOut::new(alloc).map_err(|_| "a place for a frame")?)
}

/// The packets of the frame in which both players join and reach for the item.
fn reaching(alloc: Global) -> Result<Vec<Arrival>, Fail> {
    Ok(arrivals_of(alloc, 2, &REACHES).map_err(|_| "packets")?)
}

/// Compares an entry of the player that moved first or second.
fn expect_reach(rt: &impl Abort, entry: &Entry, place: u64, got: &[u16]) {
    assert_eq!(rt; (entry.place, entry.seq), (place, 1));
    let y = if entry.slot == 0 { 11_952 } else { -11_952 };
    assert_eq!(rt; entry.reply.origin, at(24_096, y, 6_144));
    assert_eq!(rt; entry.reply.got.as_slice(), got);
}

/// The first of these entries of two players got the item.
fn expect_first_took(rt: &impl Abort, first: &Entry, second: &Entry) {
    expect_reach(rt, first, 0, &[64]);
    expect_reach(rt, second, 1, &[]);
    assert_eq!(rt; first.slot.wrapping_add(second.slot), 1);
}

/// The first of two entries got the item, and the frame shows both players.
fn expect_one_taker(rt: &impl Abort, out: &FrameOut) -> Result<(), Fail> {
    let [first, second] = out.journal.as_slice() else {
        return Err("two entries".into());
    };
    expect_first_took(rt, first, second);
    assert_eq!(rt; out.slots.as_slice(), [0, 1].as_slice());
    assert_eq!(rt; out.replies.as_slice().len(), 2);
    Ok(())
}

/// A frame that was refused gives nothing out.
fn expect_nothing(rt: &impl Abort, out: &FrameOut) {
    assert!(rt; out.received.joined().is_empty());
    assert!(rt; out.journal.as_slice().is_empty());
    expect_no_replies(rt, out);
}

/// Runs a frame on two workers. Where memory is refused, nothing was done, and the frame is run again.
fn play_at_last(
    rt: &(impl AllocGlobal + Abort + Threads + Wait + Sync),
    server: &mut Server,
    arrivals: &[Arrival],
    out: &mut FrameOut,
) -> Result<(), AllocError> {
    if play_on(
        rt,
        server,
        arrivals,
        2,
        &mut Runners::alone(&ForHelpers),
        out,
    )
    .is_ok()
    {
        return Ok(());
    }
    assert_eq!(rt; server.frames(), 0);
    expect_nothing(rt, out);
    play_on(
        rt,
        server,
        arrivals,
        2,
        &mut Runners::alone(&ForHelpers),
        out,
    )
}

/// Runs the frame of these packets, again where it is refused if `again` is set, and looks at what it gives out.
fn expect_played(
    rt: &(impl AllocGlobal + Abort + Threads + Wait + Sync),
    server: &mut Server,
    arrivals: &[Arrival],
    again: bool,
    out: &mut FrameOut,
) -> Result<(), Fail> {
    if again {
        play_at_last(rt, server, arrivals, out)?;
    } else {
        play_on(
            rt,
            server,
            arrivals,
            2,
            &mut Runners::alone(&ForHelpers),
            out,
        )?;
    }
    expect_one_taker(rt, out)
}

/// Makes the packets, and runs their frame.
fn expect_reached(
    rt: &(impl AllocGlobal + Abort + Threads + Wait + Sync),
    server: &mut Server,
    again: bool,
    out: &mut FrameOut,
) -> Result<(), Fail> {
    let arrivals = reaching(rt.alloc())?;
    expect_played(rt, server, arrivals.as_slice(), again, out)
}

/// Makes a place for the frame, and runs it.
fn expect_frame(
    rt: &(impl AllocGlobal + Abort + Threads + Wait + Sync),
    server: &mut Server,
    again: bool,
) -> Result<(), Fail> {
    let mut out = frame_out(rt.alloc())?;
    expect_reached(rt, server, again, &mut out)
}

/// Where one allocation of the frame is refused, the same frame is played when it is run again.
#[test]
fn a_frame_refused_for_want_of_memory_is_run_again(rt: HostRuntime) -> Result<(), Fail> {
    let action = action_of(rt.alloc(), item_map(rt.alloc()))?;
    let mut server = server_of(rt.alloc(), &action)?;
    expect_frame(&rt, &mut server, true)
}

/// It takes the same memory, and fails where any of it is refused.
#[test]
fn a_frame_with_memory_is_played(rt: HostRuntime) -> Result<(), Fail> {
    let action = action_of(rt.alloc(), item_map(rt.alloc()))?;
    let mut server = server_of(rt.alloc(), &action)?;
    expect_frame(&rt, &mut server, false)
}
