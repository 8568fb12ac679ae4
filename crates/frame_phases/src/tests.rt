ghost use Rattle.std.specs.Prelude.{◌≡◌, ◌≤◌, length, true, IfOk};
ghost use Rattle.arena_actions.specs.MapActions.{IsOfItsMap};
ghost use Rattle.arena_map.specs.MapLines.{IsWithinLimits, is_arena, is_added};

use crate::{FrameOut, Server, run_frame};
use arena_actions::MapAction;
use arena_geo::Vec3;
use arena_map::{ArenaMap, MOST_FRAMES, MapLine, MapRefusal};
use client_ports::Joined;
use entity_recs::{Entry, Kind};
use for_helpers::ForHelpers;
use move_phase::Runners;
use packet_read::{Arrival, ArrivalBytes};
use std::alloc::{AllocGlobal, Global};
use std::process::Abort;
use std::sync::Wait;
use std::test::Fail;
use std::thread::Threads;

const JOIN: [u8; 2] = [1, 1];

const LEAVE: [u8; 2] = [1, 3];

mod crossing;
mod for_helpers;
mod no_memory;
mod one_leaf;
mod oracle;

/// A packet with these bytes.
fn arrival(port: u16, bytes: &[u8]) -> Arrival {
    let mut a = Arrival {
        port,
        bytes: ArrivalBytes::new(),
    };
    for byte in bytes {
        let _fits = a.bytes.push(*byte);
    }
    a
}

/// A move of 50 milliseconds with this number and this wish on y.
fn step(port: u16, seq: u8, wish_y: i16) -> Arrival {
    let [low, high] = wish_y.to_le_bytes();
    arrival(port, &[1, 2, seq, 0, 0, 0, 50, 0, 0, low, high, 0])
}

fn at(x: i32, y: i32, z: i32) -> Vec3
    ensures { result ≡ record { x = x; y = y; z = z } }
{
    Vec3 { x, y, z }
}

/// The arena from (-131072, -131072, 0) to (131072, 131072, 65536).
fn arena() -> MapLine
    ensures arena { is_arena result ≡ true }
    ensures limits { IsWithinLimits result }
{
    MapLine::Arena {
        lo: at(-131_072, -131_072, 0),
        hi: at(131_072, 131_072, 65_536),
    }
}

/// The spawn in the middle of the arena.
fn spawn() -> MapLine
    ensures added { is_added result ≡ true }
    ensures limits { IsWithinLimits result }
{
    MapLine::Spawn {
        at: at(0, 0, 6_144),
    }
}

/// A gem at the spawn, which returns after 2 frames.
fn gem() -> MapLine
    ensures added { is_added result ≡ true }
    ensures limits { IsWithinLimits result }
{
    MapLine::Item {
        at: at(-4_096, -4_096, 0),
        kind: Kind::Gem,
        delay: 2,
    }
}

/// A teleporter over the spawn.
fn teleporter() -> MapLine
    ensures added { is_added result ≡ true }
    ensures limits { IsWithinLimits result }
{
    MapLine::Teleport {
        lo: at(-25_600, -25_600, 0),
        hi: at(25_600, 25_600, 25_600),
        dest: at(-65_536, 65_536, 6_144),
    }
}

/// The arena with these two things.
fn map_of(alloc: Global, one: &MapLine, other: &MapLine) -> Result<ArenaMap, MapRefusal>
    requires one_added { is_added one.now ≡ true }
    requires one_limits { IsWithinLimits one.now }
    requires other_added { is_added other.now ≡ true }
    requires other_limits { IsWithinLimits other.now }
{
    let mut map = ArenaMap::new(alloc, &arena())?;
    map.add(one)?;
    map.add(other)?;
    Ok(map)
}

/// The action of this map.
fn action_of(alloc: Global, map: Result<ArenaMap, MapRefusal>) -> Result<MapAction, Fail>
    ensures { IfOk result IsOfItsMap }
{
    let map = map.map_err(|_| "a server")?;
    Ok(MapAction::indexed(alloc, map).map_err(|_| "a server")?)
}

/// A server of this action's map.
fn server_of(alloc: Global, action: &MapAction) -> Result<Server<'_>, Fail>
    requires { IsOfItsMap action.now }
{
    Ok(Server::new(alloc, action).map_err(|_| "a server")?)
}

/// The action of the arena with these two things.
fn action(alloc: Global, one: &MapLine, other: &MapLine) -> Result<MapAction, Fail>
    requires one_added { is_added one.now ≡ true }
    requires one_limits { IsWithinLimits one.now }
    requires other_added { is_added other.now ≡ true }
    requires other_limits { IsWithinLimits other.now }
    ensures { IfOk result IsOfItsMap }
{
    action_of(alloc, map_of(alloc, one, other))
}

/// Runs one frame more.
fn play(
    rt: &(impl AllocGlobal + Abort + Threads + Wait + Sync),
    server: &mut Server,
    arrivals: &[Arrival],
    out: &mut FrameOut,
) -> Result<(), Fail>
    requires { length arrivals.now ≤ 512 }
{
    assert!(rt; server.frames() < MOST_FRAMES);
    let mut runners = Runners::alone(&ForHelpers);
    run_frame(rt, rt.alloc(), server, arrivals, 1, &mut runners, out)?;
    Ok(())
}

/// Compares an entry of slot 0, the first of its frame.
fn expect_entry(rt: &impl Abort, entry: &Entry, seq: u32, origin: Vec3, got: &[u16]) {
    assert_eq!(rt; (entry.place, entry.slot, entry.seq), (0, 0, seq));
    assert_eq!(rt; entry.reply.origin, origin);
    assert_eq!(rt; entry.reply.got.as_slice(), got);
}

/// Compares the frame's only entry.
fn expect_move(
    rt: &impl Abort,
    out: &FrameOut,
    seq: u32,
    origin: Vec3,
    got: &[u16],
) -> Result<(), Fail> {
    let [entry] = out.journal.as_slice() else {
        return Err("one move".into());
    };
    expect_entry(rt, entry, seq, origin, got);
    Ok(())
}

/// A frame in which a player joins and moves, without a wish.
fn join_and_move(
    rt: &(impl AllocGlobal + Abort + Threads + Wait + Sync),
    server: &mut Server,
    out: &mut FrameOut,
) -> Result<(), Fail> {
    play(rt, server, &[arrival(7, &JOIN), step(7, 1, 0)], out)
}

/// One frame more, in which the player at the spawn moves without a wish. Compares its entry.
fn expect_step(
    rt: &(impl AllocGlobal + Abort + Threads + Wait + Sync),
    server: &mut Server,
    out: &mut FrameOut,
    seq: u8,
    got: &[u16],
) -> Result<(), Fail> {
    play(rt, server, &[step(7, seq, 0)], out)?;
    expect_move(rt, out, u32::from(seq), at(0, 0, 6_144), got)
}

/// Three frames of a player on an item that returns after two.
fn take_twice(
    rt: &(impl AllocGlobal + Abort + Threads + Wait + Sync),
    server: &mut Server,
    out: &mut FrameOut,
) -> Result<(), Fail> {
    join_and_move(rt, server, out)?;
    expect_move(rt, out, 1, at(0, 0, 6_144), &[64])?;
    expect_step(rt, server, out, 2, &[])?;
    expect_step(rt, server, out, 3, &[64])
}

/// The item that a player takes is back after its delay.
fn expect_return(
    rt: &(impl AllocGlobal + Abort + Threads + Wait + Sync),
    server: &mut Server,
) -> Result<(), Fail> {
    let mut out = FrameOut::new(rt.alloc())?;
    take_twice(rt, server, &mut out)
}

#[test]
fn a_taken_item_returns_after_its_delay(rt: HostRuntime) -> Result<(), Fail> {
    let action = action(rt.alloc(), &spawn(), &gem())?;
    let mut server = server_of(rt.alloc(), &action)?;
    expect_return(&rt, &mut server)
}

/// A frame in which a player joins at the teleporter, and is moved to its destination.
fn leap(
    rt: &(impl AllocGlobal + Abort + Threads + Wait + Sync),
    server: &mut Server,
    out: &mut FrameOut,
) -> Result<(), Fail> {
    join_and_move(rt, server, out)?;
    expect_move(rt, out, 1, at(-65_536, 65_536, 6_144), &[])
}

/// A player that moves in the teleporter is at its destination.
fn expect_leap(
    rt: &(impl AllocGlobal + Abort + Threads + Wait + Sync),
    server: &mut Server,
) -> Result<(), Fail> {
    let mut out = FrameOut::new(rt.alloc())?;
    leap(rt, server, &mut out)
}

#[test]
fn a_teleporter_moves_a_player(rt: HostRuntime) -> Result<(), Fail> {
    let action = action(rt.alloc(), &spawn(), &teleporter())?;
    let mut server = server_of(rt.alloc(), &action)?;
    expect_leap(&rt, &mut server)
}

/// The player of slot 0 has joined, and it alone is shown.
fn expect_joined(rt: &impl Abort, out: &FrameOut) {
    let joined = [Joined { port: 7, slot: 0 }];
    assert_eq!(rt; out.received.joined(), joined.as_slice());
    assert_eq!(rt; out.slots.as_slice(), [0].as_slice());
    assert_eq!(rt; out.replies.as_slice().len(), 1);
}

/// A frame in which a player joins and leaves, and is shown.
fn join_and_leave(
    rt: &(impl AllocGlobal + Abort + Threads + Wait + Sync),
    server: &mut Server,
    out: &mut FrameOut,
) -> Result<(), Fail> {
    let arrivals = [arrival(7, &JOIN), arrival(7, &LEAVE)];
    play(rt, server, &arrivals, out)?;
    expect_joined(rt, out);
    Ok(())
}

/// Nobody is shown.
fn expect_no_replies(rt: &impl Abort, out: &FrameOut) {
    assert!(rt; out.slots.as_slice().is_empty());
    assert!(rt; out.replies.as_slice().is_empty());
}

/// A frame in which nobody is there.
fn expect_nobody(
    rt: &(impl AllocGlobal + Abort + Threads + Wait + Sync),
    server: &mut Server,
    out: &mut FrameOut,
) -> Result<(), Fail> {
    play(rt, server, &[], out)?;
    expect_no_replies(rt, out);
    Ok(())
}

/// The frame in which a player joins and leaves, and the next one.
fn shown_once(
    rt: &(impl AllocGlobal + Abort + Threads + Wait + Sync),
    server: &mut Server,
    out: &mut FrameOut,
) -> Result<(), Fail> {
    join_and_leave(rt, server, out)?;
    expect_nobody(rt, server, out)
}

/// A player that joins and leaves in one frame is shown in it, and in no later one.
fn expect_shown_once(
    rt: &(impl AllocGlobal + Abort + Threads + Wait + Sync),
    server: &mut Server,
) -> Result<(), Fail> {
    let mut out = FrameOut::new(rt.alloc())?;
    shown_once(rt, server, &mut out)
}

#[test]
fn a_player_that_leaves_is_shown_once_more(rt: HostRuntime) -> Result<(), Fail> {
    let action = action(rt.alloc(), &spawn(), &gem())?;
    let mut server = server_of(rt.alloc(), &action)?;
    expect_shown_once(&rt, &mut server)
}
