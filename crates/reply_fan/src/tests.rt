ghost use Rattle.std.specs.Prelude.{◌≡◌, ◌<◌, IfOk, vec_len};
ghost use Rattle.std.specs.Bool.{OnTrue};
ghost use Rattle.arena_geo.specs.Vectors.{IsNear};
ghost use Rattle.entity_recs.specs.Records.{IsRecord};
ghost use Rattle.reply_fan.specs.Replies.{AreLive, AreEmpty};

use super::*;
use arena_geo::{Aabb, Vec3};
use entity_recs::{Kind, PLAYER_MAXS, PLAYER_MINS, Rec};
use snapshot_write::{ReplyBuf, write_snapshot};
use std::alloc::{AllocError, AllocGlobal, Global};
use std::process::Abort;
use std::test::Fail;
use std::thread::Threads;
use world_tree::World;

/// The depth of the tree of a world.
const DEPTH: u8 = 4;

/// What the only player sees in frame 1, after three moves along x.
const MOVED: &[u8] =
    b"\x01\x01\0\0\0\0\x66\x26\0\0\0\0\0\0\0\x18\0\0\0\x40\x01\0\0\0\0\0\0\0\0\0\x01\0\0\0\0\0\0\x03\0\0\0\0\0";

/// The slots of 32 players, the last one first, nine times over: so many that four threads write.
const FALLING: &[u8] = &[
    62, 60, 58, 56, 54, 52, 50, 48, 46, 44, 42, 40, 38, 36, 34, 32, 30, 28, 26, 24, 22, 20, 18, 16,
    14, 12, 10, 8, 6, 4, 2, 0, 62, 60, 58, 56, 54, 52, 50, 48, 46, 44, 42, 40, 38, 36, 34, 32, 30,
    28, 26, 24, 22, 20, 18, 16, 14, 12, 10, 8, 6, 4, 2, 0, 62, 60, 58, 56, 54, 52, 50, 48, 46, 44,
    42, 40, 38, 36, 34, 32, 30, 28, 26, 24, 22, 20, 18, 16, 14, 12, 10, 8, 6, 4, 2, 0, 62, 60, 58,
    56, 54, 52, 50, 48, 46, 44, 42, 40, 38, 36, 34, 32, 30, 28, 26, 24, 22, 20, 18, 16, 14, 12, 10,
    8, 6, 4, 2, 0, 62, 60, 58, 56, 54, 52, 50, 48, 46, 44, 42, 40, 38, 36, 34, 32, 30, 28, 26, 24,
    22, 20, 18, 16, 14, 12, 10, 8, 6, 4, 2, 0, 62, 60, 58, 56, 54, 52, 50, 48, 46, 44, 42, 40, 38,
    36, 34, 32, 30, 28, 26, 24, 22, 20, 18, 16, 14, 12, 10, 8, 6, 4, 2, 0, 62, 60, 58, 56, 54, 52,
    50, 48, 46, 44, 42, 40, 38, 36, 34, 32, 30, 28, 26, 24, 22, 20, 18, 16, 14, 12, 10, 8, 6, 4, 2,
    0, 62, 60, 58, 56, 54, 52, 50, 48, 46, 44, 42, 40, 38, 36, 34, 32, 30, 28, 26, 24, 22, 20, 18,
    16, 14, 12, 10, 8, 6, 4, 2, 0, 62, 60, 58, 56, 54, 52, 50, 48, 46, 44, 42, 40, 38, 36, 34, 32,
    30, 28, 26, 24, 22, 20, 18, 16, 14, 12, 10, 8, 6, 4, 2, 0,
];

fn at(x: i32, y: i32, z: i32) -> Vec3
    ensures { result ≡ record { x = x; y = y; z = z } }
{
    Vec3 { x, y, z }
}

/// A player in this slot, which has moved along x.
fn player(id: u16, origin: Vec3) -> Rec
    requires slot { id < 64 }
    requires near { IsNear 1048576 origin }
    ensures { IsRecord result }
{
    Rec {
        id,
        kind: Kind::Player,
        origin,
        mins: PLAYER_MINS,
        maxs: PLAYER_MAXS,
        vel: at(81_920, 0, 0),
        flags: 1,
        ammo: 0,
        carry: 0,
        score: 0,
        seq: 3,
        state: 0,
    }
}

/// An arena without records.
fn arena(alloc: Global) -> Result<World, Fail> {
    let bounds = Aabb::new(at(-131_072, -131_072, 0), at(131_072, 131_072, 65_536)).ok_or("a box")?;
    Ok(World::new(alloc, &bounds, DEPTH, &[])?)
}

/// Puts in a player whose slot is free.
fn join(world: &mut World, r: Rec)
    requires { IsRecord r }
{
    if world.get(r.id).is_none() {
        world.add(r);
    }
}

/// An arena with this many players, in the even slots.
fn crowd(alloc: Global, players: u16) -> Result<World, Fail> {
    let mut world = arena(alloc)?;
    for i in 0..players {
        if i < 32 {
            let x = 2_048 * i32::from(i);
            join(&mut world, player(2 * i, at(x, -x, 6_144)));
        }
    }
    Ok(world)
}

/// This many empty buffers.
fn buffers(alloc: Global, count: usize) -> Result<Vec<ReplyBuf>, AllocError>
    ensures count { IfOk result (λ v. vec_len v ≡ count) }
    ensures empty { IfOk result (λ v. AreEmpty v.items) }
{
    let mut outs = Vec::with_capacity(alloc, count)?;
    for _ in 0..count {
        outs.push(ReplyBuf::new(alloc)?)?;
    }
    Ok(outs)
}

/// Whether each slot is live.
fn are_live(world: &World, slots: &[u8]) -> bool
    ensures { OnTrue result (AreLive world.now.records slots.now) }
{
    for i in 0..slots.len() {
        if world.get(u16::from(slots[i])).is_none() {
            return false;
        }
    }
    true
}

/// The replies to live slots.
fn replies<R: AllocGlobal + Abort + Threads + Sync>(
    rt: &R,
    world: &World,
    frame: u32,
    slots: &[u8],
) -> Result<Vec<ReplyBuf>, Fail> {
    let mut outs = buffers(rt.alloc(), slots.len())?;
    assert!(rt; are_live(world, slots));
    write_replies(rt, world, frame, slots, outs.as_mut_slice());
    Ok(outs)
}

/// Compares a reply of frame 7 with what `write_snapshot` writes for its slot.
fn expect_snapshot(
    rt: &(impl AllocGlobal + Abort),
    world: &World,
    slot: u8,
    out: &ReplyBuf,
) -> Result<(), Fail> {
    let mut alone = ReplyBuf::new(rt.alloc())?;
    assert!(rt; world.get(u16::from(slot)).is_some());
    write_snapshot(world, 7, slot, &mut alone);
    assert_eq!(rt; out.as_slice(), alone.as_slice());
    Ok(())
}

/// Compares the replies to live slots with what `write_snapshot` writes for each.
fn expect_each<R: AllocGlobal + Abort + Threads + Sync>(
    rt: &R,
    world: &World,
    slots: &[u8],
) -> Result<(), Fail> {
    let outs = replies(rt, world, 7, slots)?;
    assert_eq!(rt; outs.len(), slots.len());
    for (slot, out) in slots.iter().zip(outs.as_slice()) {
        expect_snapshot(rt, world, *slot, out)?;
    }
    Ok(())
}

#[test]
fn one_player_gets_its_snapshot(rt: HostRuntime) -> Result<(), Fail> {
    let mut world = arena(rt.alloc())?;
    join(&mut world, player(0, at(9_830, 0, 6_144)));
    let outs = replies(&rt, &world, 1, &[0])?;
    assert_eq!(rt; outs.len(), 1);
    if let Some(out) = outs.as_slice().first() {
        assert_eq!(rt; out.as_slice(), MOVED);
    }
    Ok(())
}

#[test]
fn nothing_is_written_without_a_slot(rt: HostRuntime) -> Result<(), Fail> {
    let world = crowd(rt.alloc(), 3)?;
    let outs = replies(&rt, &world, 1, &[])?;
    assert!(rt; outs.is_empty());
    Ok(())
}

#[test]
fn each_buffer_has_what_is_written_alone(rt: HostRuntime) -> Result<(), Fail> {
    let world = crowd(rt.alloc(), 32)?;
    // By one thread, by four, and by two of which the last writes fewer than the other.
    expect_each(&rt, &world, &[0, 2, 4])?;
    expect_each(&rt, &world, &FALLING[..64])?;
    expect_each(&rt, &world, FALLING)?;
    expect_each(&rt, &world, &FALLING[..133])?;
    // A slot may be asked for twice.
    expect_each(&rt, &world, &[4, 62, 4, 0])
}
