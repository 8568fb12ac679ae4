ghost use Rattle.std.specs.Prelude.{◌≡◌, ◌<◌, ◌≤◌};
ghost use Rattle.arena_geo.specs.Vectors.{IsNear};
ghost use Rattle.entity_recs.specs.declared.limits.TheConstants.{IDS};
ghost use Rattle.entity_recs.specs.Records.{IsRecord};

use arena_geo::{Aabb, Vec3};
use entity_recs::{IDS, ITEM_MAXS, ITEM_MINS, Kind, PLAYER_MAXS, PLAYER_MINS, Rec};
use snapshot_write::{
    REPLY_ROOM, ReplyBuf, Seen, SeenList, SnapFault, read_snapshot, write_snapshot,
};
use std::alloc::AllocGlobal;
use std::process::Abort;
use std::test::Fail;
use world_tree::World;

/// The depth of the tree of a world.
const DEPTH: u8 = 4;

/// What the only player sees, here and at rest, in frame 0: the arena's row of a join.
const ALONE: &[u8] =
    b"\x01\0\0\0\0\0\0\0\0\0\0\0\0\0\0\x18\0\0\0\0\0\0\0\0\0\0\0\0\0\0\0\0\0\0\0\0\0\0\0\0\0\0\0";

/// The same bytes and one more.
const ALONE_AND_A_BYTE: &[u8] =
    b"\x01\0\0\0\0\0\0\0\0\0\0\0\0\0\0\x18\0\0\0\0\0\0\0\0\0\0\0\0\0\0\0\0\0\0\0\0\0\0\0\0\0\0\0\0";

/// The same player in frame 1, after three moves along x.
const MOVED: &[u8] =
    b"\x01\x01\0\0\0\0\x66\x26\0\0\0\0\0\0\0\x18\0\0\0\x40\x01\0\0\0\0\0\0\0\0\0\x01\0\0\0\0\0\0\x03\0\0\0\0\0";

/// The player of `ALONE`, and the one in slot 1 as far from it on x as it sees a player, 266,496 away.
const AT_THE_EDGE: &[u8; 59] =
    b"\x01\0\0\0\0\0\0\0\0\0\0\0\0\0\0\x18\0\0\0\0\0\0\0\0\0\0\0\0\0\0\0\0\0\0\0\0\0\0\0\0\0\x01\0\
\x01\0\0\x01\0\x11\x04\0\0\0\0\0\0\x18\0\0";

/// A player on a lift that has risen, beside an item that was taken and a gem at the edge of its view.
const AMONG_THINGS: &[u8; 91] =
    b"\x01\0\0\0\0\0\0\0\0\0\0\0\0\0\0\x2c\0\0\0\0\0\0\0\0\0\0\0\0\0\0\0\0\0\0\0\0\0\0\0\0\0\x03\0\
\x40\0\x05\x01\0\xce\xff\xff\0\xce\xff\xff\0\x0a\0\0\
\x41\0\x01\0\0\x20\0\0\0\0\0\0\0\x2c\0\0\
\x42\0\x02\x01\0\x0f\x04\0\0\0\0\0\0\x2c\x02\0";

fn at(x: i32, y: i32, z: i32) -> Vec3
    ensures { result ≡ record { x = x; y = y; z = z } }
{
    Vec3 { x, y, z }
}

/// A player in this slot, here and at rest.
fn player(id: u16, origin: Vec3) -> Rec
    requires slot { id < 64 }
    requires near { IsNear 1048576 origin }
    ensures { IsRecord result }
{
    Rec {
        id,
        kind: Kind::Player,
        origin,
        mins: PLAYER_MINS,
        maxs: PLAYER_MAXS,
        vel: Vec3::ZERO,
        flags: 0,
        ammo: 0,
        carry: 0,
        score: 0,
        seq: 0,
        state: 0,
    }
}

/// The player in slot 0 after three moves along x.
fn player_that_moved() -> Rec
    ensures { IsRecord result }
{
    Rec {
        id: 0,
        kind: Kind::Player,
        origin: at(9_830, 0, 6_144),
        mins: PLAYER_MINS,
        maxs: PLAYER_MAXS,
        vel: at(81_920, 0, 0),
        flags: 1,
        ammo: 0,
        carry: 0,
        score: 0,
        seq: 3,
        state: 0,
    }
}

/// Ammunition, which was taken where its state isn't 0.
fn ammo(id: u16, origin: Vec3, state: u64) -> Rec
    requires least { 64 ≤ id }
    requires most { id < IDS }
    requires near { IsNear 1048576 origin }
    ensures { IsRecord result }
{
    Rec {
        id,
        kind: Kind::Ammo,
        origin,
        mins: ITEM_MINS,
        maxs: ITEM_MAXS,
        vel: Vec3::ZERO,
        flags: 0,
        ammo: 0,
        carry: 0,
        score: 0,
        seq: 0,
        state,
    }
}

/// A gem that is there.
fn gem(id: u16, origin: Vec3) -> Rec
    requires least { 64 ≤ id }
    requires most { id < IDS }
    requires near { IsNear 1048576 origin }
    ensures { IsRecord result }
{
    Rec {
        id,
        kind: Kind::Gem,
        origin,
        mins: ITEM_MINS,
        maxs: ITEM_MAXS,
        vel: Vec3::ZERO,
        flags: 0,
        ammo: 0,
        carry: 0,
        score: 0,
        seq: 0,
        state: 0,
    }
}

/// A lift that is 12,800 long on x, 25,600 on y and 2,560 on z.
fn lift(id: u16, origin: Vec3) -> Rec
    requires least { 64 ≤ id }
    requires most { id < IDS }
    requires near { IsNear 524288 origin }
    ensures { IsRecord result }
{
    Rec {
        id,
        kind: Kind::Lift,
        origin,
        mins: Vec3::ZERO,
        maxs: at(12_800, 25_600, 2_560),
        vel: Vec3::ZERO,
        flags: 0,
        ammo: 0,
        carry: 0,
        score: 0,
        seq: 0,
        state: 0,
    }
}

/// A world without records.
fn empty_world(rt: &impl AllocGlobal) -> Result<World, Fail> {
    let bounds = Aabb::new(at(-524_288, -524_288, 0), at(524_288, 524_288, 524_288)).ok_or(
        "a box",
    )?;
    Ok(World::new(rt.alloc(), &bounds, DEPTH, &[])?)
}

/// Puts in a record, in place of the one with its id where there is one.
fn put(world: &mut World, r: Rec)
    requires { IsRecord r }
{
    if world.get(r.id).is_some() {
        world.relink(r);
    } else {
        world.add(r);
    }
}

/// Compares the snapshot of the player in slot 0.
fn expect(
    rt: &(impl AllocGlobal + Abort),
    world: &World,
    frame: u32,
    bytes: &[u8],
) -> Result<(), Fail> {
    let mut reply = ReplyBuf::new(rt.alloc())?;
    assert!(rt; world.get(0).is_some());
    write_snapshot(world, frame, 0, &mut reply);
    assert_eq!(rt; reply.as_slice(), bytes);
    Ok(())
}

/// Puts in a lift, an item that was taken, a gem at the edge of what slot 0 sees, one that is one farther on x, and one
/// that is one farther on z.
fn put_things(world: &mut World) {
    put(world, gem(66, at(265_984, 0, 142_336)));
    put(world, lift(64, at(-12_800, -12_800, 2_560)));
    put(world, ammo(65, at(8_192, 0, 11_264), 7));
    put(world, gem(67, at(265_985, 0, 142_336)));
    put(world, gem(68, at(265_984, 0, 142_337)));
}

#[test]
fn a_snapshot_has_the_player_as_it_is(rt: HostRuntime) -> Result<(), Fail> {
    let mut world = empty_world(&rt)?;
    put(&mut world, player(0, at(0, 0, 6_144)));
    expect(&rt, &world, 0, ALONE)?;
    put(&mut world, player_that_moved());
    expect(&rt, &world, 1, MOVED)
}

/// What a player with ammunition, gems and a score is shown of itself in frame 16,909,060, field by field: version and
/// frame, slot, origin, velocity, flags with ammunition and gems, score, the number of its last move, and no entity.
const LADEN: &[u8] = b"\x01\x04\x03\x02\x01\x05\
\xff\xff\xff\xff\0\x01\0\0\0\x18\0\0\
\0\x30\xf8\xff\0\x40\x01\0\xfe\xff\xff\xff\
\x03\x63\x08\
\x45\x23\x01\0\
\x0d\x0c\x0b\x0a\
\0\0";

/// A player in slot 5 with damage, ammunition, gems and a score.
fn laden_player() -> Rec
    ensures { IsRecord result }
{
    Rec {
        id: 5,
        kind: Kind::Player,
        origin: at(-1, 256, 6_144),
        mins: PLAYER_MINS,
        maxs: PLAYER_MAXS,
        vel: at(-512_000, 81_920, -2),
        flags: 3,
        ammo: 99,
        carry: 8,
        score: 74_565,
        seq: 168_496_141,
        state: 75,
    }
}

/// The same player as it is shown to itself, without its damage.
fn laden_player_without_damage() -> Rec {
    Rec {
        id: 5,
        kind: Kind::Player,
        origin: at(-1, 256, 6_144),
        mins: PLAYER_MINS,
        maxs: PLAYER_MAXS,
        vel: at(-512_000, 81_920, -2),
        flags: 3,
        ammo: 99,
        carry: 8,
        score: 74_565,
        seq: 168_496_141,
        state: 0,
    }
}

#[test]
fn a_player_is_shown_all_that_it_has(rt: HostRuntime) -> Result<(), Fail> {
    let mut world = empty_world(&rt)?;
    put(&mut world, laden_player());
    let mut reply = ReplyBuf::new(rt.alloc())?;
    assert!(rt; world.get(5).is_some());
    write_snapshot(&world, 16_909_060, 5, &mut reply);
    assert_eq!(rt; reply.as_slice(), LADEN);
    Ok(())
}

#[test]
fn a_player_reads_all_that_it_has(rt: HostRuntime) {
    let read = read_snapshot(LADEN);
    assert!(rt; read.is_ok());
    if let Ok(snapshot) = read {
        assert_eq!(rt; snapshot.frame, 16_909_060);
        assert_eq!(rt; snapshot.own, laden_player_without_damage());
        assert_eq!(rt; snapshot.seen.as_slice().len(), 0);
    }
}

#[test]
fn a_snapshot_has_what_its_player_sees(rt: HostRuntime) -> Result<(), Fail> {
    let mut world = empty_world(&rt)?;
    put(&mut world, player_that_moved());
    put(&mut world, player(0, at(0, 0, 11_264)));
    put_things(&mut world);
    expect(&rt, &world, 0, AMONG_THINGS.as_slice())
}

/// Takes out the record with a live id.
fn take_out(rt: &impl Abort, world: &mut World, id: u16) {
    assert!(rt; world.get(id).is_some());
    world.remove(id);
}

#[test]
fn a_snapshot_follows_a_player_that_moves_leaves_and_comes_back(
    rt: HostRuntime,
) -> Result<(), Fail> {
    let mut world = empty_world(&rt)?;
    put(&mut world, player(0, at(0, 0, 6_144)));
    put(&mut world, player(1, at(266_497, 0, 6_144)));
    expect(&rt, &world, 0, ALONE)?;
    put(&mut world, player(1, at(266_496, 0, 6_144)));
    expect(&rt, &world, 0, AT_THE_EDGE.as_slice())?;
    take_out(&rt, &mut world, 1);
    expect(&rt, &world, 0, ALONE)?;
    put(&mut world, player(1, at(266_496, 0, 6_144)));
    expect(&rt, &world, 0, AT_THE_EDGE.as_slice())
}

/// A world with 64 players at one place and 448 items at another.
fn full_world(rt: &impl AllocGlobal) -> Result<World, Fail> {
    let mut world = empty_world(rt)?;
    for id in 0..64 {
        put(&mut world, player(id, at(0, 0, 6_144)));
    }
    for id in 64..IDS as u16 {
        put(&mut world, ammo(id, at(0, 0, 0), 0));
    }
    Ok(world)
}

/// Expects that a buffer is full, and that it takes a byte once it is cleared.
fn expect_full(rt: &impl Abort, reply: &mut ReplyBuf) {
    assert_eq!(rt; reply.as_slice().len(), REPLY_ROOM);
    assert!(rt; !reply.push(0));
    reply.clear();
    assert!(rt; reply.push(7));
    assert_eq!(rt; reply.as_slice(), [7].as_slice());
}

/// Expects that the player in slot 63 sees the 63 other players and each thing.
fn expect_all_seen(rt: &impl Abort, bytes: &[u8]) {
    let read = read_snapshot(bytes);
    assert!(rt; read.is_ok());
    if let Ok(snapshot) = read {
        let seen = snapshot.seen.as_slice();
        assert_eq!(rt; seen.len(), 511);
        for (place, entity) in seen.iter().enumerate() {
            let id = if place < 63 { place } else { place + 1 };
            assert_eq!(rt; usize::from(entity.id), id);
        }
    }
}

#[test]
fn the_longest_snapshot_fits(rt: HostRuntime) -> Result<(), Fail> {
    let mut reply = ReplyBuf::new(rt.alloc())?;
    let world = full_world(&rt)?;
    assert!(rt; world.get(63).is_some());
    write_snapshot(&world, 0, 63, &mut reply);
    expect_all_seen(&rt, reply.as_slice());
    expect_full(&rt, &mut reply);
    Ok(())
}

/// Changes of bytes of [`AMONG_THINGS`], each at its place, and the first fault of what comes of them.
const FAULTS: &[(&[(usize, u8)], SnapFault)] = &[
    // An entity more than there is.
    (&[(41, 4)], SnapFault::Short),
    (&[(0, 2)], SnapFault::Version),
    // Two ids that are one, two that fall, and the player's own.
    (&[(59, 0x40)], SnapFault::Order),
    (&[(59, 0x3f)], SnapFault::Order),
    (&[(43, 0)], SnapFault::Order),
    // Slot, flags, ammunition and gems.
    (&[(5, 70)], SnapFault::Count),
    (&[(30, 4)], SnapFault::Count),
    (&[(31, 101)], SnapFault::Count),
    (&[(32, 9)], SnapFault::Count),
    // The last id, a kind, a status, and the status of a lift.
    (&[(75, 0), (76, 2)], SnapFault::Count),
    (&[(45, 6)], SnapFault::Count),
    (&[(62, 2)], SnapFault::Count),
    (&[(46, 0)], SnapFault::Count),
    // An entity fewer than there are.
    (&[(41, 2)], SnapFault::Long),
    // The rules are asked in this order.
    (&[(0, 2), (41, 4)], SnapFault::Short),
    (&[(0, 2), (43, 0)], SnapFault::Version),
    (&[(30, 4), (43, 0)], SnapFault::Order),
    (&[(30, 4), (41, 2)], SnapFault::Count),
];

/// What the player of [`AMONG_THINGS`] sees.
const THINGS: [Seen; 3] = [
    Seen {
        id: 64,
        kind: Kind::Lift,
        here: true,
        origin: Vec3 {
            x: -12_800,
            y: -12_800,
            z: 2_560,
        },
    },
    Seen {
        id: 65,
        kind: Kind::Ammo,
        here: false,
        origin: Vec3 {
            x: 8_192,
            y: 0,
            z: 11_264,
        },
    },
    Seen {
        id: 66,
        kind: Kind::Gem,
        here: true,
        origin: Vec3 {
            x: 265_984,
            y: 0,
            z: 142_336,
        },
    },
];

/// Reads a snapshot of frame 0, and compares its player and what it sees.
fn expect_read(rt: &impl Abort, bytes: &[u8], own: Rec, seen: &[Seen]) {
    let read = read_snapshot(bytes);
    assert!(rt; read.is_ok());
    if let Ok(snapshot) = read {
        assert_eq!(rt; snapshot.frame, 0);
        assert_eq!(rt; snapshot.own, own);
        assert_eq!(rt; snapshot.seen.as_slice(), seen);
    }
}

#[test]
fn snapshots_are_read(rt: HostRuntime) {
    expect_read(&rt, ALONE, player(0, at(0, 0, 6_144)), &[]);
    let own = player(0, at(0, 0, 11_264));
    expect_read(&rt, AMONG_THINGS.as_slice(), own, THINGS.as_slice());
}

#[test]
fn a_snapshot_has_as_many_bytes_as_it_says(rt: HostRuntime) {
    assert_eq!(rt; read_snapshot(&ALONE[..42]).err(), Some(SnapFault::Short));
    assert_eq!(rt;
        read_snapshot(ALONE_AND_A_BYTE).err(),
        Some(SnapFault::Long)
    );
}

/// Expects that the last entity of a snapshot has this id.
fn expect_last_id(rt: &impl Abort, bytes: &[u8], id: u16) {
    let read = read_snapshot(bytes);
    assert!(rt; read.is_ok());
    if let Ok(snapshot) = read {
        let last = snapshot.seen.as_slice().last();
        assert_eq!(rt; last.map(|entity| entity.id), Some(id));
    }
}

#[test]
fn the_last_id_is_511(rt: HostRuntime) {
    expect_last_id(&rt, &changed(&[(75, 0xff), (76, 1)]), 511);
    let beyond = changed(&[(75, 0), (76, 2)]);
    assert_eq!(rt; read_snapshot(&beyond).err(), Some(SnapFault::Count));
}

/// [`AMONG_THINGS`] with these bytes at their places.
fn changed(changes: &[(usize, u8)]) -> [u8; 91] {
    let mut bytes = *AMONG_THINGS;
    for (i, byte) in changes {
        if let Some(place) = bytes.get_mut(*i) {
            *place = *byte;
        }
    }
    bytes
}

#[test]
fn the_first_fault_is_given(rt: HostRuntime) {
    for (changes, fault) in FAULTS {
        assert_eq!(rt;
            read_snapshot(&changed(changes)).err(),
            Some(*fault),
            "with {changes:?}"
        );
    }
}

#[test]
fn a_list_of_entities_has_an_end(rt: HostRuntime) {
    let mut seen = SeenList::new();
    for entity in THINGS {
        assert!(rt; seen.push(entity));
    }
    assert_eq!(rt; seen.as_slice(), THINGS.as_slice());
}
