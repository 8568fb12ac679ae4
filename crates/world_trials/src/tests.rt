ghost use Rattle.std.specs.Prelude.{◌≡◌, ◌<◌, ◌≤◌, [], IfOk, IsSome};
ghost use Rattle.arena_geo.specs.Vectors.{IsNear};
ghost use Rattle.entity_recs.specs.declared.limits.TheConstants.{IDS};
ghost use Rattle.entity_recs.specs.Records.{IsRecord};
ghost use Rattle.world_tree.specs.Worlds.{record_of, empty_world};

use areanode::{LEAST_DEPTH, MOST_DEPTH};
use arena_geo::{Aabb, Region, Vec3};
use entity_recs::{IDS, ITEM_MAXS, ITEM_MINS, Kind, PLAYER_MAXS, PLAYER_MINS, Rec};
use std::alloc::{AllocError, Global};
use std::marker::Brand;
use std::process::Abort;
use std::sync::ledger::{Blank, Ledger};
use std::test::Fail;
use world_tree::{NearList, Steps, World};

fn at(x: i32, y: i32, z: i32) -> Vec3
    ensures { result ≡ record { x = x; y = y; z = z } }
{
    Vec3 { x, y, z }
}

/// The depth of the trees of the tests where no other is named.
const DEPTH: u8 = 4;

/// A number that is no id.
const NO_ID: u16 = 512;

fn player(id: u16, origin: Vec3) -> Rec
    requires id { id < 64 }
    requires near { IsNear 1048576 origin }
    ensures record { IsRecord result }
    ensures id { result.id ≡ id }
{
    Rec {
        id,
        kind: Kind::Player,
        origin,
        mins: PLAYER_MINS,
        maxs: PLAYER_MAXS,
        vel: at(0, 0, 0),
        flags: 0,
        ammo: 0,
        carry: 0,
        score: 0,
        seq: 0,
        state: 0,
    }
}

fn ammo(id: u16, origin: Vec3) -> Rec
    requires least { 64 ≤ id }
    requires most { id < IDS }
    requires near { IsNear 1048576 origin }
    ensures record { IsRecord result }
    ensures id { result.id ≡ id }
{
    Rec {
        id,
        kind: Kind::Ammo,
        origin,
        mins: ITEM_MINS,
        maxs: ITEM_MAXS,
        vel: at(0, 0, 0),
        flags: 0,
        ammo: 0,
        carry: 0,
        score: 0,
        seq: 0,
        state: 0,
    }
}

/// A lift that is 12,800 long on x, 25,600 on y and 2,560 on z.
fn lift(id: u16, origin: Vec3) -> Rec
    requires least { 64 ≤ id }
    requires most { id < IDS }
    requires near { IsNear 524288 origin }
    ensures record { IsRecord result }
    ensures id { result.id ≡ id }
{
    Rec {
        id,
        kind: Kind::Lift,
        origin,
        mins: at(0, 0, 0),
        maxs: at(12_800, 25_600, 2_560),
        vel: at(0, 0, 0),
        flags: 0,
        ammo: 0,
        carry: 0,
        score: 0,
        seq: 0,
        state: 0,
    }
}

/// The arena of the rows.
fn arena() -> Result<Aabb, &'static str> {
    Aabb::new(at(-131_072, -131_072, 0), at(131_072, 131_072, 65_536)).ok_or("a box")
}

/// Puts in a record whose id isn't live.
fn put(rt: &impl Abort, world: &mut World, r: Rec)
    requires { IsRecord r }
    ensures { world.new.tree ≡ world.old.tree }
{
    assert!(rt; world.get(r.id).is_none());
    world.add(r);
}

/// Expects that the id is live and linked in this list.
fn expect_linked(rt: &impl Abort, world: &World, id: u16, list: u8)
    ensures { IsSome (record_of world.now id) }
{
    assert_eq!(rt; world.list_of(id), Some(list));
    assert!(rt; world.get(id).is_some());
}

/// The ids of the first records in order, and 0 where there is none.
fn ids(list: &NearList) -> [u16; 4] {
    let mut ids = [0; 4];
    for (id, r) in ids.iter_mut().zip(list.as_slice()) {
        *id = r.id;
    }
    ids
}

/// A world in which player 3, on the root's plane, stands on lift 64, item 65 just touches its absolute box, and item 66
/// is 1 farther.
fn filled(rt: &impl Abort, alloc: Global, bounds: &Aabb) -> Result<World, Fail>
    ensures { IfOk result (λ w. w.tree ≡ (empty_world bounds.now DEPTH).tree) }
{
    let mut world = World::new(alloc, bounds, DEPTH, &[player(3, at(0, 0, 8_704))])?;
    put(rt, &mut world, ammo(65, at(8_192, 0, 0)));
    put(rt, &mut world, lift(64, at(-6_400, -12_800, 0)));
    put(rt, &mut world, ammo(66, at(8_193, 0, 0)));
    Ok(world)
}

/// A copy of that world, over the arena of the rows.
fn copied(rt: &impl Abort, alloc: Global) -> Result<World, Fail> {
    let bounds = arena()?;
    let filled = filled(rt, alloc, &bounds)?;
    let mut world = World::new(alloc, &bounds, DEPTH, &[])?;
    world.copy_from(&filled);
    Ok(world)
}

/// The absolute box of player 3.
fn abs_box_of_3() -> Result<Aabb, &'static str> {
    Aabb::new(at(-4_352, -4_352, 2_304), at(4_352, 4_352, 17_152)).ok_or("a box")
}

/// A box as wide as a player from one height to another.
fn column(low: i32, high: i32) -> Result<Aabb, &'static str> {
    Aabb::new(at(-4_096, -4_096, low), at(4_096, 4_096, high)).ok_or("a box")
}

/// The ids that `near` gives for a box.
fn near_ids(world: &World, abs: Aabb, except: u16, alloc: Global) -> Result<[u16; 4], AllocError> {
    let mut list = NearList::new(alloc, IDS)?;
    world.near(&Region::one(abs), except, &mut list);
    Ok(ids(&list))
}

/// The triggers that touch a box, found with a count of looks that is then dropped.
fn touched<L: Ledger>(
    world: &World,
    abs: &Aabb,
    blank: Blank,
    alloc: Global,
) -> Result<NearList, AllocError>
    requires name { blank.name ≡ L.name }
    requires parts { blank.parts ≡ L.parts }
    requires some { 0 < blank.parts }
{
    let mut steps = Steps::<L>::new(blank);
    let mut list = NearList::new(alloc, IDS)?;
    world.touching(abs, &mut list, &mut steps);
    Ok(list)
}

#[test]
fn a_player_on_the_plane_is_linked_at_the_root(rt: HostRuntime) -> Result<(), Fail> {
    let mut world = World::new(rt.alloc(), &arena()?, DEPTH, &[])?;
    put(&rt, &mut world, player(7, at(0, -4_352, 6_144)));
    expect_linked(&rt, &world, 7, 0);
    world.relink(player(7, at(0, -4_353, 6_144)));
    expect_linked(&rt, &world, 7, 2);
    world.remove(7);
    assert_eq!(rt; world.list_of(7), None);
    assert_eq!(rt; world.get(7), None);
    Ok(())
}

/// The ids that are live, of which there are at most two, and 0 where there are fewer.
fn live_pair(world: &World) -> [u16; 2] {
    let ids = world.live_ids();
    [
        ids.first().copied().unwrap_or(0),
        ids.get(1).copied().unwrap_or(0),
    ]
}

/// Expects the player with id 7 at (50,000, 20,000, 6,144), beside ammunition with id 64 in the middle of the arena.
fn expect_moved(rt: &impl Abort, world: &World, alloc: Global) -> Result<(), Fail> {
    let middle = Aabb::new(at(0, 0, 0), at(1, 1, 1)).ok_or("a box")?;
    let east = Aabb::new(at(50_000, 20_000, 0), at(50_001, 20_001, 1)).ok_or("a box")?;
    let abs = Aabb::new(at(45_648, 15_648, -256), at(54_352, 24_352, 14_592)).ok_or("a box")?;
    assert_eq!(rt; world.abs_box(7), Some(abs));
    assert_eq!(rt; live_pair(world), [7, 64]);
    assert_eq!(rt; near_ids(world, middle, NO_ID, alloc)?, [64, 0, 0, 0]);
    assert_eq!(rt; near_ids(world, east, NO_ID, alloc)?, [7, 0, 0, 0]);
    Ok(())
}

/// Expects that the player with id 7 isn't live, and that ammunition with id 64 is in the middle of the arena.
fn expect_gone(rt: &impl Abort, world: &World, alloc: Global) -> Result<(), Fail> {
    let middle = Aabb::new(at(0, 0, 0), at(1, 1, 1)).ok_or("a box")?;
    let east = Aabb::new(at(50_000, 20_000, 0), at(50_001, 20_001, 1)).ok_or("a box")?;
    assert_eq!(rt; world.abs_box(7), None);
    assert_eq!(rt; live_pair(world), [64, 0]);
    assert_eq!(rt; near_ids(world, middle, NO_ID, alloc)?, [64, 0, 0, 0]);
    assert_eq!(rt; near_ids(world, east, NO_ID, alloc)?, [0, 0, 0, 0]);
    Ok(())
}

#[test]
fn queries_follow_a_player_that_moves_leaves_and_comes_back(rt: HostRuntime) -> Result<(), Fail> {
    let mut world = World::new(rt.alloc(), &arena()?, DEPTH, &[])?;
    put(&rt, &mut world, ammo(64, at(0, 0, 0)));
    put(&rt, &mut world, player(7, at(0, 0, 6_144)));
    assert_eq!(rt; live_pair(&world), [7, 64]);
    expect_linked(&rt, &world, 7, 0);
    world.relink(player(7, at(50_000, 20_000, 6_144)));
    expect_moved(&rt, &world, rt.alloc())?;
    expect_linked(&rt, &world, 7, 18);
    world.remove(7);
    expect_gone(&rt, &world, rt.alloc())?;
    put(&rt, &mut world, player(7, at(50_000, 20_000, 6_144)));
    expect_moved(&rt, &world, rt.alloc())?;
    Ok(())
}

#[test]
fn a_copy_is_linked_as_its_original(rt: HostRuntime) -> Result<(), Fail> {
    let bounds = arena()?;
    let world = copied(&rt, rt.alloc())?;
    assert_eq!(rt; world.tree().node_of(&bounds), 0);
    expect_linked(&rt, &world, 3, 0);
    expect_linked(&rt, &world, 64, 0);
    expect_linked(&rt, &world, 65, 31);
    Ok(())
}

/// A world with a tree of this depth, in which ammunition with id 64 is in the middle of the arena and a player with id
/// 7 at (50,000, 20,000, 6,144).
fn of_depth(rt: &impl Abort, alloc: Global, depth: u8) -> Result<World, Fail> {
    if depth < LEAST_DEPTH || depth > MOST_DEPTH {
        return Err("a depth".into());
    }
    let mut world = World::new(alloc, &arena()?, depth, &[])?;
    put(rt, &mut world, ammo(64, at(0, 0, 0)));
    put(rt, &mut world, player(7, at(50_000, 20_000, 6_144)));
    Ok(world)
}

#[test]
fn records_are_linked_and_found_at_each_depth(rt: HostRuntime) -> Result<(), Fail> {
    for (depth, solids, triggers) in [(3, 8, 15), (4, 18, 31), (5, 38, 63)] {
        let world = of_depth(&rt, rt.alloc(), depth)?;
        expect_linked(&rt, &world, 7, solids);
        expect_linked(&rt, &world, 64, triggers);
        expect_moved(&rt, &world, rt.alloc())?;
    }
    Ok(())
}

#[test]
fn near_finds_what_touches_but_one(rt: HostRuntime) -> Result<(), Fail> {
    let abs = abs_box_of_3()?;
    let world = copied(&rt, rt.alloc())?;
    assert_eq!(rt; near_ids(&world, abs, 3, rt.alloc())?, [64, 65, 0, 0]);
    assert_eq!(rt; near_ids(&world, abs, NO_ID, rt.alloc())?, [3, 64, 65, 0]);
    Ok(())
}

#[test]
fn touching_finds_the_trigger_that_touches(rt: HostRuntime) -> Result<(), Fail> {
    let abs = abs_box_of_3()?;
    let world = copied(&rt, rt.alloc())?;
    let list = touched::<Brand>(&world, &abs, Blank::new(1), rt.alloc())?;
    assert_eq!(rt; ids(&list), [65, 0, 0, 0]);
    Ok(())
}

#[test]
fn a_body_on_a_lift_is_free_and_one_in_it_is_not(rt: HostRuntime) -> Result<(), Fail> {
    let body = column(2_560, 16_896)?;
    let lower = column(2_559, 16_895)?;
    let world = copied(&rt, rt.alloc())?;
    assert!(rt; world.free(&body, &[], 3));
    assert!(rt; !world.free(&body, &[], 64));
    assert!(rt; !world.free(&lower, &[], 3));
    assert!(rt; !world.free(&body, &[lower], 3));
    Ok(())
}

#[test]
fn a_world_has_room_for_every_id(rt: HostRuntime) -> Result<(), Fail> {
    let bounds = arena()?;
    let mut world = World::new(rt.alloc(), &bounds, DEPTH, &[])?;
    for id in 0..64 {
        put(&rt, &mut world, player(id, at(0, 0, 6_144)));
    }
    for id in 64..NO_ID {
        put(&rt, &mut world, ammo(id, at(0, 0, 0)));
    }
    let mut all = NearList::new(rt.alloc(), IDS)?;
    world.near(&Region::one(bounds), NO_ID, &mut all);
    assert_eq!(rt; all.as_slice().len(), 512);
    Ok(())
}

#[test]
fn a_world_begins_with_all_its_records(rt: HostRuntime) -> Result<(), Fail> {
    let bounds = arena()?;
    let start = [
        player(3, at(0, 0, 8_704)),
        ammo(511, at(8_192, 0, 0)),
        player(63, at(20_000, 0, 8_704)),
    ];
    let world = World::new(rt.alloc(), &bounds, DEPTH, &start)?;
    assert!(rt; world.get(3).is_some());
    assert!(rt; world.get(63).is_some());
    assert!(rt; world.get(511).is_some());
    Ok(())
}
