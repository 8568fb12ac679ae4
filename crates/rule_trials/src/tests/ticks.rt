ghost use Rattle.std.specs.Prelude.{◌≡◌, ◌<◌, IfOk, true};
ghost use Rattle.arena_geo.specs.Vectors.{IsNear};
ghost use Rattle.arena_map.specs.MapLines.{IsWithinLimits, is_added, is_arena};
ghost use Rattle.arena_map.specs.Validity.{IsValidWorld};
ghost use Rattle.entity_recs.specs.Records.{with_state};
ghost use Rattle.arena_map.specs.Things.{thing_at_rest};
ghost use Rattle.entity_recs.specs.declared.kind.Kind.TheVariants.{Player};

use arena_geo::Vec3;
use arena_map::{ArenaMap, MapLine, MapRefusal};
use entity_recs::{Kind, PLAYER_MAXS, PLAYER_MINS, Rec, player_box};
use std::alloc::{AllocError, Global};
use std::process::Abort;
use std::test::Fail;
use world_physics::tick;
use world_tree::World;

/// A place, in sub-units.
type Point = (i16, i16, i16);

/// A line of a map, with numbers that are within all limits.
#[derive(Clone, Copy)]
enum Line {
    /// A block between two corners.
    Block(Point, Point),
    /// An item, which returns so many frames after it was taken.
    Item(Point, u16),
    /// A lift between two corners, how far it rises, and how far it moves in a frame.
    Lift(Point, Point, u16, u16),
}

/// The place of a point.
fn at(point: Point) -> Vec3
    ensures { IsNear 1048576 result }
{
    let (x, y, z) = point;
    Vec3 {
        x: i32::from(x),
        y: i32::from(y),
        z: i32::from(z),
    }
}

/// The line of a map.
fn map_line(line: Line) -> MapLine
    ensures limits { IsWithinLimits result }
    ensures added { is_added result ≡ true }
{
    match line {
        Line::Block(lo, hi) => MapLine::Block {
            lo: at(lo),
            hi: at(hi),
        },
        Line::Item(place, delay) => MapLine::Item {
            at: at(place),
            kind: Kind::Ammo,
            delay: delay.max(1),
        },
        Line::Lift(lo, hi, rise, speed) => MapLine::Lift {
            lo: at(lo),
            hi: at(hi),
            rise: i32::from(rise.max(1)),
            speed: i32::from(speed.clamp(1, 2_560)),
        },
    }
}

/// The arena of all rows.
fn arena() -> MapLine
    ensures arena { is_arena result ≡ true }
    ensures limits { IsWithinLimits result }
{
    MapLine::Arena {
        lo: Vec3 {
            x: -131_072,
            y: -131_072,
            z: 0,
        },
        hi: Vec3 {
            x: 131_072,
            y: 131_072,
            z: 65_536,
        },
    }
}

/// The map of the arena with these lines.
fn map_of(alloc: Global, lines: &[Line]) -> Result<ArenaMap, MapRefusal> {
    let mut map = ArenaMap::new(alloc, &arena())?;
    for line in lines {
        map.add(&map_line(*line))?;
    }
    Ok(map)
}

/// The world in which only the things of the map are live.
fn opening(alloc: Global, map: &ArenaMap) -> Result<World, AllocError>
    ensures { IfOk result (λ w. IsValidWorld map.now w.records) }
{
    World::new(alloc, map.bounds(), map.depth(), map.entities())
}

/// A player at rest in a slot.
fn player(slot: u16, origin: Vec3) -> Rec
    ensures { result ≡ thing_at_rest slot Player origin PLAYER_MINS PLAYER_MAXS }
{
    Rec {
        id: slot,
        kind: Kind::Player,
        origin,
        mins: PLAYER_MINS,
        maxs: PLAYER_MAXS,
        vel: Vec3::ZERO,
        flags: 0,
        ammo: 0,
        carry: 0,
        score: 0,
        seq: 0,
        state: 0,
    }
}

/// Puts a player into a slot, if nobody is there and it would be inside the arena.
fn join(map: &ArenaMap, world: &mut World, slot: u16, origin: Vec3)
    requires valid { IsValidWorld map.now world.old.records }
    requires slot { slot < 64 }
    requires near { IsNear 1048576 origin }
    ensures { IsValidWorld map.now world.new.records }
{
    if world.get(slot).is_none() {
        if map.bounds().contains(&player_box(origin)) {
            world.add(player(slot, origin));
        }
    }
}

/// Puts players with these origins into the first slots.
fn join_all(map: &ArenaMap, world: &mut World, origins: &[Point])
    requires { IsValidWorld map.now world.old.records }
    ensures { IsValidWorld map.now world.new.records }
{
    for slot in 0..64u16 {
        if let Some(origin) = origins.get(usize::from(slot)).copied() {
            join(map, world, slot, at(origin));
        }
    }
}

/// The ticks of these frames.
fn run(map: &ArenaMap, world: &mut World, from: u32, to: u32)
    requires { IsValidWorld map.now world.old.records }
    ensures { IsValidWorld map.now world.new.records }
{
    for frame in from..to {
        tick(map, world, frame);
    }
}

/// The z of a live record, and -1 where there is none.
fn z_of(world: &World, id: u16) -> i32 {
    match world.get(id) {
        Some(r) => r.origin.z,
        None => -1,
    }
}

/// One row: the lines of the map, the players' origins, in how many frames the lifts move alone before the players
/// join, the number of all frames, and the z of slots 0 and 1 and of the first two things after them.
#[derive(Clone, Copy)]
struct Row {
    lines: &'static [Line],
    players: &'static [Point],
    alone: u32,
    frames: u32,
    places: [i32; 4],
}

/// The world of a map after the frames of a row.
fn played(alloc: Global, map: &ArenaMap, row: &Row) -> Result<World, AllocError> {
    let mut world = opening(alloc, map)?;
    run(map, &mut world, 0, row.alone);
    join_all(map, &mut world, row.players);
    run(map, &mut world, row.alone, row.frames);
    Ok(world)
}

/// The z of slots 0 and 1 and of the first two things after the frames of a row.
fn places(alloc: Global, row: &Row) -> Result<[i32; 4], Fail> {
    let map = map_of(alloc, row.lines).map_err(|_| "a map")?;
    let world = played(alloc, &map, row)?;
    Ok([
        z_of(&world, 0),
        z_of(&world, 1),
        z_of(&world, 64),
        z_of(&world, 65),
    ])
}

/// A lift that rises ten times as high as it is, in ten frames.
const LIFT: Line = Line::Lift((-12_800, -12_800, 0), (0, 12_800, 2_560), 25_600, 2_560);

const ROWS: [Row; 8] = [
    // A block is above the rider: the lift has risen in frame 0, and then tries in vain.
    Row {
        lines: &[
            LIFT,
            Line::Block((0, -12_800, 20_000), (12_800, 12_800, 30_000)),
        ],
        players: &[(0, 0, 11_264)],
        alone: 1,
        frames: 3,
        places: [11_264, -1, 2_560, -1],
    },
    // The last step up is the rest of the rise, after which the lift falls, and then rises again.
    Row {
        lines: &[Line::Lift((-12_800, -12_800, 0), (0, 12_800, 2_560), 5_000, 2_560)],
        players: &[(-6_400, 0, 8_704)],
        alone: 0,
        frames: 2,
        places: [13_704, -1, 5_000, -1],
    },
    Row {
        lines: &[Line::Lift((-12_800, -12_800, 0), (0, 12_800, 2_560), 5_000, 2_560)],
        players: &[(-6_400, 0, 8_704)],
        alone: 0,
        frames: 3,
        places: [11_144, -1, 2_440, -1],
    },
    Row {
        lines: &[Line::Lift((-12_800, -12_800, 0), (0, 12_800, 2_560), 5_000, 2_560)],
        players: &[(-6_400, 0, 8_704)],
        alone: 0,
        frames: 5,
        places: [11_264, -1, 2_560, -1],
    },
    // A rider over two level lifts: both rise, the first with it, and then neither falls.
    Row {
        lines: &[
            Line::Lift((-12_800, -12_800, 0), (0, 12_800, 2_560), 2_560, 2_560),
            Line::Lift((0, -12_800, 0), (12_800, 12_800, 2_560), 2_560, 2_560),
        ],
        players: &[(0, 0, 8_704)],
        alone: 0,
        frames: 4,
        places: [11_264, -1, 2_560, 2_560],
    },
    // A player that stands on a rider isn't carried, and so presses it.
    Row {
        lines: &[LIFT],
        players: &[(-6_400, 0, 8_704), (-6_400, 0, 23_040)],
        alone: 0,
        frames: 1,
        places: [8_704, 23_040, 0, -1],
    },
    // A lift that would rise into a player's body carries it.
    Row {
        lines: &[LIFT],
        players: &[(-6_400, 0, 9_704)],
        alone: 0,
        frames: 1,
        places: [12_264, -1, 2_560, -1],
    },
    // A falling lift stops above a player on the floor.
    Row {
        lines: &[Line::Lift(
            (-12_800, -12_800, 10_000),
            (0, 12_800, 12_560),
            10_240,
            2_560,
        )],
        players: &[(-6_400, 0, 6_144)],
        alone: 4,
        frames: 8,
        places: [6_144, -1, 15_120, -1],
    },
];

#[test]
fn lifts_carry_their_riders_or_stand_still(rt: HostRuntime) -> Result<(), Fail> {
    for row in &ROWS {
        assert_eq!(rt; places(rt.alloc(), row)?, row.places);
    }
    Ok(())
}

/// Takes the item with this id, which returns in the frame.
fn take(map: &ArenaMap, world: &mut World, id: u16, frame: u64)
    requires { IsValidWorld map.now world.old.records }
    ensures { IsValidWorld map.now world.new.records }
{
    if let Some(r) = world.get(id) {
        if r.kind.is_item() {
            world.relink(in_state(&r, frame));
        }
    }
}

/// A record in another state.
fn in_state(r: &Rec, state: u64) -> Rec
    ensures { result ≡ with_state r.now state }
{
    Rec { state, ..*r }
}

/// The world of a map in which its first two things, if they are items, are taken: they return in frames 4 and 5.
fn two_items_taken(alloc: Global, map: &ArenaMap) -> Result<World, AllocError>
    ensures { IfOk result (λ w. IsValidWorld map.now w.records) }
{
    let mut world = opening(alloc, map)?;
    take(map, &mut world, 64, 4);
    take(map, &mut world, 65, 5);
    Ok(world)
}

/// Expects these states of the first three things after the tick of a frame.
fn expect_states(rt: &impl Abort, map: &ArenaMap, world: &mut World, frame: u32, want: [u64; 3])
    requires { IsValidWorld map.now world.old.records }
    ensures { IsValidWorld map.now world.new.records }
{
    tick(map, world, frame);
    assert_eq!(rt; states(world), want);
}

#[test]
fn items_return_at_their_frame(rt: HostRuntime) -> Result<(), Fail> {
    let lines = [
        Line::Item((0, 0, 0), 3),
        Line::Item((20_000, 0, 0), 4),
        Line::Item((0, 20_000, 0), 9),
    ];
    let map = map_of(rt.alloc(), &lines).map_err(|_| "a map")?;
    let mut world = two_items_taken(rt.alloc(), &map)?;
    expect_states(&rt, &map, &mut world, 3, [4, 5, 0]);
    expect_states(&rt, &map, &mut world, 4, [0, 5, 0]);
    expect_states(&rt, &map, &mut world, 6, [0, 0, 0]);
    Ok(())
}

/// The states of the first three things.
fn states(world: &World) -> [u64; 3] {
    [
        state_of(world, 64),
        state_of(world, 65),
        state_of(world, 66),
    ]
}

/// The state of a live record, and 99 where there is none.
fn state_of(world: &World, id: u16) -> u64 {
    match world.get(id) {
        Some(r) => r.state,
        None => 99,
    }
}
