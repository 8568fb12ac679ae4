ghost use Rattle.std.specs.Prelude.{◌≡◌, true};
ghost use Rattle.arena_map.specs.MapLines.{IsWithinLimits, is_added};

use super::{ARENA, begun, read, rule_of};
use arena_geo::{Aabb, Vec3};
use arena_map::{ArenaMap, Lift, MapFault, MapLine, MapRefusal, print_map_line};
use edge_io::LineBuf;
use entity_recs::{ITEM_MAXS, ITEM_MINS, Kind, Rec};
use std::alloc::Global;
use std::process::Abort;
use std::test::Fail;

fn at(x: i32, y: i32, z: i32) -> Vec3
    ensures { result ≡ record { x = x; y = y; z = z } }
{
    Vec3 { x, y, z }
}

/// Adds each line to a map, and compares the rule that it breaks.
fn expect(rt: &impl Abort, map: &mut ArenaMap, rows: &[(&[u8], u8)]) -> Result<(), Fail> {
    for (place, (text, want)) in rows.iter().enumerate() {
        let rule = rule_of(map, text)?;
        assert_eq!(rt; rule, *want, "row {place}");
    }
    Ok(())
}

/// A thing at the start.
fn thing(id: u16, kind: Kind, origin: Vec3, mins: Vec3, maxs: Vec3) -> Rec {
    Rec {
        id,
        kind,
        origin,
        mins,
        maxs,
        vel: Vec3::ZERO,
        flags: 0,
        ammo: 0,
        carry: 0,
        score: 0,
        seq: 0,
        state: 0,
    }
}

/// Lines of two blocks and two spawns, which break no rule.
const TWO_BLOCKS: &[(&[u8], u8)] = &[
    (b"block 5120 -12800 0 12800 12800 4608", 0),
    (b"block -131072 0 0 131072 131072 65536", 0),
    (b"spawn 0 0 6144", 0),
    (b"spawn 5120 0 6144", 0),
];

/// The map of two blocks and two spawns.
fn two_blocks(rt: &impl Abort, alloc: Global) -> Result<ArenaMap, Fail> {
    let mut map = begun(alloc, ARENA)?;
    assert!(rt; !map.ready());
    expect(rt, &mut map, TWO_BLOCKS)?;
    assert!(rt; map.ready());
    Ok(map)
}

/// Expects the solid at this place between these corners.
fn expect_solid(rt: &impl Abort, map: &ArenaMap, place: usize, lo: Vec3, hi: Vec3) {
    assert_eq!(rt; map.solids().get(place).copied(), Aabb::new(lo, hi));
}

#[test]
fn walls_come_first_and_then_blocks_in_line_order(rt: HostRuntime) -> Result<(), Fail> {
    let low = at(-147_456, -147_456, -16_384);
    let high = at(-131_072, 147_456, 81_920);
    let map = two_blocks(&rt, rt.alloc())?;
    assert_eq!(rt; map.solids().len(), 8);
    expect_solid(&rt, &map, 0, low, high);
    expect_solid(
        &rt,
        &map,
        6,
        at(5_120, -12_800, 0),
        at(12_800, 12_800, 4_608),
    );
    expect_solid(
        &rt,
        &map,
        7,
        at(-131_072, 0, 0),
        at(131_072, 131_072, 65_536),
    );
    Ok(())
}

#[test]
fn spawns_are_in_line_order_and_bounds_are_those_of_the_arena(rt: HostRuntime) -> Result<(), Fail> {
    let bounds = Aabb::new(at(-131_072, -131_072, 0), at(131_072, 131_072, 65_536));
    let map = two_blocks(&rt, rt.alloc())?;
    assert_eq!(rt; map.spawns().get(1).copied(), Some(at(5_120, 0, 6_144)));
    assert_eq!(rt; Some(*map.bounds()), bounds);
    Ok(())
}

/// Lines of an item, a teleporter, a goal and a lift, which break no rule.
const THINGS: &[(&[u8], u8)] = &[
    (b"item 20000 -4096 0 ammo 100", 0),
    (
        b"teleport -25600 -25600 0 25600 25600 25600 -65536 65536 6144",
        0,
    ),
    (b"goal -16384 -16384 0 16384 16384 25600", 0),
    (b"lift -12800 -12800 0 0 12800 2560 25600 2560", 0),
];

/// The records of [`THINGS`].
fn things() -> [Rec; 4] {
    [
        thing(64, Kind::Ammo, at(20_000, -4_096, 0), ITEM_MINS, ITEM_MAXS),
        thing(
            65,
            Kind::Teleporter,
            at(-25_600, -25_600, 0),
            Vec3::ZERO,
            at(51_200, 51_200, 25_600),
        ),
        thing(
            66,
            Kind::Goal,
            at(-16_384, -16_384, 0),
            Vec3::ZERO,
            at(32_768, 32_768, 25_600),
        ),
        thing(
            67,
            Kind::Lift,
            at(-12_800, -12_800, 0),
            Vec3::ZERO,
            at(12_800, 25_600, 2_560),
        ),
    ]
}

/// Expects that 64 alone has a delay, 65 alone a destination, and that 67 alone is a lift.
fn expect_extras(rt: &impl Abort, map: &ArenaMap, id: u16) {
    let delay = if id == 64 { Some(100) } else { None };
    let dest = if id == 65 {
        Some(at(-65_536, 65_536, 6_144))
    } else {
        None
    };
    let lift = if id == 67 {
        Some(Lift {
            low: 0,
            rise: 25_600,
            speed: 2_560,
        })
    } else {
        None
    };
    assert_eq!(rt; map.delay_of(id), delay);
    assert_eq!(rt; map.dest_of(id), dest);
    assert_eq!(rt; map.lift_of(id), lift);
}

#[test]
fn things_have_ids_from_64_in_line_order(rt: HostRuntime) -> Result<(), Fail> {
    let mut map = begun(rt.alloc(), ARENA)?;
    expect(&rt, &mut map, THINGS)?;
    assert_eq!(rt; map.entities(), things().as_slice());
    for id in 63..69 {
        expect_extras(&rt, &map, id);
    }
    Ok(())
}

#[test]
fn a_narrow_arena_is_no_map(rt: HostRuntime) -> Result<(), Fail> {
    let line = read(b"arena 0 0 0 32767 32768 32768").map_err(|_| "a line")?;
    let MapLine::Arena { .. } = line else {
        return Err("an arena".into());
    };
    match ArenaMap::new(rt.alloc(), &line) {
        Ok(_) => assert!(rt; false),
        Err(why) => assert_eq!(rt; why, MapRefusal::Rule(MapFault::Arena)),
    }
    Ok(())
}

#[test]
fn a_bad_arena_is_rule_1_and_a_missing_spawn_rule_7(rt: HostRuntime) {
    assert_eq!(rt; MapFault::Arena.number(), 1);
    assert_eq!(rt; MapFault::NoSpawn.number(), 7);
}

/// Lines of one map, in their order, each with the first rule that it breaks: 0 for none.
const BROKEN_RULES: &[(&[u8], u8)] = &[
    (b"block 0 0 0 0 10 10", 2),
    (b"goal 0 0 0 10 10 65537", 2),
    (b"teleport 0 0 0 10 10 10 0 0 6143", 4),
    (b"teleport 0 0 0 10 10 0 0 0 6143", 2),
    (b"spawn 0 0 6143", 4),
    (b"item 0 0 51200 gem 1", 0),
    (b"item 0 0 51201 gem 1", 5),
    (b"lift 0 0 0 10000 10000 100 70000 10", 6),
    (b"lift 0 0 0 10000 10000 100 65436 10", 0),
    (b"lift 9999 0 0 20000 10000 100 70000 10", 6),
    (b"block 9999 0 60000 20000 10000 65536", 8),
    (b"block 10000 0 60000 20000 10000 65536", 0),
    (b"lift -10000 0 0 1 10000 100 1 10", 8),
    (b"lift 10000 0 0 20000 10000 59999 2 10", 8),
];

#[test]
fn the_first_broken_rule_is_the_answer(rt: HostRuntime) -> Result<(), Fail> {
    let mut map = begun(rt.alloc(), ARENA)?;
    expect(&rt, &mut map, BROKEN_RULES)?;
    assert_eq!(rt; map.entities().len(), 2);
    Ok(())
}

/// A lift, and blocks beside and above it: the last is 1 too low.
const SHAFT: &[(&[u8], u8)] = &[
    (b"lift -12800 -12800 0 0 12800 2560 25600 2560", 0),
    (b"block 0 -12800 20000 12800 12800 30000", 0),
    (b"block -12800 -12800 28160 0 12800 30000", 0),
    (b"block -12800 -12800 28159 0 12800 30000", 8),
];

#[test]
fn a_lift_may_touch_a_block_on_its_way(rt: HostRuntime) -> Result<(), Fail> {
    let mut map = begun(rt.alloc(), ARENA)?;
    expect(&rt, &mut map, SHAFT)
}

/// Expects that a map takes a line so many times, and that the limit is the first rule that one line more breaks.
fn expect_limit(rt: &impl Abort, map: &mut ArenaMap, line: &[u8], over: &[u8], most: u16) {
    for _ in 0..most {
        assert_eq!(rt; rule_of(map, line), Ok(0));
    }
    assert_eq!(rt; rule_of(map, over), Ok(3));
}

/// A line of each kind, the line that is one too many, which may break a later rule too, and the limit.
const LIMITS: &[(&[u8], &[u8], u16)] = &[
    (b"spawn 0 0 6144", b"spawn 0 0 6143", 64),
    (b"item 0 0 0 gem 1", b"item 0 0 60000 gem 1", 400),
    (
        b"teleport 0 0 0 1 1 1 0 0 6144",
        b"teleport 0 0 0 1 1 1 0 0 0",
        16,
    ),
    (b"goal 0 0 0 1 1 1", b"goal 0 0 0 1 1 1", 16),
    (b"block 0 0 0 1 1 1", b"block 0 0 0 1 1 1", 1_024),
    (b"depth 3", b"depth 3", 1),
    (b"shots", b"shots", 1),
];

#[test]
fn each_kind_has_its_limit(rt: HostRuntime) -> Result<(), Fail> {
    let mut map = begun(rt.alloc(), ARENA)?;
    for (line, over, most) in LIMITS {
        expect_limit(&rt, &mut map, line, over, *most);
    }
    assert_eq!(rt; map.entities().last().map(|thing| thing.id), Some(495));
    Ok(())
}

/// A small block.
const SMALL: &[u8] = b"block 0 0 0 1 1 1";

/// Lines on how many blocks there may be, of which the second is one too many, whatever it says.
const MORE_BLOCKS: &[(&[u8], u8)] = &[
    (b"blocks 1025", 0),
    (b"blocks 1025", 3),
    (b"blocks 4096", 3),
];

#[test]
fn a_line_allows_more_blocks(rt: HostRuntime) -> Result<(), Fail> {
    let mut map = begun(rt.alloc(), ARENA)?;
    assert_eq!(rt; map.most_blocks(), 1_024);
    expect(&rt, &mut map, MORE_BLOCKS)?;
    assert_eq!(rt; map.most_blocks(), 1_025);
    expect_limit(&rt, &mut map, SMALL, SMALL, 1_025);
    assert_eq!(rt; map.solids().len(), 1_031);
    Ok(())
}

#[test]
fn a_map_has_at_most_4096_blocks(rt: HostRuntime) -> Result<(), Fail> {
    let mut map = begun(rt.alloc(), ARENA)?;
    assert_eq!(rt; rule_of(&mut map, b"blocks 4096"), Ok(0));
    expect_limit(&rt, &mut map, SMALL, SMALL, 4_096);
    Ok(())
}

/// A line on how many blocks there may be comes after a block, and is refused whatever it says.
const LATE: &[(&[u8], u8)] = &[(SMALL, 0), (b"blocks 1024", 3), (b"blocks 4096", 3)];

#[test]
fn no_line_allows_more_blocks_after_a_block(rt: HostRuntime) -> Result<(), Fail> {
    let mut map = begun(rt.alloc(), ARENA)?;
    expect(&rt, &mut map, LATE)?;
    assert_eq!(rt; map.most_blocks(), 1_024);
    expect_limit(&rt, &mut map, SMALL, SMALL, 1_023);
    Ok(())
}

/// A small lift, beside the others.
fn lift_beside(place: u8) -> MapLine
    ensures added { is_added result ≡ true }
    ensures limits { IsWithinLimits result }
{
    let x = i32::from(place);
    MapLine::Lift {
        lo: at(x, 0, 0),
        hi: at(x + 1, 1, 1),
        rise: 1,
        speed: 1,
    }
}

#[test]
fn a_map_has_at_most_16_lifts(rt: HostRuntime) -> Result<(), Fail> {
    let mut map = begun(rt.alloc(), ARENA)?;
    for place in 0..16 {
        assert_eq!(rt; map.add(&lift_beside(place)), Ok(()));
    }
    assert_eq!(rt; rule_of(&mut map, b"lift 0 0 0 1 1 1 1048576 1"), Ok(3));
    Ok(())
}

/// Adds as many items, teleporters and goals as a map may have.
fn add_things(rt: &impl Abort, map: &mut ArenaMap) {
    for _ in 0..400 {
        assert_eq!(rt; rule_of(map, b"item 0 0 0 gem 7"), Ok(0));
    }
    for _ in 0..16 {
        assert_eq!(rt; rule_of(map, b"teleport 0 0 0 1 1 1 1 2 6144"), Ok(0));
    }
    for _ in 0..16 {
        assert_eq!(rt; rule_of(map, b"goal 0 0 0 1 1 1"), Ok(0));
    }
}

/// A map with as many things of each kind as there may be.
fn full_map(rt: &impl Abort, alloc: Global) -> Result<ArenaMap, Fail> {
    let mut map = begun(alloc, ARENA)?;
    add_things(rt, &mut map);
    for place in 0..16 {
        assert_eq!(rt; map.add(&lift_beside(place)), Ok(()));
    }
    Ok(map)
}

#[test]
fn a_full_map_has_the_ids_from_64_to_511(rt: HostRuntime) -> Result<(), Fail> {
    let map = full_map(&rt, rt.alloc())?;
    assert_eq!(rt; map.entities().len(), 448);
    assert_eq!(rt; map.entities().first().map(|thing| thing.id), Some(64));
    assert_eq!(rt; map.entities().last().map(|thing| thing.id), Some(511));
    Ok(())
}

#[test]
fn each_kind_has_its_last_id(rt: HostRuntime) -> Result<(), Fail> {
    let map = full_map(&rt, rt.alloc())?;
    let (item, goal) = (map.delay_of(463), map.delay_of(464));
    assert_eq!(rt; (item, goal), (Some(7), None));
    let (teleporter, goal) = (map.dest_of(479), map.dest_of(480));
    assert_eq!(rt; (teleporter, goal), (Some(at(1, 2, 6_144)), None));
    let (goal, first) = (map.lift_of(495), map.lift_of(496));
    assert_eq!(rt; (goal.is_some(), first.is_some()), (false, true));
    assert!(rt; map.lift_of(511).is_some());
    assert!(rt; map.lift_of(512).is_none());
    Ok(())
}

/// Lines of the settings, of which the second of each kind is one too many, whatever it says.
const SETTINGS: &[(&[u8], u8)] = &[
    (b"depth 5", 0),
    (b"depth 4", 3),
    (b"depth 5", 3),
    (b"shots", 0),
    (b"shots", 3),
];

#[test]
fn a_map_has_its_settings(rt: HostRuntime) -> Result<(), Fail> {
    let mut map = begun(rt.alloc(), ARENA)?;
    assert_eq!(rt; (map.depth(), map.shots()), (4, false));
    expect(&rt, &mut map, SETTINGS)?;
    assert_eq!(rt; (map.depth(), map.shots()), (5, true));
    Ok(())
}

/// Lines of an item, of blocks and of a goal around that of shots, which break no rule.
const AROUND_SHOTS: &[(&[u8], u8)] = &[
    (b"item 20000 -4096 0 ammo 100", 0),
    (b"block 5120 -12800 0 12800 12800 4608", 0),
    (b"shots", 0),
    (b"block -131072 0 0 131072 131072 65536", 0),
    (b"goal -16384 -16384 0 16384 16384 25600", 0),
    (b"spawn 0 0 6144", 0),
];

/// The records of [`AROUND_SHOTS`].
fn things_around_shots() -> [Rec; 2] {
    [
        thing(64, Kind::Ammo, at(20_000, -4_096, 0), ITEM_MINS, ITEM_MAXS),
        thing(
            65,
            Kind::Goal,
            at(-16_384, -16_384, 0),
            Vec3::ZERO,
            at(32_768, 32_768, 25_600),
        ),
    ]
}

#[test]
fn shots_change_nothing_that_other_lines_gave(rt: HostRuntime) -> Result<(), Fail> {
    let mut map = begun(rt.alloc(), ARENA)?;
    expect(&rt, &mut map, AROUND_SHOTS)?;
    assert_eq!(rt; (map.depth(), map.shots()), (4, true));
    assert_eq!(rt; map.entities(), things_around_shots().as_slice());
    assert_eq!(rt; map.delay_of(64), Some(100));
    assert_eq!(rt; map.spawns().len(), 1);
    assert_eq!(rt; map.solids().len(), 8);
    let low = at(5_120, -12_800, 0);
    expect_solid(&rt, &map, 6, low, at(12_800, 12_800, 4_608));
    let high = at(131_072, 131_072, 65_536);
    expect_solid(&rt, &map, 7, at(-131_072, 0, 0), high);
    Ok(())
}

/// Expects that the line that a text says is printed as that text.
fn expect_printed(rt: &impl Abort, out: &mut LineBuf, text: &[u8]) -> Result<(), Fail> {
    let line = read(text).map_err(|_| "a line")?;
    out.clear();
    print_map_line(&line, out);
    assert_eq!(rt; out.as_slice(), text);
    Ok(())
}

/// A line of each word, and another item.
const PRINTED: &[&[u8]] = &[
    ARENA,
    b"block 1048576 0 -1048576 -1 10 100",
    b"spawn 0 0 6144",
    b"item 20000 -4096 0 ammo 100",
    b"item 0 0 0 gem 65535",
    b"teleport -25600 -25600 0 25600 25600 25600 -65536 65536 6144",
    b"goal 0 0 0 1 1 1",
    b"lift 0 0 0 10000 10000 100 1048576 2560",
    b"depth 3",
    b"depth 5",
    b"shots",
    b"blocks 1024",
    b"blocks 4096",
];

#[test]
fn lines_are_read_as_they_are_printed(rt: HostRuntime) -> Result<(), Fail> {
    let mut out = LineBuf::new(rt.alloc())?;
    for text in PRINTED {
        expect_printed(&rt, &mut out, text)?;
    }
    Ok(())
}

#[test]
fn a_teleporter_is_read_from_its_line(rt: HostRuntime) {
    let teleport = MapLine::Teleport {
        lo: at(1, 2, 3),
        hi: at(4, 5, 6),
        dest: at(7, 8, 9),
    };
    assert_eq!(rt; read(b"teleport 1 2 3 4 5 6 7 8 9"), Ok(teleport));
}

#[test]
fn a_lift_is_read_from_its_line(rt: HostRuntime) {
    let lift = MapLine::Lift {
        lo: at(1, 2, 3),
        hi: at(4, 5, 6),
        rise: 7,
        speed: 8,
    };
    assert_eq!(rt; read(b"lift 1 2 3 4 5 6 7 8"), Ok(lift));
}

#[test]
fn settings_are_read_from_their_lines(rt: HostRuntime) {
    assert_eq!(rt; read(b"depth 3"), Ok(MapLine::Depth(3)));
    assert_eq!(rt; read(b"depth 5"), Ok(MapLine::Depth(5)));
    assert_eq!(rt; read(b"shots"), Ok(MapLine::Shots));
    assert_eq!(rt; read(b"blocks 1024"), Ok(MapLine::Blocks(1_024)));
    assert_eq!(rt; read(b"blocks 4096"), Ok(MapLine::Blocks(4_096)));
}

#[test]
fn an_item_is_read_from_its_line(rt: HostRuntime) {
    let (kind, delay) = (Kind::Gem, 4);
    let item = MapLine::Item {
        at: at(1, 2, 3),
        kind,
        delay,
    };
    assert_eq!(rt; read(b"item 1 2 3 gem 4"), Ok(item));
}

/// Faulty lines, each with its first fault.
const LINE_FAULTS: &[(&[u8], u8)] = &[
    (b"frob", 3),
    (b"", 3),
    (b" arena", 3),
    (b"Arena 0 0 0 1 1 1", 3),
    (b"arenas 0 0 0 1 1 1", 3),
    (b"arena 1 2", 4),
    (b"arena 0 0 0 1 1 1 1", 4),
    (b"arena 0 0 0 1 1 1 ", 4),
    (b"arena  0 0 0 1 1 1", 4),
    (b"arena", 4),
    (b"spawn 0 0 06144", 4),
    (b"spawn 0 0 -0", 4),
    (b"spawn 0 0 +1", 4),
    (b"spawn 2000000 0 x", 4),
    (b"item 0 0 0 goal 1", 4),
    (b"item 0 0 0 gem gem", 4),
    (b"item 0 0 0 1 1", 4),
    (b"Depth 3", 3),
    (b"depth", 4),
    (b"depth 3 4", 4),
    (b"depth 03", 4),
    (b"depth three", 4),
    (b"shots 1", 4),
    (b"shots ", 4),
    (b"Blocks 1024", 3),
    (b"blocks", 4),
    (b"blocks 1024 1", 4),
    (b"blocks 01024", 4),
    (b"blocks all", 4),
    (b"blocks 1023", 6),
    (b"blocks 4097", 6),
    (b"blocks -1024", 6),
    (b"blocks 66560", 6),
    (b"depth 6", 6),
    (b"depth 2", 6),
    (b"depth -3", 6),
    (b"depth 0", 6),
    (b"depth 259", 6),
    (b"arena -2000000 0 0 1 1 1", 6),
    (b"spawn 0 1048577 0", 6),
    (b"spawn 0 0 -1048577", 6),
    (b"spawn 0 0 340282366920938463463374607431768211456", 6),
    (b"item 0 0 0 gem 0", 6),
    (b"item 0 0 0 gem 65536", 6),
    (b"lift 0 0 0 1 1 1 0 1", 6),
    (b"lift 0 0 0 1 1 1 1 2561", 6),
];

#[test]
fn the_first_fault_of_a_line_is_the_answer(rt: HostRuntime) {
    for (text, fault) in LINE_FAULTS {
        assert_eq!(rt; read(text), Err(*fault), "{fault}");
    }
    assert_eq!(rt; read(b"item 0 0 0 gem -1"), Err(6));
    assert_eq!(rt; read(b"lift 0 0 0 1 1 1 -1 1"), Err(6));
}
