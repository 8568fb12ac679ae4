ghost use Rattle.std.specs.Prelude.{◌≡◌, ◌<◌, All, IfOk, true};
ghost use Rattle.entity_recs.specs.declared.kind.Kind.TheVariants.{Player};
ghost use Rattle.arena_geo.specs.Vectors.{IsNear};
ghost use Rattle.entity_recs.specs.Records.{IsRecord};
ghost use Rattle.entity_recs.specs.Kinds.{is_item};
ghost use Rattle.arena_map.specs.MapLines.{IsWithinLimits, is_arena, is_added};

use super::at;
use arena_geo::Vec3;
use arena_map::{ArenaMap, MapLine, MapRefusal};
use entity_recs::{IdList, Kind, PLAYER_MAXS, PLAYER_MINS, Rec, StateList};
use std::alloc::{AllocError, Global};
use std::test::Fail;
use trigger_rules::touch_all;

/// The arena from (-131072, -131072, 0) to (131072, 131072, 65536).
fn arena() -> MapLine
    ensures arena { is_arena result ≡ true }
    ensures limits { IsWithinLimits result }
{
    MapLine::Arena {
        lo: at(-131_072, -131_072, 0),
        hi: at(131_072, 131_072, 65_536),
    }
}

/// An item that returns after 2 frames, in reach of a player at the middle.
fn item(kind: Kind) -> MapLine
    requires { is_item kind ≡ true }
    ensures added { is_added result ≡ true }
    ensures limits { IsWithinLimits result }
{
    MapLine::Item {
        at: at(-4_096, -4_096, 0),
        kind,
        delay: 2,
    }
}

/// A goal whose absolute box has one face in common with that of a player at the middle.
fn goal() -> MapLine
    ensures added { is_added result ≡ true }
    ensures limits { IsWithinLimits result }
{
    MapLine::Goal {
        lo: at(4_608, 0, 0),
        hi: at(8_192, 4_096, 4_096),
    }
}

/// A teleporter over the middle, to (-65536, 65536, 6144).
fn teleporter() -> MapLine
    ensures added { is_added result ≡ true }
    ensures limits { IsWithinLimits result }
{
    MapLine::Teleport {
        lo: at(-25_600, -25_600, 0),
        hi: at(25_600, 25_600, 25_600),
        dest: at(-65_536, 65_536, 6_144),
    }
}

/// A player in this slot, at rest.
fn player(id: u16, origin: Vec3) -> Rec
    requires id { id < 64 }
    requires near { IsNear 1048576 origin }
    ensures kind { result.kind ≡ Player }
    ensures record { IsRecord result }
{
    Rec {
        id,
        kind: Kind::Player,
        origin,
        mins: PLAYER_MINS,
        maxs: PLAYER_MAXS,
        vel: Vec3::ZERO,
        flags: 1,
        ammo: 90,
        carry: 0,
        score: 4_294_967_290,
        seq: 1,
        state: 0,
    }
}

/// The map of eight gems, ammunition and a goal, all in reach of a player at the middle.
fn map_of_items(alloc: Global) -> Result<ArenaMap, MapRefusal> {
    let mut map = ArenaMap::new(alloc, &arena())?;
    map.add(&item(Kind::Ammo))?;
    for _ in 0..8 {
        map.add(&item(Kind::Gem))?;
    }
    map.add(&goal())?;
    Ok(map)
}

/// The map of a teleporter over the middle.
fn map_of_a_teleporter(alloc: Global) -> Result<ArenaMap, MapRefusal> {
    let mut map = ArenaMap::new(alloc, &arena())?;
    map.add(&teleporter())?;
    map.add(&goal())?;
    Ok(map)
}

/// A record, and then these.
fn before(alloc: Global, first: Rec, things: &[Rec]) -> Result<Vec<Rec>, AllocError>
    requires first { IsRecord first }
    requires things { All IsRecord things.now }
    ensures { IfOk result (λ near. All IsRecord near.items) }
{
    let mut near = vec![in alloc; first]?;
    near.extend_from_slice(things)?;
    Ok(near)
}

/// What a player touches in frame 5 among these records: the states and the ids.
fn touched(map: &ArenaMap, me: &mut Rec, near: &[Rec]) -> (StateList, IdList)
    requires player { me.old.kind ≡ Player }
    requires record { IsRecord me.old }
    requires records { All IsRecord near.now }
    ensures { IsRecord me.new }
{
    let mut out = StateList::new();
    let mut got = IdList::new();
    touch_all(map, me, near, 5, &mut out, &mut got);
    (out, got)
}

#[test]
fn at_most_8_items_are_taken_and_a_goal_works_after_them(rt: HostRuntime) -> Result<(), Fail> {
    let map = map_of_items(rt.alloc()).map_err(|_| "a map")?;
    let mut me = player(3, at(0, 0, 6_144));
    let (out, got) = touched(&map, &mut me, map.entities());
    assert_eq!(rt; got.as_slice(), [64, 65, 66, 67, 68, 69, 70, 71].as_slice());
    assert!(rt; out.as_slice().iter().all(|s| s.state == 7));
    assert_eq!(rt; (me.ammo, me.carry, me.score), (100, 0, u32::MAX));
    assert_eq!(rt; me.origin, at(0, 0, 6_144));
    Ok(())
}

/// The first player, which stood at the middle, after what it touched there.
fn first_player(map: &ArenaMap) -> Rec
    ensures { IsRecord result }
{
    let mut first = player(0, at(0, 0, 6_144));
    let _lists = touched(map, &mut first, map.entities());
    first
}

#[test]
fn a_teleporter_moves_the_first_player(rt: HostRuntime) -> Result<(), Fail> {
    let map = map_of_a_teleporter(rt.alloc()).map_err(|_| "a map")?;
    let first = first_player(&map);
    assert_eq!(rt;
        (first.origin, first.flags),
        (at(-65_536, 65_536, 6_144), 3)
    );
    Ok(())
}

#[test]
fn a_teleporter_passes_the_second_player_over(rt: HostRuntime) -> Result<(), Fail> {
    let map = map_of_a_teleporter(rt.alloc()).map_err(|_| "a map")?;
    let near = before(rt.alloc(), first_player(&map), map.entities())?;
    let mut second = player(1, at(12_800, 0, 6_144));
    let _lists = touched(&map, &mut second, &near);
    assert_eq!(rt; (second.origin, second.flags), (at(12_800, 0, 6_144), 1));
    Ok(())
}
