ghost use Rattle.std.specs.Prelude.{◌≡◌, ◌<◌, ◌≤◌, [], true, unsigned_abs};
ghost use Rattle.arena_geo.specs.Vectors.{IsNear};
ghost use Rattle.entity_recs.specs.declared.kind.Kind.TheVariants.{Player};
ghost use Rattle.entity_recs.specs.Records.{IsRecord};
ghost use Rattle.entity_recs.specs.Commands.{command_of};
ghost use Rattle.entity_recs.specs.Actions.{IsCall, IsCommand};
ghost use Rattle.arena_map.specs.MapLines.{IsWithinLimits, is_arena, is_added};

use areanode::Tree;
use arena_actions::ArenaAction;
use arena_geo::{Aabb, Region, Vec3};
use arena_map::{ArenaMap, MapLine, MapRefusal};
use entity_recs::{
    Action, Cmd, Effect, ITEM_MAXS, ITEM_MINS, Kind, PLAYER_MAXS, PLAYER_MINS, Rec, body_box,
};
use std::alloc::Global;
use std::process::Abort;
use std::test::Fail;

mod shots;

fn at(x: i32, y: i32, z: i32) -> Vec3
    ensures { result ≡ record { x = x; y = y; z = z } }
{
    Vec3 { x, y, z }
}

/// The arena from (-131072, -131072, 0) to (131072, 131072, 65536).
fn arena() -> MapLine
    ensures arena { is_arena result ≡ true }
    ensures limits { IsWithinLimits result }
{
    MapLine::Arena {
        lo: at(-131_072, -131_072, 0),
        hi: at(131_072, 131_072, 65_536),
    }
}

/// The action of the arena with one thing or block in it.
fn action_with(alloc: Global, line: &MapLine) -> Result<ArenaAction, MapRefusal>
    requires added { is_added line.now ≡ true }
    requires limits { IsWithinLimits line.now }
{
    let mut map = ArenaMap::new(alloc, &arena())?;
    map.add(line)?;
    Ok(ArenaAction::new(map))
}

/// A player in this slot, at rest.
fn player(id: u16, origin: Vec3) -> Rec
    requires id { id < 64 }
    requires near { IsNear 1048576 origin }
    ensures id { result.id ≡ id }
    ensures kind { result.kind ≡ Player }
    ensures record { IsRecord result }
    ensures score { result.score ≡ 0 }
    ensures seq { result.seq ≡ 0 }
{
    Rec {
        id,
        kind: Kind::Player,
        origin,
        mins: PLAYER_MINS,
        maxs: PLAYER_MAXS,
        vel: Vec3::ZERO,
        flags: 2,
        ammo: 0,
        carry: 0,
        score: 0,
        seq: 0,
        state: 0,
    }
}

/// A move of 50 milliseconds with this wish, the first of its player.
fn wish(slot: u8, wish_x: i16, wish_y: i16) -> Cmd
    requires { slot < 64 }
    ensures slot { result.slot ≡ slot }
    ensures command { IsCommand (command_of result) }
{
    Cmd {
        slot,
        seq: 1,
        frame: 0,
        ms: 50,
        wish_x,
        wish_y,
        buttons: 0,
    }
}

/// What a command does among two records in rising id, if the player's body is inside the arena.
fn effect_among(
    action: &ArenaAction,
    me: &Rec,
    first: Rec,
    second: Rec,
    cmd: &Cmd,
) -> Option<Effect>
    requires kind { me.now.kind ≡ Player }
    requires record { IsRecord me.now }
    requires score { me.now.score ≤ 4294967295 }
    requires first { IsRecord first }
    requires second { IsRecord second }
    requires rising { first.id < second.id }
{
    if !action.map().bounds().contains(&body_box(me)) {
        return None;
    }
    Some(action.act(me, &[first, second], cmd))
}

/// What a command does in the arena of one thing, among another player and the thing's record.
fn effect_with(
    alloc: Global,
    line: &MapLine,
    me: &Rec,
    other: Rec,
    thing: Rec,
    cmd: &Cmd,
) -> Result<Effect, Fail>
    requires added { is_added line.now ≡ true }
    requires limits { IsWithinLimits line.now }
    requires kind { me.now.kind ≡ Player }
    requires record { IsRecord me.now }
    requires score { me.now.score ≤ 4294967295 }
    requires other { IsRecord other }
    requires thing { IsRecord thing }
    requires rising { other.id < thing.id }
{
    let action = action_with(alloc, line).map_err(|_| "a map")?;
    Ok(effect_among(&action, me, other, thing, cmd).ok_or("inside")?)
}

/// Ammunition with its box over the way of two players, which returns after 100 frames.
fn ammo_line() -> MapLine
    ensures added { is_added result ≡ true }
    ensures limits { IsWithinLimits result }
{
    MapLine::Item {
        at: at(20_000, -4_096, 0),
        kind: Kind::Ammo,
        delay: 100,
    }
}

/// Its record.
fn ammo(state: u64) -> Rec
    ensures id { result.id ≡ 64 }
    ensures record { IsRecord result }
{
    Rec {
        id: 64,
        kind: Kind::Ammo,
        origin: at(20_000, -4_096, 0),
        mins: ITEM_MINS,
        maxs: ITEM_MAXS,
        vel: Vec3::ZERO,
        flags: 0,
        ammo: 0,
        carry: 0,
        score: 0,
        seq: 0,
        state,
    }
}

/// Expects that the ammunition was taken, and that each state given out is its own.
fn expect_taken(rt: &impl Abort, effect: &Effect) {
    assert_eq!(rt; effect.reply.got.as_slice(), [64].as_slice());
    assert!(rt;
        effect
            .states
            .as_slice()
            .iter()
            .all(|s| s.id == 64 && s.state == 100)
    );
    assert_eq!(rt;
        (effect.me.ammo, effect.me.flags, effect.me.seq),
        (20, 1, 1)
    );
}

#[test]
fn the_first_of_two_players_gets_the_item(rt: HostRuntime) -> Result<(), Fail> {
    let one = player(0, at(24_096, 14_000, 6_144));
    let two = player(1, at(24_096, -14_000, 6_144));
    let cmd = wish(0, 0, -320);
    let first = effect_with(rt.alloc(), &ammo_line(), &one, two, ammo(0), &cmd)?;
    assert_eq!(rt; first.reply.origin, at(24_096, 11_952, 6_144));
    expect_taken(&rt, &first);
    Ok(())
}

#[test]
fn the_second_of_two_players_gets_nothing(rt: HostRuntime) -> Result<(), Fail> {
    let one = player(0, at(24_096, 14_000, 6_144));
    let two = player(1, at(24_096, -14_000, 6_144));
    let cmd = wish(1, 0, 320);
    let second = effect_with(rt.alloc(), &ammo_line(), &two, one, ammo(100), &cmd)?;
    assert_eq!(rt; second.reply.origin, at(24_096, -11_952, 6_144));
    assert!(rt; second.reply.got.as_slice().is_empty() && second.states.as_slice().is_empty());
    Ok(())
}

/// A teleporter over the middle, to (-65536, 65536, 6144).
fn teleporter_line() -> MapLine
    ensures added { is_added result ≡ true }
    ensures limits { IsWithinLimits result }
{
    MapLine::Teleport {
        lo: at(-25_600, -25_600, 0),
        hi: at(25_600, 25_600, 25_600),
        dest: at(-65_536, 65_536, 6_144),
    }
}

/// Its record.
fn teleporter() -> Rec
    ensures id { result.id ≡ 64 }
    ensures record { IsRecord result }
{
    Rec {
        id: 64,
        kind: Kind::Teleporter,
        origin: at(-25_600, -25_600, 0),
        mins: Vec3::ZERO,
        maxs: at(51_200, 51_200, 25_600),
        vel: Vec3::ZERO,
        flags: 0,
        ammo: 0,
        carry: 0,
        score: 0,
        seq: 0,
        state: 0,
    }
}

/// What a player's command without a wish does at the teleporter, beside another player.
fn effect_at_the_teleporter(alloc: Global, me: &Rec, other: Rec, cmd: &Cmd) -> Result<Effect, Fail>
    requires kind { me.now.kind ≡ Player }
    requires record { IsRecord me.now }
    requires score { me.now.score ≤ 4294967295 }
    requires other { IsRecord other }
    requires slot { other.id < 64 }
{
    effect_with(alloc, &teleporter_line(), me, other, teleporter(), cmd)
}

#[test]
fn the_first_of_two_players_is_moved_by_the_teleporter(rt: HostRuntime) -> Result<(), Fail> {
    let one = player(0, at(0, 0, 6_144));
    let two = player(1, at(12_800, 0, 6_144));
    let first = effect_at_the_teleporter(rt.alloc(), &one, two, &wish(0, 0, 0))?;
    assert_eq!(rt; first.reply.origin, at(-65_536, 65_536, 6_144));
    assert_eq!(rt; (first.me.origin, first.me.flags), (first.reply.origin, 3));
    Ok(())
}

#[test]
fn the_second_of_two_players_stays_at_the_teleporter(rt: HostRuntime) -> Result<(), Fail> {
    let two = player(1, at(12_800, 0, 6_144));
    let there = player(0, at(-65_536, 65_536, 6_144));
    let second = effect_at_the_teleporter(rt.alloc(), &two, there, &wish(1, 0, 0))?;
    assert_eq!(rt; second.reply.origin, at(12_800, 0, 6_144));
    Ok(())
}

/// The region and the effect of a command with nobody near, by any action.
fn alone_by<A: Action>(action: &A, me: &Rec, cmd: &Cmd) -> (Region, Effect)
    requires { IsCall ((A.meaning action.now).takes) me.now [] (command_of cmd.now) }
{
    (action.region(me, cmd), action.act(me, &[], cmd))
}

/// The region and the effect of a command with nobody near, if the player's body is inside the arena.
fn alone(action: &ArenaAction, me: &Rec, cmd: &Cmd) -> Option<(Region, Effect)>
    requires kind { me.now.kind ≡ Player }
    requires record { IsRecord me.now }
    requires score { me.now.score ≤ 4294967295 }
    requires seq { me.now.seq < 4294967296 }
    requires own { me.now.id ≡ cmd.now.slot }
    requires command { IsCommand (command_of cmd.now) }
{
    if !action.map().bounds().contains(&body_box(me)) {
        return None;
    }
    Some(alone_by(action, me, cmd))
}

/// The region and the effect of the command of a player in the middle, with nobody near.
fn in_the_middle(action: &ArenaAction, wish_x: i16) -> Result<(Region, Effect), Fail> {
    let me = player(3, at(0, 0, 6_144));
    let cmd = wish(3, wish_x, 0);
    Ok(alone(action, &me, &cmd).ok_or("inside")?)
}

#[test]
fn a_player_at_rest_reaches_four_leaves(rt: HostRuntime) -> Result<(), Fail> {
    let action = action_with(rt.alloc(), &ammo_line()).map_err(|_| "a map")?;
    let (region, _effect) = in_the_middle(&action, 0)?;
    let reached = Aabb::new(at(-25_088, -25_088, -25_600), at(25_088, 25_088, 39_936));
    assert_eq!(rt; region.boxes().len(), 1);
    assert_eq!(rt; region.boxes().first().copied(), reached);
    let tree = Tree::new(action.map().bounds(), action.map().depth());
    let leaves = tree.leaves_of(&region);
    assert_eq!(rt; leaves, 4_680);
    assert_eq!(rt; tree.visited_nodes(leaves), 153_365_887);
    Ok(())
}

#[test]
fn a_reached_teleporter_adds_its_destination(rt: HostRuntime) -> Result<(), Fail> {
    let action = action_with(rt.alloc(), &teleporter_line()).map_err(|_| "a map")?;
    let (region, effect) = in_the_middle(&action, 0)?;
    let landing = Aabb::new(at(-86_272, 44_800, -16_640), at(-44_800, 86_272, 30_976));
    assert_eq!(rt; region.boxes().len(), 2);
    assert_eq!(rt; region.boxes().last().copied(), landing);
    assert_eq!(rt; effect.reply.origin, at(0, 0, 6_144));
    Ok(())
}

/// A thin block above the head of a player on the floor, one of many.
fn overhead(place: u16) -> MapLine
    requires { place < 1024 }
    ensures added { is_added result ≡ true }
    ensures limits { IsWithinLimits result }
{
    let z = 20_000 + 20 * i32::from(place);
    MapLine::Block {
        lo: at(-4_000, -4_000, z),
        hi: at(4_000, 4_000, z + 10),
    }
}

/// The action of the arena with so many blocks where a player in the middle looks, and then one line more.
fn crowded(alloc: Global, blocks: u16, last: &MapLine) -> Result<ArenaAction, MapRefusal>
    requires blocks { blocks < 1024 }
    requires added { is_added last.now ≡ true }
    requires limits { IsWithinLimits last.now }
{
    let mut map = ArenaMap::new(alloc, &arena())?;
    for place in 0..blocks {
        map.add(&overhead(place))?;
    }
    map.add(last)?;
    Ok(ArenaAction::new(map))
}

#[test]
fn a_crowded_place_changes_no_free_move(rt: HostRuntime) -> Result<(), Fail> {
    for blocks in [0, 1, 79, 1_023] {
        let action = crowded(rt.alloc(), blocks, &overhead(1_023)).map_err(|_| "a map")?;
        let (_region, effect) = in_the_middle(&action, 320)?;
        assert_eq!(rt; effect.reply.origin, at(2_048, 0, 6_144), "{blocks}");
    }
    Ok(())
}

/// A wall of the least thickness, from here on on x, that no player steps over.
fn thin_wall(from: i32) -> MapLine
    requires { unsigned_abs from ≤ 131072 }
    ensures added { is_added result ≡ true }
    ensures limits { IsWithinLimits result }
{
    MapLine::Block {
        lo: at(from, -20_000, 0),
        hi: at(from + 1, 20_000, 60_000),
    }
}

#[test]
fn the_last_of_many_blocks_stops_a_move(rt: HostRuntime) -> Result<(), Fail> {
    for blocks in [0, 57, 58, 1_023] {
        let action = crowded(rt.alloc(), blocks, &thin_wall(4_096)).map_err(|_| "a map")?;
        let (_region, effect) = in_the_middle(&action, 320)?;
        assert_eq!(rt; effect.reply.origin, at(0, 0, 6_144), "{blocks}");
    }
    Ok(())
}

/// Where a player on the floor ends that moves along x, beside a thin wall.
fn end_beside_wall(alloc: Global, from: i32, x: i32, wish_x: i16) -> Result<Vec3, Fail> {
    if from.unsigned_abs() > 131_072 || x.unsigned_abs() > 131_072 {
        return Err("too far".into());
    }
    let action = action_with(alloc, &thin_wall(from)).map_err(|_| "a map")?;
    let me = player(3, at(x, 0, 6_144));
    let (_region, effect) = alone(&action, &me, &wish(3, wish_x, 0)).ok_or("inside")?;
    Ok(effect.reply.origin)
}

/// Whether a thin wall from here on stops a player beside it, on both sides.
fn stops_both_sides(alloc: Global, from: i32) -> Result<bool, Fail> {
    if from.unsigned_abs() > 100_000 {
        return Err("too far".into());
    }
    let left = end_beside_wall(alloc, from, from - 4_096, 320)?;
    let right = end_beside_wall(alloc, from, from + 4_097, -320)?;
    Ok(left == at(from - 4_096, 0, 6_144) && right == at(from + 4_097, 0, 6_144))
}

#[test]
fn thin_walls_stop_moves_in_all_places(rt: HostRuntime) -> Result<(), Fail> {
    // where the wall begins: in the middle of the arena, near its border, and round a border of strips
    for from in [
        -100_000, -8_193, -8_192, -8_191, -1, 0, 1, 8_190, 8_191, 8_192, 100_000,
    ] {
        assert!(rt; stops_both_sides(rt.alloc(), from)?, "{from}");
    }
    Ok(())
}

#[test]
fn thin_walls_at_the_border_stop_moves(rt: HostRuntime) -> Result<(), Fail> {
    let low = end_beside_wall(rt.alloc(), -131_072, -126_975, -320)?;
    assert_eq!(rt; low, at(-126_975, 0, 6_144));
    let high = end_beside_wall(rt.alloc(), 131_071, 126_975, 320)?;
    assert_eq!(rt; high, at(126_975, 0, 6_144));
    let away = end_beside_wall(rt.alloc(), 0, 4_097, 320)?;
    assert_eq!(rt; away, at(6_145, 0, 6_144));
    Ok(())
}
