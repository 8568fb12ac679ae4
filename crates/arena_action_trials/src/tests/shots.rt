ghost use Rattle.std.specs.Prelude.{◌≡◌, ◌<◌, ◌≤◌, [], ◌∷◌, true, map, All};
ghost use Rattle.entity_recs.specs.declared.kind.Kind.TheVariants.{Player};
ghost use Rattle.entity_recs.specs.Records.{IsRecord};
ghost use Rattle.arena_map.specs.MapLines.{IsWithinLimits, is_added};
ghost use Rattle.arena_actions.specs.MapActions.{IsOfItsMap};
ghost use Rattle.arena_actions.proofs.OfItsMap.{IsOfItsMap-prop};

use super::{arena, at, player};
use arena_actions::MapAction;
use arena_geo::Vec3;
use arena_map::{ArenaMap, MapLine, MapRefusal};
use entity_recs::{Cmd, Effect, ITEM_MAXS, ITEM_MINS, Kind, NewState, Rec, body_box};
use std::alloc::Global;
use std::process::Abort;
use std::test::Fail;

/// A map's action, with shots or without, as the map says.
#[derive(Drop)]
struct Game {
    action: MapAction,
    ghost of_its_map: { IsOfItsMap action } by { IsOfItsMap-prop action },
}

/// The spawn of the player that shoots.
fn spawn() -> MapLine
    ensures added { is_added result ≡ true }
    ensures limits { IsWithinLimits result }
{
    MapLine::Spawn {
        at: at(0, 0, 6_144),
    }
}

/// A block between the two players.
fn block() -> MapLine
    ensures added { is_added result ≡ true }
    ensures limits { IsWithinLimits result }
{
    MapLine::Block {
        lo: at(8_000, -12_800, 0),
        hi: at(9_000, 12_800, 20_000),
    }
}

/// Ammunition that the player that shoots touches where it begins, and that returns after 100 frames.
fn ammo_line() -> MapLine
    ensures added { is_added result ≡ true }
    ensures limits { IsWithinLimits result }
{
    MapLine::Item {
        at: at(0, 4_000, 0),
        kind: Kind::Ammo,
        delay: 100,
    }
}

/// A gem at the same place.
fn gem_line() -> MapLine
    ensures added { is_added result ≡ true }
    ensures limits { IsWithinLimits result }
{
    MapLine::Item {
        at: at(0, 4_000, 0),
        kind: Kind::Gem,
        delay: 100,
    }
}

/// The game in the arena with these two lines and the ammunition.
fn game_with(alloc: Global, one: &MapLine, other: &MapLine) -> Result<Game, MapRefusal>
    requires added { (is_added one.now ≡ true) × (is_added other.now ≡ true) }
    requires limits { IsWithinLimits one.now × IsWithinLimits other.now }
{
    let mut map = ArenaMap::new(alloc, &arena())?;
    map.add(one)?;
    map.add(other)?;
    map.add(&ammo_line())?;
    Ok(Game {
        action: MapAction::new(map),
    })
}

/// The game in the arena where players shoot, with eight gems at one place.
fn game_with_gems(alloc: Global) -> Result<Game, MapRefusal> {
    let mut map = ArenaMap::new(alloc, &arena())?;
    map.add(&MapLine::Shots)?;
    for _ in 0..8 {
        map.add(&gem_line())?;
    }
    Ok(Game {
        action: MapAction::new(map),
    })
}

/// The player in slot 0 on the floor, at rest at this x, with so much ammunition, at most 100, in this state.
fn shooter(x: i16, ammo: u8, state: u64) -> Rec
    ensures id { result.id ≡ 0 }
    ensures kind { result.kind ≡ Player }
    ensures record { IsRecord result }
    ensures score { result.score ≡ 0 }
{
    Rec {
        ammo: ammo.min(100),
        state,
        ..player(0, at(i32::from(x), 0, 6_144))
    }
}

/// The player in slot 1 at (20000, 0, 6144), in this state.
fn target(state: u64) -> Rec
    ensures id { result.id ≡ 1 }
    ensures kind { result.kind ≡ Player }
    ensures record { IsRecord result }
    ensures score { result.score ≡ 0 }
{
    Rec {
        state,
        ..player(1, at(20_000, 0, 6_144))
    }
}

/// The record of the ammunition, in this state.
fn item(state: u64) -> Rec
    ensures id { result.id ≡ 64 }
    ensures record { IsRecord result }
{
    Rec {
        id: 64,
        kind: Kind::Ammo,
        origin: at(0, 4_000, 0),
        mins: ITEM_MINS,
        maxs: ITEM_MAXS,
        vel: Vec3::ZERO,
        flags: 0,
        ammo: 0,
        carry: 0,
        score: 0,
        seq: 0,
        state,
    }
}

/// The record of the gem with this id, in this state.
fn gem(id: u16, state: u64) -> Rec
    requires { (64 ≤ id) × (id < 512) }
    ensures id { result.id ≡ id }
    ensures record { IsRecord result }
{
    Rec {
        id,
        kind: Kind::Gem,
        origin: at(0, 4_000, 0),
        mins: ITEM_MINS,
        maxs: ITEM_MAXS,
        vel: Vec3::ZERO,
        flags: 0,
        ammo: 0,
        carry: 0,
        score: 0,
        seq: 0,
        state,
    }
}

/// A move of 50 milliseconds in this frame with the number 1, with a wish of 1 unit a second along x and these buttons.
fn command(frame: u32, buttons: u8) -> Cmd {
    Cmd {
        slot: 0,
        seq: 1,
        frame,
        ms: 50,
        wish_x: 1,
        wish_y: 0,
        buttons,
    }
}

/// What a command does among two records in rising id. The player's body is inside the arena.
fn effect_of_two(
    rt: &impl Abort,
    game: &Game,
    me: &Rec,
    first: Rec,
    second: Rec,
    cmd: &Cmd,
) -> Effect
    requires kind { me.now.kind ≡ Player }
    requires record { IsRecord me.now }
    requires score { me.now.score ≤ 4294967295 }
    requires first { IsRecord first }
    requires second { IsRecord second }
    requires rising { first.id < second.id }
{
    assert!(rt; game.action.map().bounds().contains(&body_box(me)));
    game.action.act(me, &[first, second], cmd)
}

/// The effect has just these ids and these states.
fn expect_states(rt: &impl Abort, effect: &Effect, got: &[u16], states: &[NewState]) {
    assert_eq!(rt; effect.reply.got.as_slice(), got);
    assert_eq!(rt; effect.states.as_slice(), states);
}

/// The target and the ammunition have just the new states of one move in frame 0, where the target is hit, or the
/// ammunition is taken, or both; and the ids of those are got.
fn expect_changed(rt: &impl Abort, effect: &Effect, hit: Option<u64>, taken: bool) {
    let item = NewState { id: 64, state: 100 };
    match (hit, taken) {
        (Some(state), true) => {
            expect_states(rt, effect, &[1, 64], &[item, NewState { id: 1, state }]);
        }
        (Some(state), false) => {
            expect_states(rt, effect, &[1], &[NewState { id: 1, state }]);
        }
        (None, true) => expect_states(rt, effect, &[64], &[item]),
        (None, false) => expect_states(rt, effect, &[], &[]),
    }
}

/// The player has moved by 6 along x on the floor, and has its command's number.
fn expect_moved(rt: &impl Abort, effect: &Effect, from: i16) {
    let origin = at(i32::from(from) + 6, 0, 6_144);
    assert_eq!(rt; effect.reply.origin, origin);
    assert_eq!(rt; (effect.me.origin, effect.me.vel), (origin, at(128, 0, 0)));
    assert_eq!(rt; (effect.me.flags, effect.me.seq), (1, 1));
}

/// A player shoots five times at another one that stands before it.
fn check_five_hits(rt: &impl Abort, game: &Game) {
    // where the shooter is on x, its ammunition, the states of the target and of the item; then the new state of the
    // target, whether the item is taken, the ammunition that is left and the points
    for (x, ammo, damage, away, hit, taken, left, points) in [
        (0, 0, 0, 0, Some(25), true, 19, 0),
        (6, 19, 25, 100, Some(50), false, 18, 0),
        (12, 18, 50, 100, Some(75), false, 17, 0),
        (18, 17, 75, 100, Some(140), false, 16, 1),
        (24, 16, 140, 100, None, false, 15, 0),
    ] {
        let me = shooter(x, ammo, 0);
        let effect = effect_of_two(rt, game, &me, target(damage), item(away), &command(0, 2));
        expect_moved(rt, &effect, x);
        expect_changed(rt, &effect, hit, taken);
        assert_eq!(rt; (effect.me.ammo, effect.me.score), (left, points));
    }
}

#[test]
fn four_hits_fell_a_player_and_the_fifth_shot_is_only_spent(rt: HostRuntime) -> Result<(), Fail> {
    let game = game_with(rt.alloc(), &MapLine::Shots, &spawn()).map_err(|_| "a map")?;
    check_five_hits(&rt, &game);
    Ok(())
}

/// A player shoots five times at one that stands behind a block.
fn check_five_blocked(rt: &impl Abort, game: &Game) {
    // where the shooter is on x, its ammunition and the state of the item; then whether the item is taken and the
    // ammunition that is left
    for (x, ammo, away, taken, left) in [
        (0, 0, 0, true, 19),
        (6, 19, 100, false, 18),
        (12, 18, 100, false, 17),
        (18, 17, 100, false, 16),
        (24, 16, 100, false, 15),
    ] {
        let me = shooter(x, ammo, 0);
        let effect = effect_of_two(rt, game, &me, target(0), item(away), &command(0, 2));
        expect_moved(rt, &effect, x);
        expect_changed(rt, &effect, None, taken);
        assert_eq!(rt; (effect.me.ammo, effect.me.score), (left, 0));
    }
}

#[test]
fn a_block_stops_each_of_five_shots(rt: HostRuntime) -> Result<(), Fail> {
    let game = game_with(rt.alloc(), &MapLine::Shots, &block()).map_err(|_| "a map")?;
    check_five_blocked(&rt, &game);
    Ok(())
}

/// Who was felled in frame 0 sends a move in that frame.
fn check_fallen(rt: &impl Abort, game: &Game) {
    let me = target(140);
    let cmd = Cmd {
        slot: 1,
        seq: 1,
        frame: 0,
        ms: 50,
        wish_x: 320,
        wish_y: 0,
        buttons: 0,
    };
    let effect = effect_of_two(rt, game, &me, shooter(30, 15, 0), item(100), &cmd);
    expect_changed(rt, &effect, None, false);
    assert_eq!(rt; effect.reply.origin, at(20_000, 0, 6_144));
    assert_eq!(rt;
        (effect.me.origin, effect.me.state),
        (at(20_000, 0, 6_144), 140)
    );
    assert_eq!(rt; (effect.me.flags, effect.me.seq), (0, 1));
}

#[test]
fn a_player_that_fell_stays_where_it_is(rt: HostRuntime) -> Result<(), Fail> {
    let game = game_with(rt.alloc(), &MapLine::Shots, &spawn()).map_err(|_| "a map")?;
    check_fallen(&rt, &game);
    Ok(())
}

/// A player with 20 of ammunition, on its way with five gems, that touches the ammunition and aims at the target.
fn carrier(state: u64) -> Rec
    ensures kind { result.kind ≡ Player }
    ensures record { IsRecord result }
    ensures score { result.score ≡ 0 }
{
    Rec {
        vel: at(128, -128, 256),
        flags: 3,
        carry: 5,
        ..shooter(0, 20, state)
    }
}

/// A player that is down sends a move with a shot.
fn check_down(rt: &impl Abort, game: &Game) {
    for (state, frame) in [
        (101, 0),
        (140, 0),
        (140, 39),
        (4_294_967_435, 4_294_967_295),
    ] {
        let me = carrier(state);
        let effect = effect_of_two(rt, game, &me, target(0), item(0), &command(frame, 2));
        expect_changed(rt, &effect, None, false);
        assert_eq!(rt; effect.reply.origin, at(0, 0, 6_144));
        let lying = Rec {
            vel: Vec3::ZERO,
            flags: 0,
            carry: 0,
            seq: 1,
            ..me
        };
        assert_eq!(rt; effect.me, lying, "{state} {frame}");
    }
}

#[test]
fn a_player_that_is_down_neither_moves_nor_shoots(rt: HostRuntime) -> Result<(), Fail> {
    let game = game_with(rt.alloc(), &MapLine::Shots, &spawn()).map_err(|_| "a map")?;
    check_down(&rt, &game);
    Ok(())
}

/// A player whose frame has come moves, takes the item and shoots.
fn check_standing(rt: &impl Abort, game: &Game) {
    for (state, damage) in [(0, 0), (75, 75), (100, 0)] {
        let me = shooter(0, 20, state);
        let effect = effect_of_two(rt, game, &me, target(0), item(0), &command(0, 2));
        expect_moved(rt, &effect, 0);
        expect_changed(rt, &effect, Some(25), true);
        assert_eq!(rt; (effect.me.ammo, effect.me.state), (39, damage));
    }
}

/// Who was felled in frame 0 has no damage in frame 40, and moves and shoots.
fn check_risen(rt: &impl Abort, game: &Game) {
    let me = shooter(0, 20, 140);
    let effect = effect_of_two(rt, game, &me, target(0), item(50), &command(40, 2));
    expect_moved(rt, &effect, 0);
    expect_changed(rt, &effect, Some(25), false);
    assert_eq!(rt; (effect.me.ammo, effect.me.state), (19, 0));
}

#[test]
fn a_player_that_was_down_moves_and_shoots_again(rt: HostRuntime) -> Result<(), Fail> {
    let game = game_with(rt.alloc(), &MapLine::Shots, &spawn()).map_err(|_| "a map")?;
    check_standing(&rt, &game);
    check_risen(&rt, &game);
    Ok(())
}

/// A player shoots without ammunition, with one piece of it, and has it but doesn't shoot.
fn check_last_shot(rt: &impl Abort, game: &Game) {
    for (ammo, buttons, hit, left) in [(0, 2, None, 0), (1, 2, Some(25), 0), (1, 0, None, 1)] {
        let me = shooter(0, ammo, 0);
        let effect = effect_of_two(rt, game, &me, target(0), item(7), &command(0, buttons));
        expect_moved(rt, &effect, 0);
        expect_changed(rt, &effect, hit, false);
        assert_eq!(rt; (effect.me.ammo, effect.me.score), (left, 0));
    }
}

#[test]
fn no_shot_is_fired_without_ammunition_or_its_button(rt: HostRuntime) -> Result<(), Fail> {
    let game = game_with(rt.alloc(), &MapLine::Shots, &spawn()).map_err(|_| "a map")?;
    check_last_shot(&rt, &game);
    Ok(())
}

/// Bit 1 of the buttons does nothing where nobody shoots.
fn check_without_shots(rt: &impl Abort, game: &Game) {
    for buttons in [0, 2] {
        let me = shooter(0, 20, 0);
        let effect = effect_of_two(rt, game, &me, target(0), item(0), &command(0, buttons));
        expect_moved(rt, &effect, 0);
        expect_changed(rt, &effect, None, true);
        assert_eq!(rt; (effect.me.ammo, effect.me.score), (40, 0));
    }
}

#[test]
fn nobody_shoots_on_a_map_without_shots(rt: HostRuntime) -> Result<(), Fail> {
    let game = game_with(rt.alloc(), &spawn(), &spawn()).map_err(|_| "a map")?;
    check_without_shots(&rt, &game);
    Ok(())
}

/// The target, and the eight gems that the shooter touches, the last of which is in this state.
fn target_and_gems(last: u64) -> [Rec; 9]
    ensures records { All IsRecord result }
    ensures ids { map (λ r. r.id) result ≡ 1 ∷ 64 ∷ 65 ∷ 66 ∷ 67 ∷ 68 ∷ 69 ∷ 70 ∷ 71 ∷ [] }
{
    [
        target(0),
        gem(64, 0),
        gem(65, 0),
        gem(66, 0),
        gem(67, 0),
        gem(68, 0),
        gem(69, 0),
        gem(70, 0),
        gem(71, last),
    ]
}

/// What the shooter's command does among the target and the gems, with 20 of ammunition.
fn effect_among_gems(rt: &impl Abort, game: &Game, last: u64) -> Effect {
    let me = shooter(0, 20, 0);
    assert!(rt; game.action.map().bounds().contains(&body_box(&me)));
    game.action.act(&me, &target_and_gems(last), &command(0, 2))
}

#[test]
fn no_shot_is_fired_where_eight_items_are_taken(rt: HostRuntime) -> Result<(), Fail> {
    let game = game_with_gems(rt.alloc()).map_err(|_| "a map")?;
    let effect = effect_among_gems(&rt, &game, 0);
    let all = [64, 65, 66, 67, 68, 69, 70, 71];
    assert_eq!(rt; effect.reply.got.as_slice(), all.as_slice());
    let last = NewState { id: 71, state: 100 };
    assert_eq!(rt; effect.states.as_slice().last().copied(), Some(last));
    assert_eq!(rt; (effect.me.carry, effect.me.ammo), (8, 20));
    Ok(())
}

#[test]
fn a_shot_is_fired_where_seven_items_are_taken(rt: HostRuntime) -> Result<(), Fail> {
    let game = game_with_gems(rt.alloc()).map_err(|_| "a map")?;
    let effect = effect_among_gems(&rt, &game, 100);
    let all = [1, 64, 65, 66, 67, 68, 69, 70];
    assert_eq!(rt; effect.reply.got.as_slice(), all.as_slice());
    let last = NewState { id: 1, state: 25 };
    assert_eq!(rt; effect.states.as_slice().last().copied(), Some(last));
    assert_eq!(rt; (effect.me.carry, effect.me.ammo), (7, 19));
    Ok(())
}
