ghost use Rattle.std.specs.Prelude.{◌<◌, ◌≤◌, length, unsigned_abs};
ghost use Rattle.box_trace.specs.declared.hit.TheConstants.{MOST_SOLIDS};
ghost use Rattle.entity_recs.specs.Records.{IsRecord};

use super::at;
use arena_geo::{Aabb, Vec3};
use entity_recs::{Cmd, IdList, Kind, NewState, PLAYER_MAXS, PLAYER_MINS, Rec, StateList};
use shot_rules::{fire, is_down};
use std::test::Fail;

/// A player in this slot, in this state, with ammunition, at most 100, and flags, at most 3.
fn player(id: u16, x: i32, state: u64, ammo: u8, flags: u8) -> Rec
    requires id { id < 64 }
    requires near { unsigned_abs x ≤ 1048576 }
    ensures { IsRecord result }
{
    Rec {
        id,
        kind: Kind::Player,
        origin: at(x, 0, 6_144),
        mins: PLAYER_MINS,
        maxs: PLAYER_MAXS,
        vel: Vec3::ZERO,
        flags: flags.min(3),
        ammo: ammo.min(100),
        carry: 0,
        score: 0,
        seq: 0,
        state,
    }
}

/// A lift that is 2,560 wide, 25,600 long and 12,800 high, with its low corner at this y.
fn lift(y: i32) -> Rec
    requires { unsigned_abs y ≤ 100000 }
    ensures { IsRecord result }
{
    Rec {
        id: 70,
        kind: Kind::Lift,
        origin: at(10_000, y, 0),
        mins: at(0, 0, 0),
        maxs: at(2_560, 25_600, 12_800),
        vel: Vec3::ZERO,
        flags: 0,
        ammo: 0,
        carry: 0,
        score: 0,
        seq: 0,
        state: 0,
    }
}

/// A command of slot 0 in this frame.
fn command(frame: u32, wish_x: i16, wish_y: i16, buttons: u8) -> Cmd {
    Cmd {
        slot: 0,
        seq: 1,
        frame,
        ms: 50,
        wish_x,
        wish_y,
        buttons,
    }
}

/// The shot of a player after a move that took the item with the id 64, among two records: whether one is fired, and the
/// two lists.
fn shoot(
    me: &mut Rec,
    cmd: &Cmd,
    fixed: &[Aabb],
    first: Rec,
    second: Rec,
) -> (bool, StateList, IdList)
    requires record { IsRecord me.old }
    requires few { length fixed.now ≤ MOST_SOLIDS }
    requires first { IsRecord first }
    requires second { IsRecord second }
{
    let mut states = StateList::new();
    let mut got = IdList::new();
    let _has_room = states.push(NewState { id: 64, state: 100 });
    let _has_room = got.push(64);
    let fired = fire(me, cmd, fixed, &[first, second], &mut states, &mut got);
    (fired, states, got)
}

#[test]
fn four_hits_fell_a_player(rt: HostRuntime) -> Result<(), Fail> {
    // the frame, the state of who is hit, and the state and the points after it
    for (frame, before, after, points) in [
        (0, 0, 25, 0),
        (0, 25, 50, 0),
        (0, 50, 75, 0),
        (0, 75, 140, 1),
        (7, 99, 147, 1),
        (4_294_967_295, 75, 4_294_967_435, 1),
    ] {
        let mut me = player(0, 6, 0, 20, 1);
        let target = player(1, 20_000, before, 0, 0);
        let cmd = command(frame, 1, 0, 2);
        let (fired, states, got) = shoot(&mut me, &cmd, &[], target, lift(20_000));
        assert!(rt; fired);
        assert_eq!(rt; got.as_slice(), [1, 64].as_slice());
        let last = states.as_slice().last().copied();
        assert_eq!(rt;
            last,
            Some(NewState {
                id: 1,
                state: after
            })
        );
        assert_eq!(rt; (me.ammo, me.score), (19, points));
    }
    Ok(())
}

#[test]
fn a_shot_at_who_is_down_is_only_spent(rt: HostRuntime) -> Result<(), Fail> {
    for state in [100, 140, 4_294_967_435] {
        let mut me = player(0, 30, 0, 16, 1);
        let target = player(1, 20_000, state, 0, 0);
        let cmd = command(0, 1, 0, 2);
        let (fired, states, got) = shoot(&mut me, &cmd, &[], target, lift(20_000));
        assert!(rt; fired);
        assert_eq!(rt; (states.as_slice().len(), got.as_slice().len()), (1, 1));
        assert_eq!(rt; (me.ammo, me.score), (15, 0));
    }
    Ok(())
}

#[test]
fn a_block_stops_a_shot(rt: HostRuntime) -> Result<(), Fail> {
    let block = Aabb::new(at(8_000, -12_800, 0), at(9_000, 12_800, 20_000)).ok_or("a box")?;
    let mut me = player(0, 6, 0, 20, 1);
    let target = player(1, 20_000, 0, 0, 0);
    let cmd = command(0, 1, 0, 2);
    let (fired, _states, got) = shoot(&mut me, &cmd, &[block], target, lift(20_000));
    assert!(rt; fired);
    assert_eq!(rt; got.as_slice(), [64].as_slice());
    assert_eq!(rt; (me.ammo, me.score), (19, 0));
    Ok(())
}

#[test]
fn a_lift_stops_a_shot(rt: HostRuntime) {
    let mut me = player(0, 6, 0, 20, 1);
    let target = player(1, 20_000, 0, 0, 0);
    let cmd = command(0, 1, 0, 2);
    let (fired, _states, got) = shoot(&mut me, &cmd, &[], target, lift(-12_800));
    assert!(rt; fired);
    assert_eq!(rt; got.as_slice(), [64].as_slice());
    assert_eq!(rt; (me.ammo, me.score), (19, 0));
}

#[test]
fn no_shot_is_fired_without_its_conditions(rt: HostRuntime) {
    // the ammunition, the flags, the wish on x and y, the buttons, whether a shot is fired, and the ammunition then
    for (ammo, flags, wish_x, wish_y, buttons, fires, left) in [
        (1, 1, 1, 0, 2, true, 0),
        (1, 0, 0, -1, 3, true, 0),
        (0, 0, 1, 0, 2, false, 0),
        (1, 2, 1, 0, 2, false, 1),
        (1, 3, 1, 0, 2, false, 1),
        (1, 0, 0, 0, 2, false, 1),
        (1, 0, 1, 0, 1, false, 1),
        (1, 0, 1, 0, 0, false, 1),
    ] {
        let mut me = player(0, 6, 0, ammo, flags);
        let cmd = command(0, wish_x, wish_y, buttons);
        let target = player(1, 20_000, 0, 0, 0);
        let (fired, _states, _got) = shoot(&mut me, &cmd, &[], target, lift(20_000));
        assert_eq!(rt; (fired, me.ammo), (fires, left));
    }
}

#[test]
fn a_player_is_down_until_its_frame(rt: HostRuntime) {
    // the state, the frame, and whether the player is down
    for (state, frame, down) in [
        (0, 0, false),
        (99, 0, false),
        (100, 0, false),
        (140, 0, true),
        (140, 39, true),
        (140, 40, false),
        (4_294_967_435, 4_294_967_295, true),
    ] {
        assert_eq!(rt;
            is_down(&player(1, 0, state, 0, 0), frame),
            down,
            "{state} {frame}"
        );
    }
}
