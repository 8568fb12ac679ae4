ghost use Rattle.std.specs.Prelude.{◌≡◌, true};
ghost use Rattle.arena_actions.specs.MapActions.{IsOfItsMap};
ghost use Rattle.arena_map.specs.MapLines.{IsWithinLimits, is_added};

use super::for_helpers::ForHelpers;
use super::oracle::{Move, Twins};
use super::{action, at, spawn};
use arena_actions::MapAction;
use arena_map::MapLine;
use crew::play_with;
use move_phase::Runners;
use std::alloc::AllocGlobal;
use std::process::Abort;
use std::sync::Wait;
use std::test::Fail;
use std::thread::Threads;

/// The spawn so near to the one in the middle that both players need the same leaves.
fn spawn_beside() -> MapLine
    ensures added { is_added result ≡ true }
    ensures limits { IsWithinLimits result }
{
    MapLine::Spawn {
        at: at(12_800, 0, 6_144),
    }
}

/// A move of this player along x.
fn along_x(slot: u8, seq: u8, wish_x: i16) -> Move {
    Move {
        slot,
        seq,
        wish_x,
        wish_y: 0,
    }
}

/// A frame in which the two players move towards each other.
fn cross<'a>(
    rt: &(impl AllocGlobal + Abort + Threads + Wait + Sync),
    runners: &mut Runners<'a, ForHelpers>,
    twins: &mut Twins<'a>,
    seq: u8,
) -> Result<(), Fail> {
    let moves = [along_x(0, seq, 320), along_x(1, seq, -320)];
    twins.play(rt, runners, 0, &moves, 2)
}

/// A frame of two joins, and then a hundred in which the players move towards each other.
fn join_and_cross<'a>(
    rt: &(impl AllocGlobal + Abort + Threads + Wait + Sync),
    runners: &mut Runners<'a, ForHelpers>,
    twins: &mut Twins<'a>,
) -> Result<(), Fail> {
    twins.play(rt, runners, 2, &[], 2)?;
    for seq in 1..101 {
        cross(rt, runners, twins, seq)?;
    }
    Ok(())
}

/// The same on two servers of this action's map, with a helper that is kept over all frames.
fn expect_crossed<'a>(
    rt: &(impl AllocGlobal + Abort + Threads + Wait + Sync),
    gate: &'a ForHelpers,
    action: &'a MapAction,
) -> Result<(), Fail>
    requires { IsOfItsMap action.now }
{
    let mut twins = Twins::new(rt.alloc(), action)?;
    let (mut runners, helpers) = Runners::with_helpers(rt.alloc(), gate, 1);
    play_with(
        rt,
        helpers,
        &mut || {
            let crossed = join_and_cross(rt, &mut runners, &mut twins);
            runners.stop();
            crossed
        },
    )
}

#[test]
fn crossing_moves(rt: HostRuntime) -> Result<(), Fail> {
    let action = action(rt.alloc(), &spawn(), &spawn_beside())?;
    expect_crossed(&rt, &ForHelpers, &action)
}
