ghost use Rattle.std.specs.Prelude.{◌≡◌, ◌≤◌, true, unsigned_abs};
ghost use Rattle.arena_actions.specs.MapActions.{IsOfItsMap};
ghost use Rattle.arena_map.specs.MapLines.{IsWithinLimits, is_added};

use super::for_helpers::ForHelpers;
use super::oracle::{Move, Twins};
use super::{action_of, arena, at};
use arena_actions::MapAction;
use arena_map::{ArenaMap, MapLine, MapRefusal};
use crew::play_with;
use move_phase::Runners;
use std::alloc::{AllocError, AllocGlobal, Global};
use std::process::Abort;
use std::sync::Wait;
use std::test::Fail;
use std::thread::Threads;

/// Where the columns and the rows of the spawns are, from 91,000 up.
fn place(number: u8) -> i32
    requires few { number ≤ 63 }
    ensures near { unsigned_abs result ≤ 1048576 }
{
    i32::from(number) * 8_704 + 91_000
}

/// The spawn of this number in rows of four. All players there need the same one leaf.
fn spawn_in_rows(number: u8) -> MapLine
    ensures added { is_added result ≡ true }
    ensures limits { IsWithinLimits result }
{
    MapLine::Spawn {
        at: at(place(number % 4), place(number / 4), 6_144),
    }
}

/// The arena with sixteen of these spawns.
fn crowded_map(alloc: Global) -> Result<ArenaMap, MapRefusal> {
    let mut map = ArenaMap::new(alloc, &arena())?;
    for number in 0..16 {
        map.add(&spawn_in_rows(number))?;
    }
    Ok(map)
}

/// Eight moves without a wish of each of sixteen players.
fn moves_in_place(alloc: Global) -> Result<Vec<Move>, AllocError> {
    let mut moves = Vec::new(alloc);
    for number in 0..128_u8 {
        moves.push(Move {
            slot: number % 16,
            seq: number / 16 + 1,
            wish_x: 0,
            wish_y: 0,
        })?;
    }
    Ok(moves)
}

/// A frame in which sixteen players join and make their moves, on sixteen workers.
fn join_and_stay<'a>(
    rt: &(impl AllocGlobal + Abort + Threads + Wait + Sync),
    runners: &mut Runners<'a, ForHelpers>,
    twins: &mut Twins<'a>,
) -> Result<(), Fail> {
    let moves = moves_in_place(rt.alloc())?;
    assert_eq!(rt; moves.len(), 128);
    twins.play(rt, runners, 16, moves.as_slice(), 16)
}

/// The same on two servers of this action's map, with fifteen helpers.
fn expect_stayed<'a>(
    rt: &(impl AllocGlobal + Abort + Threads + Wait + Sync),
    gate: &'a ForHelpers,
    action: &'a MapAction,
) -> Result<(), Fail>
    requires { IsOfItsMap action.now }
{
    let mut twins = Twins::new(rt.alloc(), action)?;
    let (mut runners, helpers) = Runners::with_helpers(rt.alloc(), gate, 15);
    play_with(
        rt,
        helpers,
        &mut || {
            let stayed = join_and_stay(rt, &mut runners, &mut twins);
            runners.stop();
            stayed
        },
    )
}

#[test]
fn sixteen_on_one_leaf(rt: HostRuntime) -> Result<(), Fail> {
    let action = action_of(rt.alloc(), crowded_map(rt.alloc()))?;
    expect_stayed(&rt, &ForHelpers, &action)
}
