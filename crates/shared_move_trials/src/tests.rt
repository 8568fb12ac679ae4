ghost use Rattle.std.specs.Prelude.{◌≡◌, ◌<◌, true, length, All, IfOk};
ghost use Rattle.areanode.specs.Trees.{IsTreeDepth};
ghost use Rattle.core_steps.specs.Nodes.{has};
ghost use Rattle.world_tree.specs.Live.{live_in};
ghost use Rattle.ruled_words.specs.Passes.{fixed_in};
ghost use Rattle.trial_passes.specs.Trials.{IsFree};

use crate::beside::{Beside, Second};
use core_trials::Staying;
use entity_recs::Action;
use shared_moves::{Again, Gate, Pass, Shared};
use std::alloc::{AllocGlobal, Global};
use std::process::Abort;
use std::sync::Wait;
use std::test::Fail;
use trial_passes::{far_world, last_world, near_world, plain};
use world_tree::World;

/// The world is shared by two passes with room for so many entries each.
fn shared_by_two<'a, A: Action>(
    alloc: Global,
    action: &'a A,
    world: &World,
    room: u32,
) -> Result<(Shared<'a, A>, Pass<A>, Pass<A>), Fail>
    requires room { 0 < room }
    requires taken { All (λ r. (A.meaning action.now).takes r ≡ true) (live_in world.now.records) }
    ensures shared { IfOk result (λ r. (r.0.action ≡ action.now) × (r.0.world ≡ world.now) × (length r.0.rooms ≡ 2)) }
    ensures first { IfOk result (λ r. IsFree (fixed_in A.meaning r.0) (length r.0.rooms) r.0.table
        0 r.1) }
    ensures second { IfOk result (λ r. IsFree (fixed_in A.meaning r.0) (length r.0.rooms)
        r.0.table 1 r.2) }
{
    let (shared, mut passes) = Shared::start(alloc, action, world, &[room, room])?;
    let second = passes.pop().ok_or("two passes")?;
    let first = passes.pop().ok_or("two passes")?;
    Ok((shared, first, second))
}

/// Runs the command of slot 0 with pass 0, and gives the place, the slot and the number of its entry.
fn run_first<A: Action, R: Wait, G: Gate>(
    rt: &R,
    shared: &Shared<A>,
    pass: &mut Pass<A>,
    gate: &G,
) -> (u64, u8, u32)
    requires two { length shared.now.rooms ≡ 2 }
    requires live { has (fixed_in A.meaning shared.now).start.ids 0 ≡ true }
    requires free { IsFree (fixed_in A.meaning shared.now) (length shared.now.rooms)
        shared.now.table 0 pass.old }
{
    let entry = shared.run(rt, pass, plain(0), gate);
    (entry.place, entry.slot, entry.seq)
}

/// The move of pass 1 was run at once, before the one that was held.
fn expect_passed<A: Action>(rt: &impl Abort, held: (u64, u8, u32), second: &Second<A>) {
    assert_eq!(rt; second.refused(), None);
    assert_eq!(rt; second.ran(), Some((0, 1, 1)));
    assert_eq!(rt; held, (1, 0, 1));
}

/// Runs the command of slot 0 with pass 0, and beside it that of slot 1 with pass 1, which passes it.
fn run_beside(
    rt: &(impl Abort + Wait),
    shared: &Shared<Staying>,
    first: &mut Pass<Staying>,
    second: Pass<Staying>,
)
    requires two { length shared.now.rooms ≡ 2 }
    requires zero { has (fixed_in ⟦<Staying as Action>⟧.meaning shared.now).start.ids 0 ≡ true }
    requires one { has (fixed_in ⟦<Staying as Action>⟧.meaning shared.now).start.ids 1 ≡ true }
    requires first { IsFree (fixed_in ⟦<Staying as Action>⟧.meaning shared.now) (length shared.now.rooms)
        shared.now.table 0 first.old }
    requires second { IsFree (fixed_in ⟦<Staying as Action>⟧.meaning shared.now) (length shared.now.rooms)
        shared.now.table 1 second }
{
    let gate = Beside::new(shared, second);
    let held = run_first(rt, shared, first, &gate);
    expect_passed(rt, held, &gate.into_second());
}

/// Runs two moves that have no leaf in common, in a tree of this depth: the second passes the first, which is held.
fn check_far(rt: &(impl AllocGlobal + Abort + Wait), depth: u8) -> Result<(), Fail>
    requires { IsTreeDepth depth }
{
    let world = far_world(rt.alloc(), depth)?;
    let (shared, mut first, second) = shared_by_two(rt.alloc(), &Staying, &world, 2)?;
    run_beside(rt, &shared, &mut first, second);
    Ok(())
}

#[test]
fn a_far_move_passes_a_held_one(rt: HostRuntime) -> Result<(), Fail> {
    check_far(&rt, 4)
}

#[test]
fn a_far_move_passes_a_held_one_in_a_tree_of_8_or_32_leaves(rt: HostRuntime) -> Result<(), Fail> {
    check_far(&rt, 3)?;
    check_far(&rt, 5)
}

/// The move of pass 1 was refused the first leaf of the one that was held, and is run when it is tried again.
fn expect_refused_once<A: Action>(
    rt: &impl Abort,
    held: (u64, u8, u32),
    second: &mut Second<A>,
    refused: Again,
) {
    assert_eq!(rt; second.refused(), Some(refused));
    assert_eq!(rt; second.ran(), None);
    assert_eq!(rt; held, (0, 0, 1));
    second.attempt();
    assert_eq!(rt; second.ran(), Some((1, 1, 1)));
}

/// The refusal of a leaf that pass 0 holds for a command with these leaves.
fn held_by_first(leaf: u8, leaves: u32) -> Again {
    Again::Held {
        leaf,
        holder: 0,
        leaves,
    }
}

/// Runs the command of slot 0 with pass 0, and beside it that of slot 1 with pass 1, which is refused so.
fn run_against(
    rt: &(impl Abort + Wait),
    shared: &Shared<Staying>,
    first: &mut Pass<Staying>,
    second: Pass<Staying>,
    refused: Again,
)
    requires two { length shared.now.rooms ≡ 2 }
    requires zero { has (fixed_in ⟦<Staying as Action>⟧.meaning shared.now).start.ids 0 ≡ true }
    requires one { has (fixed_in ⟦<Staying as Action>⟧.meaning shared.now).start.ids 1 ≡ true }
    requires first { IsFree (fixed_in ⟦<Staying as Action>⟧.meaning shared.now) (length shared.now.rooms)
        shared.now.table 0 first.old }
    requires second { IsFree (fixed_in ⟦<Staying as Action>⟧.meaning shared.now) (length shared.now.rooms)
        shared.now.table 1 second }
{
    let gate = Beside::new(shared, second);
    let held = run_first(rt, shared, first, &gate);
    expect_refused_once(rt, held, &mut gate.into_second(), refused);
}

/// Runs two moves that need the same leaves of a tree of this depth, from leaf 0 on: the second is refused leaf 0 while
/// the first is held.
fn check_near(rt: &(impl AllocGlobal + Abort + Wait), depth: u8, leaves: u32) -> Result<(), Fail>
    requires { IsTreeDepth depth }
{
    let world = near_world(rt.alloc(), depth)?;
    let (shared, mut first, second) = shared_by_two(rt.alloc(), &Staying, &world, 2)?;
    run_against(rt, &shared, &mut first, second, held_by_first(0, leaves));
    Ok(())
}

#[test]
fn a_near_move_is_refused_until_the_held_one_has_ended(rt: HostRuntime) -> Result<(), Fail> {
    check_near(&rt, 4, 0b1)
}

#[test]
fn a_near_move_is_refused_in_a_tree_of_8_or_32_leaves(rt: HostRuntime) -> Result<(), Fail> {
    check_near(&rt, 3, 0b1)?;
    // The players stand on the cut between the first two of 32 leaves.
    check_near(&rt, 5, 0b11)
}

#[test]
fn a_refusal_names_the_last_two_of_32_leaves(rt: HostRuntime) -> Result<(), Fail> {
    let world = last_world(rt.alloc())?;
    let (shared, mut first, second) = shared_by_two(rt.alloc(), &Staying, &world, 2)?;
    let refused = held_by_first(30, 0xc000_0000);
    run_against(&rt, &shared, &mut first, second, refused);
    Ok(())
}
