ghost use Rattle.std.specs.Prelude.{◌≡◌, true, length, Some, IfOk};
ghost use Rattle.core_steps.specs.Nodes.{has};
ghost use Rattle.ruled_words.specs.Passes.{fixed_in, IsOwn};
ghost use Rattle.trial_passes.specs.Trials.{IsFree, IsResting};

use core_steps::{StepKind, node_word};
use core_trials::{FIRST, Staying};
use entity_recs::{Action, Rec};
use move_journal::{Log, LogList};
use region_locks::{NodeTable, Pass};
use shared_moves::Again;
use std::alloc::AllocGlobal;
use std::process::Abort;
use std::test::Fail;
use trial_passes::{
    FAR, MOST_CALLS, close_both, far_world, finish, go, plain, ran, refused, table_of_two,
};
use world_tree::World;

/// Gives pass 0 the command of slot 0.
fn begin<A: Action>(table: &NodeTable<A>, pass: &mut Pass<A>)
    requires two { length table.now.rooms ≡ 2 }
    requires live { has (fixed_in A.meaning table.now).start.ids 0 ≡ true }
    requires free { IsFree (fixed_in A.meaning table.now) (length table.now.rooms)
        table.now.table 0 pass.old }
    ensures { IsOwn A.meaning table.now pass.new }
{
    table.begin(pass, plain(0));
}

/// Whether the pass takes the root next.
fn takes_root<A: Action>(table: &NodeTable<A>, pass: &Pass<A>) -> bool
    requires { IsOwn A.meaning table.now pass.now }
{
    match table.next(pass) {
        Some(step) => step.kind == StepKind::Take && step.word == node_word(0),
        None => false,
    }
}

/// Makes the calls of pass 0 up to the take of the root, which it holds then.
fn take_root<A: Action>(table: &NodeTable<A>, pass: &mut Pass<A>) -> Result<(), Fail>
    requires { IsOwn A.meaning table.now pass.old }
    ensures { IfOk result (λ _. IsOwn A.meaning table.now pass.new) }
{
    for _ in 0..MOST_CALLS {
        let is_last = takes_root(table, pass);
        go(table, pass)?;
        if is_last {
            return Ok(());
        }
    }
    Err("the root wasn't reached".into())
}

/// The command of pass 1 isn't run, since pass 0 holds the root, and leaves no trace.
fn expect_busy<A: Action>(
    rt: &impl Abort,
    table: &NodeTable<A>,
    pass: &mut Pass<A>,
) -> Result<(), Fail>
    requires two { length table.now.rooms ≡ 2 }
    requires live { has (fixed_in A.meaning table.now).start.ids 1 ≡ true }
    requires free { IsFree (fixed_in A.meaning table.now) (length table.now.rooms)
        table.now.table 1 pass.old }
    ensures { IfOk result (λ _. IsFree (fixed_in A.meaning table.now) (length table.now.rooms)
        table.now.table 1 pass.new) }
{
    let again = refused(table, pass, plain(1))?;
    let busy = Again::Busy { node: 0, holder: 0 };
    assert_eq!(rt; (again, pass.seen()), (busy, 0));
    Ok(())
}

/// Runs the command of pass 0. While it holds the root, that of pass 1 is tried.
fn run_first<A: Action>(
    rt: &impl Abort,
    table: &NodeTable<A>,
    first: &mut Pass<A>,
    second: &mut Pass<A>,
) -> Result<(), Fail>
    requires two { length table.now.rooms ≡ 2 }
    requires live { has (fixed_in A.meaning table.now).start.ids 1 ≡ true }
    requires first { IsOwn A.meaning table.now first.old }
    requires second { IsFree (fixed_in A.meaning table.now) (length table.now.rooms)
        table.now.table 1 second.old }
    ensures first { IfOk result (λ _. IsResting (fixed_in A.meaning table.now)
        (length table.now.rooms) table.now.table 0 first.new) }
    ensures second { IfOk result (λ _. IsFree (fixed_in A.meaning table.now)
        (length table.now.rooms) table.now.table 1 second.new) }
{
    take_root(table, first)?;
    expect_busy(rt, table, second)?;
    assert_eq!(rt; finish(table, first)?, Some(0));
    Ok(())
}

/// Runs the commands of both passes, that of pass 1 at its second try.
fn run_both<A: Action>(
    rt: &impl Abort,
    table: &NodeTable<A>,
    first: &mut Pass<A>,
    second: &mut Pass<A>,
) -> Result<(), Fail>
    requires two { length table.now.rooms ≡ 2 }
    requires zero { has (fixed_in A.meaning table.now).start.ids 0 ≡ true }
    requires one { has (fixed_in A.meaning table.now).start.ids 1 ≡ true }
    requires first { IsFree (fixed_in A.meaning table.now) (length table.now.rooms)
        table.now.table 0 first.old }
    requires second { IsFree (fixed_in A.meaning table.now) (length table.now.rooms)
        table.now.table 1 second.old }
    ensures first { IfOk result (λ _. IsResting (fixed_in A.meaning table.now)
        (length table.now.rooms) table.now.table 0 first.new) }
    ensures second { IfOk result (λ _. IsResting (fixed_in A.meaning table.now)
        (length table.now.rooms) table.now.table 1 second.new) }
{
    begin(table, first);
    run_first(rt, table, first, second)?;
    let entry = ran(table, second, plain(1))?;
    assert_eq!(rt; entry.place, 1);
    Ok(())
}

/// The places and the slots of the entries of a log that has one.
fn only_entry(log: &Log) -> Result<(u64, u8), Fail> {
    let [entry] = log.as_slice() else {
        return Err("one entry".into());
    };
    Ok((entry.place, entry.slot))
}

/// Each pass has one entry, that of its slot.
fn expect_logs(rt: &impl Abort, logs: &LogList) -> Result<(), Fail> {
    let [one, two] = logs.as_slice() else {
        return Err("two logs".into());
    };
    assert_eq!(rt; (only_entry(one)?, only_entry(two)?), ((0, 0), (1, 1)));
    Ok(())
}

/// Each player's record has the number of its command.
fn expect_moved(rt: &impl Abort, world: &World) {
    assert_eq!(rt; world.get(0), Some(Rec { seq: 1, ..FIRST }));
    assert_eq!(rt; world.get(1), Some(Rec { seq: 1, ..FAR }));
}

/// Runs the commands of both passes, and closes the table: each pass has one entry.
fn expect_both_run<A: Action>(
    rt: &(impl AllocGlobal + Abort),
    table: NodeTable<A>,
    mut first: Pass<A>,
    mut second: Pass<A>,
    world: &mut World,
) -> Result<(), Fail>
    requires two { length table.rooms ≡ 2 }
    requires zero { has (fixed_in A.meaning table).start.ids 0 ≡ true }
    requires one { has (fixed_in A.meaning table).start.ids 1 ≡ true }
    requires first { IsFree (fixed_in A.meaning table) (length table.rooms) table.table 0
        first }
    requires second { IsFree (fixed_in A.meaning table) (length table.rooms) table.table 1
        second }
    requires world { world.old ≡ table.world }
{
    run_both(rt, &table, &mut first, &mut second)?;
    let logs = close_both(rt.alloc(), table, first, second, world)?;
    expect_logs(rt, &logs)
}

#[test]
fn a_held_root_is_busy_and_a_refused_move_leaves_no_trace(rt: HostRuntime) -> Result<(), Fail> {
    let mut world = far_world(rt.alloc(), 4)?;
    let (table, first, second) = table_of_two(rt.alloc(), &Staying, &world, 2)?;
    expect_both_run(&rt, table, first, second, &mut world)?;
    expect_moved(&rt, &world);
    Ok(())
}
