ghost use Rattle.std.specs.Prelude.{◌≡◌, ◌%◌, true, length, IfOk};
ghost use Rattle.areanode.specs.Trees.{IsTreeDepth};
ghost use Rattle.core_steps.specs.Nodes.{has};
ghost use Rattle.core_steps.specs.Points.{Idle};
ghost use Rattle.core_steps.specs.Steps.{is_taking};
ghost use Rattle.ruled_words.specs.Passes.{fixed_in, IsOwn};
ghost use Rattle.shared_moves.specs.InHand.{MayBegin};
ghost use Rattle.trial_passes.specs.Trials.{IsFree};

use core_trials::{FIRST, NEAR, Staying};
use entity_recs::{Action, Cmd};
use move_journal::LogList;
use region_locks::{NodeTable, Pass};
use shared_moves::Holder;
use std::alloc::AllocGlobal;
use std::process::Abort;
use std::test::Fail;
use trial_passes::{give_up, last_world, near_world, plain, table_of_two, take};

/// Gives the pass a command, and loads its own record.
fn begin<A: Action>(table: &NodeTable<A>, pass: &mut Pass<A>, cmd: Cmd)
    requires own { IsOwn A.meaning table.now pass.old }
    requires free { MayBegin pass.old }
    requires live { has (fixed_in A.meaning table.now).start.ids cmd.slot ≡ true }
    requires serves { cmd.slot % length table.now.rooms ≡ pass.old.number }
    ensures { IsOwn A.meaning table.now
        pass.new }
{
    let slot = cmd.slot;
    table.begin(pass, cmd);
    table.load_rec(pass, slot);
}

/// Gives each pass the command of its slot.
fn begin_both<A: Action>(table: &NodeTable<A>, first: &mut Pass<A>, second: &mut Pass<A>)
    requires two { length table.now.rooms ≡ 2 }
    requires zero { has (fixed_in A.meaning table.now).start.ids 0 ≡ true }
    requires one { has (fixed_in A.meaning table.now).start.ids 1 ≡ true }
    requires first { IsFree (fixed_in A.meaning table.now) (length table.now.rooms)
        table.now.table 0 first.old }
    requires second { IsFree (fixed_in A.meaning table.now) (length table.now.rooms)
        table.now.table 1 second.old }
    ensures first { IsOwn A.meaning table.now first.new }
    ensures second { IsOwn A.meaning table.now second.new }
{
    begin(table, first, plain(0));
    begin(table, second, plain(1));
}

/// The pass is refused this node, which pass 0 holds for a command with these leaves.
fn expect_refused<A: Action>(
    rt: &impl Abort,
    table: &NodeTable<A>,
    pass: &mut Pass<A>,
    node: u8,
    leaves: u32,
) -> Result<(), Fail>
    requires { IsOwn A.meaning table.now
        pass.old }
    ensures own { IfOk result (λ _. IsOwn A.meaning table.now pass.new) }
    ensures taking { IfOk result (λ _. is_taking pass.new.view.point ≡ true) }
{
    let holder = take(table, pass, node)?.ok_or("a holder")?;
    assert_eq!(rt; holder, Holder { number: 0, leaves });
    Ok(())
}

/// Pass 1 is given the command of slot 1 once more.
fn begin_again<A: Action>(table: &NodeTable<A>, pass: &mut Pass<A>) -> Result<(), Fail>
    requires two { length table.now.rooms ≡ 2 }
    requires one { has (fixed_in A.meaning table.now).start.ids 1 ≡ true }
    requires own { IsOwn A.meaning table.now pass.old }
    requires free { MayBegin pass.old }
{
    if pass.number() != 1 {
        return Err("another number".into());
    }
    begin(table, pass, plain(1));
    Ok(())
}

/// Of two passes that need the same leaves, from that with this node on, the first takes it. The second is refused it,
/// gives up, and may begin again.
fn take_in_turn<A: Action>(
    rt: &impl Abort,
    table: &NodeTable<A>,
    first: &mut Pass<A>,
    second: &mut Pass<A>,
    node: u8,
    leaves: u32,
) -> Result<(), Fail>
    requires two { length table.now.rooms ≡ 2 }
    requires zero { has (fixed_in A.meaning table.now).start.ids 0 ≡ true }
    requires one { has (fixed_in A.meaning table.now).start.ids 1 ≡ true }
    requires first { IsFree (fixed_in A.meaning table.now) (length table.now.rooms)
        table.now.table 0 first.old }
    requires second { IsFree (fixed_in A.meaning table.now) (length table.now.rooms)
        table.now.table 1 second.old }
{
    begin_both(table, first, second);
    assert_eq!(rt; take(table, first, node)?, None);
    expect_refused(rt, table, second, node, leaves)?;
    give_up(table, second)?;
    assert_eq!(rt; second.seen(), 0);
    begin_again(table, second)
}

/// The same of passes that are used up.
fn expect_one_holder<A: Action>(
    rt: &impl Abort,
    table: &NodeTable<A>,
    mut first: Pass<A>,
    mut second: Pass<A>,
    node: u8,
    leaves: u32,
) -> Result<(), Fail>
    requires two { length table.now.rooms ≡ 2 }
    requires zero { has (fixed_in A.meaning table.now).start.ids 0 ≡ true }
    requires one { has (fixed_in A.meaning table.now).start.ids 1 ≡ true }
    requires first { IsFree (fixed_in A.meaning table.now) (length table.now.rooms)
        table.now.table 0 first }
    requires second { IsFree (fixed_in A.meaning table.now) (length table.now.rooms)
        table.now.table 1 second }
{
    take_in_turn(rt, table, &mut first, &mut second, node, leaves)
}

/// Two passes need the same leaves of a tree of this depth, whose first leaf has this node.
fn check_holder(
    rt: &(impl AllocGlobal + Abort),
    depth: u8,
    node: u8,
    leaves: u32,
) -> Result<(), Fail>
    requires { IsTreeDepth depth }
{
    let world = near_world(rt.alloc(), depth)?;
    let (table, first, second) = table_of_two(rt.alloc(), &Staying, &world, 1)?;
    expect_one_holder(rt, &table, first, second, node, leaves)
}

#[test]
fn a_refused_take_names_its_holder(rt: HostRuntime) -> Result<(), Fail> {
    check_holder(&rt, 4, 15, 0b1)
}

#[test]
fn a_refused_take_names_its_holder_among_8_or_32_leaves(rt: HostRuntime) -> Result<(), Fail> {
    check_holder(&rt, 3, 7, 0b1)?;
    check_holder(&rt, 5, 31, 0b11)
}

#[test]
fn a_holder_has_the_last_two_of_32_leaves(rt: HostRuntime) -> Result<(), Fail> {
    let world = last_world(rt.alloc())?;
    let (table, first, second) = table_of_two(rt.alloc(), &Staying, &world, 1)?;
    expect_one_holder(&rt, &table, first, second, 61, 0xc000_0000)
}

/// The pass, which has no command in hand, looks at the count of commits, and has then seen it.
fn expect_count<A: Action>(rt: &impl Abort, table: &NodeTable<A>, pass: &mut Pass<A>, count: u64)
    requires own { IsOwn A.meaning table.now pass.old }
    requires none { (pass.old.given ≡ None) × (pass.old.view.point ≡ Idle) }
    ensures own { IsOwn A.meaning table.now pass.new }
    ensures none { (pass.new.given ≡ None) × (pass.new.view.point ≡ Idle) }
{
    assert_eq!(rt; table.look(pass), count);
    assert_eq!(rt; pass.seen(), count);
}

/// Pass 1 looks before pass 0 has run the command of slot 0, and after it.
fn look_twice<A: Action>(
    rt: &impl Abort,
    table: &NodeTable<A>,
    first: &mut Pass<A>,
    second: &mut Pass<A>,
) -> Result<(), Fail>
    requires two { length table.now.rooms ≡ 2 }
    requires zero { has (fixed_in A.meaning table.now).start.ids 0 ≡ true }
    requires first { IsFree (fixed_in A.meaning table.now) (length table.now.rooms)
        table.now.table 0 first.old }
    requires second { IsFree (fixed_in A.meaning table.now) (length table.now.rooms)
        table.now.table 1 second.old }
{
    expect_count(rt, table, second, 0);
    let Ok(entry) = table.try_run(first, plain(0)) else {
        return Err("a refused take".into());
    };
    assert_eq!(rt; (entry.place, second.seen()), (0, 0));
    expect_count(rt, table, second, 1);
    expect_count(rt, table, second, 1);
    Ok(())
}

/// The same of passes that are used up.
fn check_look<A: Action>(
    rt: &impl Abort,
    table: &NodeTable<A>,
    mut first: Pass<A>,
    mut second: Pass<A>,
) -> Result<(), Fail>
    requires two { length table.now.rooms ≡ 2 }
    requires zero { has (fixed_in A.meaning table.now).start.ids 0 ≡ true }
    requires first { IsFree (fixed_in A.meaning table.now) (length table.now.rooms)
        table.now.table 0 first }
    requires second { IsFree (fixed_in A.meaning table.now) (length table.now.rooms)
        table.now.table 1 second }
{
    look_twice(rt, table, &mut first, &mut second)
}

#[test]
fn a_pass_that_looks_has_seen_what_others_committed(rt: HostRuntime) -> Result<(), Fail> {
    let world = near_world(rt.alloc(), 4)?;
    let (table, first, second) = table_of_two(rt.alloc(), &Staying, &world, 1)?;
    check_look(&rt, &table, first, second)
}

/// Pass 0 has these leaves once the own record of its command was loaded, and none before.
fn expect_leaves<A: Action>(rt: &impl Abort, table: &NodeTable<A>, mut pass: Pass<A>, leaves: u32)
    requires two { length table.now.rooms ≡ 2 }
    requires zero { has (fixed_in A.meaning table.now).start.ids 0 ≡ true }
    requires free { IsFree (fixed_in A.meaning table.now) (length table.now.rooms)
        table.now.table 0 pass }
{
    assert_eq!(rt; pass.leaves(), 0);
    table.begin(&mut pass, plain(0));
    assert_eq!(rt; pass.leaves(), 0);
    table.load_rec(&mut pass, 0);
    assert_eq!(rt; pass.leaves(), leaves);
}

/// The player of slot 0, near the first corner of the arena, has these leaves of a tree of this depth.
fn check_leaves(rt: &(impl AllocGlobal + Abort), depth: u8, leaves: u32) -> Result<(), Fail>
    requires { IsTreeDepth depth }
{
    let world = near_world(rt.alloc(), depth)?;
    let (table, first, _) = table_of_two(rt.alloc(), &Staying, &world, 1)?;
    expect_leaves(rt, &table, first, leaves);
    Ok(())
}

#[test]
fn a_pass_has_the_leaves_of_its_command_once_its_record_is_loaded(
    rt: HostRuntime,
) -> Result<(), Fail> {
    check_leaves(&rt, 3, 0b1)?;
    check_leaves(&rt, 4, 0b1)?;
    // At depth 5 the player stands on the cut between the first two of 32 leaves.
    check_leaves(&rt, 5, 0b11)
}

#[test]
fn a_pass_has_the_last_two_of_32_leaves(rt: HostRuntime) -> Result<(), Fail> {
    let world = last_world(rt.alloc())?;
    let (table, first, _) = table_of_two(rt.alloc(), &Staying, &world, 1)?;
    expect_leaves(&rt, &table, first, 0xc000_0000);
    Ok(())
}

/// The logs of two passes that have room for one and two entries, and have made none.
fn expect_empty_logs(rt: &impl Abort, logs: &LogList) -> Result<(), Fail> {
    let [first, second] = logs.as_slice() else {
        return Err("two logs".into());
    };
    assert_eq!(rt; (first.room(), second.room()), (1, 2));
    assert_eq!(rt; (first.as_slice().len(), second.as_slice().len()), (0, 0));
    Ok(())
}

#[test]
fn a_table_without_moves_closes_with_its_world(rt: HostRuntime) -> Result<(), Fail> {
    let mut world = near_world(rt.alloc(), 4)?;
    let (table, passes) = NodeTable::new(rt.alloc(), &Staying, &world, &[1, 2])?;
    let mut logs = LogList::new(rt.alloc());
    table.close(passes, &mut world, &mut logs);
    expect_empty_logs(&rt, &logs)?;
    assert_eq!(rt; (world.get(0), world.get(1)), (Some(FIRST), Some(NEAR)));
    Ok(())
}
