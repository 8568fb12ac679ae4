ghost use Rattle.std.specs.Prelude.{◌≡◌, ◌<◌, ◌%◌, ◌∷◌, [], true, length, All, Some, IfOk, IfSome};
ghost use Rattle.world_tree.specs.Live.{live_in};
ghost use Rattle.core_steps.specs.Nodes.{has};
ghost use Rattle.core_steps.specs.Steps.{is_taking};
ghost use Rattle.ruled_words.specs.Passes.{fixed_in, IsOwn};
ghost use Rattle.shared_moves.specs.InHand.{MayBegin};
ghost use Rattle.trial_passes.specs.Trials.{IsFree, IsResting};

use core_steps::{StepKind, node_word};
use entity_recs::{Action, Cmd, Entry};
use move_journal::LogList;
use region_locks::{NodeTable, Pass, PassList};
use shared_moves::{Again, Holder};
use std::alloc::{AllocError, Global};
use std::test::Fail;
use world_tree::World;

/// A table of the world for two passes with room for so many entries each.
pub fn table_of_two<'a, A: Action>(
    alloc: Global,
    action: &'a A,
    world: &World,
    room: u32,
) -> Result<(NodeTable<'a, A>, Pass<A>, Pass<A>), Fail>
    requires room { 0 < room }
    requires taken { All (λ r. (A.meaning action.now).takes r ≡ true) (live_in world.now.records) }
    ensures table { IfOk result (λ r. (r.0.action ≡ action.now) × (r.0.world ≡ world.now) × (length r.0.rooms ≡ 2)) }
    ensures first { IfOk result (λ r. IsFree (fixed_in A.meaning r.0) (length r.0.rooms) r.0.table
        0 r.1) }
    ensures second { IfOk result (λ r. IsFree (fixed_in A.meaning r.0) (length r.0.rooms)
        r.0.table 1 r.2) }
{
    let (table, mut passes) = NodeTable::new(alloc, action, world, &[room, room])?;
    let second = passes.pop().ok_or("two passes")?;
    let first = passes.pop().ok_or("two passes")?;
    Ok((table, first, second))
}

/// Takes this node, which is the pass's next step.
pub fn take<A: Action>(
    table: &NodeTable<A>,
    pass: &mut Pass<A>,
    node: u8,
) -> Result<Option<Holder>, Fail>
    requires { IsOwn A.meaning table.now
        pass.old }
    ensures own { IsOwn A.meaning table.now
        pass.new }
    ensures refused { IfOk result (λ r. IfSome r (λ h. is_taking pass.new.view.point ≡ true)) }
{
    let Some(step) = table.next(pass) else {
        return Err("no step".into());
    };
    if step.word != node_word(node) {
        return Err("another word".into());
    }
    match step.kind {
        StepKind::Take => Ok(table.take(pass, node).err()),
        _ => Err("not a take".into()),
    }
}

/// The pass gives up its command, of which nothing is left.
pub fn give_up<A: Action>(table: &NodeTable<A>, pass: &mut Pass<A>) -> Result<(), Fail>
    requires own { IsOwn A.meaning table.now pass.old }
    requires taking { is_taking pass.old.view.point ≡ true }
    ensures own { IfOk result (λ _. IsOwn A.meaning table.now pass.new) }
    ensures free { IfOk result (λ _. MayBegin pass.new) }
{
    table.quit(pass);
    let None = table.next(pass) else {
        return Err("a step".into());
    };
    Ok(())
}

/// Tries a command with pass 1, and gives why it wasn't run.
pub fn refused<A: Action>(table: &NodeTable<A>, pass: &mut Pass<A>, cmd: Cmd) -> Result<Again, Fail>
    requires two { length table.now.rooms ≡ 2 }
    requires live { has (fixed_in A.meaning table.now).start.ids cmd.slot ≡ true }
    requires serves { cmd.slot % 2 ≡ 1 }
    requires free { IsFree (fixed_in A.meaning table.now) (length table.now.rooms)
        table.now.table 1 pass.old }
    ensures { IfOk result (λ _. IsFree (fixed_in A.meaning table.now) (length table.now.rooms)
        table.now.table 1 pass.new) }
{
    match table.try_run(pass, cmd) {
        Ok(_) => Err("the command was run".into()),
        Err(again) => Ok(again),
    }
}

/// Tries a command with pass 1, and gives its entry.
pub fn ran<A: Action>(table: &NodeTable<A>, pass: &mut Pass<A>, cmd: Cmd) -> Result<Entry, Fail>
    requires two { length table.now.rooms ≡ 2 }
    requires live { has (fixed_in A.meaning table.now).start.ids cmd.slot ≡ true }
    requires serves { cmd.slot % 2 ≡ 1 }
    requires free { IsFree (fixed_in A.meaning table.now) (length table.now.rooms)
        table.now.table 1 pass.old }
    ensures { IfOk result (λ _. IsResting (fixed_in A.meaning table.now)
        (length table.now.rooms) table.now.table 1 pass.new) }
{
    match table.try_run(pass, cmd) {
        Ok(entry) => Ok(entry),
        Err(_) => Err("a node was held".into()),
    }
}

/// The two passes as a list.
fn both<A: Action>(
    alloc: Global,
    first: Pass<A>,
    second: Pass<A>,
) -> Result<PassList<A>, AllocError>
    ensures { IfOk result (λ passes. passes.items ≡ first ∷ second ∷ []) }
{
    let mut passes = Vec::with_capacity(alloc, 2)?;
    passes.push_reserved(first);
    passes.push_reserved(second);
    Ok(passes)
}

/// Closes the table of two passes, and gives their logs.
pub fn close_both<A: Action>(
    alloc: Global,
    table: NodeTable<A>,
    first: Pass<A>,
    second: Pass<A>,
    world: &mut World,
) -> Result<LogList, AllocError>
    requires two { length table.rooms ≡ 2 }
    requires first { IsResting (fixed_in A.meaning table) (length table.rooms) table.table 0
        first }
    requires second { IsResting (fixed_in A.meaning table) (length table.rooms) table.table 1
        second }
    requires world { world.old ≡ table.world }
{
    let passes = both(alloc, first, second)?;
    let mut logs = LogList::new(alloc);
    table.close(passes, world, &mut logs);
    Ok(logs)
}
