ghost use Rattle.std.specs.Prelude.{◌≡◌, ◌+◌, ◌*◌, ◌<◌, false, length, Some, IfOk};
ghost use Rattle.core_steps.specs.declared.sizes.TheConstants.{FIRST_LIST_WORD, FIRST_RECORD_WORD};
ghost use Rattle.core_steps.specs.declared.step.StepKind.TheVariants as kinds;
ghost use Rattle.ruled_words.specs.Passes.{fixed_in, IsOwn};
ghost use Rattle.region_locks.specs.Quitting.{has_next_step, next_step};
ghost use Rattle.trial_passes.specs.Trials.{IsResting};

use core_steps::{FIRST_LIST_WORD, FIRST_NODE_WORD, FIRST_RECORD_WORD, Step, StepKind};
use entity_recs::{Action, Entry, SLOTS};
use region_locks::{NodeTable, Pass};
use std::test::Fail;

/// The most calls that a pass makes for one move in a test.
pub const MOST_CALLS: u16 = 200;

/// The node whose word this is, or whose list word it is, by the index of that of node 0.
fn node_at(word: u16, first: u16) -> Result<u8, Fail>
    ensures { IfOk result (λ node. word ≡ first + node) }
{
    if word < first || word - first > 62 {
        return Err("no node".into());
    }
    Ok((word - first) as u8)
}

/// The player whose record begins with this word.
fn slot_at(word: u16) -> Result<u8, Fail>
    ensures { IfOk result (λ slot. (slot < 64) × (word ≡ FIRST_RECORD_WORD + 5 * slot)) }
{
    if word < FIRST_RECORD_WORD {
        return Err("no record".into());
    }
    let from = word - FIRST_RECORD_WORD;
    if from % 5 != 0 || usize::from(from) >= 5 * SLOTS {
        return Err("not the first word of a record".into());
    }
    Ok((from / 5) as u8)
}

/// Takes the node whose word this is, which is to be free.
fn take_free<A: Action>(table: &NodeTable<A>, pass: &mut Pass<A>, step: Step) -> Result<(), Fail>
    requires own { IsOwn A.meaning table.now pass.old }
    requires next { next_step (fixed_in A.meaning table.now) pass.old ≡ Some step }
    requires kind { step.kind ≡ kinds.Take }
    ensures { IfOk result (λ _. IsOwn A.meaning table.now pass.new) }
{
    let node = node_at(step.word, FIRST_NODE_WORD)?;
    match table.take(pass, node) {
        Ok(()) => Ok(()),
        Err(_) => Err("a take was refused".into()),
    }
}

/// Gives back the node whose word this is.
fn give_back<A: Action>(table: &NodeTable<A>, pass: &mut Pass<A>, step: Step) -> Result<(), Fail>
    requires own { IsOwn A.meaning table.now pass.old }
    requires next { next_step (fixed_in A.meaning table.now) pass.old ≡ Some step }
    requires kind { step.kind ≡ kinds.GiveBack }
    ensures { IfOk result (λ _. IsOwn A.meaning table.now pass.new) }
{
    let node = node_at(step.word, FIRST_NODE_WORD)?;
    table.give_back(pass, node);
    Ok(())
}

/// Loads the list word of the node whose list word this is.
fn load_list<A: Action>(table: &NodeTable<A>, pass: &mut Pass<A>, step: Step) -> Result<(), Fail>
    requires own { IsOwn A.meaning table.now pass.old }
    requires next { next_step (fixed_in A.meaning table.now) pass.old ≡ Some step }
    requires kind { step.kind ≡ kinds.LoadList }
    ensures { IfOk result (λ _. IsOwn A.meaning table.now pass.new) }
{
    let node = node_at(step.word, FIRST_LIST_WORD)?;
    table.load_list(pass, node);
    Ok(())
}

/// Loads the record of the player whose first word this is. In these tests there are no things of a map.
fn load_rec<A: Action>(table: &NodeTable<A>, pass: &mut Pass<A>, step: Step) -> Result<(), Fail>
    requires own { IsOwn A.meaning table.now pass.old }
    requires next { next_step (fixed_in A.meaning table.now) pass.old ≡ Some step }
    requires kind { step.kind ≡ kinds.Load }
    ensures { IfOk result (λ _. IsOwn A.meaning table.now pass.new) }
{
    let slot = slot_at(step.word)?;
    table.load_rec(pass, slot);
    Ok(())
}

/// Gives the pass the effect of its command, where it has one in hand.
fn resolve<A: Action>(table: &NodeTable<A>, pass: &mut Pass<A>) -> Result<(), Fail>
    requires own { IsOwn A.meaning table.now pass.old }
    requires none { has_next_step pass.old ≡ false }
    ensures { IfOk result (λ _. IsOwn A.meaning table.now pass.new) }
{
    if pass.has_command() {
        let effect = table.effect(pass);
        table.resolve(pass, effect);
        return Ok(());
    }
    Err("no command".into())
}

/// Makes the pass's next call, whichever it is, which is to be none that is refused. Gives the entry of the commit, if it
/// was one.
pub fn go<A: Action>(table: &NodeTable<A>, pass: &mut Pass<A>) -> Result<Option<Entry>, Fail>
    requires { IsOwn A.meaning table.now pass.old }
    ensures { IfOk result (λ _. IsOwn A.meaning table.now pass.new) }
{
    let Some(step) = table.next(pass) else {
        resolve(table, pass)?;
        return Ok(None);
    };
    match step.kind {
        StepKind::Take => take_free(table, pass, step)?,
        StepKind::GiveBack => give_back(table, pass, step)?,
        StepKind::LoadList => load_list(table, pass, step)?,
        StepKind::Load => load_rec(table, pass, step)?,
        StepKind::Commit => return Ok(Some(table.commit(pass))),
        StepKind::Bit if pass.unlinks_next() => table.unlink(pass),
        StepKind::Bit => table.link(pass),
        StepKind::Store => table.store_next(pass),
        StepKind::Count => return Err("the count".into()),
    }
    Ok(None)
}

/// Pass 0 has no command in hand.
fn ended<A: Action>(table: &NodeTable<A>, pass: &Pass<A>) -> Result<(), Fail>
    requires own { IsOwn A.meaning table.now pass.now }
    ensures { IfOk result (λ _. IsResting (fixed_in A.meaning table.now) (length table.now.rooms) table.now.table 0
        pass.now) }
{
    if pass.has_command() {
        return Err("no end".into());
    }
    if pass.number() != 0 {
        return Err("another number".into());
    }
    Ok(())
}

/// Makes calls until pass 0 has no command in hand, and gives the place of the commit, if it was among them.
pub fn finish<A: Action>(table: &NodeTable<A>, pass: &mut Pass<A>) -> Result<Option<u64>, Fail>
    requires { IsOwn A.meaning table.now pass.old }
    ensures { IfOk result (λ _. IsResting (fixed_in A.meaning table.now) (length table.now.rooms) table.now.table 0
        pass.new) }
{
    let mut place = None;
    for _ in 0..MOST_CALLS {
        if !pass.has_command() {
            break;
        }
        if let Some(entry) = go(table, pass)? {
            place = Some(entry.place);
        }
    }
    ended(table, pass)?;
    Ok(place)
}
