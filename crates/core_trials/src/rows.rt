ghost use Rattle.std.specs.Prelude.{◌≡◌, ◌<◌, length, IfOk};
ghost use Rattle.core_trials.specs.Hands.{HasOwnCommands};

use crate::players::{FAR_AT_ONE, FIRST, LOW, MIDDLE_AT_ONE, NEAR};
use crate::schedule::{begun, command};
use crate::staying::Staying;
use arena_geo::Vec3;
use core_machine::Core;
use core_steps::{Step, StepKind};
use entity_recs::Action;
use std::alloc::AllocGlobal;
use std::process::Abort;
use std::test::Fail;

/// Makes so many steps of a seat. It is false where one isn't done.
fn make_steps<A: Action>(core: &mut Core<A>, seat: u8, count: u32) -> bool
    requires { seat < length core.old.seats }
    ensures seats { length core.new.seats ≡ length core.old.seats }
    ensures own { HasOwnCommands core.old → HasOwnCommands core.new }
{
    for _ in 0..count {
        let Some(s) = core.next_step(seat) else {
            return false;
        };
        core.stands();
        if !core.step(s) {
            return false;
        }
    }
    true
}

/// Makes the steps of a seat to the end of its command.
fn run<A: Action>(core: &mut Core<A>, seat: u8) -> Result<(), Fail>
    requires { seat < length core.old.seats }
    ensures { length core.new.seats ≡ length core.old.seats }
{
    for _ in 0..1_000 {
        let Some(s) = core.next_step(seat) else {
            return Ok(());
        };
        core.step(s);
    }
    Err("a command without an end".into())
}

/// Makes a seat's next step, which is refused, and lets the seat give up. It is false where the step is done, or there
/// is none.
fn give_up_refused<A: Action>(core: &mut Core<A>, seat: u8) -> bool
    requires { seat < length core.old.seats }
    ensures seats { length core.new.seats ≡ length core.old.seats }
    ensures own { HasOwnCommands core.old → HasOwnCommands core.new }
{
    let Some(s) = core.next_step(seat) else {
        return false;
    };
    core.stands();
    if core.step(s) {
        return false;
    }
    core.give_up(seat);
    true
}

/// Gives a seat the first command of the player with its number. It is false where the seat has one in hand, or an
/// entry.
fn give_again<A: Action>(core: &mut Core<A>, seat: u8) -> bool
    requires seat { seat < length core.old.seats }
    requires own { HasOwnCommands core.old }
    ensures { length core.new.seats ≡ length core.old.seats }
{
    if core.next_step(seat).is_some() || !core.log(seat).is_empty() {
        return false;
    }
    core.stands();
    core.give(seat, command(seat, 0));
    true
}

/// The place of the one entry that a seat has committed, whose reply is this origin.
fn place_of<A: Action>(core: &Core<A>, seat: u8, origin: Vec3) -> Option<u64>
    requires { seat < length core.now.seats }
{
    match core.log(seat) {
        [entry] if entry.reply.origin == origin => Some(entry.place),
        _ => None,
    }
}

/// The first seat of two comes before the second: these are the origins of their replies.
fn expect_in_turn<A: Action>(rt: &impl Abort, core: &Core<A>, first: Vec3, second: Vec3)
    requires { length core.now.seats ≡ 2 }
{
    assert_eq!(rt; place_of(core, 0, first), Some(0));
    assert_eq!(rt; place_of(core, 1, second), Some(1));
}

/// Two seats whose players stand in one leaf: the first holds it, and the second is to take it next.
fn begun_at_the_leaf<'a>(
    rt: &(impl AllocGlobal + Abort),
    action: &'a Staying,
) -> Result<Core<'a, Staying>, Fail>
    ensures { IfOk result (λ c. length c.seats ≡ 2) }
{
    let mut core = begun(rt.alloc(), action, 4, &[FIRST, NEAR], &[1, 1], 0)?;
    assert!(rt; make_steps(&mut core, 1, 6));
    assert!(rt; make_steps(&mut core, 0, 7));
    Ok(core)
}

/// The second seat is to take node 15, and is refused it.
fn expect_refused<A: Action>(rt: &impl Abort, core: &mut Core<A>)
    requires { length core.old.seats ≡ 2 }
    ensures { length core.new.seats ≡ length core.old.seats }
{
    let take = Some(Step {
        seat: 1,
        word: 16,
        kind: StepKind::Take,
    });
    assert_eq!(rt; core.next_step(1), take);
    assert!(rt; !make_steps(core, 1, 1));
    assert_eq!(rt; core.next_step(1), take);
}

#[test]
fn near_seat_waits_for_the_leaf(rt: HostRuntime) -> Result<(), Fail> {
    let mut core = begun_at_the_leaf(&rt, &Staying)?;
    expect_refused(&rt, &mut core);
    run(&mut core, 0)?;
    assert!(rt; make_steps(&mut core, 1, 1));
    run(&mut core, 1)?;
    expect_in_turn(&rt, &core, FIRST.origin, NEAR.origin);
    Ok(())
}

/// Makes the steps of two seats to the end of their commands, one seat after the other.
fn run_both<A: Action>(core: &mut Core<A>) -> Result<(), Fail>
    requires { length core.old.seats ≡ 2 }
    ensures { length core.new.seats ≡ length core.old.seats }
{
    run(core, 0)?;
    run(core, 1)
}

/// Two seats: the first holds its leaf, and the second holds three of its four and is to take this one next.
fn begun_at_the_middle<'a>(
    rt: &(impl AllocGlobal + Abort),
    action: &'a Staying,
) -> Result<Core<'a, Staying>, Fail>
    ensures seats { IfOk result (λ c. length c.seats ≡ 2) }
    ensures own { IfOk result (λ c. HasOwnCommands c) }
{
    let mut core = begun(rt.alloc(), action, 4, &[LOW, MIDDLE_AT_ONE], &[1, 1], 0)?;
    assert!(rt; make_steps(&mut core, 0, 7));
    assert!(rt; make_steps(&mut core, 1, 9));
    Ok(core)
}

/// The second seat is refused a leaf and gives up, after which it has no command and no entry.
fn expect_given_up<A: Action>(rt: &impl Abort, core: &mut Core<A>)
    requires seats { length core.old.seats ≡ 2 }
    requires own { HasOwnCommands core.old }
    ensures seats { length core.new.seats ≡ length core.old.seats }
    ensures own { HasOwnCommands core.new }
{
    assert!(rt; give_up_refused(core, 1));
    assert!(rt; make_steps(core, 1, 3));
    assert_eq!(rt; core.next_step(1), None);
    assert!(rt; core.log(1).is_empty());
}

#[test]
fn refused_seat_gives_up_and_is_given_its_command_again(rt: HostRuntime) -> Result<(), Fail> {
    let mut core = begun_at_the_middle(&rt, &Staying)?;
    expect_given_up(&rt, &mut core);
    assert!(rt; give_again(&mut core, 1));
    run_both(&mut core)?;
    expect_in_turn(&rt, &core, LOW.origin, MIDDLE_AT_ONE.origin);
    Ok(())
}

/// Makes steps of two seats in turn, to the end of their commands.
fn take_turns<A: Action>(core: &mut Core<A>)
    requires { length core.old.seats ≡ 2 }
    ensures { length core.new.seats ≡ length core.old.seats }
{
    for _ in 0..100 {
        let _ = make_steps(core, 0, 1);
        let _ = make_steps(core, 1, 1);
    }
}

/// Neither of two seats has a command in hand.
fn expect_at_rest<A: Action>(rt: &impl Abort, core: &mut Core<A>)
    requires { length core.old.seats ≡ 2 }
    ensures { length core.new.seats ≡ length core.old.seats }
{
    assert_eq!(rt; core.next_step(0), None);
    assert_eq!(rt; core.next_step(1), None);
}

#[test]
fn far_seats_take_turns(rt: HostRuntime) -> Result<(), Fail> {
    let mut core = begun(rt.alloc(), &Staying, 4, &[FIRST, FAR_AT_ONE], &[1, 1], 0)?;
    take_turns(&mut core);
    expect_at_rest(&rt, &mut core);
    expect_in_turn(&rt, &core, FIRST.origin, FAR_AT_ONE.origin);
    Ok(())
}
