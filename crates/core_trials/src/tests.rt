ghost use Rattle.std.specs.Prelude.{◌≡◌, ◌<◌, length, IfSome};
ghost use Rattle.areanode.specs.Trees.{IsTreeDepth};

use crate::Errand;
use crate::plain::{outcome_in, put_effect};
use crate::players::{FAR, FIRST, MIDDLE, NEAR};
use crate::schedule::{begun, buttons_of, command, run_at_random};
use core_machine::Core;
use entity_recs::{Action, Effect, Entry, Rec};
use std::alloc::Global;
use std::test::Fail;
use trial_outcomes::ITEM;

/// The world of each schedule: four players and the item.
const WORLD: [Rec; 5] = [FIRST, NEAR, FAR, MIDDLE, ITEM];

/// The seat among four that has one entry, with this place.
fn seat_at<A: Action>(core: &Core<A>, place: u64) -> Option<u8>
    requires { length core.now.seats ≡ 4 }
    ensures { IfSome result (λ seat. seat < 4) }
{
    for seat in 0..4u8 {
        if let [entry] = core.log(seat) {
            if entry.place == place {
                return Some(seat);
            }
        }
    }
    None
}

/// Whether the entry is that of this effect.
fn is_entry_of(entry: &Entry, effect: &Effect) -> bool {
    u16::from(entry.slot) == effect.me.id
        && entry.seq == effect.me.seq
        && entry.reply.origin == effect.reply.origin
        && entry.reply.got.as_slice() == effect.reply.got.as_slice()
}

/// Runs the command with this place in a plain world, and compares its reply. It gives how many items were got.
fn check_place<A: Action>(
    alloc: Global,
    core: &Core<A>,
    world: &mut [Rec],
    place: u64,
    away: u8,
) -> Result<usize, Fail>
    requires { length core.now.seats ≡ 4 }
{
    let seat = seat_at(core, place).ok_or("a place without an entry")?;
    let cmd = command(seat, buttons_of(seat, away));
    if core.commands(seat) != [cmd].as_slice() {
        return Err("another command".into());
    }
    let effect = outcome_in(alloc, world, &cmd)?.ok_or("an outcome")?;
    if !core
        .log(seat)
        .iter()
        .all(|entry| is_entry_of(entry, &effect))
    {
        return Err("another reply".into());
    }
    put_effect(world, &effect);
    Ok(effect.reply.got.as_slice().len())
}

/// Runs the commands in a row in a plain world, in the order of their places, and compares each reply. The item is got
/// once.
fn check_places<A: Action>(alloc: Global, core: &Core<A>, away: u8) -> Result<(), Fail>
    requires { length core.now.seats ≡ 4 }
{
    let mut world = WORLD;
    let mut got = 0usize;
    for place in 0..4 {
        got = got.saturating_add(check_place(alloc, core, &mut world, place, away)?);
    }
    if got != 1 || world[4].state != 1 {
        return Err("an item that isn't got once".into());
    }
    Ok(())
}

/// Runs one random schedule over a tree of this depth to its end, and compares its replies with those of the commands
/// in a row.
fn try_schedule(alloc: Global, depth: u8, number: u64) -> Result<u64, Fail>
    requires { IsTreeDepth depth }
{
    let away = ((number >> 40) % 16) as u8;
    let mut core = begun(alloc, &Errand, depth, &WORLD, &[1, 1, 1, 1], away)?;
    let number = run_at_random(&mut core, number)?;
    check_places(alloc, &core, away)?;
    Ok(number)
}

/// Runs so many random schedules over a tree of this depth.
fn try_schedules(alloc: Global, depth: u8, count: u32) -> Result<(), Fail>
    requires { IsTreeDepth depth }
{
    let mut number = 7;
    for _ in 0..count {
        number = try_schedule(alloc, depth, number)?;
    }
    Ok(())
}

#[test]
fn random_schedules_reply_as_commands_in_a_row(rt: HostRuntime) -> Result<(), Fail> {
    try_schedules(rt.alloc(), 4, 1_000)
}

#[test]
fn random_schedules_over_8_leaves_reply_as_commands_in_a_row(rt: HostRuntime) -> Result<(), Fail> {
    try_schedules(rt.alloc(), 3, 100)
}

#[test]
fn random_schedules_over_32_leaves_reply_as_commands_in_a_row(rt: HostRuntime) -> Result<(), Fail> {
    try_schedules(rt.alloc(), 5, 100)
}
