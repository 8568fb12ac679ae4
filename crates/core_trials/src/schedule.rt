ghost use Rattle.std.specs.Prelude.{◌≡◌, ◌<◌, ◌≤◌, ℕ, true, length, map, slice_index, IfOk};
ghost use Rattle.entity_recs.specs.declared.rec.Rec.{Rec};
ghost use Rattle.entity_recs.specs.Commands.{command_of};
ghost use Rattle.entity_recs.specs.Actions.{IsCommand};
ghost use Rattle.areanode.specs.Trees.{TreeView, IsTreeDepth};
ghost use Rattle.core_steps.specs.declared.sizes.TheConstants.{MOST_SEATS};
ghost use Rattle.core_steps.specs.Nodes.{has};
ghost use Rattle.core_steps.specs.Stands.{IsStart};
ghost use Rattle.core_seats.specs.Shown.{fixed_of};
ghost use Rattle.core_trials.specs.ErrandCommands.{errand_command};
ghost use Rattle.core_trials.specs.Hands.{HasOwnCommands};

use areanode::Tree;
use arena_geo::{Aabb, Vec3};
use core_machine::Core;
use entity_recs::{Action, Cmd, Rec};
use std::alloc::Global;
use std::test::Fail;

/// A player's first command, of 50 ms, with these buttons.
#[tactic(auto, using(crate::proofs::Given::command_is))]
pub fn command(slot: u8, buttons: u8) -> Cmd
    requires { slot < 64 }
    ensures value { command_of result ≡ errand_command slot buttons }
    ensures command { IsCommand (command_of result) }
{
    Cmd {
        slot,
        seq: 1,
        frame: 0,
        ms: 50,
        wish_x: 0,
        wish_y: 0,
        buttons,
    }
}

/// The tree of this depth over an arena from (-131072, -131072, 0) to (131072, 131072, 65536).
fn arena_tree(depth: u8) -> Result<Tree, Fail>
    requires { IsTreeDepth depth }
{
    let lo = Vec3 {
        x: -131_072,
        y: -131_072,
        z: 0,
    };
    let hi = Vec3 {
        x: 131_072,
        y: 131_072,
        z: 65_536,
    };
    Ok(Tree::new(&Aabb::new(lo, hi).ok_or("a box")?, depth))
}

/// A core over these records and a tree of this depth, with a seat for each of the first players, to which a command of
/// its player is given. Bit i of `away` says whether player i asks for the teleporter.
pub fn begun<'a, A: Action>(
    alloc: Global,
    action: &'a A,
    depth: u8,
    start: &[Rec],
    room: &[u32],
    away: u8,
) -> Result<Core<'a, A>, Fail>
    requires depth { IsTreeDepth depth }
    requires start { (tree : TreeView) → IsStart (fixed_of A.meaning (record
        { action = action.now; tree = tree; start = start.now })) }
    requires live { (slot : ℕ) → slot < length room.now → has (map (λ (r : Rec). r.id) start.now) slot ≡ true }
    requires some { 0 < length room.now }
    requires few { length room.now ≤ MOST_SEATS }
    requires room { (k : ℕ) → k < length room.now → 0 < slice_index room.now k }
    ensures seats { IfOk result (λ c. length c.seats ≡ length room.now) }
    ensures own { IfOk result (λ c. HasOwnCommands c) }
{
    let tree = arena_tree(depth)?;
    let mut core = Core::new(alloc, action, &tree, start, room)?;
    for slot in 0..room.len() as u8 {
        core.give(slot, command(slot, buttons_of(slot, away)));
    }
    Ok(core)
}

/// The buttons of a player's command, where bit i of `away` says whether player i asks for the teleporter.
pub fn buttons_of(slot: u8, away: u8) -> u8 {
    away.wrapping_shr(u32::from(slot)) % 2
}

/// A further number of a sequence, as a linear congruential generator gives them.
fn next_number(number: u64) -> u64 {
    number
        .wrapping_mul(6_364_136_223_846_793_005)
        .wrapping_add(1_442_695_040_888_963_407)
}

/// Makes steps of four seats in a random order, which this number gives, until none has a command in hand.
pub fn run_at_random<A: Action>(core: &mut Core<A>, mut number: u64) -> Result<u64, Fail>
    requires { length core.old.seats ≡ 4 }
    ensures { length core.new.seats ≡ length core.old.seats }
{
    let mut idle = 0u32;
    for _ in 0..100_000 {
        number = next_number(number);
        let seat = ((number >> 33) % 4) as u8;
        match core.next_step(seat) {
            Some(s) => {
                core.step(s);
                idle = 0;
            }
            None if idle == 100 => return Ok(number),
            None => idle += 1,
        }
    }
    Err("a schedule without an end".into())
}
