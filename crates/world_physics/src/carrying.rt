ghost use Rattle.std.specs.Prelude.{◌≡◌, ◌<◌, ℕ, Some};
ghost use Rattle.world_tree.specs.Worlds.{IsLinked};
ghost use Rattle.world_physics.specs.Returns.{each_changed, changed_at};
ghost use Rattle.world_physics.specs.LiftSteps.{IsStep, HasRoom, carried_along};

use crate::lift_step::{LiftStep, record_raised_by};
use entity_recs::SLOTS;
use world_tree::World;

/// Moves the player in this slot with the lift, if the step carries it.
fn carry_slot(world: &mut World, step: &LiftStep, slot: u16)
    requires step { IsStep step.now }
    requires room { HasRoom step.now world.old.records slot }
    requires slot { slot < SLOTS }
    ensures records { world.new.records ≡ changed_at (carried_along step.now) world.old.records slot }
    ensures tree { world.new.tree ≡ world.old.tree }
    ensures linked { IsLinked world.new }
{
    if let Some(r) = world.get(slot) {
        if step.carries(&r) {
            world.relink(record_raised_by(&r, step.up));
        }
    }
}

/// Moves the players that the step carries, each by its z alone. Those moved are within the bounds of records.
pub fn carry(world: &mut World, step: &LiftStep)
    requires step { IsStep step.now }
    requires room { (slot : ℕ) → HasRoom step.now world.old.records slot }
    ensures records { world.new.records ≡ each_changed (carried_along step.now) world.old.records }
    ensures tree { world.new.tree ≡ world.old.tree }
{
    for slot in 0..SLOTS as u16 {
        carry_slot(world, step, slot);
    }
}
