ghost use Rattle.std.specs.Prelude.{◌≡◌, false};
ghost use Rattle.std.specs.List.{list_any};
ghost use Rattle.std.specs.Option.{option_map_or, ForSome};
ghost use Rattle.entity_recs.specs.Records.{IsRecord};
ghost use Rattle.world_tree.specs.Live.{live_in};
ghost use Rattle.world_physics.specs.LiftSteps as steps;
ghost use Rattle.world_physics.specs.LiftSteps.{IsStep, is_in_the_way, is_pressed};

use crate::lift_step::{LiftStep, raised_body};
use arena_geo::Aabb;
use arena_map::ArenaMap;
use entity_recs::{IDS, Rec, SLOTS, body_box};
use world_tree::World;

/// Whether the place has the record of a solid that stays where it is and overlaps the body.
fn is_met(step: &LiftStep, place: Option<Rec>, body: &Aabb) -> bool
    requires step { IsStep step.now }
    requires record { ForSome place IsRecord }
    ensures { result ≡ option_map_or (is_in_the_way step.now body.now) place false }
{
    match place {
        Some(r) => step.leaves(&r) && body.overlaps(&body_box(&r)),
        None => false,
    }
}

/// Whether a solid that stays where it is overlaps the body.
fn meets_others(world: &World, step: &LiftStep, body: &Aabb) -> bool
    requires { IsStep step.now }
    ensures { result ≡ list_any (is_in_the_way step.now body.now) (live_in world.now.records) }
{
    for id in 0..IDS as u16 {
        if is_met(step, world.get(id), body) {
            return true;
        }
    }
    false
}

/// Whether the body overlaps a wall, a block, the lift's new box, another lift, or a player that isn't carried.
fn is_obstructed(map: &ArenaMap, world: &World, step: &LiftStep, body: &Aabb) -> bool
    requires { IsStep step.now }
    ensures { result ≡ steps.is_obstructed map.now step.now world.now.records body.now }
{
    body.is_blocked(map.solids())
        || body.overlaps(&body_box(&step.after))
        || meets_others(world, step, body)
}

/// Whether the place has the record of a carried player whose body, moved with the lift, has no room.
fn presses(map: &ArenaMap, world: &World, step: &LiftStep, place: Option<Rec>) -> bool
    requires step { IsStep step.now }
    requires record { ForSome place IsRecord }
    ensures { result ≡ option_map_or (is_pressed map.now step.now world.now.records) place false }
{
    match place {
        Some(r) => {
            step.carries(&r) && is_obstructed(map, world, step, &raised_body(&r, step.up))
        }
        None => false,
    }
}

/// Whether the step would press a player.
pub fn is_stopped(map: &ArenaMap, world: &World, step: &LiftStep) -> bool
    requires { IsStep step.now }
    ensures { result ≡ steps.is_stopped map.now step.now world.now.records }
{
    for slot in 0..SLOTS as u16 {
        if presses(map, world, step, world.get(slot)) {
            return true;
        }
    }
    false
}
