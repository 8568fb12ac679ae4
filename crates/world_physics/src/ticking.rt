ghost use Rattle.std.specs.Prelude.{◌≡◌, Some};
ghost use Rattle.arena_map.specs.Maps.{IsMap, lift_of};
ghost use Rattle.arena_map.specs.Validity.{IsValidWorld};
ghost use Rattle.world_tree.specs.Live.{record_at};
ghost use Rattle.world_physics.specs.Ticks.{after_lift, after_thing, after_tick};

use crate::carrying::carry;
use crate::lift_step::LiftStep;
use crate::pressing::is_stopped;
use crate::returns::return_items;
use arena_map::{ArenaMap, Lift};
use entity_recs::Rec;
use world_tree::World;

/// Makes the step of the lift with this id: whole, or, where it would press a player, not at all.
fn move_lift(map: &ArenaMap, world: &mut World, id: u16, lift: &Lift)
    requires rules { IsMap map.now }
    requires valid { IsValidWorld map.now world.old.records }
    requires lift { lift_of map.now id ≡ Some lift.now }
    ensures records { world.new.records
        ≡ after_lift map.now world.old.records (Some lift.now) (record_at world.old.records id) }
    ensures tree { world.new.tree ≡ world.old.tree }
    ensures valid { IsValidWorld map.now world.new.records }
    ensures still { world.new.records ≡ world.old.records → world.new ≡ world.old }
{
    let r = world.get(id).unwrap();
    let step = LiftStep::of(lift, &r);
    if !is_stopped(map, world, &step) {
        carry(world, &step);
        world.relink(step.after);
    }
}

/// Makes the step of a thing of the map, if it is a lift.
fn move_thing(map: &ArenaMap, world: &mut World, thing: &Rec)
    requires { IsValidWorld map.now world.old.records }
    ensures records { world.new.records ≡ after_thing map.now world.old.records thing.now }
    ensures tree { world.new.tree ≡ world.old.tree }
    ensures valid { IsValidWorld map.now world.new.records }
    ensures still { world.new.records ≡ world.old.records → world.new ≡ world.old }
{
    if let Some(lift) = map.lift_of(thing.id) {
        move_lift(map, world, thing.id, &lift);
    }
}

/// The tick of a frame, with which it begins. First each item that is due in the frame, or was due before it, returns.
/// Then each lift, in rising id, makes its whole step or none.
///
/// A rising lift goes up by its speed, but not above its rise, and a falling one down by its speed, but not below its
/// lowest place. It carries the players that stand on it, and those whose bodies its new box would overlap; each moves
/// by its z alone, as far as the lift. Where a carried player would then overlap a wall, a block, another lift, the
/// lift or a player that isn't carried, nothing moves, and the lift tries again in the next frame. At its highest place
/// a lift turns to falling, at its lowest to rising. The rule is that of Quake's `SV_PushMove`, for lifts.
///
/// Each record that changes is linked anew. It takes no memory.
pub fn tick(map: &ArenaMap, world: &mut World, frame: u32)
    requires { IsValidWorld map.now world.old.records }
    ensures rules { IsMap map.now }
    ensures records { world.new.records ≡ after_tick map.now frame world.old.records }
    ensures tree { world.new.tree ≡ world.old.tree }
    ensures valid { IsValidWorld map.now world.new.records }
    ensures still { world.new.records ≡ world.old.records → world.new ≡ world.old }
{
    return_items(world, frame);
    for thing in map.entities() {
        move_thing(map, world, thing);
    }
}
