ghost use Rattle.std.specs.Prelude.{◌≡◌, ◌<◌};
ghost use Rattle.entity_recs.specs.Records.{with_state};
ghost use Rattle.world_tree.specs.Worlds.{IsLinked};
ghost use Rattle.world_physics.specs.Returns as spec;
ghost use Rattle.world_physics.specs.Returns.{after_returns, changed_at, record_after_returns};

use entity_recs::{IDS, Rec};
use world_tree::World;

/// Whether the record is that of a taken item, and the frame in which it returns has come.
fn is_due(r: &Rec, frame: u32) -> bool
    ensures { result ≡ spec.is_due frame r.now }
{
    r.kind.is_item() && r.state != 0 && r.state <= u64::from(frame)
}

/// The record of an item that is there again.
fn back(r: &Rec) -> Rec
    ensures { result ≡ with_state r.now 0 }
{
    Rec { state: 0, ..*r }
}

/// Puts the item with this id back, if it is due in the frame.
fn return_item(world: &mut World, id: u16, frame: u32)
    requires { id < IDS }
    ensures records { world.new.records ≡ changed_at (record_after_returns frame) world.old.records id }
    ensures tree { world.new.tree ≡ world.old.tree }
    ensures linked { IsLinked world.new }
    ensures still { world.new.records ≡ world.old.records → world.new ≡ world.old }
{
    if let Some(r) = world.get(id) {
        if is_due(&r, frame) {
            world.relink(back(&r));
        }
    }
}

/// Puts the items back that are due in the frame.
pub fn return_items(world: &mut World, frame: u32)
    ensures records { world.new.records ≡ after_returns frame world.old.records }
    ensures tree { world.new.tree ≡ world.old.tree }
    ensures still { world.new.records ≡ world.old.records → world.new ≡ world.old }
{
    for id in 0..IDS as u16 {
        return_item(world, id, frame);
    }
}
