ghost use Rattle.std.specs.Prelude.{◌≡◌, ◌<◌, ◌++◌, [], length};
ghost use Rattle.std.specs.Prelude.{map as map_list};
ghost use Rattle.std.specs.Option.{option_to_list};
ghost use Rattle.world_tree.specs.Worlds.{record_of, IsLinked};
ghost use Rattle.plain_server.specs.Replies.{slots_of, replies_of};

use crate::replies::ReplyList;
use crate::slots::SlotList;
use entity_recs::SLOTS;
use reply_fan::write_replies;
use std::thread::Threads;
use world_tree::World;

/// Puts this slot last, if it is live.
fn list_slot(world: &World, slot: u8, slots: &mut SlotList)
    requires { length slots.old < 64 }
    ensures slots { slots.new ≡ slots.old ++ map_list (λ me. me.id) (option_to_list (record_of world.now slot)) }
    ensures linked { IsLinked world.now }
{
    let Some(_player) = world.get(u16::from(slot)) else {
        return;
    };
    // There are fewer slots in the list than there are slots, so it has room.
    let _fits = slots.push(slot);
}

/// Puts each live slot into the empty list, in rising order.
fn list_slots(world: &World, slots: &mut SlotList)
    requires { slots.old ≡ [] }
    ensures slots { slots.new ≡ slots_of world.now.records }
    ensures linked { IsLinked world.now }
{
    for slot in 0..SLOTS as u8 {
        list_slot(world, slot, slots);
    }
}

/// Puts each live slot and the snapshot of its player into the empty lists, in rising slot. It takes no memory.
pub fn show_players<R: Threads + Sync>(
    rt: &R,
    world: &World,
    frame: u32,
    slots: &mut SlotList,
    replies: &mut ReplyList,
)
    requires no_slot { slots.old ≡ [] }
    requires no_reply { replies.old ≡ [] }
    ensures slots { slots.new ≡ slots_of world.now.records }
    ensures replies { replies.new ≡ replies_of frame world.now.records }
{
    list_slots(world, slots);
    let live = slots.as_slice();
    replies.fill_empty(live.len());
    write_replies(rt, world, frame, live, replies.as_mut_slice());
}
