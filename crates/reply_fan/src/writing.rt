ghost use Rattle.std.specs.Prelude.{◌≡◌, ◌<◌, [], length, slice_index};
ghost use Rattle.reply_fan.specs.Replies.{AreLive, AreEmpty, reply_to, replies_to};

use crate::threads::threads_for;
use snapshot_write::{ReplyBuf, write_snapshot};
use std::thread;
use std::thread::Threads;
use world_tree::World;

/// Writes the snapshot of the player in each slot into the buffer at the same place, by as many threads as this is
/// worth. It takes no memory.
pub fn write_replies<R: Threads + Sync>(
    rt: &R,
    world: &World,
    frame: u32,
    slots: &[u8],
    outs: &mut [ReplyBuf],
)
    requires as_many { length outs.old ≡ length slots.now }
    requires empty { AreEmpty outs.old }
    requires live { AreLive world.now.records slots.now }
    ensures { outs.new ≡ replies_to frame world.now.records slots.now }
{
    let threads = threads_for(slots.len());
    let write = |i: usize, out: &mut ReplyBuf|
        requires at { i < length slots.now }
        requires empty { out.old ≡ [] }
        requires live { AreLive world.now.records slots.now }
        ensures { out.new ≡ reply_to frame world.entry.now.records (slice_index slots.entry.now i) }
    { write_snapshot(world, frame, slots[i], out) };
    thread::for_each_mut(rt, outs, threads, &write);
}
