ghost use Rattle.std.specs.Prelude.{◌≡◌, MatchBool};
ghost use Rattle.std.specs.Arc.{arc_value};
ghost use Rattle.crew.specs.Plays.{IsFree, IsRested, HasGiven, IsGiven, IsChanged};

use crate::post::{DONE, Post, Seat};
use crate::steps::{collect, exchange, hand_over, reclaim, stop};
use crate::task::Task;
use std::alloc::Global;
use std::hint::spin_loop;
use std::sync::{Arc, Wait};
use std::thread;

/// How often the leader looks for a changed item before it yields.
const LOOKS: u32 = 1000;

/// The leader's side of a post. It can't be dropped: `stop` alone ends it, and sends the helper away.
pub struct Desk<T: Task> {
    pub post: Arc<Post<T>, Global>,
    pub seat: Seat<T>,
    ghost at_post: { seat.table_id ≡ (arc_value post).table.shared.table_id },
}

impl<T: Task> Desk<T> {
    /// Hands the item over, and leaves what lay in the slot in its place.
    pub fn offer(&mut self, item: &mut T)
        requires may { T.may_run item.old }
        requires free { IsFree self.old.seat.me }
        ensures given { HasGiven item.old self.new.seat.me }
    {
        exchange(&self.post, &mut self.seat, item);
        hand_over(&self.post, &mut self.seat);
        self.post.wake();
    }

    /// Puts the item that was handed over back in its place, after its run: by the helper, or here, where the helper
    /// hasn't begun it.
    pub fn take_back<R: Wait>(&mut self, rt: &R, item: &mut T)
        requires given { IsGiven T.may_run self.old.seat.me }
        ensures free { IsFree self.new.seat.me }
        ensures changed { (x : T) → HasGiven x self.old.seat.me → T.changes x item.new }
    {
        if reclaim(&self.post, &mut self.seat) {
            exchange(&self.post, &mut self.seat, item);
            item.run(rt);
        } else {
            wait_and_collect(rt, &self.post, &mut self.seat);
            exchange(&self.post, &mut self.seat, item);
        }
    }

    /// Ends the turns of this post: its helper goes.
    pub fn stop(self)
        requires rested { IsRested self.seat.me }
    {
        let Desk { post, mut seat } = self;
        stop(&post, &mut seat);
        post.wake();
    }
}

/// Waits until the helper has changed what was handed over, and takes it back.
fn wait_and_collect<T: Task, R: Wait>(rt: &R, post: &Post<T>, seat: &mut Seat<T>)
    requires table { seat.old.table_id ≡ post.now.table.shared.table_id }
    requires given { IsGiven T.may_run seat.old.me }
    ensures table { seat.new.table_id ≡ seat.old.table_id }
    ensures changed { IsChanged T.changes seat.old.me.0.item seat.new.me }
{
    for _ in rt.forever() {
        wait_for_change(rt, post);
        if collect(post, seat) {
            return;
        }
    }
    unreachable!()
}

/// Waits until the helper has changed what was handed over.
fn wait_for_change<T: Task, R: Wait>(rt: &R, post: &Post<T>) {
    let mut looks = 0;
    for _ in rt.forever() {
        if post.look() == DONE {
            return;
        }
        if looks < LOOKS {
            looks += 1;
            spin_loop();
        } else {
            thread::yield_now();
        }
    }
    unreachable!()
}
