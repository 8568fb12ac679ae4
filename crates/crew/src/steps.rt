//! The steps of a post's two seats.
ghost use Rattle.std.specs.Prelude.{◌≡◌, MatchBool};
ghost use Rattle.crew.specs.Plays.{IsFree, IsFreeWith, HasGiven, IsReady, IsGiven, IsBack, IsChanged, IsIdle, HasBegun, HasWorked};

use crate::post::{BEGUN, DONE, FREE, OFFERED, Post, STOPPED, Seat};
use crate::task::Task;
use crate::turns::{Begins, Collects, Ends, Offers, Reclaims, Stops};
use std::mem;
use std::sync::Wait;

/// The leader exchanges the item with what lies in the slot.
pub fn exchange<T: Task>(post: &Post<T>, seat: &mut Seat<T>, item: &mut T)
    requires table { seat.old.table_id ≡ post.now.table.shared.table_id }
    requires free { IsFree seat.old.me }
    ensures table { seat.new.table_id ≡ seat.old.table_id }
    ensures put { IsFreeWith item.old seat.new.me }
    ensures got { IsFreeWith item.new seat.old.me }
{
    mem::swap(seat.slot_mut(&post.table.shared, 0), item);
}

/// The leader hands over what lies in the slot.
pub fn hand_over<T: Task>(post: &Post<T>, seat: &mut Seat<T>)
    requires table { seat.old.table_id ≡ post.now.table.shared.table_id }
    requires ready { IsReady T.may_run seat.old.me }
    ensures table { seat.new.table_id ≡ seat.old.table_id }
    ensures given { (x : T) → IsFreeWith x seat.old.me → HasGiven x seat.new.me }
{
    post.table.shared.store::<Offers>(seat, 0, OFFERED);
}

/// Whether an item that was handed over is not begun. The leader takes it back then.
pub fn reclaim<T: Task>(post: &Post<T>, seat: &mut Seat<T>) -> bool
    requires table { seat.old.table_id ≡ post.now.table.shared.table_id }
    requires given { IsGiven T.may_run seat.old.me }
    ensures table { seat.new.table_id ≡ seat.old.table_id }
    ensures back { MatchBool result (IsBack seat.old.me.0.item seat.new.me) (seat.new.me ≡ seat.old.me) }
{
    let shared = &post.table.shared;
    shared.compare_exchange::<Reclaims>(seat, 0, OFFERED, FREE) == OFFERED
}

/// Whether the helper has changed what was handed over. The leader takes it back then.
pub fn collect<T: Task>(post: &Post<T>, seat: &mut Seat<T>) -> bool
    requires table { seat.old.table_id ≡ post.now.table.shared.table_id }
    requires given { IsGiven T.may_run seat.old.me }
    ensures table { seat.new.table_id ≡ seat.old.table_id }
    ensures changed { MatchBool result (IsChanged T.changes seat.old.me.0.item seat.new.me) (seat.new.me ≡ seat.old.me) }
{
    let shared = &post.table.shared;
    shared.compare_exchange::<Collects>(seat, 0, DONE, FREE) == DONE
}

/// The leader ends the turns.
pub fn stop<T: Task>(post: &Post<T>, seat: &mut Seat<T>)
    requires table { seat.old.table_id ≡ post.now.table.shared.table_id }
    requires free { IsFree seat.old.me }
    ensures table { seat.new.table_id ≡ seat.old.table_id }
{
    post.table.shared.store::<Stops>(seat, 0, STOPPED);
}

/// Whether an item was handed over. The helper begins it then.
pub fn begin<T: Task>(post: &Post<T>, seat: &mut Seat<T>) -> bool
    requires table { seat.old.table_id ≡ post.now.table.shared.table_id }
    requires idle { IsIdle seat.old.me }
    ensures table { seat.new.table_id ≡ seat.old.table_id }
    ensures begun { MatchBool result (HasBegun T.may_run seat.new.me) (IsIdle seat.new.me) }
{
    let shared = &post.table.shared;
    shared.compare_exchange::<Begins>(seat, 0, OFFERED, BEGUN) == OFFERED
}

/// The helper runs the item in the slot.
pub fn work<T: Task, R: Wait>(rt: &R, post: &Post<T>, seat: &mut Seat<T>)
    requires table { seat.old.table_id ≡ post.now.table.shared.table_id }
    requires begun { HasBegun T.may_run seat.old.me }
    ensures table { seat.new.table_id ≡ seat.old.table_id }
    ensures worked { HasWorked T.changes seat.new.me }
{
    seat.slot_mut(&post.table.shared, 0).run(rt);
}

/// The helper hands the item back.
pub fn end<T: Task>(post: &Post<T>, seat: &mut Seat<T>)
    requires table { seat.old.table_id ≡ post.now.table.shared.table_id }
    requires worked { HasWorked T.changes seat.old.me }
    ensures table { seat.new.table_id ≡ seat.old.table_id }
    ensures idle { IsIdle seat.new.me }
{
    post.table.shared.store::<Ends>(seat, 0, DONE);
}
