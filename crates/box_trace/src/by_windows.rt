ghost use Rattle.std.specs.Prelude.{◌≡◌, ◌+◌, ◌≤◌, ◌↔◌, ◌++◌, ◌||◌};
ghost use Rattle.std.specs.Prelude.{length, IsTrue, IsNone, is_none};
ghost use Rattle.arena_geo.specs.Vectors.{IsNear};
ghost use Rattle.arena_geo.specs.Bounds.{IsInRange};
ghost use Rattle.arena_geo.specs.Boxes.{box_moved_by};
ghost use Rattle.box_trace.specs.Traces.{IsTrace, trace_of, is_inside_block};
ghost use Rattle.box_trace.specs.Meetings.{IsFirstMeeting};

use crate::hit::{Hit, MOST_SOLIDS};
use crate::meeting::{Meeting, earlier};
use crate::way::{REACH, Way};
use arena_geo::{Aabb, Vec3};

/// Moves a box along a displacement until a solid stops it. The displacement is gone in as many steps as its
/// greatest part has sub-units, each part cut toward 0 at each step, and the body stops before the first step
/// after the start at which it overlaps a solid. The solids are the two slices, read as one list, `fixed` first.
///
/// There are at most [`MOST_SOLIDS`] solids, each part of `d` is at most [`REACH`] from 0, and the body is in range at
/// the end of its way, and so all along it. The work grows with the number of solids alone: each axis is solved for the
/// steps at which the boxes overlap on it. [`trace_by_steps`](crate::trace_by_steps) gives the same answer by trying
/// every step.
pub fn trace(body: &Aabb, d: Vec3, fixed: &[Aabb], moving: &[Aabb]) -> Hit
    requires near { IsNear REACH d }
    requires in_range { IsInRange (box_moved_by body.now d) }
    requires few { length fixed.now + length moving.now ≤ MOST_SOLIDS }
    ensures is_trace { IsTrace body.now d (fixed.now ++ moving.now) result }
    ensures value { result ≡ trace_of body.now d (fixed.now ++ moving.now) }

    ensures block { IsNone result.block ↔ IsTrue result.whole }
    ensures axis { is_none result.axis ≡ (result.whole || is_inside_block body.now d (fixed.now ++ moving.now) result) }
{
    let way = Way::new(body, d);
    way.hit(first_meeting(&way, fixed, moving))
}

/// What the body meets first.
fn first_meeting(way: &Way, fixed: &[Aabb], moving: &[Aabb]) -> Option<Meeting>
    requires { length fixed.now + length moving.now ≤ MOST_SOLIDS }
    ensures { IsFirstMeeting way.now.body way.now.d (fixed.now ++ moving.now) result }
{
    let first = first_meeting_among(way, fixed);
    let Some(second) = first_meeting_among(way, moving) else {
        return first;
    };
    earlier(first, Some(second.after(fixed.len())))
}

/// What the body meets first of these solids.
fn first_meeting_among(way: &Way, solids: &[Aabb]) -> Option<Meeting>
    requires { length solids.now ≤ MOST_SOLIDS }
    ensures { IsFirstMeeting way.now.body way.now.d solids.now result }
{
    let mut first = None;
    for (block, solid) in solids.iter().enumerate() {
        first = earlier(first, way.meeting_with(solid, block as u16));
    }
    first
}
