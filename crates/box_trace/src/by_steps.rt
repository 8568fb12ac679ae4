ghost use Rattle.std.specs.Prelude.{◌≡◌, ◌+◌, ◌≤◌, ◌↔◌, ◌++◌, ◌||◌};
ghost use Rattle.std.specs.Prelude.{length, position, IsTrue, IsNone, is_none};
ghost use Rattle.arena_geo.specs.Vectors.{IsNear};
ghost use Rattle.arena_geo.specs.Bounds.{IsInRange};
ghost use Rattle.arena_geo.specs.Boxes as boxes;
ghost use Rattle.arena_geo.specs.Boxes.{box_moved_by};
ghost use Rattle.box_trace.specs.Steps as steps;
ghost use Rattle.box_trace.specs.Traces.{IsTrace, trace_of, is_inside_block};
ghost use Rattle.box_trace.specs.Meetings.{IsFirstMeeting, IsMeetingAt};

use crate::hit::{Hit, MOST_SOLIDS};
use crate::meeting::Meeting;
use crate::way::{REACH, Way};
use arena_geo::{Aabb, Vec3};

// The plain reading of the definition, kept beside `trace` under the same contract, to measure against.
/// The same answer as [`trace`](crate::trace), by trying every step in turn: its work grows with the number of
/// steps too.
pub fn trace_by_steps(body: &Aabb, d: Vec3, fixed: &[Aabb], moving: &[Aabb]) -> Hit
    requires near { IsNear REACH d }
    requires in_range { IsInRange (box_moved_by body.now d) }
    requires few { length fixed.now + length moving.now ≤ MOST_SOLIDS }
    ensures is_trace { IsTrace body.now d (fixed.now ++ moving.now) result }
    ensures value { result ≡ trace_of body.now d (fixed.now ++ moving.now) }

    ensures block { IsNone result.block ↔ IsTrue result.whole }
    ensures axis { is_none result.axis ≡ (result.whole || is_inside_block body.now d (fixed.now ++ moving.now) result) }
{
    let way = Way::new(body, d);
    way.hit(first_meeting(&way, fixed, moving))
}

/// What the body meets first, by trying the steps from 1 on.
fn first_meeting(way: &Way, fixed: &[Aabb], moving: &[Aabb]) -> Option<Meeting>
    requires { length fixed.now + length moving.now ≤ MOST_SOLIDS }
    ensures { IsFirstMeeting way.now.body way.now.d (fixed.now ++ moving.now) result }
{
    for steps in 0..way.count {
        if let Some(meeting) = meeting_at(way, steps + 1, fixed, moving) {
            return Some(meeting);
        }
    }
    None
}

/// The first solid that blocks a step of the way.
fn meeting_at(way: &Way, step: u32, fixed: &[Aabb], moving: &[Aabb]) -> Option<Meeting>
    requires step { step ≤ way.now.count }
    requires few { length fixed.now + length moving.now ≤ MOST_SOLIDS }
    ensures { IsMeetingAt step (steps.body_at way.now.body way.now.d step) (fixed.now ++ moving.now) result }
{
    let body = way.body_at(step);
    if let Some(meeting) = meeting_among(&body, step, fixed) {
        return Some(meeting);
    }
    let meeting = meeting_among(&body, step, moving)?;
    Some(meeting.after(fixed.len()))
}

/// The meeting with the first of these solids that overlaps the body, at this step of its way.
fn meeting_among(body: &Aabb, step: u32, solids: &[Aabb]) -> Option<Meeting>
    requires { length solids.now ≤ MOST_SOLIDS }
    ensures { IsMeetingAt step body.now solids.now result }
{
    let block = first_overlapped(body, solids)?;
    Some(Meeting {
        step,
        block: block as u16,
        solid: solids[block],
    })
}

/// The place of the first of these solids that overlaps the body.
fn first_overlapped(body: &Aabb, solids: &[Aabb]) -> Option<usize>
    ensures { result ≡ position (boxes.overlaps body.now) solids.now }
{
    solids.iter().position(|solid| body.overlaps(solid))
}
