ghost use Rattle.std.specs.Prelude.{◌≡◌, ◌≤◌, [], ◌∷◌, ◌++◌, List, All, length};
ghost use Rattle.arena_geo.specs.Vectors.{IsNear};
ghost use Rattle.arena_geo.specs.Bounds.{Bounds, IsInRange};
ghost use Rattle.arena_geo.specs.Boxes.{box_moved_by, hull};
ghost use Rattle.box_trace.specs.declared.hit.TheConstants.{MOST_SOLIDS};
ghost use Rattle.box_trace.specs.declared.way.TheConstants.{REACH};
ghost use Rattle.box_trace.specs.Steps.{step_count, body_at};
ghost use Rattle.entity_recs.specs.declared.rec.Rec.{Rec};
ghost use Rattle.entity_recs.specs.Records.{IsRecord};
ghost use Rattle.shot_rules.specs.Targets as targets;
ghost use Rattle.shot_rules.specs.Meetings.{IsMeeting};

use arena_geo::{Aabb, Vec3};
use box_trace::{shift_at, trace};
use entity_recs::{Rec, body_box};

/// What a box meets first on its way.
#[derive(Clone, Copy)]
pub struct Met {
    /// How many steps the box goes.
    pub steps: u32,
    /// The space in which it goes them.
    pub swept: Aabb,
    /// The live solid that stops it then. `None` where nothing does, or a wall or a block.
    pub target: Option<Rec>,
}

/// The space in which a box goes so many steps of its way: the least box that has it at both ends.
fn swept_in(body: &Aabb, way: Vec3, steps: u32) -> Aabb
    requires near { IsNear REACH way }
    requires in_range { IsInRange (box_moved_by body.now way) }
    requires within { steps ≤ step_count way }
    ensures { result ≡ hull body.now (body_at body.now way steps) }
{
    let start = body.copied();
    start.hull(&start.shifted(shift_at(way, steps)))
}

/// What a box meets first, with one record more after those that were looked at.
fn meeting_with(first: Met, body: &Aabb, way: Vec3, r: &Rec) -> Met
    requires near { IsNear REACH way }
    requires in_range { IsInRange (box_moved_by body.now way) }
    requires record { IsRecord r.now }
    ensures { (fixed : List Bounds) (near : List Rec) → IsMeeting body.now way fixed near first
        → IsMeeting body.now way fixed (near ++ r.now ∷ []) result }
{
    if !r.kind.is_solid() {
        return first;
    }
    let solid = body_box(r);
    // Most solids aren't near the way, and to trace is slow.
    if !first.swept.overlaps(&solid) {
        return first;
    }
    let steps = trace(body, way, &[solid], &[]).steps;
    if steps < first.steps {
        Met {
            steps,
            swept: swept_in(body, way, steps),
            target: Some(*r),
        }
    } else {
        first
    }
}

/// The live solid among these records that a box meets first on its way. `None` where it meets nothing, or a wall or a
/// block.
pub fn target(body: &Aabb, way: Vec3, fixed: &[Aabb], near: &[Rec]) -> Option<Rec>
    requires near { IsNear REACH way }
    requires in_range { IsInRange (box_moved_by body.now way) }
    requires few { length fixed.now ≤ MOST_SOLIDS }
    requires records { All IsRecord near.now }
    ensures { result ≡ targets.target_of body.now way fixed.now near.now }
{
    let steps = trace(body, way, fixed, &[]).steps;
    let mut first = Met {
        steps,
        swept: swept_in(body, way, steps),
        target: None,
    };
    for r in near {
        first = meeting_with(first, body, way, r);
    }
    first.target
}
