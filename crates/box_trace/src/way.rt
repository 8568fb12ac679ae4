ghost use Rattle.std.specs.Prelude.{◌≡◌, ◌<◌, ◌≤◌, unsigned_abs};
ghost use Rattle.std.specs.Option.{ForSome};
ghost use Rattle.arena_geo.specs.Vectors.{IsNear};
ghost use Rattle.arena_geo.specs.Bounds.{IsBox, IsInRange};
ghost use Rattle.arena_geo.specs.Boxes.{box_moved_by};
ghost use Rattle.box_trace.specs.Steps as steps;
ghost use Rattle.box_trace.specs.Meetings.{IsFirstOverlap, IsMeetingWith, IsOnWay, hit_of};

use crate::hit::Hit;
use crate::meeting::Meeting;
use crate::span::{Span, separating_axis};
use crate::window::{Window, overlap_window};
use arena_geo::{Aabb, Vec3};

/// The greatest distance from 0 of a displacement's part, in sub-units.
pub const REACH: u32 = 65_536;

/// How many steps a displacement has: its greatest part in sub-units, signs left out.
pub fn step_count(d: Vec3) -> u32
    ensures { result ≡ steps.step_count d }
{
    d.x.unsigned_abs()
        .max(d.y.unsigned_abs().max(d.z.unsigned_abs()))
}

/// How far a part has come at step `k` of `count`, cut toward 0.
fn part_at(part: i32, k: u32, count: u32) -> i32
    requires part { unsigned_abs part ≤ count }
    requires within { k ≤ count }
    requires some { 0 < count }
    requires few { count ≤ REACH }
    ensures { result ≡ steps.part_at count k part }
{
    (i64::from(part) * i64::from(k) / i64::from(count)) as i32
}

/// How far a body has come at step `k` of its displacement, in sub-units, cut toward 0 on each axis.
pub fn shift_at(d: Vec3, k: u32) -> Vec3
    requires near { IsNear REACH d }
    requires within { k ≤ steps.step_count d }
    ensures { result ≡ steps.shift_at d k }
{
    let count = step_count(d);
    if count == 0 {
        return d;
    }
    Vec3 {
        x: part_at(d.x, k, count),
        y: part_at(d.y, k, count),
        z: part_at(d.z, k, count),
    }
}

/// A body's way along a displacement, in range at each step.
#[derive(Drop)]
pub struct Way {
    /// The body at the start.
    pub body: Aabb,
    /// The displacement, in sub-units.
    pub d: Vec3,
    /// How many steps the way has: as many as the greatest part of the displacement has sub-units.
    pub count: u32,
    ghost is_box: { IsBox body },
    ghost near: { IsNear 65536 d },
    ghost in_range: { IsInRange (box_moved_by body d) },
    ghost counted: { count ≡ steps.step_count d },
}

impl Way {
    /// The way of the body along this displacement, of which each part is at most [`REACH`] from 0.
    pub fn new(body: &Aabb, d: Vec3) -> Way
        requires near { IsNear REACH d }
        requires in_range { IsInRange (box_moved_by body.now d) }
        ensures body { result.body ≡ body.now }
        ensures d { result.d ≡ d }
    {
        Way {
            body: body.copied(),
            d,
            count: step_count(d),
        }
    }

    /// The body at step `k`.
    pub fn body_at(&self, k: u32) -> Aabb
        requires { k ≤ self.now.count }
        ensures { result ≡ steps.body_at self.now.body self.now.d k }
    {
        self.body.shifted(shift_at(self.d, k))
    }

    /// The first step from 1 on at which the body overlaps the solid: the first that lies in the windows of all
    /// three axes. `None` where there is none.
    pub fn first_overlap(&self, solid: &Aabb) -> Option<u32>
        ensures { IsFirstOverlap self.now.body self.now.d solid.now result }
    {
        let (body, count) = (&self.body, self.count);
        let steps = Window {
            from: 1,
            to: count + 1,
        };
        let x = overlap_window(Span::on_x(body), Span::on_x(solid), self.d.x, count);
        let steps = steps.meet(x)?;
        let y = overlap_window(Span::on_y(body), Span::on_y(solid), self.d.y, count);
        let steps = steps.meet(y)?;
        let z = overlap_window(Span::on_z(body), Span::on_z(solid), self.d.z, count);
        let steps = steps.meet(z)?;
        Some(steps.from)
    }

    /// The first overlap with the solid, which has this place in its list.
    pub fn meeting_with(&self, solid: &Aabb, block: u16) -> Option<Meeting>
        ensures { IsMeetingWith self.now.body self.now.d solid.now block result }
    {
        let step = self.first_overlap(solid)?;
        Some(Meeting {
            step,
            block,
            solid: *solid,
        })
    }

    /// The answer for what the body meets first.
    pub fn hit(&self, first: Option<Meeting>) -> Hit
        requires { ForSome first (λ meeting. IsOnWay self.now.d meeting) }
        ensures { result ≡ hit_of self.now.body self.now.d first }
    {
        let Some(meeting) = first else {
            return Hit {
                steps: self.count,
                whole: true,
                axis: None,
                block: None,
            };
        };
        let steps = meeting.step - 1;
        let axis = separating_axis(&self.body_at(steps), &meeting.solid);
        Hit {
            steps,
            whole: false,
            axis: axis.map(|axis| axis.number()),
            block: Some(meeting.block),
        }
    }
}
