ghost use Rattle.std.specs.Prelude.{◌≡◌, ◌+◌, ◌≤◌, ◌++◌, length};
ghost use Rattle.arena_geo.specs.Vectors.{IsNear};
ghost use Rattle.arena_geo.specs.Bounds.{IsInRange};
ghost use Rattle.arena_geo.specs.Boxes.{box_moved_by};
ghost use Rattle.box_trace.specs.Steps as steps;
ghost use Rattle.slide_move.specs.Slides as slides;
ghost use Rattle.slide_move.specs.Slides.{last_leg, leg_after, leg_of};

use crate::slid::Slid;
use crate::vector::{some_way, without};
use arena_geo::{Aabb, Vec3};
use box_trace::{Axis, Hit, MOST_SOLIDS, REACH, shift_at, trace};

/// Whether the axis is x or y.
fn is_sideways(axis: Axis) -> bool
    ensures { result ≡ slides.is_sideways axis }
{
    match axis {
        Axis::X | Axis::Y => true,
        Axis::Z => false,
    }
}

/// One trace of a slide, and what follows from it.
#[derive(Clone, Copy)]
pub struct Leg {
    /// The slide up to the end of the trace.
    pub slid: Slid,
    /// What is left of the way, in sub-units. `None` where the slide ends.
    pub rest: Option<Vec3>,
}

impl Leg {
    /// The leg of a body that goes this way at this velocity.
    pub fn of(body: &Aabb, vel: Vec3, way: Vec3, fixed: &[Aabb], moving: &[Aabb]) -> Leg
        requires near { IsNear REACH way }
        requires in_range { IsInRange (box_moved_by body.now way) }
        requires few { length fixed.now + length moving.now ≤ MOST_SOLIDS }
        ensures { result ≡ leg_of body.now vel way (fixed.now ++ moving.now) }
    {
        Leg::after(trace(body, way, fixed, moving), vel, way)
    }

    /// The leg whose trace finds this: as Quake's `SV_FlyMove`, whose `ClipVelocity` takes from the velocity all of
    /// its part on the axis that was hit.
    fn after(hit: Hit, vel: Vec3, way: Vec3) -> Leg
        requires near { IsNear REACH way }
        requires within { hit.steps ≤ steps.step_count way }
        ensures { result ≡ leg_after hit vel way }
    {
        let shift = shift_at(way, hit.steps);
        if hit.whole {
            return Leg::last(shift, vel);
        }
        let Some(axis) = hit.axis.and_then(Axis::with_number) else {
            return Leg::last(shift, Vec3::ZERO);
        };
        Leg {
            slid: Slid {
                shift,
                vel: without(vel, axis),
                side: is_sideways(axis),
            },
            rest: some_way(without(way - shift, axis)),
        }
    }

    /// A leg that ends the slide.
    fn last(shift: Vec3, vel: Vec3) -> Leg
        ensures { result ≡ last_leg shift vel }
    {
        Leg {
            slid: Slid {
                shift,
                vel,
                side: false,
            },
            rest: None,
        }
    }
}
