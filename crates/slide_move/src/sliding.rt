ghost use Rattle.std.specs.Prelude.{◌≡◌, ◌+◌, ◌≤◌, ◌++◌, length};
ghost use Rattle.arena_geo.specs.Vectors.{IsNear};
ghost use Rattle.arena_geo.specs.Bounds.{IsInRange};
ghost use Rattle.arena_geo.specs.Boxes.{box_moved_by};
ghost use Rattle.slide_move.specs.Displacements.{displacement};
ghost use Rattle.slide_move.specs.Slides.{slide_along, slide_of};
ghost use Rattle.slide_move.specs.Changes.{IsPartOfWay, KeepsOrStops, EndsFree};

use crate::leg::Leg;
use crate::slid::Slid;
use crate::vector::displacement;
use arena_geo::{Aabb, Vec3};
use box_trace::MOST_SOLIDS;

/// The greatest distance from 0 of a part of a slide's velocity, in sub-units a second.
pub const GREATEST_SPEED: u32 = 600_000;

/// The greatest number of traces in a slide.
const TRACES: u8 = 4;

/// How far the body slides in `ms` milliseconds, as Quake's `SV_FlyMove`, where all solids are boxes along the axes.
///
/// The way is `vel * ms / 1000` on each axis, in sub-units, cut toward 0. Up to four times the body goes along what is
/// left of it as far as its trace says. It stops there where the trace is whole, and where nothing is left. Where it
/// runs into a solid, on an axis, it loses the part on that axis, of the velocity and of what is left; where it
/// already overlaps that solid, it loses all its velocity and stops.
///
/// Each part of `vel`, in sub-units a second, is at most [`GREATEST_SPEED`] from 0, `ms` is 1 to 50, and there are at
/// most [`MOST_SOLIDS`] solids. The body is in range where the whole way would take it, and so wherever it comes: that
/// is so where it has 30,000 sub-units of the range on each side, as [`reach_suffices`](crate::reach_suffices) says.
pub fn slide(body: &Aabb, vel: Vec3, ms: u8, fixed: &[Aabb], moving: &[Aabb]) -> Slid
    requires near { IsNear GREATEST_SPEED vel }
    requires least { 1 ≤ ms }
    requires most { ms ≤ 50 }
    requires in_range { IsInRange (box_moved_by body.now (displacement vel ms)) }
    requires few { length fixed.now + length moving.now ≤ MOST_SOLIDS }
    ensures value { result ≡ slide_of body.now vel ms (fixed.now ++ moving.now) }
    ensures shift { IsPartOfWay (displacement vel ms) result.shift }
    ensures vel { KeepsOrStops vel result.vel }
    ensures near { IsNear 30000 result.shift }
    ensures in_range { IsInRange (box_moved_by body.now result.shift) }
    ensures free { EndsFree body.now result.shift (fixed.now ++ moving.now) }
{
    slide_along(body, vel, displacement(vel, ms), fixed, moving)
}

/// The slide of a body that goes this way at this velocity.
fn slide_along(body: &Aabb, vel: Vec3, way: Vec3, fixed: &[Aabb], moving: &[Aabb]) -> Slid
    requires near { IsNear 30000 way }
    requires in_range { IsInRange (box_moved_by body.now way) }
    requires few { length fixed.now + length moving.now ≤ MOST_SOLIDS }
    ensures value { result ≡ slide_along 4 body.now vel way (fixed.now ++ moving.now) }
    ensures in_range { IsInRange (box_moved_by body.now result.shift) }
{
    let mut here = body.copied();
    let mut slid = Slid::still(vel);
    let mut left = way;
    for _ in 0..TRACES {
        let leg = Leg::of(&here, slid.vel, left, fixed, moving);
        slid = slid.then(leg.slid);
        let Some(rest) = leg.rest else {
            return slid;
        };
        here = here.shifted(leg.slid.shift);
        left = rest;
    }
    slid
}
