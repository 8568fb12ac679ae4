ghost use Rattle.std.specs.Prelude.{◌≡◌, ◌≤◌, unsigned_abs};
ghost use Rattle.arena_geo.specs.Vectors.{IsNear};
ghost use Rattle.slide_move.specs.Displacements as displacements;

use crate::sliding::GREATEST_SPEED;
use arena_geo::Vec3;
use box_trace::Axis;

/// The milliseconds in a second.
const SECOND: i64 = 1_000;

/// How far a speed goes in `ms` milliseconds, cut toward 0.
fn distance(speed: i32, ms: u8) -> i32
    requires near { unsigned_abs speed ≤ GREATEST_SPEED }
    requires most { ms ≤ 50 }
    ensures value { result ≡ displacements.distance speed ms }
    ensures near { unsigned_abs result ≤ 30000 }
{
    (i64::from(speed) * i64::from(ms) / SECOND) as i32
}

/// How far a velocity goes in `ms` milliseconds, cut toward 0 on each axis.
pub fn displacement(vel: Vec3, ms: u8) -> Vec3
    requires near { IsNear GREATEST_SPEED vel }
    requires most { ms ≤ 50 }
    ensures value { result ≡ displacements.displacement vel ms }
    ensures near { IsNear 30000 result }
{
    Vec3 {
        x: distance(vel.x, ms),
        y: distance(vel.y, ms),
        z: distance(vel.z, ms),
    }
}

/// The vector with 0 on this axis.
pub fn without(v: Vec3, axis: Axis) -> Vec3
    ensures { result ≡ displacements.without axis v }
{
    match axis {
        Axis::X => Vec3 { x: 0, ..v },
        Axis::Y => Vec3 { y: 0, ..v },
        Axis::Z => Vec3 { z: 0, ..v },
    }
}

/// The displacement. `None` exactly where it is 0 on all axes.
pub fn some_way(d: Vec3) -> Option<Vec3>
    ensures { result ≡ displacements.some_way d }
{
    if d.x == 0 && d.y == 0 && d.z == 0 {
        None
    } else {
        Some(d)
    }
}
