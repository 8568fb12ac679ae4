ghost use Rattle.std.specs.Prelude.{◌≡◌, ◌+◌, ◌*◌, ◌++◌, ◌≤◌, length};
ghost use Rattle.arena_geo.specs.Vectors.{IsNear};
ghost use Rattle.speed_rules.specs.Measures.{greatest_velocity};
ghost use Rattle.player_move.specs.Ranges.{IsWithin};
ghost use Rattle.player_move.specs.Walks.{flat_square, are_taken, walk_of};

use crate::ground::on_ground;
use crate::limits::{BODY_LIMIT, FARTHEST_SHIFT};
use crate::stairs::stairs;
use arena_geo::{Aabb, Vec3};
use box_trace::{MOST_SOLIDS, REACH};
use slide_move::slide;

/// How far a body goes in a move, and the velocity that is left.
#[derive(Clone, Copy, Debug, PartialEq, Eq)]
pub struct Walked {
    /// How far the body goes, in sub-units.
    pub shift: Vec3,
    /// The velocity that is left, in sub-units a second.
    pub vel: Vec3,
}

/// The square of the distance over the ground.
fn flat_square(shift: Vec3) -> u64
    requires { IsNear REACH shift }
    ensures { result ≡ flat_square shift }
{
    let x = u64::from(shift.x.unsigned_abs());
    let y = u64::from(shift.y.unsigned_abs());
    x * x + y * y
}

/// Whether the stairs are taken in place of the plain slide: they lead strictly farther over the ground, and the body
/// is on the ground there.
fn are_taken(body: &Aabb, stairs: Vec3, plain: Vec3, fixed: &[Aabb], moving: &[Aabb]) -> bool
    requires room { IsWithin BODY_LIMIT body.now }
    requires stairs_near { IsNear REACH stairs }
    requires plain_near { IsNear REACH plain }
    ensures { result ≡ are_taken body.now stairs plain (fixed.now ++ moving.now) }
{
    if flat_square(stairs) <= flat_square(plain) {
        return false;
    }
    let there = body.shifted(stairs);
    on_ground(&there, fixed, moving)
}

/// How a body moves at this velocity: it slides, or goes up the stairs where it walks and they lead farther, as
/// Quake's `SV_WalkMove`.
pub fn walk(walks: bool, body: &Aabb, vel: Vec3, ms: u8, fixed: &[Aabb], moving: &[Aabb]) -> Walked
    requires room { IsWithin BODY_LIMIT body.now }
    requires near { IsNear greatest_velocity vel }
    requires least { 1 ≤ ms }
    requires most { ms ≤ 50 }
    requires few { length fixed.now + length moving.now ≤ MOST_SOLIDS }
    ensures value { result ≡ walk_of walks body.now vel ms (fixed.now ++ moving.now) }
    ensures shift { IsNear FARTHEST_SHIFT result.shift }
    ensures vel { IsNear greatest_velocity result.vel }
{
    let plain = slide(body, vel, ms, fixed, moving);
    let plain_walk = Walked {
        shift: plain.shift,
        vel: plain.vel,
    };
    if !walks || !plain.side {
        return plain_walk;
    }
    let stairs = stairs(body, vel, ms, fixed, moving);
    if are_taken(body, stairs.shift, plain.shift, fixed, moving) {
        stairs
    } else {
        plain_walk
    }
}
