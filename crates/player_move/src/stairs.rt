ghost use Rattle.std.specs.Prelude.{◌≡◌, ◌+◌, ◌≤◌, ◌++◌, length};
ghost use Rattle.arena_geo.specs.Vectors.{IsNear};
ghost use Rattle.speed_rules.specs.Measures.{greatest_velocity};
ghost use Rattle.player_move.specs.Ranges.{IsWithin};
ghost use Rattle.player_move.specs.Walks.{upwards, downwards, level, stairs_of};

use crate::limits::{BODY_LIMIT, FARTHEST_SHIFT};
use crate::walk::Walked;
use arena_geo::{Aabb, Vec3};
use box_trace::{MOST_SOLIDS, shift_at, trace};
use slide_move::slide;

/// The height of a stair that a player walks up, in sub-units: 18 units, Quake's `STEPSIZE`.
pub const STAIR_HEIGHT: u32 = 4_608;

/// So far up.
fn upwards(height: u32) -> Vec3
    requires { height ≤ STAIR_HEIGHT }
    ensures { result ≡ upwards height }
{
    Vec3 {
        x: 0,
        y: 0,
        z: height as i32,
    }
}

/// So far down.
fn downwards(height: u32) -> Vec3
    requires { height ≤ STAIR_HEIGHT }
    ensures { result ≡ downwards height }
{
    Vec3 {
        x: 0,
        y: 0,
        z: -(height as i32),
    }
}

/// The velocity over the ground.
fn level(vel: Vec3) -> Vec3
    ensures { result ≡ level vel }
{
    Vec3 { z: 0, ..vel }
}

/// How a body goes up stairs: up by the height of a stair as far as it gets, along the level at its velocity over the
/// ground, and down by as many steps as its trace up made, as far as it gets. It keeps the velocity of the level alone.
pub fn stairs(body: &Aabb, vel: Vec3, ms: u8, fixed: &[Aabb], moving: &[Aabb]) -> Walked
    requires room { IsWithin BODY_LIMIT body.now }
    requires near { IsNear greatest_velocity vel }
    requires least { 1 ≤ ms }
    requires most { ms ≤ 50 }
    requires few { length fixed.now + length moving.now ≤ MOST_SOLIDS }
    ensures value { result ≡ stairs_of body.now vel ms (fixed.now ++ moving.now) }
    ensures shift { IsNear FARTHEST_SHIFT result.shift }
    ensures vel { IsNear greatest_velocity result.vel }
{
    let rise = upwards(STAIR_HEIGHT);
    let steps = trace(body, rise, fixed, moving).steps;
    let up = shift_at(rise, steps);
    let above = body.shifted(up);
    let along = slide(&above, level(vel), ms, fixed, moving);
    let shift = up + along.shift;
    let there = body.shifted(shift);
    let fall = downwards(steps);
    let down = shift_at(fall, trace(&there, fall, fixed, moving).steps);
    Walked {
        shift: shift + down,
        vel: level(along.vel),
    }
}
