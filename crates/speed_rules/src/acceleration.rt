ghost use Rattle.std.specs.Prelude.{◌≡◌, ◌*◌, ◌/◌, ◌^◌, ◌<◌, ◌≤◌, pos, ◌≤ℤ◌, unsigned_abs};
ghost use Rattle.arena_geo.specs.Vectors.{IsNear};
ghost use Rattle.speed_rules.specs.Measures.{part_along};
ghost use Rattle.speed_rules.specs.Rules.{cap_of, missing_of, greatest_gain, velocity_with_gain};
ghost use Rattle.speed_rules.specs.Rules.{accelerated_toward, accelerated_velocity};
ghost use Rattle.speed_rules.specs.Changes.{AddsAtMost};

use crate::arithmetic::{length, product, quotient, scale};
use crate::constants::{ACCELERATE, MAX_AIR_SPEED, MAX_SPEED, MAX_UNCLAMPED, SECOND, UNIT};
use arena_geo::Vec3;

/// The speed along the wish up to which a player is accelerated.
fn cap(wish_speed: u32, on_ground: bool) -> u32
    ensures value { result ≡ cap_of on_ground wish_speed }
    ensures no_faster { result ≤ wish_speed }
{
    if on_ground {
        wish_speed
    } else {
        wish_speed.min(MAX_AIR_SPEED)
    }
}

/// The velocity's part along the wish (x, y), of which `len` is the length.
fn along(vel: Vec3, x: i32, y: i32, len: u32) -> i64
    requires near { IsNear MAX_UNCLAMPED vel }
    requires some { 0 < len }
    ensures value { result ≡ part_along vel x y len }
    ensures bound { unsigned_abs result < 2 ^ 62 }
{
    quotient(product(vel.x, x) + product(vel.y, y), len)
}

/// How far the velocity's part along the wish is below the cap.
fn missing_speed(vel: Vec3, x: i32, y: i32, len: u32, on_ground: bool) -> i64
    requires near { IsNear MAX_UNCLAMPED vel }
    requires some { 0 < len }
    ensures { result ≡ missing_of vel x y len on_ground }
{
    i64::from(cap(len.min(MAX_SPEED), on_ground)) - along(vel, x, y, len)
}

/// The speed that `ms` milliseconds may add.
fn greatest_gain(len: u32, ms: u8) -> u32
    requires { ms ≤ 50 }
    ensures value { result ≡ greatest_gain len ms }
    ensures bound { result ≤ ACCELERATE * MAX_SPEED * ms / SECOND }
{
    ACCELERATE * len.min(MAX_SPEED) * u32::from(ms) / SECOND
}

/// The velocity with the gain along the wish.
fn push(vel: Vec3, x: i32, y: i32, len: u32, gain: i32) -> Vec3
    requires near { IsNear MAX_UNCLAMPED vel }
    requires some { 0 < len }
    requires x_is_part { unsigned_abs x ≤ len }
    requires y_is_part { unsigned_abs y ≤ len }
    requires positive { pos 0 ≤ℤ gain }
    requires small { unsigned_abs gain ≤ 40960 }
    ensures { result ≡ velocity_with_gain vel x y len gain }
{
    Vec3 {
        x: vel.x + scale(x, gain, len),
        y: vel.y + scale(y, gain, len),
        z: vel.z,
    }
}

/// The velocity accelerated toward the wish (x, y), of which `len` is the length.
fn accelerate_toward(vel: Vec3, x: i32, y: i32, len: u32, ms: u8, on_ground: bool) -> Vec3
    requires near { IsNear MAX_UNCLAMPED vel }
    requires some { 0 < len }
    requires x_is_part { unsigned_abs x ≤ len }
    requires y_is_part { unsigned_abs y ≤ len }
    requires brief { ms ≤ 50 }
    ensures { result ≡ accelerated_toward vel x y len ms on_ground }
{
    let missing = missing_speed(vel, x, y, len, on_ground);
    if missing <= 0 {
        return vel;
    }
    let gain = i64::from(greatest_gain(len, ms)).min(missing) as i32;
    push(vel, x, y, len, gain)
}

/// The velocity accelerated for `ms` milliseconds toward the speed that the player wishes on x and y, in Quake units
/// a second, as Quake's `SV_Accelerate` on the ground and `SV_AirAccelerate` in the air.
/// Each part of `vel` is at most 600,000 from 0, and `ms` is 1 to 50.
pub fn accelerate(vel: Vec3, wish_x: i16, wish_y: i16, ms: u8, on_ground: bool) -> Vec3
    requires near { IsNear MAX_UNCLAMPED vel }
    requires least { 1 ≤ ms }
    requires most { ms ≤ 50 }
    ensures value { result ≡ accelerated_velocity vel wish_x wish_y ms on_ground }
    ensures adds { AddsAtMost (ACCELERATE * MAX_SPEED * ms / SECOND) vel result }
{
    let x = i32::from(wish_x) * UNIT;
    let y = i32::from(wish_y) * UNIT;
    let len = length(x, y);
    if len == 0 {
        return vel;
    }
    accelerate_toward(vel, x, y, len, ms, on_ground)
}
