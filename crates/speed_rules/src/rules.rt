ghost use Rattle.std.specs.Prelude.{◌≡◌, ◌≤◌};
ghost use Rattle.arena_geo.specs.Vectors.{IsNear};
ghost use Rattle.speed_rules.specs.Measures.{greatest_velocity};
ghost use Rattle.speed_rules.specs.Rules.{speed_after_friction, friction_of, gravity_of, clamped_velocity};
ghost use Rattle.speed_rules.specs.Changes.{Shortens};

use crate::arithmetic::{length, scale};
use crate::constants::{FRICTION, GRAVITY, MAX_UNCLAMPED, MAX_VELOCITY, SECOND, STOP_SPEED};
use arena_geo::Vec3;

/// The speed that friction leaves of `speed` after `ms` milliseconds.
fn slow(speed: u32, ms: u8) -> u32
    ensures value { result ≡ speed_after_friction ms speed }
    ensures no_faster { result ≤ speed }
{
    let control = speed.max(STOP_SPEED);
    let drop = u64::from(ms) * u64::from(control) * u64::from(FRICTION) / u64::from(SECOND);
    u64::from(speed).saturating_sub(drop) as u32
}

/// The velocity after friction on the ground for `ms` milliseconds, as Quake's `SV_UserFriction`, on x and y alone.
/// Each part of `vel` is at most 600,000 from 0, and `ms` is 1 to 50.
pub fn friction(vel: Vec3, ms: u8) -> Vec3
    requires near { IsNear MAX_UNCLAMPED vel }
    requires least { 1 ≤ ms }
    requires most { ms ≤ 50 }
    ensures value { result ≡ friction_of vel ms }
    ensures shortens { Shortens vel result }
{
    let speed = length(vel.x, vel.y);
    if speed == 0 {
        return vel;
    }
    let left = slow(speed, ms) as i32;
    Vec3 {
        x: scale(vel.x, left, speed),
        y: scale(vel.y, left, speed),
        z: vel.z,
    }
}

/// The velocity after falling for `ms` milliseconds, as Quake's `SV_AddGravity`.
/// Each part of `vel` is at most 600,000 from 0, and `ms` is 1 to 50.
pub fn gravity(vel: Vec3, ms: u8) -> Vec3
    requires near { IsNear MAX_UNCLAMPED vel }
    requires least { 1 ≤ ms }
    requires most { ms ≤ 50 }
    ensures value { result ≡ gravity_of vel ms }
{
    let fall = GRAVITY * u32::from(ms) / SECOND;
    Vec3 {
        x: vel.x,
        y: vel.y,
        z: vel.z - fall as i32,
    }
}

/// The velocity with each part cut to -512,000 to 512,000, as Quake's `SV_CheckVelocity`.
pub fn clamp(vel: Vec3) -> Vec3
    ensures value { result ≡ clamped_velocity vel }
    ensures near { IsNear greatest_velocity result }
{
    Vec3 {
        x: vel.x.clamp(-MAX_VELOCITY, MAX_VELOCITY),
        y: vel.y.clamp(-MAX_VELOCITY, MAX_VELOCITY),
        z: vel.z.clamp(-MAX_VELOCITY, MAX_VELOCITY),
    }
}
