ghost use Rattle.std.specs.Prelude.{◌≡◌, ◌≤◌, pos, unsigned_abs};
ghost use Rattle.arena_geo.specs.Vectors.{vector, IsNotNegative, IsNear};
ghost use Rattle.player_move.specs.Laws as moves;

use arena_geo::Vec3;
use speed_rules::{MAX_SPEED, MAX_VELOCITY, SECOND};

/// How far a move that begins with this speed on an axis goes on it, but for stairs, in sub-units: in its time at the
/// greatest speed that it may have.
pub fn reach_on(speed: i32, ms: u8) -> u32
    requires near { unsigned_abs speed ≤ 512000 }
    requires short { ms ≤ 50 }
    ensures value { result ≡ moves.reach_on speed ms }
    ensures near { result ≤ 25600 }
{
    let fastest = MAX_VELOCITY
        .unsigned_abs()
        .min(speed.unsigned_abs() + MAX_SPEED);
    fastest * u32::from(ms) / SECOND
}

/// By how much a box grows on each axis.
pub fn amount(x: u32, y: u32, z: u32) -> Vec3
    requires x { x ≤ 1000000 }
    requires y { y ≤ 1000000 }
    requires z { z ≤ 1000000 }
    ensures value { result ≡ vector (pos x) (pos y) (pos z) }
    ensures not_negative { IsNotNegative result }
    ensures near { IsNear 1000000 result }
{
    Vec3 {
        x: x as i32,
        y: y as i32,
        z: z as i32,
    }
}
