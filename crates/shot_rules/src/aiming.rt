ghost use Rattle.arena_geo.specs.declared.aabb.TheConstants.{FARTHEST};
ghost use Rattle.std.specs.Prelude.{◌≡◌, ◌<◌};
ghost use Rattle.std.specs.Option.{ForSome};
ghost use Rattle.arena_geo.specs.Vectors.{IsNear};
ghost use Rattle.box_trace.specs.declared.way.TheConstants.{REACH};
ghost use Rattle.shot_rules.specs.Targets as targets;

use crate::numbers::{FIRE, HALF_WIDTH, RANGE};
use arena_geo::{Aabb, Vec3};
use entity_recs::Cmd;
use speed_rules::{UNIT, length, scale};

/// Whether this bit is set.
pub fn is_set(bits: u8, bit: u8) -> bool
    requires { bit < 8 }
    ensures { result ≡ targets.is_set bits bit }
{
    (bits >> bit) & 1 == 1
}

/// The box of a shot from this origin.
pub fn shot_box(origin: Vec3) -> Aabb
    requires { IsNear FARTHEST origin }
    ensures { result ≡ targets.shot_box origin }
{
    let half = Vec3 {
        x: HALF_WIDTH,
        y: HALF_WIDTH,
        z: HALF_WIDTH,
    };
    Aabb::from_corners(origin - half, origin + half)
}

/// The way of a shot along this wish, in units a second. `None` exactly where there is no wish.
fn way_along(wish_x: i16, wish_y: i16) -> Option<Vec3>
    ensures value { result ≡ targets.way_if_any wish_x wish_y }
    ensures near { ForSome result (λ way. IsNear REACH way) }
{
    let x = i32::from(wish_x) * UNIT;
    let y = i32::from(wish_y) * UNIT;
    let len = length(x, y);
    if len == 0 {
        return None;
    }
    Some(Vec3 {
        x: scale(x, RANGE, len),
        y: scale(y, RANGE, len),
        z: 0,
    })
}

/// The way of a command's shot: along the wish, over the ground. `None` exactly where there is no wish.
pub fn shot_way(cmd: &Cmd) -> Option<Vec3>
    ensures value { result ≡ targets.way_if_any cmd.now.wish_x cmd.now.wish_y }
    ensures near { ForSome result (λ way. IsNear REACH way) }
{
    way_along(cmd.wish_x, cmd.wish_y)
}

/// Where the shot of a command from this origin may go: its box at the start of its way, at the end, and all between.
/// `None` exactly where none is asked for: the button isn't pressed, or there is no wish.
pub fn shot_range(origin: Vec3, cmd: &Cmd) -> Option<Aabb>
    requires { IsNear FARTHEST origin }
    ensures { result ≡ targets.range_if_any origin cmd.now.buttons cmd.now.wish_x cmd.now.wish_y }
{
    if !is_set(cmd.buttons, FIRE) {
        return None;
    }
    let way = shot_way(cmd)?;
    let body = shot_box(origin);
    Some(body.hull(&body.shifted(way)))
}
