ghost use Rattle.std.specs.Prelude.{◌≡◌, ◌++◌};
ghost use Rattle.arena_geo.specs.Bounds.{IsInRange};
ghost use Rattle.arena_geo.specs.Boxes.{box_moved_by};
ghost use Rattle.player_move.specs.Walks.{downwards, ground_of};

use arena_geo::{Aabb, Vec3};

/// The way by which a body is moved down for the ground test: 1 sub-unit.
const BELOW: Vec3 = Vec3 { x: 0, y: 0, z: -1 };

/// Whether the body is on the ground: moved down by 1 sub-unit, it overlaps a solid. The solids are those of both
/// slices. The body is in range there too.
pub fn on_ground(body: &Aabb, fixed: &[Aabb], moving: &[Aabb]) -> bool
    requires { IsInRange (box_moved_by body.now (downwards 1)) }
    ensures { result ≡ ground_of body.now (fixed.now ++ moving.now) }
{
    let below = body.shifted(BELOW);
    below.is_blocked(fixed) || below.is_blocked(moving)
}
