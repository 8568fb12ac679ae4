ghost use Rattle.arena_geo.specs.declared.aabb.TheConstants.{FARTHEST};
ghost use Rattle.std.specs.Prelude.{◌≡◌};
ghost use Rattle.arena_geo.specs.Vectors.{IsNear};
ghost use Rattle.arena_geo.specs.Bounds.{bounds, IsBox, IsOrdered};
ghost use Rattle.box_trace.specs.Walls.{walls_of};
ghost use Rattle.box_trace.specs.Walls as spec;

use arena_geo::{Aabb, Vec3};

/// How many walls an arena has.
pub const WALLS: usize = 6;

/// How thick a wall is, in sub-units.
const THICK: i32 = 16_384;

/// `v` with its x from another place.
fn with_x(v: Vec3, from: Vec3) -> Vec3
    ensures { result ≡ spec.with_x v from }
{
    Vec3 {
        x: from.x,
        y: v.y,
        z: v.z,
    }
}

/// `v` with its y from another place.
fn with_y(v: Vec3, from: Vec3) -> Vec3
    ensures { result ≡ spec.with_y v from }
{
    Vec3 {
        x: v.x,
        y: from.y,
        z: v.z,
    }
}

/// `v` with its z from another place.
fn with_z(v: Vec3, from: Vec3) -> Vec3
    ensures { result ≡ spec.with_z v from }
{
    Vec3 {
        x: v.x,
        y: v.y,
        z: from.z,
    }
}

/// The wall between these corners.
fn wall(lo: Vec3, hi: Vec3) -> Aabb
    requires { IsBox (bounds lo hi) }
    ensures { result ≡ bounds lo hi }
{
    Aabb::from_corners(lo, hi)
}

/// The walls outside an arena with these corners.
fn walls_outside(lo: Vec3, hi: Vec3) -> [Aabb; 6]
    requires lo { IsNear FARTHEST lo }
    requires hi { IsNear FARTHEST hi }
    requires ordered { IsOrdered (bounds lo hi) }
    ensures { result ≡ walls_of (bounds lo hi) }
{
    let thick = Vec3 {
        x: THICK,
        y: THICK,
        z: THICK,
    };
    let low = lo - thick;
    let high = hi + thick;
    [
        wall(low, with_x(high, lo)),
        wall(with_x(low, hi), high),
        wall(low, with_y(high, lo)),
        wall(with_y(low, hi), high),
        wall(low, with_z(high, lo)),
        wall(with_z(low, hi), high),
    ]
}

/// The six walls just outside the arena, in the order low x, high x, low y, high y, low z, high z. Each is 16,384
/// sub-units thick, and on the two other axes reaches as far beyond the arena. The arena's corners are at most
/// 1,048,576 sub-units from 0.
pub fn arena_walls(arena: &Aabb) -> [Aabb; 6]
    requires lo { IsNear FARTHEST arena.now.lo }
    requires hi { IsNear FARTHEST arena.now.hi }
    ensures { result ≡ walls_of arena.now }
{
    walls_outside(arena.lo(), arena.hi())
}
