ghost use Rattle.arena_geo.specs.declared.aabb.TheConstants.{FARTHEST};
ghost use Rattle.std.specs.Prelude.{◌≡◌, ◌≤◌, ◌≤ℤ◌, true, pos, unsigned_abs};
ghost use Rattle.arena_geo.specs.Vectors.{IsNear};
ghost use Rattle.arena_geo.specs.Bounds.{bounds};
ghost use Rattle.arena_map.specs.MapLines.{IsWithinLimits};
ghost use Rattle.arena_map.specs.Positions as places;

use crate::limits::LEAST_SIDE;
use crate::map_line::MapLine;
use arena_geo::{Aabb, Vec3};
use entity_recs::{ITEM_MAXS, ITEM_MINS, player_box};

/// Whether a side is at least [`LEAST_SIDE`] long.
fn is_long(from: i32, to: i32) -> bool
    requires from { unsigned_abs from ≤ FARTHEST }
    requires to { unsigned_abs to ≤ FARTHEST }
    ensures { result ≡ places.is_long from to }
{
    LEAST_SIDE <= to - from
}

/// Whether each side of the arena is at least [`LEAST_SIDE`] long.
pub fn is_wide(lo: Vec3, hi: Vec3) -> bool
    requires lo { IsNear FARTHEST lo }
    requires hi { IsNear FARTHEST hi }
    ensures { result ≡ places.is_wide lo hi }
{
    is_long(lo.x, hi.x) && is_long(lo.y, hi.y) && is_long(lo.z, hi.z)
}

/// Whether the low corner is below the high one on each axis.
pub fn is_thick(lo: Vec3, hi: Vec3) -> bool
    ensures { result ≡ places.is_thick lo hi }
{
    lo.x < hi.x && lo.y < hi.y && lo.z < hi.z
}

/// The box between corners of which the low one is below the high one on each axis.
pub fn box_between(lo: Vec3, hi: Vec3) -> Aabb
    requires lo { IsNear FARTHEST lo }
    requires hi { IsNear FARTHEST hi }
    requires thick { places.is_thick lo hi ≡ true }
    ensures { result ≡ bounds lo hi }
{
    Aabb::from_corners(lo, hi)
}

/// Whether the box between the corners has an inside and is inside the arena.
fn is_box_inside(arena: &Aabb, lo: Vec3, hi: Vec3) -> bool
    requires lo { IsNear FARTHEST lo }
    requires hi { IsNear FARTHEST hi }
    ensures { result ≡ places.is_box_inside arena.now lo hi }
{
    is_thick(lo, hi) && arena.contains(&box_between(lo, hi))
}

/// Whether a player with its origin there is inside the arena.
fn is_player_inside(arena: &Aabb, at: Vec3) -> bool
    requires { IsNear FARTHEST at }
    ensures { result ≡ places.is_player_inside arena.now at }
{
    arena.contains(&player_box(at))
}

/// The body of an item with its origin there.
fn item_box(at: Vec3) -> Aabb
    requires { IsNear FARTHEST at }
    ensures { result ≡ places.item_body at }
{
    Aabb::from_corners(at + ITEM_MINS, at + ITEM_MAXS)
}

/// So far up, in sub-units.
fn upwards(rise: i32) -> Vec3
    ensures { result ≡ places.upwards rise }
{
    Vec3 {
        x: 0,
        y: 0,
        z: rise,
    }
}

/// A lift's box at its highest place.
fn box_at_the_top(lo: Vec3, hi: Vec3, rise: i32) -> Aabb
    requires lo { IsNear FARTHEST lo }
    requires hi { IsNear FARTHEST hi }
    requires thick { places.is_thick lo hi ≡ true }
    requires rise { unsigned_abs rise ≤ FARTHEST }
    ensures { result ≡ places.box_at_the_top lo hi rise }
{
    box_between(lo, hi).shifted(upwards(rise))
}

/// A lift's shaft: its box from the lowest place to the highest.
pub fn shaft(lo: Vec3, hi: Vec3, rise: i32) -> Aabb
    requires lo { IsNear FARTHEST lo }
    requires hi { IsNear FARTHEST hi }
    requires thick { places.is_thick lo hi ≡ true }
    requires least { pos 1 ≤ℤ rise }
    requires most { rise ≤ℤ pos FARTHEST }
    ensures { result ≡ places.shaft lo hi rise }
{
    Aabb::from_corners(lo, hi + upwards(rise))
}

/// Rule 2: a block, teleporter, goal or lift has an inside, and is inside the arena.
pub fn keeps_box(arena: &Aabb, l: &MapLine) -> bool
    requires { IsWithinLimits l.now }
    ensures { result ≡ places.keeps_box arena.now l.now }
{
    match *l {
        MapLine::Block { lo, hi }
        | MapLine::Teleport { lo, hi, .. }
        | MapLine::Goal { lo, hi }
        | MapLine::Lift { lo, hi, .. } => is_box_inside(arena, lo, hi),
        MapLine::Arena { .. }
        | MapLine::Spawn { .. }
        | MapLine::Item { .. }
        | MapLine::Depth(_)
        | MapLine::Shots
        | MapLine::Blocks(_) => true,
    }
}

/// Rule 4: a player at the spawn or the destination is inside the arena.
pub fn keeps_stand(arena: &Aabb, l: &MapLine) -> bool
    requires { IsWithinLimits l.now }
    ensures { result ≡ places.keeps_stand arena.now l.now }
{
    match *l {
        MapLine::Spawn { at } | MapLine::Teleport { dest: at, .. } => is_player_inside(arena, at),
        _ => true,
    }
}

/// Rule 5: an item's body is inside the arena.
pub fn keeps_item(arena: &Aabb, l: &MapLine) -> bool
    requires { IsWithinLimits l.now }
    ensures { result ≡ places.keeps_item arena.now l.now }
{
    match *l {
        MapLine::Item { at, .. } => arena.contains(&item_box(at)),
        _ => true,
    }
}

/// Rule 6: a lift at its highest place is inside the arena. Its line keeps rule 2.
pub fn keeps_travel(arena: &Aabb, l: &MapLine) -> bool
    requires limits { IsWithinLimits l.now }
    requires inside { places.keeps_box arena.now l.now ≡ true }
    ensures { result ≡ places.keeps_travel arena.now l.now }
{
    match *l {
        MapLine::Lift { lo, hi, rise, .. } => arena.contains(&box_at_the_top(lo, hi, rise)),
        _ => true,
    }
}
