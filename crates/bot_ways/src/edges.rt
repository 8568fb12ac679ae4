ghost use Rattle.arena_geo.specs.declared.aabb.TheConstants.{FARTHEST};
ghost use Rattle.std.specs.Prelude.{◌≡◌, ◌<◌, ◌≤◌, ◌&&◌, ◌-ℤ◌, true, length, unsigned_abs, slice_get, Some, IfSome};
ghost use Rattle.arena_geo.specs.Vectors.{IsNear};
ghost use Rattle.box_trace.specs.declared.hit.TheConstants.{MOST_SOLIDS};
ghost use Rattle.bot_ways.specs.Edges as edges;

use arena_geo::{Aabb, Vec3};
use arena_map::ArenaMap;
use box_trace::{REACH, trace};
use entity_recs::player_box;

/// How far two coordinates are from each other.
fn apart(from: i32, to: i32) -> u32
    requires from { unsigned_abs from ≤ FARTHEST }
    requires to { unsigned_abs to ≤ FARTHEST }
    ensures value { result ≡ unsigned_abs (to -ℤ from) }
    ensures few { result ≤ 2097152 }
{
    (to - from).unsigned_abs()
}

/// How far two points are from each other on x or y, whichever is farther.
pub fn distance(from: Vec3, to: Vec3) -> u32
    requires from { IsNear FARTHEST from }
    requires to { IsNear FARTHEST to }
    ensures value { result ≡ edges.distance from to }
    ensures few { result ≤ 2097152 }
{
    apart(from.x, to.x).max(apart(from.y, to.y))
}

/// Whether no solid overlaps a player's body at the first point, or at a step of its trace to the second.
fn is_free(solids: &[Aabb], from: Vec3, to: Vec3) -> bool
    requires from { IsNear FARTHEST from }
    requires to { IsNear FARTHEST to }
    requires near { edges.are_near from to ≡ true }
    requires few { length solids.now ≤ MOST_SOLIDS }
    ensures { result ≡ edges.is_free solids.now from to }
{
    let body = player_box(from);
    !body.is_blocked(solids) && trace(&body, to - from, solids, &[]).whole
}

/// Whether an edge leads from the first point to the second.
fn has_edge(solids: &[Aabb], from: Vec3, to: Vec3) -> bool
    requires from { IsNear FARTHEST from }
    requires to { IsNear FARTHEST to }
    requires few { length solids.now ≤ MOST_SOLIDS }
    ensures { result ≡ edges.are_near from to && edges.is_free solids.now from to }
{
    let length = distance(from, to);
    from.z == to.z && 0 < length && length <= REACH && is_free(solids, from, to)
}

/// The place of a waypoint.
pub fn waypoint_point(map: &ArenaMap, waypoint: usize) -> Vec3
    requires { waypoint < length map.now.spawns }
    ensures value { slice_get map.now.spawns waypoint ≡ Some result }
    ensures near { IsNear FARTHEST result }
{
    map.spawns()[waypoint]
}

/// The length of the edge from one waypoint to another. `None` where there is none.
pub fn edge(map: &ArenaMap, from: usize, to: usize) -> Option<u32>
    requires from { from < length map.now.spawns }
    requires to { to < length map.now.spawns }
    ensures value { result ≡ edges.edge map.now from to }
    ensures few { IfSome result (λ step. step ≤ 65536) }
{
    let (from, to) = (waypoint_point(map, from), waypoint_point(map, to));
    if !has_edge(map.solids(), from, to) {
        return None;
    }
    Some(distance(from, to))
}
