ghost use Rattle.std.specs.Prelude.{◌≡◌, ◌<◌, ◌≤◌, false, length, slice_get, take, Some};
ghost use Rattle.std.specs.List.{list_any};
ghost use Rattle.std.specs.Option.{option_map_or};
ghost use Rattle.arena_geo.specs.declared.aabb.TheConstants.{FARTHEST};
ghost use Rattle.arena_geo.specs.Bounds.{bounds};
ghost use Rattle.arena_geo.specs.Boxes as boxes;
ghost use Rattle.arena_geo.specs.Vectors.{IsNear};
ghost use Rattle.entity_recs.specs.Records.{IsRecord};
ghost use Rattle.arena_map.specs.Maps as maps;
ghost use Rattle.demo_walk.specs.Places as places_are;

use arena_geo::{Aabb, Vec3};
use arena_map::ArenaMap;
use entity_recs::{Rec, body_box, player_box};

/// Whether each of two intervals begins strictly before the other ends.
fn overlaps_on(lo: i32, hi: i32, other_lo: i32, other_hi: i32) -> bool
    ensures { result ≡ boxes.overlaps_on lo hi other_lo other_hi }
{
    lo < other_hi && other_lo < hi
}

/// Whether the boxes with these corners overlap along x and along y.
fn meet_on_the_floor(lo: Vec3, hi: Vec3, other_lo: Vec3, other_hi: Vec3) -> bool
    ensures { result ≡ places_are.share_a_column (bounds lo hi) (bounds other_lo other_hi) }
{
    overlaps_on(lo.x, hi.x, other_lo.x, other_hi.x)
        && overlaps_on(lo.y, hi.y, other_lo.y, other_hi.y)
}

/// Whether the boxes overlap along x and along y.
fn share_a_column(one: &Aabb, other: &Aabb) -> bool
    ensures { result ≡ places_are.share_a_column one.now other.now }
{
    meet_on_the_floor(one.lo(), one.hi(), other.lo(), other.hi())
}

/// Whether the thing is a lift that is at the body, or above or below it.
fn is_by_lift(body: &Aabb, thing: &Rec) -> bool
    requires { IsRecord thing.now }
    ensures { result ≡ places_are.is_by_lift body.now thing.now }
{
    thing.kind.is_solid() && share_a_column(body, &body_box(thing))
}

/// Whether the thing at this place among those of the map is such a lift.
fn is_by_thing(map: &ArenaMap, body: &Aabb, place: usize) -> bool
    requires { place < length (maps.entities_of map.now) }
    ensures { result
        ≡ option_map_or (places_are.is_by_lift body.now) (slice_get (maps.entities_of map.now) place) false }
{
    let things = map.entities();
    is_by_lift(body, &things[place])
}

/// Whether some lift is at the body, or above or below it.
fn meets_lift(map: &ArenaMap, body: &Aabb) -> bool
    ensures { result ≡ list_any (places_are.is_by_lift body.now) (maps.entities_of map.now) }
{
    let mut meets = false;
    for place in 0..map.entities().len() {
        meets = meets || is_by_thing(map, body, place);
    }
    meets
}

/// A spawn of the map.
fn spawn(map: &ArenaMap, index: usize) -> Vec3
    requires { index < length map.now.spawns }
    ensures value { slice_get map.now.spawns index ≡ Some result }
    ensures near { IsNear FARTHEST result }
{
    map.spawns()[index]
}

/// Whether a player at this spawn overlaps the body.
fn is_by_spawn(map: &ArenaMap, body: &Aabb, index: usize) -> bool
    requires { index < length map.now.spawns }
    ensures { result ≡ option_map_or (places_are.is_by_spawn body.now) (slice_get map.now.spawns index) false }
{
    body.overlaps(&player_box(spawn(map, index)))
}

/// Whether a player at one of the first so many spawns overlaps the body.
fn meets_spawn(map: &ArenaMap, body: &Aabb, earlier: usize) -> bool
    requires { earlier ≤ length map.now.spawns }
    ensures { result ≡ list_any (places_are.is_by_spawn body.now) (take earlier map.now.spawns) }
{
    let mut meets = false;
    for index in 0..earlier {
        meets = meets || is_by_spawn(map, body, index);
    }
    meets
}

/// Whether this spawn is a place: a player there overlaps no wall, no block and no player at an earlier spawn, and no
/// lift is at it, above it or below it.
fn is_place(map: &ArenaMap, index: usize) -> bool
    requires { index < length map.now.spawns }
    ensures { result ≡ places_are.is_place map.now index }
{
    let body = player_box(spawn(map, index));
    !body.is_blocked(map.solids()) && !meets_lift(map, &body) && !meets_spawn(map, &body, index)
}

/// How many places the map has: spawns at which a player overlaps no wall, no block and no player at an earlier spawn,
/// and no lift is at it, above it or below it. So many players can join at once. Maybe more can: a spawn in a block
/// keeps later ones from being places, if players there overlap one at it.
pub fn place_count(map: &ArenaMap) -> u8
    ensures value { result ≡ places_are.places_of map.now }
    ensures few { result ≤ 64 }
    ensures rules { maps.IsMap map.now }
{
    let mut places = 0;
    for index in 0..map.spawns().len() {
        places += u8::from(is_place(map, index));
    }
    places
}
