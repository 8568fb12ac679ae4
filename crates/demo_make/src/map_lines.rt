ghost use Rattle.arena_geo.specs.declared.aabb.TheConstants.{FARTHEST};
ghost use Rattle.std.specs.Prelude.{◌≡◌, ◌<◌, Some, slice_get, pos, ◌+ℤ◌};
ghost use Rattle.arena_geo.specs.Vectors.{vector, IsNear};
ghost use Rattle.arena_map.specs.declared.map_line.MapLine.TheVariants.{Arena};
ghost use Rattle.arena_map.specs.MapLines.{IsWithinLimits};
ghost use Rattle.demo_make.specs.GeneratedMap as made;

use arena_geo::Vec3;
use arena_map::MapLine;
use entity_recs::Kind;

/// How many lines the map of a generated recording has.
pub const MAP_LINES: u8 = 101;

/// The point with these coordinates, in sub-units.
fn point(x: i32, y: i32, z: i32) -> Vec3
    ensures { result ≡ vector x y z }
{
    Vec3 { x, y, z }
}

/// The arena.
fn arena() -> MapLine
    ensures line { result ≡ Arena made.arena.lo made.arena.hi }
    ensures limits { IsWithinLimits result }
{
    MapLine::Arena {
        lo: point(-262_144, -262_144, 0),
        hi: point(262_144, 262_144, 131_072),
    }
}

/// The teleporter near the lowest corner. It leads to the centre.
fn low_teleport() -> MapLine
    ensures line { result ≡ made.low_teleport }
    ensures limits { IsWithinLimits result }
{
    MapLine::Teleport {
        lo: point(-229_376, -229_376, 0),
        hi: point(-204_800, -204_800, 25_600),
        dest: point(0, 0, 6_144),
    }
}

/// The teleporter near the opposite corner. It leads to the centre too.
fn high_teleport() -> MapLine
    ensures line { result ≡ made.high_teleport }
    ensures limits { IsWithinLimits result }
{
    MapLine::Teleport {
        lo: point(204_800, 204_800, 0),
        hi: point(229_376, 229_376, 25_600),
        dest: point(0, 0, 6_144),
    }
}

/// The goal, around the centre.
fn goal() -> MapLine
    ensures line { result ≡ made.goal_line }
    ensures limits { IsWithinLimits result }
{
    MapLine::Goal {
        lo: point(-16_384, -16_384, 0),
        hi: point(16_384, 16_384, 25_600),
    }
}

/// The lift, near a third corner.
fn lift() -> MapLine
    ensures line { result ≡ made.lift_line }
    ensures limits { IsWithinLimits result }
{
    MapLine::Lift {
        lo: point(204_800, -229_376, 0),
        hi: point(229_376, -204_800, 2_560),
        rise: 25_600,
        speed: 512,
    }
}

/// A spawn of 64, in eight rows of eight.
fn spawn(i: u8) -> MapLine
    requires { i < 64 }
    ensures { result ≡ made.spawn_line i }
{
    MapLine::Spawn {
        at: point(
            i32::from(i % 8) * 49_152 - 172_032,
            i32::from(i / 8) * 49_152 - 172_032,
            6_144,
        ),
    }
}

/// The low corner of a block of 16, in four rows of four.
fn block_corner(j: u8) -> Vec3
    requires { j < 16 }
    ensures { result ≡ made.block_corner j }
{
    point(
        i32::from(j % 4) * 98_304 - 151_552,
        i32::from(j / 4) * 98_304 - 151_552,
        0,
    )
}

/// The high corner of the block with this low one: 32 units along x and y, 100 above the floor.
fn top_corner(lo: Vec3) -> Vec3
    requires { IsNear FARTHEST lo }
    ensures { result ≡ vector (lo.x +ℤ pos 8192) (lo.y +ℤ pos 8192) (pos 25600) }
{
    point(lo.x + 8_192, lo.y + 8_192, 25_600)
}

/// A block of 16.
fn block(j: u8) -> MapLine
    requires { j < 16 }
    ensures { result ≡ made.block_line j }
{
    let lo = block_corner(j);
    MapLine::Block {
        lo,
        hi: top_corner(lo),
    }
}

/// An item of 16, each before a block: ammunition and gems in turn.
fn item(j: u8) -> MapLine
    requires { j < 16 }
    ensures { result ≡ made.item_line j }
{
    MapLine::Item {
        at: point(
            i32::from(j % 4) * 98_304 - 151_552,
            i32::from(j / 4) * 98_304 - 176_128,
            0,
        ),
        kind: if j % 2 == 0 { Kind::Ammo } else { Kind::Gem },
        delay: 40,
    }
}

/// A line of the map, counted from 0: the arena, 64 spawns, 16 blocks, 16 items, 2 teleporters, the goal and the lift.
pub fn map_line(index: u8) -> MapLine
    requires { index < MAP_LINES }
    ensures line { slice_get made.generated_lines index ≡ Some result }
    ensures limits { IsWithinLimits result }
{
    match index {
        0 => arena(),
        1..=64 => spawn(index - 1),
        65..=80 => block(index - 65),
        81..=96 => item(index - 81),
        97 => low_teleport(),
        98 => high_teleport(),
        99 => goal(),
        _ => lift(),
    }
}
