use super::corner;
use arena_geo::{Aabb, Vec3};
use box_trace::arena_walls;
use std::test::Fail;

#[test]
fn walls_are_outside_the_arena(rt: HostRuntime) -> Result<(), Fail> {
    let lo = Vec3 {
        x: -131_072,
        y: -131_072,
        z: 0,
    };
    let hi = Vec3 {
        x: 131_072,
        y: 131_072,
        z: 65_536,
    };
    let arena = Aabb::new(lo, hi).ok_or("a box")?;
    let walls = arena_walls(&arena);
    for (wall, (lo, hi)) in walls.iter().zip(&[
        ([-147_456, -147_456, -16_384], [-131_072, 147_456, 81_920]),
        ([131_072, -147_456, -16_384], [147_456, 147_456, 81_920]),
        ([-147_456, -147_456, -16_384], [147_456, -131_072, 81_920]),
        ([-147_456, 131_072, -16_384], [147_456, 147_456, 81_920]),
        ([-147_456, -147_456, -16_384], [147_456, 147_456, 0]),
        ([-147_456, -147_456, 65_536], [147_456, 147_456, 81_920]),
    ]) {
        assert_eq!(rt; Some(*wall), Aabb::new(corner(*lo), corner(*hi)));
    }
    Ok(())
}
