ghost use Rattle.std.specs.Prelude.{◌≡◌};
ghost use Rattle.arena_geo.specs.Vectors.{vector};

use arena_geo::{Aabb, Vec3};
use std::test::Fail;

fn cube(from: i32, to: i32) -> Option<Aabb> {
    let lo = Vec3 {
        x: from,
        y: from,
        z: from,
    };
    let hi = Vec3 {
        x: to,
        y: to,
        z: to,
    };
    Aabb::new(lo, hi)
}

/// Whether one box overlaps the other, touches it and contains it.
fn relations(one: Option<Aabb>, other: Option<Aabb>) -> Option<(bool, bool, bool)> {
    let (one, other) = (one?, other?);
    Some((
        one.overlaps(&other),
        one.touches(&other),
        one.contains(&other),
    ))
}

#[test]
fn touching_boxes_do_not_overlap(rt: HostRuntime) {
    // one from, one to, other from, other to, overlap, touch, the one contains the other
    for (from, to, other_from, other_to, overlap, touch, contain) in [
        (0, 10, 9, 20, true, true, false),
        (0, 10, 10, 20, false, true, false),
        (0, 10, 11, 20, false, false, false),
        (-5, 10, -5, 10, true, true, true),
        (-5, 10, -6, 10, true, true, false),
        (3, 3, 3, 3, false, true, true),
    ] {
        assert_eq!(rt;
            relations(cube(from, to), cube(other_from, other_to)),
            Some((overlap, touch, contain)),
            "{from} {to} {other_from} {other_to}"
        );
    }
}

#[test]
fn boxes_stay_in_range(rt: HostRuntime) -> Result<(), Fail> {
    assert_eq!(rt; cube(1, 0), None);
    assert_eq!(rt; cube(-2_097_153, 0), None);
    assert_eq!(rt; cube(0, 2_097_153), None);
    Ok(())
}

#[test]
fn the_least_box_grows_and_moves(rt: HostRuntime) -> Result<(), Fail> {
    let least = cube(0, 0).ok_or("a box")?;
    let one = Vec3 { x: 1, y: 1, z: 1 };
    assert_eq!(rt; least.grow(one), cube(-1, 1));
    assert_eq!(rt; least.moved(one), cube(1, 1));
    Ok(())
}

#[test]
fn the_largest_box_neither_grows_nor_moves(rt: HostRuntime) -> Result<(), Fail> {
    let most = cube(-2_097_152, 2_097_152).ok_or("a box")?;
    let one = Vec3 { x: 1, y: 1, z: 1 };
    assert_eq!(rt; (most.grow(one), most.moved(one)), (None, None));
    Ok(())
}

#[test]
fn the_hull_of_the_least_and_the_largest_box(rt: HostRuntime) -> Result<(), Fail> {
    let least = cube(0, 0).ok_or("a box")?;
    let most = cube(-2_097_152, 2_097_152).ok_or("a box")?;
    assert_eq!(rt; least.hull(&most), most);
    Ok(())
}

#[test]
fn corners_are_added_and_compared(rt: HostRuntime) {
    let one = Vec3 { x: 1, y: 1, z: 1 };
    let corner = Vec3 { x: 0, y: 5, z: -7 };
    assert_eq!(rt; corner - one + one, corner);
    assert_eq!(rt; corner.max(one), Vec3 { x: 1, y: 5, z: 1 });
}

fn at(x: i32, y: i32, z: i32) -> Vec3
    ensures { result ≡ vector x y z }
{
    Vec3 { x, y, z }
}

#[test]
fn a_box_between_known_corners_reaches_the_limit(rt: HostRuntime) -> Result<(), Fail> {
    let lo = at(-2_097_152, -2_097_152, -2_097_152);
    let hi = at(2_097_152, 2_097_152, 2_097_152);
    assert_eq!(rt;
        Some(Aabb::from_corners(lo, hi)),
        cube(-2_097_152, 2_097_152)
    );
    assert_eq!(rt;
        Some(Aabb::from_corners(hi, hi)),
        cube(2_097_152, 2_097_152)
    );
    Ok(())
}

#[test]
fn a_box_grows_to_the_limit(rt: HostRuntime) -> Result<(), Fail> {
    let inner = Aabb::from_corners(at(-2_097_151, 5, -2_097_152), at(5, 2_097_150, 2_097_152));
    let outer = Aabb::from_corners(at(-2_097_152, 3, -2_097_152), at(6, 2_097_152, 2_097_152));
    assert_eq!(rt; inner.grown(at(1, 2, 0)), outer);
    Ok(())
}

#[test]
fn a_box_is_shifted_to_the_limit(rt: HostRuntime) -> Result<(), Fail> {
    let here = Aabb::from_corners(at(2_097_142, -2_097_145, 0), at(2_097_151, -2_097_143, 9));
    let there = Aabb::from_corners(
        at(2_097_143, -2_097_152, -2_097_152),
        at(2_097_152, -2_097_150, -2_097_143),
    );
    assert_eq!(rt; here.shifted(at(1, -7, -2_097_152)), there);
    Ok(())
}
