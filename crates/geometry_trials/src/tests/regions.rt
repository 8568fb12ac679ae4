use arena_geo::{Aabb, REGION_BOXES, Region, Vec3};
use std::test::Fail;

fn column(from: i32, to: i32) -> Option<Aabb> {
    let lo = Vec3 {
        x: from,
        y: 0,
        z: 0,
    };
    let hi = Vec3 { x: to, y: 9, z: 9 };
    Aabb::new(lo, hi)
}

/// A region of the first box, and the second as often as there is room for it.
fn filled(first: Aabb, second: Aabb) -> (Region, usize) {
    let mut region = Region::one(first);
    let mut pushed = 0usize;
    for _ in 0..2 * REGION_BOXES {
        if region.push(second) {
            pushed = pushed.saturating_add(1);
        }
    }
    (region, pushed)
}

#[test]
fn region_holds_17_boxes(rt: HostRuntime) -> Result<(), Fail> {
    let first = column(0, 10).ok_or("a box")?;
    let (region, pushed) = filled(first, column(100, 110).ok_or("a box")?);
    assert_eq!(rt; (pushed, region.boxes().len()), (16, 17));
    Ok(())
}

/// Whether a region of two columns touches a third.
fn is_touched(from: i32, to: i32) -> Option<bool> {
    let (region, _) = filled(column(0, 10)?, column(100, 110)?);
    Some(region.is_touched_by(&column(from, to)?))
}

#[test]
fn a_region_touches_what_its_boxes_touch(rt: HostRuntime) {
    // from, to, touched
    for (from, to, touched) in [
        (-5, -1, false),
        (-5, 0, true),
        (10, 20, true),
        (11, 99, false),
        (110, 200, true),
        (111, 200, false),
    ] {
        assert_eq!(rt; is_touched(from, to), Some(touched), "{from} {to}");
    }
}
