ghost use Rattle.std.specs.Prelude.{◌≡◌, ◌+ℤ◌, ◌-ℤ◌};
ghost use Rattle.arena_geo.specs.Boxes as boxes;
ghost use Rattle.arena_geo.specs.Regions as regions;
ghost use Rattle.entity_recs.specs.Bodies.{abs_of};

use arena_geo::{Aabb, Region, Vec3};
use entity_recs::{Rec, growth};

/// The low end of an absolute box on an axis.
fn low_end(origin: i32, min: i32, by: i32) -> i64
    ensures { result ≡ (origin +ℤ min) -ℤ by }
{
    let low = i64::from(origin) + i64::from(min);
    low - i64::from(by)
}

/// The high end of an absolute box on an axis.
fn high_end(origin: i32, max: i32, by: i32) -> i64
    ensures { result ≡ (origin +ℤ max) +ℤ by }
{
    let high = i64::from(origin) + i64::from(max);
    high + i64::from(by)
}

/// Whether neither of two intervals begins after the other ends.
fn touches_on(lo: i64, hi: i64, other_lo: i32, other_hi: i32) -> bool
    ensures { result ≡ boxes.touches_on lo hi other_lo other_hi }
{
    lo <= i64::from(other_hi) && i64::from(other_lo) <= hi
}

/// Whether an absolute box and the interval from `lo` to `hi` have a common point on an axis.
fn meets(origin: i32, min: i32, max: i32, by: i32, lo: i32, hi: i32) -> bool
    ensures { result ≡ boxes.touches_on ((origin +ℤ min) -ℤ by) ((origin +ℤ max) +ℤ by) lo hi }
{
    let low = low_end(origin, min, by);
    let high = high_end(origin, max, by);
    touches_on(low, high, lo, hi)
}

/// Whether the absolute box of a record, larger than its body by `by`, meets a box on the axis x.
fn meets_x(r: &Rec, by: Vec3, one: &Aabb) -> bool
    ensures { result ≡ boxes.touches_on ((r.now.origin.x +ℤ r.now.mins.x) -ℤ by.x) ((r.now.origin.x +ℤ r.now.maxs.x) +ℤ
        by.x)
        one.now.lo.x one.now.hi.x }
{
    let lo = one.lo();
    let hi = one.hi();
    meets(r.origin.x, r.mins.x, r.maxs.x, by.x, lo.x, hi.x)
}

/// The same on the axis y.
fn meets_y(r: &Rec, by: Vec3, one: &Aabb) -> bool
    ensures { result ≡ boxes.touches_on ((r.now.origin.y +ℤ r.now.mins.y) -ℤ by.y) ((r.now.origin.y +ℤ r.now.maxs.y) +ℤ
        by.y)
        one.now.lo.y one.now.hi.y }
{
    let lo = one.lo();
    let hi = one.hi();
    meets(r.origin.y, r.mins.y, r.maxs.y, by.y, lo.y, hi.y)
}

/// The same on the axis z.
fn meets_z(r: &Rec, by: Vec3, one: &Aabb) -> bool
    ensures { result ≡ boxes.touches_on ((r.now.origin.z +ℤ r.now.mins.z) -ℤ by.z) ((r.now.origin.z +ℤ r.now.maxs.z) +ℤ
        by.z)
        one.now.lo.z one.now.hi.z }
{
    let lo = one.lo();
    let hi = one.hi();
    meets(r.origin.z, r.mins.z, r.maxs.z, by.z, lo.z, hi.z)
}

/// Whether the absolute box of a record touches a box. The record may be any: its words may be those of a player that
/// has moved since.
fn touches(r: &Rec, one: &Aabb) -> bool
    ensures { result ≡ boxes.touches (abs_of r.now) one.now }
{
    let by = growth(r.kind);
    meets_x(r, by, one) && meets_y(r, by, one) && meets_z(r, by, one)
}

/// Whether the absolute box of a record touches a region.
pub fn touches_region(r: &Rec, region: &Region) -> bool
    ensures { result ≡ regions.touches_region (abs_of r.now) region.now }
{
    region.boxes().iter().any(|one| touches(r, one))
}

/// Whether a box lies in one of a region.
pub fn is_inside(b: &Aabb, region: &Region) -> bool
    ensures { result ≡ regions.is_inside b.now region.now }
{
    region.boxes().iter().any(|one| one.contains(b))
}
