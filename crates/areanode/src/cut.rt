ghost use Rattle.std.specs.Prelude.{◌≡◌};
ghost use Rattle.arena_geo.specs.Bounds.{IsBox};
ghost use Rattle.areanode.specs.Cuts as cuts;

use arena_geo::{Aabb, Vec3};

/// The axis on which an area is cut.
#[derive(Clone, Copy, Debug, PartialEq, Eq)]
pub enum Axis {
    /// The area is cut by its x coordinates.
    X,
    /// The area is cut by its y coordinates.
    Y,
}

/// Where an area is cut in two.
#[derive(Clone, Copy, Debug, PartialEq, Eq)]
pub struct Cut {
    /// The axis that the plane of the cut is square to.
    pub axis: Axis,
    /// Where the plane is on that axis, in sub-units.
    pub dist: i32,
}

/// The low end of a box on an axis.
fn low_on(axis: Axis, b: &Aabb) -> i32
    ensures value { result ≡ cuts.low_on axis b.now }
    ensures is_box { IsBox b.now }
{
    let lo = b.lo();
    match axis {
        Axis::X => lo.x,
        Axis::Y => lo.y,
    }
}

/// The high end of a box on an axis.
fn high_on(axis: Axis, b: &Aabb) -> i32
    ensures value { result ≡ cuts.high_on axis b.now }
    ensures is_box { IsBox b.now }
{
    let hi = b.hi();
    match axis {
        Axis::X => hi.x,
        Axis::Y => hi.y,
    }
}

/// The length of a box on an axis.
fn length_on(axis: Axis, b: &Aabb) -> i32
    ensures { result ≡ cuts.length_on axis b.now }
{
    high_on(axis, b) - low_on(axis, b)
}

/// The axis on which an area is cut: x where it is longer on x than on y, else y.
fn axis_of(area: &Aabb) -> Axis
    ensures { result ≡ cuts.axis_of area.now }
{
    if length_on(Axis::X, area) > length_on(Axis::Y, area) {
        Axis::X
    } else {
        Axis::Y
    }
}

/// Where the area of an inner node is cut, as Quake's `SV_CreateAreaNode` does: halfway on the longer of the axes x and
/// y, rounded toward minus infinity, and on y where neither is longer.
pub fn cut_of(area: &Aabb) -> Cut
    ensures { result ≡ cuts.cut_of area.now }
{
    let axis = axis_of(area);
    let ends = low_on(axis, area) + high_on(axis, area);
    Cut {
        axis,
        dist: ends.div_euclid(2),
    }
}

/// The corner, with another coordinate on an axis.
fn set_on(axis: Axis, value: i32, corner: Vec3) -> Vec3
    ensures { result ≡ cuts.set_on axis value corner }
{
    match axis {
        Axis::X => Vec3 { x: value, ..corner },
        Axis::Y => Vec3 { y: value, ..corner },
    }
}

/// The part of an area above its cut.
pub fn part_above(area: &Aabb) -> Aabb
    ensures { result ≡ cuts.part_above area.now }
{
    let cut = cut_of(area);
    Aabb::from_corners(set_on(cut.axis, cut.dist, area.lo()), area.hi())
}

/// The part of an area below its cut.
pub fn part_below(area: &Aabb) -> Aabb
    ensures { result ≡ cuts.part_below area.now }
{
    let cut = cut_of(area);
    Aabb::from_corners(area.lo(), set_on(cut.axis, cut.dist, area.hi()))
}

/// Whether a box lies above a cut and doesn't touch it.
pub fn is_above(b: &Aabb, cut: Cut) -> bool
    ensures { result ≡ cuts.is_above b.now cut }
{
    low_on(cut.axis, b) > cut.dist
}

/// Whether a box lies below a cut and doesn't touch it.
pub fn is_below(b: &Aabb, cut: Cut) -> bool
    ensures { result ≡ cuts.is_below b.now cut }
{
    high_on(cut.axis, b) < cut.dist
}

/// Whether a box has a point above a cut or on it.
pub fn reaches_above(b: &Aabb, cut: Cut) -> bool
    ensures { result ≡ cuts.reaches_above b.now cut }
{
    high_on(cut.axis, b) >= cut.dist
}

/// Whether a box has a point below a cut or on it.
pub fn reaches_below(b: &Aabb, cut: Cut) -> bool
    ensures { result ≡ cuts.reaches_below b.now cut }
{
    low_on(cut.axis, b) <= cut.dist
}
