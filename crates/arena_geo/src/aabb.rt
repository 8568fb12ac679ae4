ghost use Rattle.std.specs.Prelude.{◌≡◌, ◌↔◌, IsTrue, SomeIff};
ghost use Rattle.arena_geo.specs.Vectors.{IsNear, IsNotNegative};
ghost use Rattle.arena_geo.specs.Bounds.{bounds, IsInRange, IsOrdered, IsBox};
ghost use Rattle.arena_geo.specs.Boxes as boxes;

use crate::vec3::Vec3;
use std::marker::Model;

/// The greatest distance of a box's coordinate from 0, in sub-units.
pub const LIMIT: u32 = 2_097_152;

/// How far from 0 a coordinate of a map, and of a record's origin, is at most: 4,096 units, in sub-units.
pub const FARTHEST: u32 = 1_048_576;

/// An axis-aligned box between a low and a high corner, in sub-units. The low corner lies above the high one
/// on no axis, and no coordinate is farther from 0 than [`LIMIT`].
#[derive(Clone, Copy, Debug, PartialEq, Eq)]
pub struct Aabb {
    lo: Vec3,
    hi: Vec3,
}

impl Model for Aabb {
    ghost use Rattle.arena_geo.specs.Bounds.{Bounds, IsBox, bounds};

    ghost Value = { Bounds };

    ghost view = { λ a. bounds a.lo a.hi };

    ghost invariant = { λ a. IsBox (bounds a.lo a.hi) };

    ghost inverse = { λ b. record { lo = b.lo; hi = b.hi } };
}

/// Whether each part is at most [`LIMIT`] from 0.
fn is_near(v: Vec3) -> bool
    ensures { IsTrue result ↔ IsNear LIMIT v }
{
    v.x.unsigned_abs() <= LIMIT && v.y.unsigned_abs() <= LIMIT && v.z.unsigned_abs() <= LIMIT
}

/// Whether `lo` lies above `hi` on no axis.
fn is_ordered(lo: Vec3, hi: Vec3) -> bool
    ensures { IsTrue result ↔ IsOrdered (bounds lo hi) }
{
    lo.x <= hi.x && lo.y <= hi.y && lo.z <= hi.z
}

/// Whether each of two intervals begins strictly before the other ends.
fn overlaps_on(lo: i32, hi: i32, other_lo: i32, other_hi: i32) -> bool
    ensures { result ≡ boxes.overlaps_on lo hi other_lo other_hi }
{
    lo < other_hi && other_lo < hi
}

/// Whether neither of two intervals begins after the other ends.
fn touches_on(lo: i32, hi: i32, other_lo: i32, other_hi: i32) -> bool
    ensures { result ≡ boxes.touches_on lo hi other_lo other_hi }
{
    lo <= other_hi && other_lo <= hi
}

/// Whether the second interval lies in the first, the ends counted as inside.
fn contains_on(lo: i32, hi: i32, other_lo: i32, other_hi: i32) -> bool
    ensures { result ≡ boxes.contains_on lo hi other_lo other_hi }
{
    lo <= other_lo && other_hi <= hi
}

impl Aabb {
    /// The box between two corners. `None` exactly where `lo` lies above `hi` on an axis or a coordinate is
    /// farther from 0 than [`LIMIT`].
    pub fn new(lo: Vec3, hi: Vec3) -> Option<Aabb>
        ensures { SomeIff result (IsBox (bounds lo hi)) (bounds lo hi) }
    {
        if is_ordered(lo, hi) && is_near(lo) && is_near(hi) {
            Some(Aabb { lo, hi })
        } else {
            None
        }
    }

    // A box that is known to fit is made without a test; `new`, `grow` and `moved` test, for callers that don't know
    // it. It took 9 percent off the instructions of heavy recordings.
    /// The box between two corners of which it is known that they make one. [`Aabb::new`] is for corners of
    /// which it isn't.
    pub fn from_corners(lo: Vec3, hi: Vec3) -> Aabb
        requires { IsBox (bounds lo hi) }
        ensures { result ≡ bounds lo hi }
    {
        Aabb { lo, hi }
    }

    /// The low corner.
    pub fn lo(&self) -> Vec3
        ensures value { result ≡ self.now.lo }
        ensures is_box { IsBox self.now }
    {
        self.lo
    }

    /// The high corner.
    pub fn hi(&self) -> Vec3
        ensures value { result ≡ self.now.hi }
        ensures is_box { IsBox self.now }
    {
        self.hi
    }

    /// A copy of the box, with corners that are ordered and in range.
    pub fn copied(&self) -> Aabb
        ensures value { result ≡ self.now }
        ensures is_box { IsBox self.now }
    {
        Aabb {
            lo: self.lo,
            hi: self.hi,
        }
    }

    /// Whether on each axis each box begins strictly before the other ends.
    pub fn overlaps(&self, o: &Aabb) -> bool
        ensures { result ≡ boxes.overlaps self.now o.now }
    {
        overlaps_on(self.lo.x, self.hi.x, o.lo.x, o.hi.x)
            && overlaps_on(self.lo.y, self.hi.y, o.lo.y, o.hi.y)
            && overlaps_on(self.lo.z, self.hi.z, o.lo.z, o.hi.z)
    }

    /// Whether some box of `solids` overlaps this one.
    pub fn is_blocked(&self, solids: &[Aabb]) -> bool
        ensures { result ≡ boxes.is_blocked self.now solids.now }
    {
        solids.iter().any(|solid| self.overlaps(solid))
    }

    /// Whether the boxes have a common point, the faces counted: as Quake's `SV_TouchLinks` tests.
    pub fn touches(&self, o: &Aabb) -> bool
        ensures { result ≡ boxes.touches self.now o.now }
    {
        touches_on(self.lo.x, self.hi.x, o.lo.x, o.hi.x)
            && touches_on(self.lo.y, self.hi.y, o.lo.y, o.hi.y)
            && touches_on(self.lo.z, self.hi.z, o.lo.z, o.hi.z)
    }

    /// Whether `o` lies in this box, the faces counted as inside.
    pub fn contains(&self, o: &Aabb) -> bool
        ensures { result ≡ boxes.contains self.now o.now }
    {
        contains_on(self.lo.x, self.hi.x, o.lo.x, o.hi.x)
            && contains_on(self.lo.y, self.hi.y, o.lo.y, o.hi.y)
            && contains_on(self.lo.z, self.hi.z, o.lo.z, o.hi.z)
    }

    /// The box, larger by `by` on both sides of each axis. `None` exactly where a coordinate leaves the range.
    pub fn grow(&self, by: Vec3) -> Option<Aabb>
        requires not_negative { IsNotNegative by }
        requires near { IsNear LIMIT by }
        ensures { SomeIff result (IsInRange (boxes.box_grown_by self.now by)) (boxes.box_grown_by self.now by) }
    {
        Aabb::new(self.lo - by, self.hi + by)
    }

    /// The box, larger by `by` on both sides of each axis, where it is known that it stays in range.
    /// [`Aabb::grow`] is for where it isn't.
    pub fn grown(&self, by: Vec3) -> Aabb
        requires not_negative { IsNotNegative by }
        requires in_range { IsInRange (boxes.box_grown_by self.now by) }
        ensures { result ≡ boxes.box_grown_by self.now by }
    {
        Aabb {
            lo: self.lo - by,
            hi: self.hi + by,
        }
    }

    /// The box, moved by `by`. `None` exactly where a coordinate leaves the range.
    pub fn moved(&self, by: Vec3) -> Option<Aabb>
        requires { IsNear LIMIT by }
        ensures { SomeIff result (IsInRange (boxes.box_moved_by self.now by)) (boxes.box_moved_by self.now by) }
    {
        Aabb::new(self.lo + by, self.hi + by)
    }

    /// The box, moved by `by`, where it is known that it stays in range. [`Aabb::moved`] is for where it isn't.
    pub fn shifted(&self, by: Vec3) -> Aabb
        requires { IsInRange (boxes.box_moved_by self.now by) }
        ensures { result ≡ boxes.box_moved_by self.now by }
    {
        Aabb {
            lo: self.lo + by,
            hi: self.hi + by,
        }
    }

    /// The least box that contains both.
    pub fn hull(&self, o: &Aabb) -> Aabb
        ensures { result ≡ boxes.hull self.now o.now }
    {
        Aabb {
            lo: self.lo.min(o.lo),
            hi: self.hi.max(o.hi),
        }
    }
}
