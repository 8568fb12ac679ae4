ghost use Rattle.std.specs.Prelude.{◌≡◌, ◌≤◌, ◌*◌, length};
ghost use Rattle.box_strips.specs.Strips.{IsIndexOf};

use crate::axis::Axis;
use crate::bits::add_common;
use arena_geo::Aabb;
use std::alloc::{AllocError, Global};
use std::marker::Model;

/// An index over a list of at most `64 * W` boxes, by at most `S` strips of an area along x and as many along y. It misses
/// none of them. That few others are found is claimed by no clause.
///
/// Its rows lie on the heap, and have as many words as the list needs.
#[derive(Drop)]
pub struct BoxStrips<const S: usize, const W: usize> {
    x: Axis<S>,
    y: Axis<S>,
}

impl<const S: usize, const W: usize> Model for BoxStrips<S, W> {
    ghost use Rattle.std.specs.Prelude.{◌≡◌, ◌≤◌};
    ghost use Rattle.box_strips.specs.Strips.{StripsView};

    ghost Value = { StripsView };

    ghost view = { λ s. record { x = s.x; y = s.y } };

    ghost invariant = { λ s. (s.x.words ≤ W) × (s.y.words ≡ s.x.words) };
}

impl<const S: usize, const W: usize> BoxStrips<S, W> {
    ghost use Rattle.std.specs.Prelude.{◌<◌, ◌≤◌, ◌*◌, List, length, IfOk};
    ghost use Rattle.arena_geo.specs.Bounds.{Bounds};
    ghost use Rattle.box_strips.specs.Places.{KeepsPlaces};
    ghost use Rattle.box_strips.specs.Strips.{IsIndexOf, AreMarked};

    /// The index of these boxes by strips of an area. Boxes may lie outside of it.
    pub fn of(alloc: Global, area: &Aabb, boxes: &[Aabb]) -> Result<Self, AllocError>
        requires strips { 0 < S }
        requires boxes { length boxes.now ≤ 64 * W }
        ensures { IfOk result (λ index. IsIndexOf index boxes.now) }
    {
        let lo = area.lo();
        let hi = area.hi();
        let words = boxes.len().div_ceil(64);
        let mut x = Axis::between(alloc, lo.x, hi.x, words)?;
        let mut y = Axis::between(alloc, lo.y, hi.y, words)?;
        put_all(&mut x, &mut y, boxes);
        Ok(BoxStrips { x, y })
    }

    /// Sets the bits of the boxes that may touch `one`, by their places in the list: of all that touch it, and of others
    /// that lie near it.
    pub fn mark_near(&self, one: &Aabb, bits: &mut [u64; W])
        ensures kept { KeepsPlaces bits.old bits.new }
        ensures marked { (boxes : List Bounds) → IsIndexOf self.now boxes → AreMarked boxes one.now bits.new }
    {
        let lo = one.lo();
        let hi = one.hi();
        add_common(
            bits,
            self.x.begun_by(hi.x),
            self.x.ended_from(lo.x),
            self.y.begun_by(hi.y),
            self.y.ended_from(lo.y),
        );
    }
}

/// Puts boxes into the strips along x and along y, each by its place in the list.
fn put_all<const S: usize>(x: &mut Axis<S>, y: &mut Axis<S>, boxes: &[Aabb])
    requires x { length boxes.now ≤ 64 * x.old.words }
    requires y { length boxes.now ≤ 64 * y.old.words }
    ensures index { IsIndexOf (record { x = x.new; y = y.new }) boxes.now }
    ensures x { x.new.words ≡ x.old.words }
    ensures y { y.new.words ≡ y.old.words }
{
    for (place, one) in boxes.iter().enumerate() {
        let lo = one.lo();
        let hi = one.hi();
        x.put(place, lo.x, hi.x);
        y.put(place, lo.y, hi.y);
    }
    x.spread();
    y.spread();
}
