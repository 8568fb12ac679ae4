use crate::solid_index::{SOLID_WORDS, SolidIndex};
use arena_geo::{Aabb, Vec3};
use box_strips::next_place;
use entity_recs::{Rec, body_box};
use std::marker::Model;

/// A list of at most `N` boxes, which lie in the value itself and take no memory.
#[derive(Drop)]
pub struct Boxes<const N: usize> {
    boxes: [Aabb; N],
    len: usize,
}

impl<const N: usize> Model for Boxes<N> {
    ghost use Rattle.std.specs.Prelude.{List, take, length, ◌≤◌, ◌≡◌};
    ghost use Rattle.arena_geo.specs.Bounds.{Bounds};

    ghost Value = { List Bounds };

    ghost view = { λ b. take b.len b.boxes };

    ghost invariant = { λ b. (b.len ≤ N) × (length b.boxes ≡ N) };
}

impl<const N: usize> Boxes<N> {
    ghost use Rattle.std.specs.Prelude.{◌≡◌, ◌+◌, ◌<◌, ◌≤◌, ◌↔◌, [], ◌∷◌, ◌++◌, length, filter, All, IsTrue};
    ghost use Rattle.std.specs.Bool.{OnTrue, MatchBool};
    ghost use Rattle.arena_geo.specs.Boxes.{overlaps};
    ghost use Rattle.entity_recs.specs.Records.{IsRecord};
    ghost use Rattle.trigger_rules.specs.Touching.{bodies_of_solids};
    ghost use Rattle.box_trace.specs.declared.walls.TheConstants.{WALLS};
    ghost use Rattle.arena_map.specs.declared.limits.TheConstants.{MOST_BLOCKS};
    ghost use Rattle.arena_actions.specs.Solids.{MissesNone};

    /// No boxes.
    pub fn new() -> Self
        ensures { result ≡ [] }
    {
        let blank = Aabb::from_corners(Vec3::ZERO, Vec3::ZERO);
        Boxes {
            boxes: [blank; N],
            len: 0,
        }
    }

    /// The boxes in order.
    pub fn as_slice(&self) -> &[Aabb]
        ensures value { result.now ≡ self.now }
        ensures few { length result.now ≤ N }
    {
        &self.boxes[..self.len]
    }

    /// Puts a box last. `false` exactly where there are `N` already; the list is then unchanged.
    fn push(&mut self, b: Aabb) -> bool
        ensures room { IsTrue result ↔ (length self.old < N) }
        ensures boxes { MatchBool result (self.new ≡ self.old ++ b ∷ []) (self.new ≡ self.old) }
    {
        if self.len == N {
            return false;
        }
        self.boxes[self.len] = b;
        self.len += 1;
        true
    }

    /// Puts a box last if it overlaps `place`. `false` exactly where it does and there is no room; the list is then
    /// unchanged.
    fn push_if_overlapping(&mut self, place: &Aabb, b: Aabb) -> bool
        ensures boxes { OnTrue result (self.new ≡ self.old ++ filter (overlaps place.now) (b ∷ [])) }
        ensures room { length self.old < N → IsTrue result }
        ensures few { length self.new ≤ length self.old + 1 }
    {
        !place.overlaps(&b) || self.push(b)
    }

    /// Puts those of the solids last that overlap `place`, in their order. `false` only where there is no room for all
    /// of them. Only those are tested that the index finds.
    pub fn push_overlapping(&mut self, place: &Aabb, solids: &[Aabb], index: &SolidIndex) -> bool
        requires few { length solids.now ≤ WALLS + MOST_BLOCKS }
        requires index { MissesNone index.now.strips solids.now }
        ensures boxes { OnTrue result (self.new ≡ self.old ++ filter (overlaps place.now) solids.now) }
        ensures room { length self.old + length solids.now ≤ N → IsTrue result }
    {
        let mut near = [0; SOLID_WORDS];
        index.mark_near(place, &mut near);
        let mut at = 0;
        while let Some(found) = next_place(&near, at, solids.len()) {
            if !self.push_if_overlapping(place, solids[found]) {
                return false;
            }
            at = found + 1;
        }
        true
    }

    /// Puts those bodies of solids among the records last that overlap `place`, in their order. `false` only where
    /// there is no room for all of them.
    pub fn push_bodies(&mut self, place: &Aabb, near: &[Rec]) -> bool
        requires { All IsRecord near.now }
        ensures boxes { OnTrue result (self.new ≡ self.old ++ filter (overlaps place.now) (bodies_of_solids near.now)) }
        ensures room { length self.old + length near.now ≤ N → IsTrue result }
    {
        for r in near {
            if r.kind.is_solid() && !self.push_if_overlapping(place, body_box(r)) {
                return false;
            }
        }
        true
    }
}
