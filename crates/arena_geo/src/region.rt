ghost use Rattle.std.specs.Prelude.{◌≡◌, ◌↔◌, ◌<◌, [], ◌∷◌, ◌++◌, length, IsTrue};
ghost use Rattle.std.specs.Bool.{MatchBool};
ghost use Rattle.arena_geo.specs.Regions.{IsRegion, touches_region};

use crate::aabb::Aabb;
use std::marker::Model;

/// The greatest number of boxes in a region.
pub const REGION_BOXES: usize = 17;

/// The boxes in which a move may read and write, 1 to [`REGION_BOXES`] of them, in the order in which they were put in.
#[derive(Drop)]
pub struct Region {
    boxes: [Aabb; REGION_BOXES],
    len: usize,
}

impl Model for Region {
    ghost use Rattle.std.specs.Prelude.{List, take, length, ◌≤◌, ◌≡◌};
    ghost use Rattle.arena_geo.specs.Bounds.{Bounds};
    ghost use Rattle.arena_geo.specs.Regions.{IsRegion};

    ghost Value = { List Bounds };

    ghost view = { λ r. take r.len r.boxes };

    ghost invariant = { λ r. IsRegion (take r.len r.boxes) × (r.len ≤ 17) × (length r.boxes ≡ 17) };
}

impl Region {
    /// The region of one box.
    pub fn one(b: Aabb) -> Region
        ensures { result ≡ b ∷ [] }
    {
        Region {
            boxes: [b.copied(); REGION_BOXES],
            len: 1,
        }
    }

    /// Puts a box in, after the others. `false` exactly where there are [`REGION_BOXES`] already; the region is then
    /// unchanged.
    pub fn push(&mut self, b: Aabb) -> bool
        ensures room { IsTrue result ↔ (length self.old < REGION_BOXES) }
        ensures boxes { MatchBool result (self.new ≡ self.old ++ b ∷ []) (self.new ≡ self.old) }
    {
        if self.len == REGION_BOXES {
            return false;
        }
        self.boxes[self.len] = b.copied();
        self.len += 1;
        true
    }

    /// The boxes, in the order in which they were put in.
    pub fn boxes(&self) -> &[Aabb]
        ensures value { result.now ≡ self.now }
        ensures region { IsRegion self.now }
    {
        &self.boxes[..self.len]
    }

    /// Whether some box of the region has a common point with `b`, the faces counted.
    pub fn is_touched_by(&self, b: &Aabb) -> bool
        ensures value { result ≡ touches_region b.now self.now }
        ensures region { IsRegion self.now }
    {
        self.boxes().iter().any(|one| b.touches(one))
    }
}
