use arena_geo::Aabb;
use arena_map::MOST_BLOCKS;
use box_strips::BoxStrips;
use box_trace::WALLS;
use std::alloc::{AllocError, Global};

/// How many words have a bit for each solid of a map.
pub const SOLID_WORDS: usize = (WALLS + MOST_BLOCKS) / 64 + 1;

/// How many strips the arena is cut into along x, and along y.
const SOLID_STRIPS: usize = 64;

/// An index over the solids of a map, or none: without one, all of them are near each place.
#[derive(Drop)]
pub struct SolidIndex {
    pub(crate) strips: Option<BoxStrips<SOLID_STRIPS, SOLID_WORDS>>,
}

impl SolidIndex {
    ghost use Rattle.std.specs.Prelude.{◌≡◌, ◌≤◌, ◌*◌, List, length, IfOk};
    ghost use Rattle.arena_geo.specs.Bounds.{Bounds};
    ghost use Rattle.box_strips.specs.Strips.{AreMarked};
    ghost use Rattle.arena_actions.specs.Solids.{MissesNone};

    /// No index. It takes no memory.
    pub fn none() -> SolidIndex
        ensures { (solids : List Bounds) → MissesNone result.strips solids }
    {
        SolidIndex { strips: None }
    }

    /// The index of these solids by strips of an area.
    pub fn of(alloc: Global, area: &Aabb, solids: &[Aabb]) -> Result<SolidIndex, AllocError>
        requires few { length solids.now ≤ 64 * SOLID_WORDS }
        ensures { IfOk result (λ index. MissesNone index.strips solids.now) }
    {
        let strips = BoxStrips::of(alloc, area, solids)?;
        Ok(SolidIndex {
            strips: Some(strips),
        })
    }

    /// Sets the bits of the solids that may touch a place, by their places in the list: of all that touch it, and of
    /// others.
    pub fn mark_near(&self, place: &Aabb, bits: &mut [u64; SOLID_WORDS])
        ensures { (solids : List Bounds) → MissesNone self.now.strips solids → length solids ≤ 64 * SOLID_WORDS
            → AreMarked solids place.now bits.new }
    {
        match &self.strips {
            Some(strips) => strips.mark_near(place, bits),
            None => *bits = [u64::MAX; SOLID_WORDS],
        }
    }
}
