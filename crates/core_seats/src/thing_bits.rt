ghost use Rattle.std.specs.Prelude.{◌≡◌, ◌≤◌, ◌*◌, true, All, IfOk, List, length, map, MatchOption};
ghost use Rattle.arena_geo.specs.Bounds.{Bounds};
ghost use Rattle.arena_geo.specs.Boxes.{contains};
ghost use Rattle.entity_recs.specs.Records.{IsRecord};
ghost use Rattle.entity_recs.specs.Bodies.{abs_of};
ghost use Rattle.box_strips.specs.Strips.{IsIndexOf};
ghost use Rattle.core_seats.specs.ThingBits.{AreMarked, AreApart, IsNextThing};
ghost use Rattle.core_seats.specs.ThingStrips.{MarksBoxes};

use arena_geo::{Aabb, Region, Vec3};
use box_strips::{BoxStrips, next_place};
use entity_recs::{IDS, Rec, abs_box};
use std::alloc::{AllocError, Global};

/// How many words have a bit for each thing of the map.
pub const THING_WORDS: usize = IDS / 64 - 1;

/// How many strips the part of the arena with things is cut into along x, and along y.
const THING_STRIPS: usize = 16;

/// A bit for each thing of the map, by its place among them.
pub type ThingBits = [u64; THING_WORDS];

/// An index over the absolute boxes of the things of the map.
pub type ThingIndex = BoxStrips<THING_STRIPS, THING_WORDS>;

/// The absolute boxes of these records.
pub fn abs_boxes(alloc: Global, records: &[Rec]) -> Result<Vec<Aabb>, AllocError>
    requires { All IsRecord records.now }
    ensures { IfOk result (λ boxes. boxes.items ≡ map abs_of records.now) }
{
    let mut boxes = Vec::with_capacity(alloc, records.len())?;
    for r in records {
        boxes.push(abs_box(r))?;
    }
    Ok(boxes)
}

/// The least box that has these boxes and the point 0, 0, 0 in it (so that no boxes have one too).
pub fn area_of(boxes: &[Aabb]) -> Aabb
    ensures { All (λ b. contains result b ≡ true) boxes.now }
{
    let mut area = Aabb::from_corners(Vec3::ZERO, Vec3::ZERO);
    for one in boxes {
        area = area.hull(one);
    }
    area
}

/// The index of these boxes of things, by strips of the box in which they lie.
pub fn index_of(alloc: Global, area: &Aabb, boxes: &[Aabb]) -> Result<ThingIndex, AllocError>
    requires { length boxes.now ≤ 64 * THING_WORDS }
    ensures { IfOk result (λ index. IsIndexOf index boxes.now) }
{
    ThingIndex::of(alloc, area, boxes)
}

/// The bits of the things that lie near a box of a region: those of all that touch it.
pub fn near_things(index: &ThingIndex, region: &Region) -> ThingBits
    ensures { (boxes : List Bounds) → IsIndexOf index.now boxes → MarksBoxes boxes region.now result }
{
    let mut bits = [0; THING_WORDS];
    let boxes = region.boxes();
    for one in boxes {
        index.mark_near(one, &mut bits);
    }
    bits
}

/// The place of the first of these boxes of things, from a place on, that touches a region, where these are bits of all
/// that do.
pub fn next_thing(boxes: &[Aabb], bits: &ThingBits, region: &Region, from: usize) -> Option<usize>
    requires { AreMarked region.now boxes.now bits.now }
    ensures { MatchOption result (AreApart region.now boxes.now from (length boxes.now))
        (IsNextThing region.now boxes.now from) }
{
    let mut at = from;
    while let Some(place) = next_place(bits, at, boxes.len()) {
        if region.is_touched_by(&boxes[place]) {
            return Some(place);
        }
        at = place + 1;
    }
    None
}
