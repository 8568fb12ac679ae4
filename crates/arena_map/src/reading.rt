ghost use Rattle.std.specs.Prelude.{◌≡◌, ◌↔◌, ◌≤◌, true, false, option_map, Ok, Err, IfOk, IfSome, unsigned_abs};
ghost use Rattle.arena_geo.specs.Vectors.{IsNear};
ghost use Rattle.edge_io.specs.Fields as fields;
ghost use Rattle.entity_recs.specs.Kinds.{is_item};
ghost use Rattle.arena_map.specs.MapLines.{IsWithinLimits};
ghost use Rattle.arena_map.specs.Reading as reading;
ghost use Rattle.arena_map.specs.Spelling.{map_line_text};
ghost use Rattle.arena_map.specs.TextFaults.{HasNoWord, HasNoForm, IsOutOfLimit};

use crate::limits::{DEFAULT_BLOCKS, MOST_BLOCKS};
use crate::map_line::MapLine;
use crate::map_word::{MapField, MapWord, item_kind};
use areanode::{LEAST_DEPTH, MOST_DEPTH};
use arena_geo::Vec3;
use edge_io::{cut, field_at, integer, is_integer, natural};
use entity_recs::Kind;

/// The greatest distance of a coordinate on a line from 0, in sub-units.
const FARTHEST: u32 = 1_048_576;

/// The most frames after which an item returns.
const LONGEST_DELAY: u32 = 65_535;

/// The most that a lift rises, in sub-units.
const HIGHEST_RISE: u32 = 1_048_576;

/// The most that a lift moves in a frame, in sub-units.
const FASTEST: u32 = 2_560;

/// The fault of a line whose first word is no word of a map.
pub const NO_WORD: u8 = 3;

/// The fault of a line that has too few or too many fields, or a field that isn't a number or a kind.
pub const NO_FORM: u8 = 4;

/// The fault of a line with a number out of its limit.
pub const OUT_OF_LIMIT: u8 = 6;

/// Whether the text is one for this field.
fn is_field(field: MapField, text: &[u8]) -> bool
    ensures { result ≡ reading.is_field field text.now }
{
    match field {
        MapField::Number => is_integer(text),
        MapField::ItemKind => item_kind(text).is_some(),
    }
}

/// Whether these fields are on the line, and nothing more.
fn has_fields(fields: &[MapField], rest: &[u8]) -> bool
    ensures { result ≡ reading.has_fields fields.now rest.now }
{
    let mut rest = rest;
    for field in fields {
        let Some((text, after)) = field_at(rest) else {
            return false;
        };
        if !is_field(*field, text) {
            return false;
        }
        rest = after;
    }
    rest.is_empty()
}

/// A coordinate, and the rest.
fn coordinate_at(rest: &[u8]) -> Option<(i32, &[u8])>
    ensures value { option_map (λ c. (c.0, c.1.now)) result ≡ reading.coordinate_at rest.now }
    ensures bound { IfSome result (λ c. unsigned_abs c.0 ≤ FARTHEST) }
{
    let (field, rest) = field_at(rest)?;
    Some((integer(field, FARTHEST)? as i32, rest))
}

/// Three coordinates, and the rest.
fn point_at(rest: &[u8]) -> Option<(Vec3, &[u8])>
    ensures value { option_map (λ p. (p.0, p.1.now)) result ≡ reading.point_at rest.now }
    ensures bound { IfSome result (λ p. IsNear FARTHEST p.0) }
{
    let (x, rest) = coordinate_at(rest)?;
    let (y, rest) = coordinate_at(rest)?;
    let (z, rest) = coordinate_at(rest)?;
    Some((Vec3 { x, y, z }, rest))
}

/// A number from 1 to `limit`, and the rest.
fn count_at(rest: &[u8], limit: u32) -> Option<(u32, &[u8])>
    ensures value { option_map (λ c. (c.0, c.1.now)) result ≡ reading.count_at limit rest.now }
    ensures least { IfSome result (λ c. 1 ≤ c.0) }
    ensures most { IfSome result (λ c. c.0 ≤ limit) }
{
    let (field, rest) = field_at(rest)?;
    match natural(field, u64::from(limit))? {
        0 => None,
        count => Some((count as u32, rest)),
    }
}

/// The kind of an item, and the rest.
fn kind_at(rest: &[u8]) -> Option<(Kind, &[u8])>
    ensures value { option_map (λ k. (k.0, k.1.now)) result ≡ reading.kind_at rest.now }
    ensures item { IfSome result (λ k. is_item k.0 ≡ true) }
{
    let (field, rest) = field_at(rest)?;
    Some((item_kind(field)?, rest))
}

/// A low corner, a high one, and the rest.
fn corners_at(rest: &[u8]) -> Option<(Vec3, Vec3, &[u8])>
    ensures value { option_map (λ c. (c.0, c.1, c.2.now)) result ≡ reading.corners_at rest.now }
    ensures lo { IfSome result (λ c. IsNear FARTHEST c.0) }
    ensures hi { IfSome result (λ c. IsNear FARTHEST c.1) }
{
    let (lo, rest) = point_at(rest)?;
    let (hi, rest) = point_at(rest)?;
    Some((lo, hi, rest))
}

/// The line, where nothing more is on it.
fn line_at_end(line: MapLine, rest: &[u8]) -> Option<MapLine>
    ensures value { result ≡ reading.line_at_end line rest.now }
    ensures limits { IsWithinLimits line → IfSome result IsWithinLimits }
{
    if rest.is_empty() { Some(line) } else { None }
}

/// The arena's corners.
fn arena_in(rest: &[u8]) -> Option<MapLine>
    ensures value { result ≡ reading.arena_in rest.now }
    ensures limits { IfSome result IsWithinLimits }
{
    let (lo, hi, rest) = corners_at(rest)?;
    line_at_end(MapLine::Arena { lo, hi }, rest)
}

/// A block's corners.
fn block_in(rest: &[u8]) -> Option<MapLine>
    ensures value { result ≡ reading.block_in rest.now }
    ensures limits { IfSome result IsWithinLimits }
{
    let (lo, hi, rest) = corners_at(rest)?;
    line_at_end(MapLine::Block { lo, hi }, rest)
}

/// Where players join.
fn spawn_in(rest: &[u8]) -> Option<MapLine>
    ensures value { result ≡ reading.spawn_in rest.now }
    ensures limits { IfSome result IsWithinLimits }
{
    let (at, rest) = point_at(rest)?;
    line_at_end(MapLine::Spawn { at }, rest)
}

/// Where an item is, its kind, and after how many frames it returns.
fn item_in(rest: &[u8]) -> Option<MapLine>
    ensures value { result ≡ reading.item_in rest.now }
    ensures limits { IfSome result IsWithinLimits }
{
    let (at, rest) = point_at(rest)?;
    let (kind, rest) = kind_at(rest)?;
    let (delay, rest) = count_at(rest, LONGEST_DELAY)?;
    let delay = delay as u16;
    line_at_end(MapLine::Item { at, kind, delay }, rest)
}

/// A teleporter's corners, and where it moves players.
fn teleport_in(rest: &[u8]) -> Option<MapLine>
    ensures value { result ≡ reading.teleport_in rest.now }
    ensures limits { IfSome result IsWithinLimits }
{
    let (lo, hi, rest) = corners_at(rest)?;
    let (dest, rest) = point_at(rest)?;
    line_at_end(MapLine::Teleport { lo, hi, dest }, rest)
}

/// A goal's corners.
fn goal_in(rest: &[u8]) -> Option<MapLine>
    ensures value { result ≡ reading.goal_in rest.now }
    ensures limits { IfSome result IsWithinLimits }
{
    let (lo, hi, rest) = corners_at(rest)?;
    line_at_end(MapLine::Goal { lo, hi }, rest)
}

/// A lift's corners at its lowest place, how far it rises, and how far it moves in a frame.
fn lift_in(rest: &[u8]) -> Option<MapLine>
    ensures value { result ≡ reading.lift_in rest.now }
    ensures limits { IfSome result IsWithinLimits }
{
    let (lo, hi, rest) = corners_at(rest)?;
    let (rise, rest) = count_at(rest, HIGHEST_RISE)?;
    let (speed, rest) = count_at(rest, FASTEST)?;
    let (rise, speed) = (rise as i32, speed as i32);
    line_at_end(
        MapLine::Lift {
            lo,
            hi,
            rise,
            speed,
        },
        rest,
    )
}

/// A number from `least` to `most`, and the rest.
fn number_between(rest: &[u8], least: u16, most: u16) -> Option<(u16, &[u8])>
    ensures value { option_map (λ n. (n.0, n.1.now)) result ≡ reading.number_between least most rest.now }
    ensures least { IfSome result (λ n. least ≤ n.0) }
    ensures most { IfSome result (λ n. n.0 ≤ most) }
{
    let (field, rest) = field_at(rest)?;
    let number = natural(field, u64::from(most))? as u16;
    if number < least {
        return None;
    }
    Some((number, rest))
}

/// How deep the tree of areanodes is.
fn depth_in(rest: &[u8]) -> Option<MapLine>
    ensures value { result ≡ reading.depth_in rest.now }
    ensures limits { IfSome result IsWithinLimits }
{
    let (depth, rest) = number_between(rest, u16::from(LEAST_DEPTH), u16::from(MOST_DEPTH))?;
    line_at_end(MapLine::Depth(depth as u8), rest)
}

/// How many blocks there may be.
fn blocks_in(rest: &[u8]) -> Option<MapLine>
    ensures value { result ≡ reading.blocks_in rest.now }
    ensures limits { IfSome result IsWithinLimits }
{
    let (most, rest) = number_between(rest, DEFAULT_BLOCKS, MOST_BLOCKS as u16)?;
    line_at_end(MapLine::Blocks(most), rest)
}

/// The line with these fields, where each number is within its limit.
fn line_within(word: MapWord, rest: &[u8]) -> Option<MapLine>
    ensures value { result ≡ reading.line_within word rest.now }
    ensures limits { IfSome result IsWithinLimits }
{
    match word {
        MapWord::Arena => arena_in(rest),
        MapWord::Block => block_in(rest),
        MapWord::Spawn => spawn_in(rest),
        MapWord::Item => item_in(rest),
        MapWord::Teleport => teleport_in(rest),
        MapWord::Goal => goal_in(rest),
        MapWord::Lift => lift_in(rest),
        MapWord::Depth => depth_in(rest),
        MapWord::Shots => line_at_end(MapLine::Shots, rest),
        MapWord::Blocks => blocks_in(rest),
    }
}

// In two passes, first the form of all fields and then their limits, so that a field of the wrong form comes before
// an earlier number out of its limits.
/// What a line of a map says, without its line feed. Its first word isn't `frame`, `from` or `end`.
///
/// Else the first fault that holds: 3 where the first word is no word of a recording; 4 where the number of fields is
/// wrong, or a field that should be a number or an item's kind isn't one; 6 where a number is out of its limit.
pub fn read_map_line(line: &[u8]) -> Result<MapLine, u8>
    requires { reading.is_word_of_play (fields.cut line.now).0 ≡ false }
    ensures value { result ≡ reading.map_line_of line.now }
    ensures limits { IfOk result IsWithinLimits }
    ensures found { IfOk result (λ l. line.now ≡ map_line_text l) }
    ensures only { (l : MapLine) → IsWithinLimits l → line.now ≡ map_line_text l → result ≡ Ok l }
    // Each fault comes exactly where its rule is the first that is broken.
    ensures no_word { (result ≡ Err 3) ↔ HasNoWord line.now }
    ensures no_form { (result ≡ Err 4) ↔ HasNoForm line.now }
    ensures out_of_limit { (result ≡ Err 6) ↔ IsOutOfLimit line.now }
{
    let (text, rest) = cut(line);
    let Some(word) = MapWord::read(text) else {
        return Err(NO_WORD);
    };
    if !has_fields(word.fields(), rest) {
        return Err(NO_FORM);
    }
    line_within(word, rest).ok_or(OUT_OF_LIMIT)
}
