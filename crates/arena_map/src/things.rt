ghost use Rattle.std.specs.Prelude.{◌≡◌, ◌+◌, ◌<◌, ◌++◌, true, vec_len, vec_capacity, option_to_list};
ghost use Rattle.arena_map.specs.MapLines.{IsWithinLimits, is_thing_line};
ghost use Rattle.arena_map.specs.Positions as places;
ghost use Rattle.arena_map.specs.Things as things;

use crate::lift::Lift;
use crate::map_line::MapLine;
use crate::rules::shaft;
use arena_geo::{Aabb, Vec3};
use entity_recs::{ITEM_MAXS, ITEM_MINS, Kind, Rec};

/// A thing at the start: at rest, with nothing, in state 0.
fn at_rest(id: u16, kind: Kind, origin: Vec3, mins: Vec3, maxs: Vec3) -> Rec
    ensures { result ≡ things.thing_at_rest id kind origin mins maxs }
{
    Rec {
        id,
        kind,
        origin,
        mins,
        maxs,
        vel: Vec3::ZERO,
        flags: 0,
        ammo: 0,
        carry: 0,
        score: 0,
        seq: 0,
        state: 0,
    }
}

/// The record at the start of the thing on this line, with this id. A lift is at its lowest place.
pub fn record_of(id: u16, l: &MapLine) -> Rec
    requires thing { is_thing_line l.now ≡ true }
    requires limits { IsWithinLimits l.now }
    ensures { result ≡ things.record_of id l.now }
{
    match *l {
        MapLine::Item { at, kind, .. } => at_rest(id, kind, at, ITEM_MINS, ITEM_MAXS),
        MapLine::Teleport { lo, hi, .. } => at_rest(id, Kind::Teleporter, lo, Vec3::ZERO, hi - lo),
        MapLine::Goal { lo, hi } => at_rest(id, Kind::Goal, lo, Vec3::ZERO, hi - lo),
        MapLine::Lift { lo, hi, .. } => at_rest(id, Kind::Lift, lo, Vec3::ZERO, hi - lo),
        MapLine::Arena { .. }
        | MapLine::Block { .. }
        | MapLine::Spawn { .. }
        | MapLine::Depth(_)
        | MapLine::Shots
        | MapLine::Blocks(_) => unreachable!(),
    }
}

/// Where a teleporter moves players.
pub fn dest_in(l: &MapLine) -> Option<Vec3>
    ensures { result ≡ things.dest_in l.now }
{
    match *l {
        MapLine::Teleport { dest, .. } => Some(dest),
        _ => None,
    }
}

/// After how many frames an item returns.
pub fn delay_in(l: &MapLine) -> Option<u16>
    ensures { result ≡ things.delay_in l.now }
{
    match *l {
        MapLine::Item { delay, .. } => Some(delay),
        _ => None,
    }
}

/// The data of a lift.
pub fn lift_data(l: &MapLine) -> Option<Lift>
    ensures { result ≡ things.lift_data l.now }
{
    match *l {
        MapLine::Lift {
            lo,
            rise,
            speed,
            ..
        } => Some(Lift {
            low: lo.z,
            rise,
            speed,
        }),
        _ => None,
    }
}

/// Puts the shaft of the lift on this line last, if it has one. There is room, and the lift has an inside.
pub fn push_shaft(shafts: &mut Vec<Aabb>, l: &MapLine)
    requires room { vec_len shafts.old < vec_capacity shafts.old }
    requires limits { IsWithinLimits l.now }
    requires thick { places.has_thick_lift l.now ≡ true }
    ensures { shafts.new.items ≡ shafts.old.items ++ option_to_list (places.shaft_of l.now) }
{
    if let MapLine::Lift { lo, hi, rise, .. } = *l {
        shafts.push_reserved(shaft(lo, hi, rise));
    }
}
