ghost use Rattle.arena_geo.specs.declared.aabb.TheConstants.{FARTHEST};
ghost use Rattle.std.specs.Prelude.{◌≡◌, ◌<◌, ◌≤◌, [], ◌++◌, length, IsSome};
ghost use Rattle.std.specs.List.{cons_option};
ghost use Rattle.arena_geo.specs.Vectors.{IsNear};
ghost use Rattle.entity_recs.specs.declared.kind.Kind.TheVariants.{Player};
ghost use Rattle.entity_recs.specs.Records.{IsRecord};
ghost use Rattle.entity_recs.specs.Commands.{command_of};
ghost use Rattle.arena_map.specs.Maps.{MapView};
ghost use Rattle.arena_outcomes.specs.Regions as regions;
ghost use Rattle.arena_outcomes.specs.Regions.{region_with};
ghost use Rattle.arena_actions.specs.Leaps.{IsNearLeap, leaps_of, landing_by};

use crate::leaps::{Leap, Leaps};
use crate::reaching::{amount, reach_on};
use arena_geo::{Aabb, Region, Vec3};
use arena_outcomes::ROOM;
use entity_recs::{Cmd, Rec, abs_box};
use player_move::STAIR_HEIGHT;

/// How much the reach has to spare on each axis, in sub-units.
const SPARE: u32 = 256;

/// The reach of a move of so many milliseconds: where the player's absolute box may come without a leap. It is the
/// absolute box, larger on each axis by how far the move goes, on z by the height of a stair more, and by [`SPARE`].
fn reach_of(me: &Rec, ms: u8) -> Aabb
    requires record { IsRecord me.now }
    requires short { ms ≤ 50 }
    ensures { result ≡ regions.reach_of me.now ms }
{
    let by = amount(
        reach_on(me.vel.x, ms) + SPARE,
        reach_on(me.vel.y, ms) + SPARE,
        reach_on(me.vel.z, ms) + (STAIR_HEIGHT + SPARE),
    );
    abs_box(me).grown(by)
}

/// The reach, with so much room around it.
fn reach_with_room(me: &Rec, ms: u8, room: u32) -> Aabb
    requires record { IsRecord me.now }
    requires short { ms ≤ 50 }
    requires room { room ≤ 100000 }
    ensures { result ≡ regions.first_box room me.now ms }
{
    reach_of(me, ms).grown(amount(room, room, room))
}

/// The room around the player's absolute box at this place.
fn landing_at(me: &Rec, dest: Vec3) -> Aabb
    requires player { me.now.kind ≡ Player }
    requires record { IsRecord me.now }
    requires near { IsNear FARTHEST dest }
    ensures { result ≡ regions.landing_at me.now dest }
{
    let there = Rec {
        origin: dest,
        ..*me
    };
    abs_box(&there).grown(amount(ROOM, ROOM, ROOM))
}

/// The room where a leap of the player ends, if its teleporter touches the reach.
fn landing_of(me: &Rec, reach: &Aabb, leap: &Leap) -> Option<Aabb>
    requires player { me.now.kind ≡ Player }
    requires record { IsRecord me.now }
    requires near { IsNearLeap leap.now }
    ensures { result ≡ landing_by me.now reach.now leap.now }
{
    if leap.from.touches(reach) {
        Some(landing_at(me, leap.to))
    } else {
        None
    }
}

/// Puts a landing last, if there is one. There is room for it.
fn push_landing(region: &mut Region, landing: Option<Aabb>)
    requires { IsSome landing → length region.old < 17 }
    ensures { region.new ≡ region.old ++ cons_option landing [] }
{
    if let Some(landing) = landing {
        // The answer says whether there was room, and there is.
        let _has_room = region.push(landing);
    }
}

/// The region of a player's move: the reach with so much room around it, and [`ROOM`] at the destination of each
/// teleporter that touches the reach, in rising id.
pub fn region_of(leaps: &Leaps, me: &Rec, cmd: &Cmd, room: u32) -> Region
    requires player { me.now.kind ≡ Player }
    requires record { IsRecord me.now }
    requires room { room ≤ 100000 }
    ensures { (map : MapView) → leaps.now ≡ leaps_of map → result ≡ region_with room map me.now (command_of cmd.now) }
{
    let reach = reach_of(me, cmd.ms);
    let mut region = Region::one(reach_with_room(me, cmd.ms, room));
    for leap in leaps.as_slice() {
        push_landing(&mut region, landing_of(me, &reach, leap));
    }
    region
}
