ghost use Rattle.std.specs.Prelude.{◌≡◌, ◌+◌, ◌≤◌, All, IfSome, IsSome, length};
ghost use Rattle.std.specs.Prelude.{map as map_list};
ghost use Rattle.std.specs.List.Sorted.{IsStrictlyIncreasing};
ghost use Rattle.entity_recs.specs.Records.{IsRecord};
ghost use Rattle.entity_recs.specs.Commands.{command_of};
ghost use Rattle.player_move.specs.Intents.{intent_of};
ghost use Rattle.player_move.specs.Moves.{move_of};
ghost use Rattle.player_move.specs.Laws as moves;
ghost use Rattle.arena_map.specs.Maps.{solids_of};
ghost use Rattle.trigger_rules.specs.Touching.{solids_among};
ghost use Rattle.box_trace.specs.declared.walls.TheConstants.{WALLS};
ghost use Rattle.arena_map.specs.declared.limits.TheConstants.{MOST_BLOCKS};
ghost use Rattle.arena_actions.specs.Solids.{MissesNone};
ghost use Rattle.arena_outcomes.specs.Outcomes as outcomes;

use crate::boxes::Boxes;
use crate::looking::looked_at;
use crate::solid_index::SolidIndex;
use arena_geo::Aabb;
use arena_map::{ArenaMap, MOST_BLOCKS};
use box_trace::WALLS;
use entity_recs::{Cmd, IDS, Rec};
use player_move::{Moved, move_player};

/// How many solids are kept at first: as many as a move looks at in most places. To clear room for more is most of what
/// it costs to keep none.
const FEW_SOLIDS: usize = 16;

/// How many solids are kept next: as many as a move or a shot looks at in all but crowded places.
pub const SOME_SOLIDS: usize = 64;

/// How many solids are kept in a crowded place, before room is made for all that there may be.
pub const MANY_SOLIDS: usize = 512;

/// The most solids that there may be: the walls and blocks of a map, and the bodies of all live records.
const MOST_SOLIDS: usize = WALLS + MOST_BLOCKS + IDS;

/// The flags after a move: bit 0 says that it began on the ground.
fn flags(ground: bool) -> u8
    ensures { result ≡ outcomes.flags_of ground }
{
    u8::from(ground)
}

/// The player after a move, and after the command with this number.
fn after_move(me: &Rec, moved: &Moved, seq: u32) -> Rec
    ensures { result ≡ outcomes.after_move me.now moved.now seq }
{
    Rec {
        origin: moved.origin,
        vel: moved.vel,
        flags: flags(moved.ground),
        seq,
        ..*me
    }
}

// A function of its own, so that the stack of a move has the room of the larger lists only where they are used.
/// The player's move, if at most `N` solids are where it looks, `place`: no others can change it.
#[inline(never)]
fn move_within<const N: usize>(
    map: &ArenaMap,
    index: &SolidIndex,
    me: &Rec,
    near: &[Rec],
    cmd: &Cmd,
    place: &Aabb,
) -> Option<Moved>
    requires index { MissesNone index.now.strips (solids_of map.now) }
    requires record { IsRecord me.now }
    requires records { All IsRecord near.now }
    requires few { N ≤ MOST_SOLIDS }
    requires place { place.now ≡ moves.looked_at me.now cmd.now.ms }
    ensures moved { IfSome result (λ moved. moved ≡ move_of me.now (intent_of cmd.now)
        (solids_among map.now near.now)) }
    ensures room { WALLS + MOST_BLOCKS + length near.now ≤ N → IsSome result }
{
    let mut solids = Boxes::<N>::new();
    if solids.push_overlapping(place, map.solids(), index) && solids.push_bodies(place, near) {
        Some(move_player(me, cmd, solids.as_slice(), &[]))
    } else {
        None
    }
}

/// The player's move among the solids of the map and the bodies of the other live solids.
fn move_among(map: &ArenaMap, index: &SolidIndex, me: &Rec, near: &[Rec], cmd: &Cmd) -> Moved
    requires index { MissesNone index.now.strips (solids_of map.now) }
    requires record { IsRecord me.now }
    requires records { All IsRecord near.now }
    requires few { length near.now ≤ IDS }
    ensures { result ≡ move_of me.now (intent_of cmd.now) (solids_among map.now near.now) }
{
    let place = looked_at(me, cmd.ms);
    if let Some(moved) = move_within::<FEW_SOLIDS>(map, index, me, near, cmd, &place) {
        return moved;
    }
    if let Some(moved) = move_within::<SOME_SOLIDS>(map, index, me, near, cmd, &place) {
        return moved;
    }
    if let Some(moved) = move_within::<MANY_SOLIDS>(map, index, me, near, cmd, &place) {
        return moved;
    }
    move_within::<MOST_SOLIDS>(map, index, me, near, cmd, &place).unwrap()
}

/// The player after its move, before it touches anything.
pub fn moved_player(map: &ArenaMap, index: &SolidIndex, me: &Rec, near: &[Rec], cmd: &Cmd) -> Rec
    requires index { MissesNone index.now.strips (solids_of map.now) }
    requires record { IsRecord me.now }
    requires records { All IsRecord near.now }
    requires rising { IsStrictlyIncreasing (map_list (λ r. r.id) near.now) }
    ensures { result ≡ outcomes.moved_among map.now me.now near.now (command_of cmd.now) }
{
    after_move(me, &move_among(map, index, me, near, cmd), cmd.seq)
}
