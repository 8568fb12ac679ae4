ghost use Rattle.arena_geo.specs.declared.aabb.TheConstants.{FARTHEST};
ghost use Rattle.std.specs.Prelude.{◌≡◌, ◌&&◌, ℕ, List, [], All, Some, length, false, not, true};
ghost use Rattle.std.specs.List.{list_any};
ghost use Rattle.arena_geo.specs.Vectors.{IsNear};
ghost use Rattle.arena_geo.specs.Boxes.{overlaps, is_blocked, contains, touches_on};
ghost use Rattle.entity_recs.specs.declared.effect.NewState.{NewState};
ghost use Rattle.entity_recs.specs.declared.kind.Kind.TheVariants.{Player};
ghost use Rattle.entity_recs.specs.Kinds.{is_solid, is_item};
ghost use Rattle.entity_recs.specs.Records.{IsRecord};
ghost use Rattle.entity_recs.specs.Bodies as bodies;
ghost use Rattle.entity_recs.specs.Bodies.{body_of, player_body};
ghost use Rattle.arena_map.specs.Maps as maps;
ghost use Rattle.arena_map.specs.Maps.{IsSpawn};
ghost use Rattle.trigger_rules.specs.Touching as touching;
ghost use Rattle.trigger_rules.specs.Touching.{walk_of, solids_among, after_touched_item, after_teleporter};
ghost use Rattle.trigger_rules.specs.Touching.{after_trigger};

use arena_geo::{Aabb, Vec3};
use arena_map::ArenaMap;
use entity_recs::{
    IdList, Kind, LIST_LEN, NewState, Rec, StateList, abs_box, body_box, is_touched, player_box,
};
use item_rules::take_item;

/// The most by which the absolute box of a trigger is larger than its body at each end of the axis x, in sub-units: it
/// is the growth of ammunition and gems. A trigger touches no box that is farther away from its body.
const MOST_GROWTH: i32 = 3_840;

/// Bit 1 of a player's flags: its last move ended in a teleporter.
const LEAPT: u8 = 2;

/// Whether the body overlaps that of a solid among these records.
fn is_blocked_by_solids(body: &Aabb, near: &[Rec]) -> bool
    requires { All IsRecord near.now }
    ensures { result ≡ list_any (λ r. is_solid r.kind && overlaps body.now (body_of r)) near.now }
{
    near.iter()
        .any(|r| r.kind.is_solid() && body.overlaps(&body_box(r)))
}

/// What an item that the player touches does: it is taken, unless 8 were taken in this move.
fn touch_item(
    map: &ArenaMap,
    me: &mut Rec,
    item: &Rec,
    frame: u32,
    out: &mut StateList,
    got: &mut IdList,
)
    requires item { is_item item.now.kind ≡ true }
    requires record { IsRecord me.old }
    requires lists { length out.old ≡ length got.old }
    ensures walk { walk_of me.new out.new got.new false
        ≡ after_touched_item (maps.delay_of map.now item.now.id) frame (walk_of me.old out.old got.old false) item.now }
    ensures record { IsRecord me.new }
    ensures kind { me.new.kind ≡ me.old.kind }
    ensures body { body_of me.new ≡ body_of me.old }
    ensures lists { length out.new ≡ length got.new }
{
    let Some(delay) = map.delay_of(item.id) else {
        return;
    };
    if got.as_slice().len() == LIST_LEN {
        return;
    }
    if let Some(state) = take_item(me, item, delay, frame) {
        // Both lists are of one length, which is below the greatest.
        let _has_room = out.push(NewState { id: item.id, state });
        let _has_room = got.push(item.id);
    }
}

/// What a goal that the player touches does: what the player carries is added to its score.
fn touch_goal(me: &mut Rec)
    requires { IsRecord me.old }
    ensures player { me.new ≡ touching.player_after_goal me.old }
    ensures record { IsRecord me.new }
{
    me.score = me.score.saturating_add(u32::from(me.carry));
    me.carry = 0;
}

/// Puts a player at a teleporter's destination, at rest.
fn leap(me: &mut Rec, dest: Vec3)
    requires player { me.old.kind ≡ Player }
    requires record { IsRecord me.old }
    requires near { IsNear FARTHEST dest }
    ensures player { me.new ≡ touching.leapt me.old dest }
    ensures record { IsRecord me.new }
{
    me.origin = dest;
    me.vel = Vec3::ZERO;
    me.flags |= LEAPT;
}

/// Whether a player's body at this destination overlaps no wall, no block, and no body of another solid.
fn is_free(map: &ArenaMap, near: &[Rec], dest: Vec3) -> bool
    requires near { IsNear FARTHEST dest }
    requires records { All IsRecord near.now }
    ensures { result ≡ not (is_blocked (player_body dest) (solids_among map.now near.now)) }
{
    let body = player_box(dest);
    !body.is_blocked(map.solids()) && !is_blocked_by_solids(&body, near)
}

/// Moves a player that touches a teleporter to the destination, unless a solid is in the way. Returns whether it moved.
fn touch_teleporter(map: &ArenaMap, me: &mut Rec, near: &[Rec], dest: Vec3) -> bool
    requires player { me.old.kind ≡ Player }
    requires record { IsRecord me.old }
    requires records { All IsRecord near.now }
    requires stand { IsSpawn map.now.bounds dest }
    ensures walk { (states : List NewState) (ids : List ℕ) → walk_of me.new states ids result
        ≡ after_teleporter (Some dest) (solids_among map.now near.now) (walk_of me.old states ids false) }
    ensures record { IsRecord me.new }
    ensures kind { me.new.kind ≡ Player }
    ensures inside { contains map.now.bounds (body_of me.old) ≡ true → contains map.now.bounds (body_of me.new) ≡ true }
{
    if !is_free(map, near, dest) {
        return false;
    }
    leap(me, dest);
    true
}

/// What a trigger that the player touches does. Returns whether that ends the walk.
fn touch(
    map: &ArenaMap,
    me: &mut Rec,
    near: &[Rec],
    trigger: &Rec,
    frame: u32,
    out: &mut StateList,
    got: &mut IdList,
) -> bool
    requires player { me.old.kind ≡ Player }
    requires record { IsRecord me.old }
    requires records { All IsRecord near.now }
    requires lists { length out.old ≡ length got.old }
    ensures walk { walk_of me.new out.new got.new result
        ≡ after_trigger map.now (solids_among map.now near.now) frame (walk_of me.old out.old got.old false)
        trigger.now }
    ensures record { IsRecord me.new }
    ensures kind { me.new.kind ≡ Player }
    ensures inside { contains map.now.bounds (body_of me.old) ≡ true → contains map.now.bounds (body_of me.new) ≡ true }
    ensures lists { length out.new ≡ length got.new }
{
    match trigger.kind {
        Kind::Ammo | Kind::Gem => {
            touch_item(map, me, trigger, frame, out, got);
            false
        }
        Kind::Goal => {
            touch_goal(me);
            false
        }
        Kind::Teleporter => match map.dest_of(trigger.id) {
            Some(dest) => touch_teleporter(map, me, near, dest),
            None => false,
        },
        Kind::Player | Kind::Lift => false,
    }
}

/// Whether the body of a record has a point between `low` and `high` on the axis x, the ends counted.
fn touches_on_x(low: i32, high: i32, r: &Rec) -> bool
    requires { IsRecord r.now }
    ensures { result ≡ touches_on low high (body_of r.now).lo.x (body_of r.now).hi.x }
{
    low <= r.origin.x + r.maxs.x && r.origin.x + r.mins.x <= high
}

/// Whether a record is a trigger whose absolute box touches `abs`. Where its body is more than [`MOST_GROWTH`] away from
/// `abs` on the axis x, nothing else is tested.
fn is_near_and_touched(abs: &Aabb, r: &Rec) -> bool
    requires { IsRecord r.now }
    ensures { result ≡ bodies.is_touched abs.now r.now }
{
    let low = abs.lo().x - MOST_GROWTH;
    let high = abs.hi().x + MOST_GROWTH;
    touches_on_x(low, high, r) && is_touched(abs, r)
}

// All records are filtered and folded in rising id, as the definition has it. The tree's query isn't used, since a
// move has its records as a list and no world.
/// What a player touches after its move: the triggers among `near`, the other live records in rising id, whose absolute
/// boxes touch the player's. One after another, an item is taken, with at most 8 in a move; at a goal what the player
/// carries is added to its score; a teleporter whose destination is free moves the player there, which ends the walk.
/// `out` gets the new states of the items that were taken, and `got` their ids. It takes no memory.
pub fn touch_all(
    map: &ArenaMap,
    me: &mut Rec,
    near: &[Rec],
    frame: u32,
    out: &mut StateList,
    got: &mut IdList,
)
    requires player { me.old.kind ≡ Player }
    requires record { IsRecord me.old }
    requires records { All IsRecord near.now }
    requires no_states { out.old ≡ [] }
    requires no_ids { got.old ≡ [] }
    ensures player { me.new ≡ (touching.touched map.now frame me.old near.now).me }
    ensures states { out.new ≡ (touching.touched map.now frame me.old near.now).states }
    ensures ids { got.new ≡ (touching.touched map.now frame me.old near.now).got }
    ensures record { IsRecord me.new }
    ensures inside { contains map.now.bounds (body_of me.old) ≡ true → contains map.now.bounds (body_of me.new) ≡ true }
{
    let abs = abs_box(me);
    for trigger in near {
        if is_near_and_touched(&abs, trigger) && touch(map, me, near, trigger, frame, out, got) {
            return;
        }
    }
}
