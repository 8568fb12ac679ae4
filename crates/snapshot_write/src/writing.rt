ghost use Rattle.arena_geo.specs.declared.aabb.TheConstants.{FARTHEST};
ghost use Rattle.std.specs.Prelude.{◌≡◌, ◌+◌, ◌*◌, ◌≤◌, ◌<◌, ◌++◌, [], length, map, is_some, IsSome, IfSome};
ghost use Rattle.arena_geo.specs.Vectors.{IsNear};
ghost use Rattle.world_tree.specs.Live.{live_in};
ghost use Rattle.world_tree.specs.Worlds.{record_of};
ghost use Rattle.snapshot_write.specs.Snapshots as spec;
ghost use Rattle.snapshot_write.specs.Shown.{snapshot_shown_to};
ghost use Rattle.snapshot_write.specs.Reading.{reading};
ghost use Rattle.snapshot_write.specs.declared.seen.TheConstants.{MOST_SEEN};
ghost use Rattle.entity_recs.specs.declared.rec.Rec.{Rec};

use crate::reply_buf::{REPLY_ROOM, ReplyBuf};
use crate::seen_ids::SeenIds;
use arena_geo::{Aabb, Vec3};
use entity_recs::{Kind, Rec};
use world_tree::World;

/// The version of the snapshots.
const VERSION: u8 = 1;

/// How far a player sees on each axis, in sub-units.
const SIGHT: Vec3 = Vec3 {
    x: 262_144,
    y: 262_144,
    z: 131_072,
};

/// The box that a player at this origin sees.
fn view(origin: Vec3) -> Aabb
    requires { IsNear FARTHEST origin }
    ensures { result ≡ spec.view_of origin }
{
    Aabb::from_corners(origin - SIGHT, origin + SIGHT)
}

/// 0 for an item that was taken, and else 1.
fn status(kind: Kind, state: u64) -> u8
    ensures { result ≡ spec.status_at kind state }
{
    match kind {
        Kind::Ammo | Kind::Gem => u8::from(state == 0),
        Kind::Player | Kind::Teleporter | Kind::Goal | Kind::Lift => 1,
    }
}

fn push_signed(out: &mut ReplyBuf, z: i32)
    requires { length out.old + 4 ≤ REPLY_ROOM }
    ensures { out.new ≡ out.old ++ spec.signed_bytes z }
{
    out.extend(&z.to_le_bytes());
}

fn push_vector(out: &mut ReplyBuf, v: Vec3)
    requires { length out.old + 12 ≤ REPLY_ROOM }
    ensures bytes { out.new ≡ out.old ++ spec.vector_bytes v }
    ensures len { length out.new ≡ length out.old + 12 }
{
    push_signed(out, v.x);
    push_signed(out, v.y);
    push_signed(out, v.z);
}

/// The bytes of a thing that is seen.
fn push_entity(out: &mut ReplyBuf, r: &Rec)
    requires { length out.old + 16 ≤ REPLY_ROOM }
    ensures bytes { out.new ≡ out.old ++ spec.entity_bytes r.now }
    ensures len { length out.new ≡ length out.old + 16 }
{
    let [id0, id1] = r.id.to_le_bytes();
    let [x0, x1, x2, x3] = r.origin.x.to_le_bytes();
    let [y0, y1, y2, y3] = r.origin.y.to_le_bytes();
    let [z0, z1, z2, z3] = r.origin.z.to_le_bytes();
    let kind = r.kind.number();
    let status = status(r.kind, r.state);
    out.extend(&[
        id0, id1, kind, status, x0, x1, x2, x3, y0, y1, y2, y3, z0, z1, z2, z3,
    ]);
}

/// The version, the frame and the slot.
fn push_head(out: &mut ReplyBuf, frame: u32, slot: u8)
    requires { length out.old + 6 ≤ REPLY_ROOM }
    ensures bytes { out.new ≡ out.old ++ spec.head_bytes frame slot }
    ensures len { length out.new ≡ length out.old + 6 }
{
    out.extend(&[VERSION]);
    out.extend(&frame.to_le_bytes());
    out.extend(&[slot]);
}

/// What the player has, and the number of its last command.
fn push_counts(out: &mut ReplyBuf, me: &Rec)
    requires { length out.old + 11 ≤ REPLY_ROOM }
    ensures bytes { out.new ≡ out.old ++ spec.count_bytes me.now }
    ensures len { length out.new ≡ length out.old + 11 }
{
    out.extend(&[me.flags, me.ammo, me.carry]);
    out.extend(&me.score.to_le_bytes());
    out.extend(&me.seq.to_le_bytes());
}

/// The bytes of the player itself, which is in this slot.
fn push_own(out: &mut ReplyBuf, frame: u32, slot: u8, me: &Rec)
    requires room { length out.old + 41 ≤ REPLY_ROOM }
    requires slot { me.now.id ≡ slot }
    ensures bytes { out.new ≡ out.old ++ spec.own_bytes frame me.now }
    ensures len { length out.new ≡ length out.old + 41 }
{
    push_head(out, frame, slot);
    push_vector(out, me.origin);
    push_vector(out, me.vel);
    push_counts(out, me);
}

/// Whether the id is live, not `me`, and its absolute box touches the view.
fn sees(world: &World, view: &Aabb, me: u16, id: u16) -> bool
    ensures { result ≡ is_some (spec.in_view_at view.now me (record_of world.now id)) }
{
    match world.abs_box(id) {
        Some(abs) => abs.touches(view) && id != me,
        None => false,
    }
}

// Their number comes before the first entity, so they are kept, and no box is tested twice.
/// The ids that the player with the id `me` sees, whose view this is, in rising order.
fn ids_seen(world: &World, view: &Aabb, me: u16) -> SeenIds
    requires few { length (spec.in_view view.now me (live_in world.now.records)) ≤ MOST_SEEN }
    ensures ids { result ≡ map (λ (r : Rec). r.id) (spec.in_view view.now me (live_in world.now.records)) }
{
    let mut ids = SeenIds::new();
    for id in world.live_ids() {
        if sees(world, view, me, *id) {
            ids.push(*id);
        }
    }
    ids
}

/// The number of the things that the player with the id `me` sees, whose view this is, and the bytes of each.
fn push_seen(out: &mut ReplyBuf, world: &World, view: &Aabb, me: u16)
    requires few { length (spec.in_view view.now me (live_in world.now.records)) ≤ MOST_SEEN }
    requires room { length out.old + 2 + 16 * length (spec.in_view view.now me (live_in world.now.records)) ≤ REPLY_ROOM }
    ensures { out.new ≡ out.old ++ spec.seen_bytes (spec.in_view view.now me (live_in world.now.records)) }
{
    let seen = ids_seen(world, view, me);
    let ids = seen.as_slice();
    out.extend(&(ids.len() as u16).to_le_bytes());
    for id in ids {
        push_entity(out, &world.get(*id).unwrap());
    }
}

/// Writes the snapshot of the player in this slot, which is live, into the empty list `out`: the bytes of the player,
/// and of each other live thing whose absolute box touches its view, in rising id.
pub fn write_snapshot(world: &World, frame: u32, slot: u8, out: &mut ReplyBuf)
    requires live { IsSome (record_of world.now slot) }
    requires empty { out.old ≡ [] }
    ensures bytes { IfSome (record_of world.now slot)
        (λ me. out.new ≡ spec.snapshot frame me (live_in world.now.records)) }
    // What is written for a player is read as the frame, its own record and what it sees.
    ensures read_again { slot < 64 → IfSome (record_of world.now slot)
        (λ me. reading out.new ≡ Ok (snapshot_shown_to frame me (live_in world.now.records))) }
{
    let id = u16::from(slot);
    let me = world.get(id).unwrap();
    let view = view(me.origin);
    push_own(out, frame, slot, &me);
    push_seen(out, world, &view, id);
}
