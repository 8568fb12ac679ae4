ghost use Rattle.arena_geo.specs.declared.aabb.TheConstants.{FARTHEST};
ghost use Rattle.std.specs.Prelude.{◌≡◌, pos};
ghost use Rattle.arena_geo.specs.Vectors.{IsNear};
ghost use Rattle.entity_recs.specs.Records.{IsRecord};
ghost use Rattle.entity_recs.specs.Bodies as bodies;
ghost use Rattle.entity_recs.specs.Bodies.{growth_of, body_of, abs_of, player_body};

use crate::kind::Kind;
use crate::rec::Rec;
use arena_geo::{Aabb, Vec3};

/// The low corner of a player's body, seen from its origin, in sub-units: (-16, -16, -24) units, as `VEC_HULL_MIN` in
/// Quake.
pub const PLAYER_MINS: Vec3 = Vec3 {
    x: -4_096,
    y: -4_096,
    z: -6_144,
};

/// The high corner of a player's body, seen from its origin, in sub-units: (16, 16, 32) units, as `VEC_HULL_MAX` in
/// Quake.
pub const PLAYER_MAXS: Vec3 = Vec3 {
    x: 4_096,
    y: 4_096,
    z: 8_192,
};

/// The low corner of an item's body, seen from its origin, in sub-units. Every item has this project's own box.
pub const ITEM_MINS: Vec3 = Vec3 { x: 0, y: 0, z: 0 };

/// The high corner of an item's body, seen from its origin, in sub-units.
pub const ITEM_MAXS: Vec3 = Vec3 {
    x: 8_192,
    y: 8_192,
    z: 14_336,
};

/// By how much an item's absolute box is larger than its body on both sides of each axis, in sub-units.
const ITEM_GROWTH: Vec3 = Vec3 {
    x: 3_840,
    y: 3_840,
    z: 0,
};

/// By how much every other absolute box is larger than its body on both sides of each axis, in sub-units.
const GROWTH: Vec3 = Vec3 {
    x: 256,
    y: 256,
    z: 256,
};

/// By how much the absolute box of a kind is larger than the body on both sides of each axis, in sub-units.
pub fn growth(kind: Kind) -> Vec3
    ensures { result ≡ growth_of kind }
{
    match kind {
        Kind::Ammo | Kind::Gem => ITEM_GROWTH,
        Kind::Player | Kind::Teleporter | Kind::Goal | Kind::Lift => GROWTH,
    }
}

/// The body of a player with this `origin`, of which each coordinate is at most 1,048,576 from 0.
pub fn player_box(origin: Vec3) -> Aabb
    requires { IsNear FARTHEST origin }
    ensures { result ≡ player_body origin }
{
    Aabb::from_corners(origin + PLAYER_MINS, origin + PLAYER_MAXS)
}

/// The body of a record: its origin plus `mins` to its origin plus `maxs`.
pub fn body_box(r: &Rec) -> Aabb
    requires { IsRecord r.now }
    ensures { result ≡ body_of r.now }
{
    Aabb::from_corners(r.origin + r.mins, r.origin + r.maxs)
}

/// The absolute box of a record, by which it is linked and touched: it plays the part of `absmin` and `absmax` in
/// Quake's `SV_LinkEdict`. It is the body, larger by 256 on all sides; an item's is larger by 3,840 on x and y alone.
/// The amounts are this project's own.
pub fn abs_box(r: &Rec) -> Aabb
    requires { IsRecord r.now }
    ensures { result ≡ abs_of r.now }
{
    body_box(r).grown(growth(r.kind))
}

/// Whether the record is a trigger, and its absolute box touches this box: where `abs` is a player's absolute box, the
/// player touches the trigger.
pub fn is_touched(abs: &Aabb, r: &Rec) -> bool
    requires { IsRecord r.now }
    ensures { result ≡ bodies.is_touched abs.now r.now }
{
    !r.kind.is_solid() && abs_box(r).touches(abs)
}

#[cfg(test)]
mod tests {
    use super::*;
    use std::test::Fail;

    fn at(x: i32, y: i32, z: i32) -> Vec3
        ensures { result ≡ record { x = x; y = y; z = z } }
    {
        Vec3 { x, y, z }
    }

    fn record_of(id: u16, kind: Kind, origin: Vec3, mins: Vec3, maxs: Vec3) -> Rec
        ensures { result ≡ record {
          id = id;
          kind = kind;
          origin = origin;
          mins = mins;
          maxs = maxs;
          vel = record { x = pos 0; y = pos 0; z = pos 0 };
          flags = 0;
          ammo = 0;
          carry = 0;
          score = 0;
          seq = 0;
          state = 0;
        } }
    {
        Rec {
            id,
            kind,
            origin,
            mins,
            maxs,
            vel: at(0, 0, 0),
            flags: 0,
            ammo: 0,
            carry: 0,
            score: 0,
            seq: 0,
            state: 0,
        }
    }

    /// The box between two corners.
    fn box_between(lo: Vec3, hi: Vec3) -> Result<Aabb, &'static str> {
        Aabb::new(lo, hi).ok_or("a box")
    }

    #[test]
    fn an_absolute_box_of_a_player_is_wider_than_its_body(rt: HostRuntime) -> Result<(), Fail> {
        let body = box_between(at(-4_096, -8_448, 0), at(4_096, -256, 14_336))?;
        let abs = box_between(at(-4_352, -8_704, -256), at(4_352, 0, 14_592))?;
        let origin = at(0, -4_352, 6_144);
        let player = record_of(3, Kind::Player, origin, PLAYER_MINS, PLAYER_MAXS);
        assert_eq!(rt; player_box(origin), body);
        assert_eq!(rt; body_box(&player), body);
        assert_eq!(rt; abs_box(&player), abs);
        Ok(())
    }

    #[test]
    fn an_absolute_box_of_an_item_is_wider_on_two_axes(rt: HostRuntime) -> Result<(), Fail> {
        let abs = box_between(at(16_160, -7_936, 0), at(32_032, 7_936, 14_336))?;
        let item = record_of(64, Kind::Ammo, at(20_000, -4_096, 0), ITEM_MINS, ITEM_MAXS);
        assert_eq!(rt; abs_box(&item), abs);
        Ok(())
    }

    #[test]
    fn an_absolute_box_of_a_lift_is_wider_than_its_body(rt: HostRuntime) -> Result<(), Fail> {
        let body = box_between(at(-12_800, -12_800, 0), at(0, 12_800, 2_560))?;
        let abs = box_between(at(-13_056, -13_056, -256), at(256, 13_056, 2_816))?;
        let lift = record_of(
            255,
            Kind::Lift,
            at(-12_800, -12_800, 0),
            at(0, 0, 0),
            at(12_800, 25_600, 2_560),
        );
        assert_eq!(rt; body_box(&lift), body);
        assert_eq!(rt; abs_box(&lift), abs);
        Ok(())
    }
}
