use arena_geo::Vec3;
use entity_recs::{ITEM_MAXS, ITEM_MINS, Kind, Rec};

/// Where a player is moved whose command has bit 0 of its buttons set, in sub-units.
pub const ARRIVAL: Vec3 = Vec3 {
    x: -98_304,
    y: -98_304,
    z: 6_144,
};

/// The one item of the world, free.
pub const ITEM: Rec = Rec {
    id: 64,
    kind: Kind::Gem,
    origin: Vec3 {
        x: 98_304,
        y: -98_304,
        z: 0,
    },
    mins: ITEM_MINS,
    maxs: ITEM_MAXS,
    vel: Vec3::ZERO,
    flags: 0,
    ammo: 0,
    carry: 0,
    score: 0,
    seq: 0,
    state: 0,
};
