use arena_geo::Vec3;
use entity_recs::{Kind, PLAYER_MAXS, PLAYER_MINS, Rec};

/// A player at rest.
pub const FIRST: Rec = Rec {
    id: 0,
    kind: Kind::Player,
    origin: Vec3 {
        x: 98_304,
        y: 98_304,
        z: 6_144,
    },
    mins: PLAYER_MINS,
    maxs: PLAYER_MAXS,
    vel: Vec3::ZERO,
    flags: 0,
    ammo: 0,
    carry: 0,
    score: 0,
    seq: 0,
    state: 0,
};

/// A player in the same leaf as the first.
pub const NEAR: Rec = Rec {
    id: 1,
    origin: Vec3 {
        x: 85_504,
        y: 98_304,
        z: 6_144,
    },
    ..FIRST
};

/// A player whose region shares with the first two only the boxes of the item and of the place of arrival.
pub const FAR: Rec = Rec {
    id: 2,
    origin: Vec3 {
        x: -98_304,
        y: 98_304,
        z: 6_144,
    },
    ..FIRST
};

/// A player far from the first, under the id of the second.
pub const FAR_AT_ONE: Rec = Rec { id: 1, ..FAR };

/// A player at the middle of the tree, whose node is the root.
pub const MIDDLE: Rec = Rec {
    id: 3,
    origin: Vec3 {
        x: 0,
        y: 0,
        z: 6_144,
    },
    ..FIRST
};

/// That player under the id of the second.
pub const MIDDLE_AT_ONE: Rec = Rec { id: 1, ..MIDDLE };

/// A player in the last of the four leaves that meet at the middle.
pub const LOW: Rec = Rec {
    id: 0,
    origin: Vec3 {
        x: -32_768,
        y: -32_768,
        z: 6_144,
    },
    ..FIRST
};
