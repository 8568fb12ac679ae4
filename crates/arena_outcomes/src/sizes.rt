/// How much room there is around where a player may be, on both sides of each axis, in sub-units: no item's absolute box,
/// and no player's, is longer than this on an axis.
pub const ROOM: u32 = 16_384;

/// How much room there is around where a player may be that may shoot: as far as a shot goes, and [`ROOM`] more.
pub const SHOT_ROOM: u32 = 81_920;
