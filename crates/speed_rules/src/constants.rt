/// The sub-units in a Quake unit.
pub const UNIT: i32 = 256;

/// The milliseconds in a second.
pub const SECOND: u32 = 1_000;

/// What friction takes of a speed in a second, as a multiple of that speed: Quake's `sv_friction`.
pub const FRICTION: u32 = 4;

/// The speed below which friction takes no less than at this speed, in sub-units a second: 100 units, Quake's
/// `sv_stopspeed`.
pub const STOP_SPEED: u32 = 25_600;

/// What acceleration adds to a speed in a second, as a multiple of the speed that is wished: Quake's `sv_accelerate`.
pub const ACCELERATE: u32 = 10;

/// The greatest speed that counts as wished, in sub-units a second: 320 units, Quake's `sv_maxspeed`.
pub const MAX_SPEED: u32 = 81_920;

/// The speed along the wish up to which a player is accelerated in the air, in sub-units a second: 30 units, as in
/// Quake's `SV_AirAccelerate`.
pub const MAX_AIR_SPEED: u32 = 7_680;

/// What a fall adds to the speed downwards in a second, in sub-units a second: 800 units, Quake's `sv_gravity`.
pub const GRAVITY: u32 = 204_800;

/// The greatest speed on an axis, in sub-units a second: 2,000 units, Quake's `sv_maxvelocity`.
pub const MAX_VELOCITY: i32 = 512_000;

/// What a jump adds to the speed upwards, in sub-units a second: 270 units, as in Quake's `PlayerJump`.
pub const JUMP_SPEED: i32 = 69_120;

/// The greatest distance from 0 of a part of a velocity before the clamp, in sub-units a second: what a move adds to a
/// velocity within [`MAX_VELOCITY`] stays within it.
pub const MAX_UNCLAMPED: u32 = 600_000;
