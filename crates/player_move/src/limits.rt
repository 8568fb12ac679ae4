/// Each coordinate of a body that moves is at most this far from 0, in sub-units: it leaves room for the longest move.
pub const BODY_LIMIT: u32 = 2_000_000;

/// The farthest that a move goes on an axis, in sub-units: 512,000 a second, for 50 milliseconds.
pub const FARTHEST_SHIFT: u32 = 25_600;

/// The farthest from 0 that a coordinate of an origin is after a move, in sub-units: 1,048,576, which is a record's,
/// and the farthest that a move goes.
pub const FARTHEST_ORIGIN: u32 = 1_074_176;
