/// The most frames of a match.
pub const MOST_MATCH_FRAMES: u32 = 2_000;
