/// The least length of a side of the arena, in sub-units.
pub const LEAST_SIDE: i32 = 32_768;

/// The most blocks that a line of a map may allow.
pub const MOST_BLOCKS: usize = 4_096;

/// The most blocks of a map whose lines don't say how many, and the fewest that a line may allow.
pub const DEFAULT_BLOCKS: u16 = 1_024;

/// The most spawns of a map.
pub const MOST_SPAWNS: usize = 64;

/// The most items of a map.
pub const MOST_ITEMS: usize = 400;

/// The most teleporters of a map, the most goals, and the most lifts.
pub const MOST_BOXES: usize = 16;

/// The most things of a map: items, teleporters, goals and lifts.
pub const MOST_THINGS: usize = MOST_ITEMS + 3 * MOST_BOXES;

/// The depth of the tree of areanodes of a map whose lines name none.
pub const DEFAULT_DEPTH: u8 = 4;

/// The most frames of a recording, and so the most that a server runs.
pub const MOST_FRAMES: u32 = 100_000;
