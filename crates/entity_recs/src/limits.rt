/// The number of ids: those below [`SLOTS`] are the slots of the players, and the others are those of the things of the
/// map.
pub const IDS: usize = 512;

/// The number of slots, and so of the players that there can be at once.
pub const SLOTS: usize = 64;
