//! The numbers of the format.

/// The version of a packet with one command.
pub const VERSION: u8 = 1;
/// The version of a packet that repeats earlier commands.
pub const VERSION_2: u8 = 2;
/// The second byte of a join.
pub const JOIN: u8 = 1;
/// The second byte of a move.
pub const MOVE: u8 = 2;
/// The second byte of a leave.
pub const LEAVE: u8 = 3;
/// The longest time of a move, in milliseconds.
pub const MOST_MS: u8 = 50;
/// The buttons that are known in version 1: bit 0, the jump.
pub const KNOWN_BUTTONS: u8 = 1;
/// The buttons that are known in version 2: bit 0, the jump, and bit 1, the shot.
pub const KNOWN_BUTTONS_2: u8 = 3;
/// How many bytes the fields of a move take.
pub const MOVE_FIELDS: usize = 10;
/// How many bytes a command of version 2 takes.
pub const BLOCK_BYTES: usize = 6;
