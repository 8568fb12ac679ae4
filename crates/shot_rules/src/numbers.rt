/// The bit of the buttons that says that the player fires.
pub const FIRE: u8 = 1;

/// The bit of a player's flags that says that its last move ended in a teleporter.
pub const LEAPT_BIT: u8 = 1;

/// How far the box of a shot reaches from the origin of who fires it, on both sides of each axis, in sub-units: a unit.
pub const HALF_WIDTH: i32 = 256;

/// How far a shot goes along the wish, in sub-units: 256 units.
pub const RANGE: i32 = 65_536;

/// How much damage a hit does.
pub const DAMAGE: u64 = 25;

/// The damage at which a player falls. From there on its state is this and the frame in which it moves again.
pub const DOWN: u64 = 100;

/// How many frames after a fall a player moves again.
pub const FRAMES_DOWN: u64 = 40;
