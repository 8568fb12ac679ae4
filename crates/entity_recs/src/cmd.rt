ghost use Rattle.std.specs.Prelude.{◌<◌, ◌≤◌};

/// A player's command for one move, in the frame in which it is done.
#[derive(Clone, Copy, Debug, PartialEq, Eq)]
pub struct Cmd {
    /// The player's slot, below 64.
    pub slot: u8,
    /// The player's own number of the command.
    pub seq: u32,
    /// The frame in which it is done, counted from 0.
    pub frame: u32,
    /// How long the move takes, 1 to 50 milliseconds.
    pub ms: u8,
    /// The speed that the player wishes on x, in Quake units a second.
    pub wish_x: i16,
    /// The speed that the player wishes on y, in Quake units a second.
    pub wish_y: i16,
    /// Bit 0: jump. Bit 1: fire.
    pub buttons: u8,
    pub ghost slot_is_known: { slot < 64 },
    pub ghost takes_time: { 1 ≤ ms },
    pub ghost is_short: { ms ≤ 50 },
}
