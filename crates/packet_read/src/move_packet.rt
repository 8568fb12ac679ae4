/// A client's wish for one move of its player, as in a QuakeWorld client's `usercmd_t`: a packet of version 1, or a
/// command of a packet of version 2 with its number.
#[derive(Clone, Copy, Debug, Default, PartialEq, Eq)]
pub struct MovePacket {
    /// The number that the client gave the move.
    pub seq: u32,
    /// How long the move lasts, in milliseconds: 1 to 50 on the wire.
    pub ms: u8,
    /// The wished speed along x, in Quake units per second.
    pub wish_x: i16,
    /// The wished speed along y, in Quake units per second.
    pub wish_y: i16,
    /// The buttons held down: bit 0 is the jump. No other bit is set on the wire in version 1; in version 2 bit 1, the
    /// shot, may be.
    pub buttons: u8,
}
