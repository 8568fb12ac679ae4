use packet_read::PacketFault;
use thiserror::Error;

/// Why a packet is refused: the first that holds, in this order for each kind of packet.
#[derive(Clone, Copy, Debug, PartialEq, Eq, Error)]
pub enum Refusal {
    /// The bytes are no packet.
    #[error("the bytes are no packet")]
    Packet(PacketFault),
    /// A join: the port is joined already, also where it leaves in this frame.
    #[error("the port is joined already")]
    Already,
    /// A join: all slots are live.
    #[error("all slots are live")]
    Full,
    /// A join: at each spawn a player's body would overlap a wall, a block or the body of a live solid.
    #[error("there is no room at any spawn")]
    Crowded,
    /// A leave or a move: the port isn't joined.
    #[error("the port isn't joined")]
    NotJoined,
    /// A leave or a move: a leave of this port was accepted in this frame.
    #[error("the port leaves in this frame")]
    Leaving,
    /// A move packet: no command of it has a number above that of the last accepted one.
    #[error("the move is old")]
    Old,
    /// A move packet: with its new commands this player would have more moves than a frame may have. None is accepted.
    #[error("there are too many moves in this frame")]
    Many,
}
