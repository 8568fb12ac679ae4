use crate::move_packet::MovePacket;
use crate::moves_packet::MovesPacket;

// Not `Copy`, so that a kind of packet may have a list.
/// What a client says in one packet.
#[derive(Debug, PartialEq, Eq, Drop)]
pub enum Packet {
    /// It wants to play.
    Join,
    /// It wants its player to move.
    Move(MovePacket),
    /// It stops playing.
    Leave,
    /// It wants its player to move, and repeats commands that may have been lost.
    Moves(MovesPacket),
}
