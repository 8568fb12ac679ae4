//! Client packets, read from bytes and written to bytes.
#![tactic(auto)]

mod arrival;
mod block_list;
mod laws;
mod move_packet;
mod moves_packet;
mod packet;
mod packet_bytes;
mod packet_fault;
mod reading;
mod reading_moves;
mod wire;
mod writing;

pub use arrival::{Arrival, ArrivalBytes, MOST_ARRIVALS, MOST_BYTES};
pub use block_list::{BlockList, CmdBlock, MOST_BLOCKS};
pub use laws::{
    commands_are_numbered, limits_are_known, no_fault_where_spelled, one_spelling,
    read_where_spelled,
};
pub use move_packet::MovePacket;
pub use moves_packet::MovesPacket;
pub use packet::Packet;
pub use packet_bytes::{MOST_PACKET_BYTES, PacketBytes};
pub use packet_fault::PacketFault;
pub use reading::read_packet;
pub use writing::write_packet;
