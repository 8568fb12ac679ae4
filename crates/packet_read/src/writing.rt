ghost use Rattle.std.specs.Prelude.{◌≡◌, ◌+◌, ◌≤◌, ◌++◌, length};
ghost use Rattle.packet_read.specs.declared.packet.Packet.TheVariants.{Move, Moves};
ghost use Rattle.packet_read.specs.Spelling.{spelling, block_fields, MoveFits, MovesFit, BlockFits, IsAllowed};
ghost use Rattle.packet_read.specs.Spelling.{IsAllowedMoves};
ghost use Rattle.packet_read.specs.Reading.{reading};

use crate::block_list::CmdBlock;
use crate::move_packet::MovePacket;
use crate::moves_packet::MovesPacket;
use crate::packet::Packet;
use crate::packet_bytes::{MOST_PACKET_BYTES, PacketBytes};
use crate::wire::{JOIN, LEAVE, MOVE, VERSION, VERSION_2};

// It alone has the limits of a packet, so tests can build one that is refused.
/// The one spelling of a packet, which is read as that packet again.
pub fn write_packet(p: &Packet) -> PacketBytes
    requires { IsAllowed p.now }
    ensures spelled { result ≡ spelling p.now }
    ensures read_again { reading result ≡ Ok p.now }
{
    let mut bytes = PacketBytes::new();
    match p {
        Packet::Join => bytes.extend(&[VERSION, JOIN]),
        Packet::Move(packet) => append_move(&mut bytes, *packet),
        Packet::Leave => bytes.extend(&[VERSION, LEAVE]),
        Packet::Moves(packet) => append_moves(&mut bytes, packet),
    }
    bytes
}

// Puts the bytes of a move last.
fn append_move(bytes: &mut PacketBytes, packet: MovePacket)
    requires { length bytes.old + 12 ≤ MOST_PACKET_BYTES }
    ensures appended { bytes.new ≡ bytes.old ++ spelling (Move packet) }
    ensures fits { MoveFits packet }
{
    bytes.extend(&[VERSION, MOVE]);
    bytes.extend(&packet.seq.to_le_bytes());
    bytes.extend(&[packet.ms]);
    bytes.extend(&packet.wish_x.to_le_bytes());
    bytes.extend(&packet.wish_y.to_le_bytes());
    bytes.extend(&[packet.buttons]);
}

// Puts the bytes of a packet of version 2 last.
fn append_moves(bytes: &mut PacketBytes, packet: &MovesPacket)
    requires allowed { IsAllowedMoves packet.now }
    requires room { length bytes.old + 25 ≤ MOST_PACKET_BYTES }
    ensures appended { bytes.new ≡ bytes.old ++ spelling (Moves packet.now) }
    ensures fits { MovesFit packet.now }
{
    let cmds = packet.cmds.as_slice();
    bytes.extend(&[VERSION_2, MOVE]);
    bytes.extend(&packet.seq.to_le_bytes());
    bytes.extend(&[cmds.len() as u8]);
    for block in cmds {
        append_block(bytes, *block);
    }
}

// Puts the bytes of a command of version 2 last.
fn append_block(bytes: &mut PacketBytes, block: CmdBlock)
    requires { length bytes.old + 6 ≤ MOST_PACKET_BYTES }
    ensures appended { bytes.new ≡ bytes.old ++ block_fields block }
    ensures fits { BlockFits block }
{
    bytes.extend(&[block.ms]);
    bytes.extend(&block.wish_x.to_le_bytes());
    bytes.extend(&block.wish_y.to_le_bytes());
    bytes.extend(&[block.buttons]);
}
