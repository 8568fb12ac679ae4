ghost use Rattle.std.specs.Prelude.{◌≡◌, ◌∷◌, ◌↔◌, Some, IfOk};
ghost use Rattle.packet_read.specs.declared.packet.Packet.{Packet};
ghost use Rattle.packet_read.specs.declared.packet_fault.PacketFault.{PacketFault};
ghost use Rattle.packet_read.specs.Spelling.{Spells};
ghost use Rattle.packet_read.specs.Faults.{fault_of};
ghost use Rattle.packet_read.specs.Reading.{reading};

use crate::move_packet::MovePacket;
use crate::packet::Packet;
use crate::packet_fault::PacketFault;
use crate::reading_moves::read_kind_2;
use crate::wire::{JOIN, KNOWN_BUTTONS, LEAVE, MOST_MS, MOVE, MOVE_FIELDS, VERSION, VERSION_2};

/// The packet that the bytes spell, or the first fault in the order of `PacketFault`.
pub fn read_packet(bytes: &[u8]) -> Result<Packet, PacketFault>
    // What is read is what the bytes spell, and what they spell is read.
    ensures found { IfOk result (λ p. Spells bytes.now p) }
    ensures only { (p : Packet) → Spells bytes.now p → result ≡ Ok p }
    // Each fault comes exactly where its rule is the first that is broken.
    ensures fault { (fault : PacketFault) → (result ≡ Err fault) ↔ (fault_of bytes.now ≡ Some fault) }
    // The same as a function of the bytes.
    ensures answer { result ≡ reading bytes.now }
{
    match bytes {
        [] => Err(PacketFault::Empty),
        [VERSION, rest @ ..] => read_kind(rest),
        [VERSION_2, rest @ ..] => read_kind_2(rest),
        [_, ..] => Err(PacketFault::Version),
    }
}

// Reads what follows version 1.
fn read_kind(bytes: &[u8]) -> Result<Packet, PacketFault>
    ensures { result ≡ reading (1 ∷ bytes.now) }
{
    match bytes {
        [] => Err(PacketFault::Short),
        [MOVE, fields @ ..] => read_move(fields),
        [JOIN] => Ok(Packet::Join),
        [LEAVE] => Ok(Packet::Leave),
        [JOIN, ..] => Err(PacketFault::Long),
        [LEAVE, ..] => Err(PacketFault::Long),
        [_, ..] => Err(PacketFault::Kind),
    }
}

// Reads the fields of a move, which follow version and kind.
fn read_move(fields: &[u8]) -> Result<Packet, PacketFault>
    ensures { result ≡ reading (1 ∷ 2 ∷ fields.now) }
{
    if fields.len() < MOVE_FIELDS {
        return Err(PacketFault::Short);
    }
    let &[s0, s1, s2, s3, ms, x0, x1, y0, y1, buttons] = fields else {
        return Err(PacketFault::Long);
    };
    if ms < 1 || ms > MOST_MS {
        return Err(PacketFault::Time);
    }
    if buttons > KNOWN_BUTTONS {
        return Err(PacketFault::Buttons);
    }
    Ok(Packet::Move(MovePacket {
        seq: u32::from_le_bytes([s0, s1, s2, s3]),
        ms,
        wish_x: i16::from_le_bytes([x0, x1]),
        wish_y: i16::from_le_bytes([y0, y1]),
        buttons,
    }))
}
