//! Packets of version 2.
ghost use Rattle.std.specs.Prelude.{◌≡◌, ◌*◌, ◌≤◌, ◌∷◌, length};
ghost use Rattle.std.specs.List.{list_any};
ghost use Rattle.packet_read.specs.Faults as faults;
ghost use Rattle.packet_read.specs.Faults.{blocks_from, block_fault_of, is_wrong_time, is_above_the_shot};
ghost use Rattle.packet_read.specs.Reading.{reading};

use crate::block_list::{BlockList, CmdBlock, MOST_BLOCKS};
use crate::moves_packet::MovesPacket;
use crate::packet::Packet;
use crate::packet_fault::PacketFault;
use crate::wire::{BLOCK_BYTES, KNOWN_BUTTONS_2, MOST_MS, MOVE};

/// Reads what follows version 2.
pub fn read_kind_2(bytes: &[u8]) -> Result<Packet, PacketFault>
    ensures { result ≡ reading (2 ∷ bytes.now) }
{
    match bytes {
        [] => Err(PacketFault::Short),
        [MOVE, fields @ ..] => read_moves(fields),
        [_, ..] => Err(PacketFault::Kind),
    }
}

// Reads the fields of a packet of version 2, which follow version and kind.
fn read_moves(fields: &[u8]) -> Result<Packet, PacketFault>
    ensures { result ≡ reading (2 ∷ 2 ∷ fields.now) }
{
    let &[s0, s1, s2, s3, count, ref bytes @ ..] = fields else {
        return Err(PacketFault::Short);
    };
    let seq = u32::from_le_bytes([s0, s1, s2, s3]);
    let blocks = usize::from(count).min(MOST_BLOCKS);
    if bytes.len() < blocks * BLOCK_BYTES {
        return Err(PacketFault::Short);
    }
    if bytes.len() > blocks * BLOCK_BYTES {
        return Err(PacketFault::Long);
    }
    let cmds = read_blocks(bytes, blocks);
    match block_fault(cmds.as_slice(), count, seq) {
        Some(fault) => Err(fault),
        None => Ok(Packet::Moves(MovesPacket { seq, cmds })),
    }
}

// Reads so many commands, which take all of the bytes.
fn read_blocks(bytes: &[u8], blocks: usize) -> BlockList
    requires few { blocks ≤ 3 }
    requires whole { length bytes.now ≡ 6 * blocks }
    ensures { result ≡ blocks_from blocks bytes.now }
{
    let mut cmds = BlockList::new();
    let mut left = bytes;
    while let &[ms, x0, x1, y0, y1, buttons, ref rest @ ..] = left {
        let _ = cmds.push(CmdBlock {
            ms,
            wish_x: i16::from_le_bytes([x0, x1]),
            wish_y: i16::from_le_bytes([y0, y1]),
            buttons,
        });
        left = rest;
    }
    cmds
}

// Whether a command lasts less than 1 or more than 50 milliseconds.
fn has_wrong_time(cmds: &[CmdBlock]) -> bool
    ensures { result ≡ list_any (λ b. is_wrong_time b.ms) cmds.now }
{
    cmds.iter().any(|b| b.ms < 1 || b.ms > MOST_MS)
}

// Whether a command has a button above bit 1.
fn has_unknown_button(cmds: &[CmdBlock]) -> bool
    ensures { result ≡ list_any (λ b. is_above_the_shot b.buttons) cmds.now }
{
    cmds.iter().any(|b| b.buttons > KNOWN_BUTTONS_2)
}

// Whether there is no command, or more than 3, or more than there are numbers from 0 to the newest.
fn is_wrong_count(count: u8, seq: u32) -> bool
    ensures { result ≡ faults.is_wrong_count count seq }
{
    count < 1 || usize::from(count) > MOST_BLOCKS || u32::from(count - 1) > seq
}

// The first of the rules of times, of buttons and of the number of commands that is broken.
fn block_fault(cmds: &[CmdBlock], count: u8, seq: u32) -> Option<PacketFault>
    ensures { result ≡ block_fault_of cmds.now count seq }
{
    if has_wrong_time(cmds) {
        return Some(PacketFault::Time);
    }
    if has_unknown_button(cmds) {
        return Some(PacketFault::Buttons);
    }
    if is_wrong_count(count, seq) {
        return Some(PacketFault::Count);
    }
    None
}
