ghost use Rattle.std.specs.Prelude.{◌≡◌};
ghost use Rattle.packet_read.specs.Spelling.{IsAllowedMoves};
ghost use Rattle.packet_read.specs.Commands as commands;

use crate::block_list::{BlockList, CmdBlock};
use crate::move_packet::MovePacket;

/// A client's newest command, with up to two before it that may have been lost, as in a QuakeWorld client's packet.
#[derive(Debug, PartialEq, Eq, Drop)]
pub struct MovesPacket {
    /// The number of the newest command. The others have the numbers just before it.
    pub seq: u32,
    /// The commands, the oldest first: 1 to 3 on the wire, and no more than there are numbers from 0 to `seq`.
    pub cmds: BlockList,
}

impl MovesPacket {
    /// The number of the oldest command.
    pub fn first_seq(&self) -> u32
        requires { IsAllowedMoves self.now }
        ensures { result ≡ commands.first_seq self.now }
    {
        self.seq - (self.cmds.as_slice().len() as u32 - 1)
    }
}

impl CmdBlock {
    /// The command as a move with this number.
    pub fn move_with_number(self, seq: u32) -> MovePacket
        ensures { result ≡ commands.move_with_number seq self }
    {
        MovePacket {
            seq,
            ms: self.ms,
            wish_x: self.wish_x,
            wish_y: self.wish_y,
            buttons: self.buttons,
        }
    }
}
