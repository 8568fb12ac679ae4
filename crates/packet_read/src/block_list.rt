use arrayvec::ArrayVec;
use std::marker::Model;

/// How many commands a packet of version 2 has at most.
pub const MOST_BLOCKS: usize = 3;

/// A command of a packet of version 2. Its number is that of its place in the packet.
#[derive(Clone, Copy, Debug, Default, PartialEq, Eq)]
pub struct CmdBlock {
    /// How long the move lasts, in milliseconds: 1 to 50 on the wire.
    pub ms: u8,
    /// The wished speed along x, in Quake units per second.
    pub wish_x: i16,
    /// The wished speed along y, in Quake units per second.
    pub wish_y: i16,
    /// The buttons held down: bit 0 is the jump, bit 1 the shot, and no other bit is set on the wire.
    pub buttons: u8,
}

/// A list of at most [`MOST_BLOCKS`] commands, the oldest first, which lie in the value itself and take no memory.
#[derive(Debug, PartialEq, Eq, Drop)]
pub struct BlockList {
    blocks: ArrayVec<CmdBlock, MOST_BLOCKS>,
}

impl Model for BlockList {
    ghost use Rattle.std.specs.Prelude.{List};
    ghost use Rattle.packet_read.specs.declared.block_list.CmdBlock.{CmdBlock};

    ghost Value = { List CmdBlock };

    ghost view = { λ l. l.blocks.items };

    ghost inverse = { λ blocks. record { blocks = record { items = blocks } } };
}

impl BlockList {
    ghost use Rattle.std.specs.Prelude.{◌≡◌, ◌<◌, ◌≤◌, ◌↔◌, [], ◌∷◌, ◌++◌, length, IsTrue};
    ghost use Rattle.std.specs.Bool.{OnTrue, OnFalse};

    /// No command.
    pub fn new() -> Self
        ensures { result ≡ [] }
    {
        BlockList {
            blocks: ArrayVec::new(),
        }
    }

    /// The commands in order, the oldest first.
    pub fn as_slice(&self) -> &[CmdBlock]
        ensures value { result.now ≡ self.now }
        ensures bound { length result.now ≤ 3 }
    {
        self.blocks.as_slice()
    }

    /// Puts a command last, as the newest. `false` exactly where there are [`MOST_BLOCKS`] already; the list is then
    /// unchanged.
    pub fn push(&mut self, block: CmdBlock) -> bool
        ensures room { IsTrue result ↔ (length self.old < 3) }
        ensures pushed { OnTrue result (self.new ≡ self.old ++ block ∷ []) }
        ensures unchanged { OnFalse result (self.new ≡ self.old) }
    {
        self.blocks.try_push(block).is_ok()
    }
}
