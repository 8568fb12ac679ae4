use arena_map::{MapLine, print_map_line};
use edge_io::LineBuf;
use itoa::Buffer;
use packet_read::{MOST_PACKET_BYTES, Packet, write_packet};
use std::alloc::{AllocError, Global};
use std::marker::Model;

/// How many hexadecimal digits a packet has at the most.
const MOST_DIGITS: usize = 2 * MOST_PACKET_BYTES;

/// The text of a plan, as far as it was put together, and room for a line of its map. A contract sees the text.
#[derive(Drop)]
pub struct PlanText {
    bytes: Vec<u8>,
    line: LineBuf,
}

impl Model for PlanText {
    ghost use Rattle.std.specs.Prelude.{ℕ, List};

    ghost Value = { List ℕ };

    ghost view = { λ t. t.bytes.items };
}

impl PlanText {
    ghost use Rattle.std.specs.Prelude.{◌≡◌, ◌≤◌, ◌∷◌, ◌++◌, [], length, decimal, IfOk, OnOk};
    ghost use Rattle.hex.specs.Hex.{encode_lower};
    ghost use Rattle.edge_io.specs.Fields.{field_text};
    ghost use Rattle.arena_map.specs.MapLines.{IsWithinLimits};
    ghost use Rattle.arena_map.specs.Spelling.{map_line_text};
    ghost use Rattle.packet_read.specs.Spelling.{IsAllowed};
    ghost use Rattle.bot_ways.specs.Moves.{frame_of};
    ghost use Rattle.bot_ways.specs.PlanTexts.{frame_text};

    /// No text.
    pub fn new(alloc: Global) -> Result<PlanText, AllocError>
        ensures { IfOk result (λ text. text ≡ []) }
    {
        Ok(PlanText {
            bytes: Vec::new(alloc),
            line: LineBuf::new(alloc)?,
        })
    }

    /// The text.
    pub fn as_slice(&self) -> &[u8]
        ensures { result.now ≡ self.now }
    {
        self.bytes.as_slice()
    }

    /// Puts bytes last.
    pub fn push(&mut self, bytes: &[u8]) -> Result<(), AllocError>
        ensures { OnOk result (self.new ≡ self.old ++ bytes.now) }
    {
        self.bytes.extend_from_slice(bytes)
    }

    /// Puts a number last, after a space.
    pub fn push_number(&mut self, n: u32) -> Result<(), AllocError>
        ensures { OnOk result (self.new ≡ self.old ++ field_text (decimal n)) }
    {
        self.push(b" ")?;
        self.push(Buffer::new().format(n).as_bytes())
    }

    /// Puts a line of the map last, with its line feed.
    pub fn push_line(&mut self, l: &MapLine) -> Result<(), AllocError>
        requires { IsWithinLimits l.now }
        ensures { OnOk result (self.new ≡ self.old ++ (map_line_text l.now ++ 10 ∷ [])) }
    {
        self.line.clear();
        print_map_line(l, &mut self.line);
        self.bytes.extend_from_slice(self.line.as_slice())?;
        self.push(b"\n")
    }

    /// Puts the bytes of a packet last, as hexadecimal digits in lower case.
    fn push_digits(&mut self, bytes: &[u8]) -> Result<(), AllocError>
        requires { length bytes.now ≤ MOST_PACKET_BYTES }
        ensures { OnOk result (self.new ≡ self.old ++ encode_lower bytes.now) }
    {
        let mut digits = [0; MOST_DIGITS];
        let len = 2 * bytes.len();
        hex::encode_to_slice(bytes, &mut digits[..len]).unwrap();
        self.push(&digits[..len])
    }

    /// Puts the two lines of a frame last in which the bot sends this packet.
    pub fn push_frame(&mut self, packet: &Packet) -> Result<(), AllocError>
        requires { IsAllowed packet.now }
        ensures { OnOk result (self.new ≡ self.old ++ frame_text (frame_of packet.now)) }
    {
        self.push(b"frame\nfrom 1 ")?;
        self.push_digits(write_packet(packet).as_slice())?;
        self.push(b"\n")
    }
}
