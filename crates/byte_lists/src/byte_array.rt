ghost use Rattle.std.specs.Prelude.{◌≡◌, ◌+◌, ◌<◌, ◌≤◌, ◌↔◌, [], ◌∷◌, ◌++◌, length, IsTrue};
ghost use Rattle.std.specs.Bool.{OnTrue, OnFalse};

use arrayvec::ArrayVec;
use std::marker::Model;

// In the value, for what is moved with its owner and takes no memory, as a packet; `ByteBuf` is on the heap, for a
// line of 16,500 bytes.
/// A list of at most `MOST` bytes, which lie in the value itself and take no memory.
#[derive(Debug, Drop)]
pub struct ByteArray<const MOST: usize> {
    bytes: ArrayVec<u8, MOST>,
}

impl<const MOST: usize> Model for ByteArray<MOST> {
    ghost use Rattle.std.specs.Prelude.{ℕ, List};

    ghost Value = { List ℕ };

    ghost view = { λ b. b.bytes.items };
}

impl<const MOST: usize> ByteArray<MOST> {
    /// No bytes.
    pub fn new() -> ByteArray<MOST>
        ensures { result ≡ [] }
    {
        ByteArray {
            bytes: ArrayVec::new(),
        }
    }

    /// The bytes in order.
    pub fn as_slice(&self) -> &[u8]
        ensures value { result.now ≡ self.now }
        ensures within { length self.now ≤ MOST }
    {
        self.bytes.as_slice()
    }

    /// Puts `byte` last. It is false exactly where there are `MOST` bytes, and the list is then unchanged.
    pub fn push(&mut self, byte: u8) -> bool
        ensures room { IsTrue result ↔ (length self.old < MOST) }
        ensures pushed { OnTrue result (self.new ≡ self.old ++ byte ∷ []) }
        ensures full { OnFalse result (self.new ≡ self.old) }
    {
        self.bytes.try_push(byte).is_ok()
    }

    /// Puts `bytes` last, for which there is room.
    pub fn extend(&mut self, bytes: &[u8])
        requires { length self.old + length bytes.now ≤ MOST }
        ensures { self.new ≡ self.old ++ bytes.now }
    {
        self.bytes.try_extend_from_slice(bytes).unwrap();
    }
}
