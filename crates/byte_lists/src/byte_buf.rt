ghost use Rattle.std.specs.Prelude.{◌≡◌, ◌+◌, ◌<◌, ◌≤◌, ◌↔◌, [], ◌∷◌, ◌++◌, IsTrue, IfOk, length};
ghost use Rattle.std.specs.Bool.{OnFalse, OnTrue};

use std::alloc::{AllocError, Global};
use std::marker::Model;

/// A list of at most `MOST` bytes on the heap, whose room is reserved from the start: only [`ByteBuf::new`] takes
/// memory.
#[derive(Drop)]
pub struct ByteBuf<const MOST: usize> {
    bytes: Vec<u8>,
}

impl<const MOST: usize> Model for ByteBuf<MOST> {
    ghost use Rattle.std.specs.Prelude.{ℕ, ◌≤◌, List, vec_len, vec_capacity};

    ghost Value = { List ℕ };

    ghost view = { λ b. b.bytes.items };

    ghost invariant = { λ b. (vec_len b.bytes ≤ MOST) × (MOST ≤ vec_capacity b.bytes) };
}

impl<const MOST: usize> ByteBuf<MOST> {
    /// An empty list. The only error is that memory is refused.
    pub fn new(alloc: Global) -> Result<ByteBuf<MOST>, AllocError>
        ensures { IfOk result (λ b. b ≡ []) }
    {
        Ok(ByteBuf {
            bytes: Vec::with_capacity(alloc, MOST)?,
        })
    }

    /// Puts `byte` last. It is false exactly where there are `MOST` bytes, and the list is then unchanged.
    pub fn push(&mut self, byte: u8) -> bool
        ensures room { IsTrue result ↔ (length self.old < MOST) }
        ensures pushed { OnTrue result (self.new ≡ self.old ++ byte ∷ []) }
        ensures full { OnFalse result (self.new ≡ self.old) }
    {
        if self.bytes.len() == MOST {
            return false;
        }
        self.bytes.push_reserved(byte);
        true
    }

    /// Puts `bytes` last, which fit.
    pub fn extend(&mut self, bytes: &[u8])
        requires { length self.old + length bytes.now ≤ MOST }
        ensures { self.new ≡ self.old ++ bytes.now }
    {
        // The room was reserved, so this cannot fail.
        let _ = self.bytes.extend_from_slice(bytes);
    }

    /// Empties the list and keeps its room.
    pub fn clear(&mut self)
        ensures { self.new ≡ [] }
    {
        self.bytes.clear();
    }

    /// The bytes.
    pub fn as_slice(&self) -> &[u8]
        ensures value { result.now ≡ self.now }
        ensures within { length self.now ≤ MOST }
    {
        self.bytes.as_slice()
    }

    /// How many bytes there are.
    pub fn len(&self) -> usize
        ensures len { result ≡ length self.now }
        ensures within { length self.now ≤ MOST }
    {
        self.bytes.len()
    }

    /// Whether there are none.
    pub fn is_empty(&self) -> bool
        ensures { IsTrue result ↔ (self.now ≡ []) }
    {
        self.bytes.is_empty()
    }
}
