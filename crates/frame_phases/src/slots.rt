use entity_recs::SLOTS;
use std::marker::Model;

/// A list of at most [`SLOTS`] slots, which lie in the value itself and take no memory.
#[derive(Drop)]
pub struct SlotList {
    slots: [u8; SLOTS],
    len: usize,
}

impl Model for SlotList {
    ghost use Rattle.std.specs.Prelude.{ℕ, ◌≤◌, List, take};
    ghost use Rattle.entity_recs.specs.declared.limits.TheConstants.{SLOTS};

    ghost Value = { List ℕ };

    ghost view = { λ s. take s.len s.slots };

    ghost invariant = { λ s. s.len ≤ SLOTS };
}

impl SlotList {
    ghost use Rattle.std.specs.Prelude.{◌≡◌, ◌<◌, ◌≤◌, ◌↔◌, [], ◌∷◌, ◌++◌, length, IsTrue};
    ghost use Rattle.std.specs.Bool.{OnTrue, OnFalse};

    /// No slot.
    pub fn new() -> SlotList
        ensures { result ≡ [] }
    {
        SlotList {
            slots: [0; SLOTS],
            len: 0,
        }
    }

    /// The slots in their order.
    pub fn as_slice(&self) -> &[u8]
        ensures value { result.now ≡ self.now }
        ensures bound { length self.now ≤ 64 }
    {
        &self.slots[..self.len]
    }

    /// Puts a slot last. `false` exactly where there are [`SLOTS`], and then nothing changes.
    pub fn push(&mut self, slot: u8) -> bool
        ensures room { IsTrue result ↔ (length self.old < 64) }
        ensures pushed { OnTrue result (self.new ≡ self.old ++ slot ∷ []) }
        ensures unchanged { OnFalse result (self.new ≡ self.old) }
    {
        if self.len == SLOTS {
            return false;
        }
        self.slots[self.len] = slot;
        self.len += 1;
        true
    }

    /// Empties the list.
    pub(crate) fn clear(&mut self)
        ensures { self.new ≡ [] }
    {
        self.len = 0;
    }
}
