use crate::seen::MOST_SEEN;
use std::marker::Model;

/// The ids that a player sees, at most [`MOST_SEEN`] of them, which lie in the value itself.
#[derive(Drop)]
pub struct SeenIds {
    ids: [u16; MOST_SEEN],
    len: usize,
}

impl Model for SeenIds {
    ghost use Rattle.std.specs.Prelude.{ℕ, List, take, ◌≤◌};
    ghost use Rattle.snapshot_write.specs.declared.seen.TheConstants.{MOST_SEEN};

    ghost Value = { List ℕ };

    ghost view = { λ s. take s.len s.ids };

    ghost invariant = { λ s. s.len ≤ MOST_SEEN };
}

impl SeenIds {
    ghost use Rattle.std.specs.Prelude.{◌≡◌, ◌<◌, ◌≤◌, [], ◌∷◌, ◌++◌, length};

    /// No id.
    pub fn new() -> SeenIds
        ensures { result ≡ [] }
    {
        SeenIds {
            ids: [0; MOST_SEEN],
            len: 0,
        }
    }

    /// Puts an id last, which fits.
    pub fn push(&mut self, id: u16)
        requires { length self.old < MOST_SEEN }
        ensures { self.new ≡ self.old ++ id ∷ [] }
    {
        self.ids[self.len] = id;
        self.len += 1;
    }

    /// The ids in order.
    pub fn as_slice(&self) -> &[u16]
        ensures value { result.now ≡ self.now }
        ensures bound { length self.now ≤ MOST_SEEN }
    {
        &self.ids[..self.len]
    }
}
