use arena_geo::Vec3;
use entity_recs::{IDS, Kind};
use std::marker::Model;

/// How many entities a snapshot shows at most: all ids but the player's own.
pub const MOST_SEEN: usize = IDS - 1;

/// An entity that a player sees.
#[derive(Clone, Copy, Debug, PartialEq, Eq)]
pub struct Seen {
    /// Its id, below [`IDS`].
    pub id: u16,
    /// What it is.
    pub kind: Kind,
    /// Whether it is there: an item that was taken isn't, and all else is.
    pub here: bool,
    /// Where it is, in sub-units.
    pub origin: Vec3,
}

/// What is in the places that aren't used.
const NOTHING: Seen = Seen {
    id: 0,
    kind: Kind::Player,
    here: false,
    origin: Vec3::ZERO,
};

/// The entities that a snapshot shows, at most [`MOST_SEEN`] of them. It takes no memory: it holds the room for all of
/// them, about 8 KB.
#[derive(Drop)]
pub struct SeenList {
    entities: [Seen; MOST_SEEN],
    len: usize,
}

impl Model for SeenList {
    ghost use Rattle.std.specs.Prelude.{List, take, length, ◌≤◌, ◌≡◌};
    ghost use Rattle.snapshot_write.specs.declared.seen.Seen.{Seen};
    ghost use Rattle.snapshot_write.specs.declared.seen.TheConstants.{MOST_SEEN};

    ghost Value = { List Seen };

    ghost view = { λ l. take l.len l.entities };

    ghost invariant = { λ l. (l.len ≤ MOST_SEEN) × (length l.entities ≡ MOST_SEEN) };
}

impl SeenList {
    ghost use Rattle.std.specs.Prelude.{◌≡◌, ◌↔◌, ◌<◌, ◌≤◌, [], ◌∷◌, ◌++◌, length, IsTrue};
    ghost use Rattle.std.specs.Bool.{OnTrue, OnFalse};

    /// No entities.
    pub fn new() -> SeenList
        ensures { result ≡ [] }
    {
        SeenList {
            entities: [NOTHING; MOST_SEEN],
            len: 0,
        }
    }

    /// Puts an entity last. `false` exactly where there are [`MOST_SEEN`] already; the list is then unchanged.
    pub fn push(&mut self, entity: Seen) -> bool
        ensures room { IsTrue result ↔ (length self.old < MOST_SEEN) }
        ensures pushed { OnTrue result (self.new ≡ self.old ++ entity ∷ []) }
        ensures unchanged { OnFalse result (self.new ≡ self.old) }
    {
        if self.len == MOST_SEEN {
            return false;
        }
        self.entities[self.len] = entity;
        self.len += 1;
        true
    }

    /// The entities in order.
    pub fn as_slice(&self) -> &[Seen]
        ensures value { result.now ≡ self.now }
        ensures bound { length self.now ≤ MOST_SEEN }
    {
        &self.entities[..self.len]
    }
}
