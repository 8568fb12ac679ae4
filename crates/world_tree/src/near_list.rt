use entity_recs::Rec;
use std::alloc::{AllocError, Global};
use std::marker::Model;

// A vector with room for a number that is given when it is made, so a pass doesn't grow with the number of ids;
// arrays with a length made a pass 51 KB.
/// A list of records, with room for a number of them that was given when it was made. No call after [`NearList::new`]
/// takes memory.
#[derive(Drop)]
pub struct NearList {
    records: Vec<Rec>,
    room: usize,
}

impl Model for NearList {
    ghost use Rattle.std.specs.Prelude.{◌≤◌, length, vec_capacity};
    ghost use Rattle.world_tree.specs.Nears.{NearView};

    ghost Value = { NearView };

    ghost view = { λ l. record { items = l.records.items; room = l.room } };

    ghost invariant = { λ l. (l.room ≤ vec_capacity l.records) × (length l.records.items ≤ l.room) };
}

impl NearList {
    ghost use Rattle.std.specs.Prelude.{◌≡◌, ◌↔◌, ◌<◌, ◌≤◌, [], ◌∷◌, ◌++◌, length, vec_capacity, IsTrue, IfOk};
    ghost use Rattle.std.specs.Bool.{MatchBool};

    /// An empty list with room for `room` records. The only error is that memory is refused.
    pub fn new(alloc: Global, room: usize) -> Result<NearList, AllocError>
        ensures { IfOk result (λ list. list ≡ record { items = []; room = room }) }
    {
        Ok(NearList {
            records: Vec::with_capacity(alloc, room)?,
            room,
        })
    }

    /// Empties the list, and keeps its room.
    pub fn clear(&mut self)
        ensures { self.new ≡ record self.old { items = [] } }
    {
        self.records.clear();
    }

    /// Puts a record last. `false` exactly where the list holds as many as it has room for; it is then unchanged.
    pub fn push(&mut self, r: Rec) -> bool
        ensures room { IsTrue result ↔ (length self.old.items < self.old.room) }
        ensures records { MatchBool result
            (self.new ≡ record self.old { items = self.old.items ++ r ∷ [] }) (self.new ≡ self.old) }
    {
        if self.records.len() == self.room {
            return false;
        }
        self.records.push_reserved(r);
        true
    }

    /// The records, in the order in which they were put in.
    pub fn as_slice(&self) -> &[Rec]
        ensures value { result.now ≡ self.now.items }
        ensures room { length self.now.items ≤ self.now.room }
    {
        self.records.as_slice()
    }
}
