use entity_recs::{IDS, Rec};
use std::alloc::{AllocError, Global};
use std::marker::Model;
use world_tree::NearList;

/// The records that a move runs over, with room for all that can live. No call after [`OtherList::new`] takes memory.
#[derive(Drop)]
pub struct OtherList {
    list: NearList,
}

// Clauses see the records, in the order in which they were put in.
impl Model for OtherList {
    ghost use Rattle.std.specs.Prelude.{List, ◌≤◌};
    ghost use Rattle.entity_recs.specs.declared.rec.Rec.{Rec};
    ghost use Rattle.entity_recs.specs.declared.limits.TheConstants.{IDS};

    ghost Value = { List Rec };

    ghost view = { λ o. o.list.items };

    ghost invariant = { λ o. IDS ≤ o.list.room };
}

impl OtherList {
    ghost use Rattle.std.specs.Prelude.{◌≡◌, ◌<◌, [], ◌∷◌, ◌++◌, length, IfOk};
    ghost use Rattle.entity_recs.specs.declared.limits.TheConstants.{IDS};

    /// An empty list. The only error is that memory is refused.
    pub fn new(alloc: Global) -> Result<OtherList, AllocError>
        ensures { IfOk result (λ others. others ≡ []) }
    {
        Ok(OtherList {
            list: NearList::new(alloc, IDS)?,
        })
    }

    /// Empties the list.
    pub fn clear(&mut self)
        ensures { self.new ≡ [] }
    {
        self.list.clear();
    }

    /// Puts a record last.
    pub fn push(&mut self, r: Rec)
        requires { length self.old < IDS }
        ensures { self.new ≡ self.old ++ r ∷ [] }
    {
        // There are fewer in the list than it has room for.
        let _fits = self.list.push(r);
    }

    /// The records, in the order in which they were put in.
    pub fn as_slice(&self) -> &[Rec]
        ensures { result.now ≡ self.now }
    {
        self.list.as_slice()
    }
}
