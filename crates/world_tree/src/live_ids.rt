ghost use Rattle.std.specs.Prelude.{◌≡◌, ◌<◌, ◌≤◌, [], IfOk, length};
ghost use Rattle.std.specs.List.{insert, remove};
ghost use Rattle.world_tree.specs.Live.{place_in};

use entity_recs::IDS;
use std::alloc::{AllocError, Global};
use std::marker::Model;

/// A list of ids in rising order, with room for [`IDS`] of them. Only `new` takes memory.
#[derive(Drop)]
pub struct LiveIds {
    ids: Vec<u16>,
}

impl Model for LiveIds {
    ghost use Rattle.std.specs.Prelude.{ℕ, ◌≤◌, List, vec_capacity};
    ghost use Rattle.entity_recs.specs.declared.limits.TheConstants.{IDS};

    ghost Value = { List ℕ };

    ghost view = { λ live. live.ids.items };

    ghost invariant = { λ live. IDS ≤ vec_capacity live.ids };
}

/// How many ids come before the first that isn't below this one.
fn place_of(ids: &[u16], id: u16) -> usize
    ensures value { result ≡ place_in ids.now id }
    ensures within { result ≤ length ids.now }
{
    for (place, other) in ids.iter().enumerate() {
        if *other >= id {
            return place;
        }
    }
    ids.len()
}

impl LiveIds {
    /// No ids. The only error is that memory is refused.
    pub fn new(alloc: Global) -> Result<LiveIds, AllocError>
        ensures { IfOk result (λ live. live ≡ []) }
    {
        Ok(LiveIds {
            ids: Vec::with_capacity(alloc, IDS)?,
        })
    }

    /// Puts an id in at its place in the order.
    pub fn put(&mut self, id: u16)
        requires { length self.old < IDS }
        ensures { self.new ≡ insert self.old (place_in self.old id) id }
    {
        let place = place_of(&self.ids, id);
        // There is room for it, so this cannot fail.
        let _ = self.ids.insert(place, id);
    }

    /// Takes out the id at the place that this one has in the order.
    pub fn take_out(&mut self, id: u16)
        requires { place_in self.old id < length self.old }
        ensures { self.new ≡ remove self.old (place_in self.old id) }
    {
        let place = place_of(&self.ids, id);
        self.ids.remove(place);
    }

    /// The ids in rising order.
    pub fn as_slice(&self) -> &[u16]
        ensures { result.now ≡ self.now }
    {
        self.ids.as_slice()
    }

    /// Makes this list as the other.
    pub fn copy_from(&mut self, o: &LiveIds)
        requires { length o.now ≤ IDS }
        ensures { self.new ≡ o.now }
    {
        self.ids.clear();
        // There is room for them, so this cannot fail.
        let _ = self.ids.extend_from_slice(&o.ids);
    }
}
