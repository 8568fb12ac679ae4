use packet_read::MOST_ARRIVALS;
use std::alloc::{AllocError, Global};
use std::marker::Model;

/// How many places a list has at the most: a frame has no more packets.
pub const MOST_PLACES: usize = MOST_ARRIVALS as usize;

// On the heap, since an order of arrival is moved with each event, also where there is none.
/// A list of at most [`MOST_PLACES`] places of packets in their frame, from 0, whose room is reserved from the start:
/// only `new` takes memory.
#[derive(Drop)]
pub struct PlaceList {
    places: Vec<u32>,
}

impl Model for PlaceList {
    ghost use Rattle.std.specs.Prelude.{ℕ, ◌≤◌, List, vec_len, vec_capacity};
    ghost use Rattle.feed_queue.specs.declared.place_list.TheConstants.{MOST_PLACES};

    ghost Value = { List ℕ };

    ghost view = { λ l. l.places.items };

    ghost invariant = { λ l. (vec_len l.places ≤ MOST_PLACES) × (MOST_PLACES ≤ vec_capacity l.places) };
}

impl PlaceList {
    ghost use Rattle.std.specs.Prelude.{◌≡◌, ◌<◌, ◌≤◌, ◌↔◌, [], ◌∷◌, ◌++◌, length, IfOk, IsTrue};
    ghost use Rattle.std.specs.Bool.{OnTrue, OnFalse};

    /// No place. The only error is that memory is refused.
    pub fn new(alloc: Global) -> Result<PlaceList, AllocError>
        ensures { IfOk result (λ places. places ≡ []) }
    {
        Ok(PlaceList {
            places: Vec::with_capacity(alloc, MOST_PLACES)?,
        })
    }

    /// The places in order.
    pub fn as_slice(&self) -> &[u32]
        ensures value { result.now ≡ self.now }
        ensures within { length result.now ≤ MOST_PLACES }
    {
        self.places.as_slice()
    }

    /// Puts a place last. `false` exactly where there are [`MOST_PLACES`] already; the list is then unchanged.
    pub fn push(&mut self, place: u32) -> bool
        ensures room { IsTrue result ↔ (length self.old < MOST_PLACES) }
        ensures pushed { OnTrue result (self.new ≡ self.old ++ place ∷ []) }
        ensures full { OnFalse result (self.new ≡ self.old) }
    {
        if self.places.len() == MOST_PLACES {
            return false;
        }
        self.places.push_reserved(place);
        true
    }
}
