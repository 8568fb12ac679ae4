use crate::hand::Hand;
use crate::place_list::{MOST_PLACES, PlaceList};
use crossbeam_queue::Pass;
use std::marker::Model;

/// The order in which the packets of a frame arrived from two feeders, as places in the frame, from 0: what one pass has
/// popped from the queue, in the order in which it was popped. Only [`gather`](crate::gather) makes one, and only from
/// such a pass, which it keeps; a pass has no bytes.
#[derive(Drop)]
pub struct ArrivalOrder {
    places: PlaceList,
    reader: Pass<u32, Hand>,
}

impl Model for ArrivalOrder {
    ghost use Rattle.std.specs.Prelude.{ℕ, List};
    ghost use Rattle.feed_queue.specs.Popped.{HasPopped};

    ghost Value = { List ℕ };

    ghost view = { λ o. o.places };

    ghost invariant = { λ o. HasPopped o.reader o.places };
}

impl ArrivalOrder {
    ghost use Rattle.std.specs.Prelude.{◌≡◌, ◌≤◌, length};
    ghost use Rattle.feed_queue.specs.Popped.{HasPopped};

    /// The order of these places, which this pass has popped.
    pub(crate) fn of_popped(places: PlaceList, reader: Pass<u32, Hand>) -> ArrivalOrder
        requires { HasPopped reader places }
        ensures { result ≡ places }
    {
        ArrivalOrder { places, reader }
    }

    /// The places in order.
    pub fn as_slice(&self) -> &[u32]
        ensures value { result.now ≡ self.now }
        ensures within { length result.now ≤ MOST_PLACES }
    {
        self.places.as_slice()
    }
}
