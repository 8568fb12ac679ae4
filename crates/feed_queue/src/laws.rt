ghost use Rattle.feed_queue.specs.Laws.{OrdersHaveEachPlaceOnce, OrdersKeepEachPort};

/// An order has each place of a packet once and no other number, the places of even ports rise in it, and those of odd
/// ports do.
pub fn orders_have_each_place_once()
    ensures { OrdersHaveEachPlaceOnce }
{}

/// In an order the packets of each port are in the order that they had before.
pub fn orders_keep_each_port()
    ensures { OrdersKeepEachPort }
{}
