ghost use Rattle.entity_slots.specs.Laws.{PortsAreApart, LeastFreeSlotIsLeast};

/// A port is joined in one slot alone, the one that is found for it.
pub fn ports_are_apart()
    ensures { PortsAreApart }
{}

/// The free slot that is found for a join is free, and each slot below it is live.
pub fn least_free_slot_is_least()
    ensures { LeastFreeSlotIsLeast }
{}
