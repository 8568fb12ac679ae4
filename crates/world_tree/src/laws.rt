ghost use Rattle.world_tree.specs.Laws.{LiveIdsRise, LiveIdsHaveRecords, LiveRecordsById, NearIdsRise, TouchingIdsRise};

/// The live ids of a world, in the order of its live records, rise; so no two records have one id.
pub fn live_ids_rise()
    ensures { LiveIdsRise }
{}

/// An id is among the live ids exactly where it has a record.
pub fn live_ids_have_records()
    ensures { LiveIdsHaveRecords }
{}

/// The live records in rising id are those of the live ids in rising order.
pub fn live_records_by_id()
    ensures { LiveRecordsById }
{}

/// What [`World::near`](crate::World::near) and [`World::touching`](crate::World::touching) give has rising ids.
pub fn found_ids_rise()
    ensures near { NearIdsRise }
    ensures touching { TouchingIdsRise }
{}
