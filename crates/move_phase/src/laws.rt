ghost use Rattle.move_phase.specs.Laws.{LimitsAreKnown};

/// At most 16 workers run moves.
pub fn limits_are_known()
    ensures { LimitsAreKnown }
{}
