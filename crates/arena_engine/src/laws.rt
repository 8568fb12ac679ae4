ghost use Rattle.arena_engine.specs.Laws.{LimitsAreKnown};

/// A recording whose output is checked has at most 2,000 frames, and the line of a match or of a right transcript at most
/// 300 bytes.
pub fn limits_are_known()
    ensures { LimitsAreKnown }
{}
