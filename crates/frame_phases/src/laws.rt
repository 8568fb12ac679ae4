ghost use Rattle.frame_phases.specs.Laws.{LimitsAreKnown};

/// The limits of a server have the values that the documents say: 512 packets in a frame, and 100,000 frames.
pub fn limits_are_known()
    ensures { LimitsAreKnown }
{}
