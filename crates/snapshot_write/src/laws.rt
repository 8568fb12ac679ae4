ghost use Rattle.snapshot_write.specs.Laws as laws;
ghost use Rattle.snapshot_write.specs.InSight.{ShowWhatIsWithinSight};
ghost use Rattle.snapshot_write.specs.OwnPart.{ShowPlayersThemselves};

/// Bytes break no rule of the format exactly where they spell some snapshot.
pub fn no_fault_where_spelled()
    ensures { laws.NoFaultWhereSpelled }
{}

/// A snapshot has one spelling, and no two snapshots have the same.
pub fn one_spelling()
    ensures { laws.OneSpelling }
{}

/// Bytes are read as a snapshot exactly where they spell it, and else as the first fault.
pub fn read_where_spelled()
    ensures { laws.ReadWhereSpelled }
{}

/// The snapshot of a player of a world is read as the frame, its own record and what it sees.
pub fn written_snapshots_are_read()
    ensures { laws.WrittenSnapshotsAreRead }
{}

/// The snapshot of a player shows exactly who is in its sight, and nothing else.
pub fn snapshots_show_who_is_in_sight()
    ensures { laws.ShowWhoIsInSight }
{}

/// The snapshot of a player shows exactly the live records whose bodies come within 262,400 sub-units of its origin on x
/// and y and within 131,328 on z, and the items whose bodies come within 265,984 on x and y and within 131,072 on z. All
/// are there but the items whose state isn't 0.
pub fn snapshots_show_what_is_within_sight()
    ensures { ShowWhatIsWithinSight }
{}

/// The snapshot of a player shows the frame, and each field of the player's own record as it is, but for its state, which is
/// shown as 0; its bytes have them at their places.
pub fn snapshots_show_players_themselves()
    ensures { ShowPlayersThemselves }
{}

/// Two players of a world see a third in one place, and each other where they see themselves.
pub fn snapshots_agree_on_origins()
    ensures { laws.AgreeOnOrigins }
{}

/// A list of bytes has room for 8,219, and a list of entities for 511.
pub fn limits_are_known()
    ensures { laws.LimitsAreKnown }
{}
