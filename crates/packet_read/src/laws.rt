ghost use Rattle.packet_read.specs.Laws.{NoFaultWhereSpelled, OneSpelling, ReadWhereSpelled, LimitsAreKnown};
ghost use Rattle.packet_read.specs.Laws.{CommandsAreNumbered};

/// Bytes break no rule of the format exactly where they spell some packet.
pub fn no_fault_where_spelled()
    ensures { NoFaultWhereSpelled }
{}

/// A packet has one spelling, and no two packets have the same.
pub fn one_spelling()
    ensures { OneSpelling }
{}

/// Bytes are read as a packet exactly where they spell it, and else as the first fault.
pub fn read_where_spelled()
    ensures { ReadWhereSpelled }
{}

/// A list of bytes has room for 64, one of commands for 3.
pub fn limits_are_known()
    ensures { LimitsAreKnown }
{}

/// A move packet of version 1 is its own one command, and a join or a leave has none. The commands of a packet of version
/// 2 have numbers that rise by one, up to that of the packet, and keep their fields.
pub fn commands_are_numbered()
    ensures { CommandsAreNumbered }
{}
