ghost use Rattle.demo_lines.specs.Laws.{LimitsAreKnown, PacketReadsBack, NothingAfterTheEnd, NothingAfterARefusal};
ghost use Rattle.demo_lines.specs.Laws.{NothingNeedsTheMap, LinesReadBack, LinesAreBounded, PacketsHaveRoom};
ghost use Rattle.demo_lines.specs.Laws.{RecordingsReadBack, SmallRecording, FaultsAreTheFirst, MemoryIsForTheMap, LimitsCutNothing};

/// The constants of this crate have the values that they say.
pub fn limits_are_known()
    ensures { LimitsAreKnown }
{}

/// A packet is read back from its bytes as two hexadecimal digits each, in either case, and an empty one from `-`.
pub fn packet_reads_back()
    ensures { PacketReadsBack }
{}

/// A recording is refused exactly for the first of its lines that has a fault, with that line's number, counted from 1,
/// and the first of its faults.
pub fn faults_are_the_first()
    ensures { FaultsAreTheFirst }
{}

/// The rest of the input after the line `end` gives no event and is no fault: after its line feed, and, where it has
/// none, after a line feed that follows.
pub fn nothing_after_the_end()
    ensures { NothingAfterTheEnd }
{}

/// The rest of the input after a refused line gives no event, and the fault stays at that line.
pub fn nothing_after_a_refusal()
    ensures { NothingAfterARefusal }
{}

/// From the first frame on, the lines are read as well after the map was given out.
pub fn nothing_needs_the_map()
    ensures { NothingNeedsTheMap }
{}

/// From the first event on, lack of memory is never reported: it comes only at a line of the map.
pub fn memory_is_for_the_map()
    ensures { MemoryIsForTheMap }
{}

/// A line is read back from its text exactly where it can be written: its numbers are within their limits, or its
/// packet has room.
pub fn lines_read_back()
    ensures { LinesReadBack }
{}

/// A line has room for a packet of 250 bytes from each port, of 251 from one below 10,000, and of 252 from one below
/// 100.
pub fn packets_have_room()
    ensures { PacketsHaveRoom }
{}

/// A recording that can be written is read as what was written: it has no fault, and gives its map, its frames with
/// their packets, and its end. So it is with the spawns of its map before the blocks and these before the things, and
/// with the lines of its map in any order in which each is accepted in turn, as they were where it was built line by
/// line.
pub fn recordings_read_back()
    ensures { RecordingsReadBack }
{}

/// A small recording can be written, and its text is the one that it says; and so it can with the lines of its map in
/// another order.
pub fn small_recording_can_be_written()
    ensures { SmallRecording }
{}

/// A recording has at most 51,304,613 lines up to its end or its refused line, and some have so many.
pub fn lines_are_bounded()
    ensures { LinesAreBounded }
{}

/// A recording without a fault, where it may have only so many frames, is the same as where it may have as many as any:
/// it has no fault, the same map and the same events. One that has no more frames has no fault with the limit either.
pub fn limits_cut_nothing()
    ensures { LimitsCutNothing }
{}
