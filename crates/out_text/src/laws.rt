ghost use Rattle.out_text.specs.Laws.{DidLinesAreRead, FrameLinesAreRead, FaultlessRecordingsHaveOutputs};
ghost use Rattle.out_text.specs.Laws.{WrittenRecordingsHaveOutputs, OneWorkerHasOneOutput, OutputsSpellTheirJournals};
ghost use Rattle.out_text.specs.Laws.{LinesReadBack, LinesArePrintedApart, RecordingsHaveMaps, OutputsHaveOneTaker};
ghost use Rattle.out_text.specs.Laws.{OutputsAreBounded, FramesHaveOneReplyEach, FramesAnswerTheirPackets};
ghost use Rattle.out_text.specs.Laws.{FramesHaveTheEvents, LinesAreInTurn, JournalsAreInTurn, LastMovesAreShown};
ghost use Rattle.out_text.specs.FedLaws.{FedOutputsAreOutputs, FaultlessRecordingsHaveFedOutputs};
ghost use Rattle.out_text.specs.FedLaws.{OneWorkerHasOneFedOutput, FedOutputsAreBounded, FedLinesAreInTurn};

/// The journals are read off exactly the lines that are printed: no other line opens a frame or reports a move.
pub fn only_printed_lines_are_read()
    ensures dids { DidLinesAreRead }
    ensures frames { FrameLinesAreRead }
{}

/// The events of a recording without a fault are those of its frames, each with its packets in their order, and then the
/// end; those of a faulty one are those of its closed frames and of the one that is open, where any was opened.
pub fn frames_have_the_events()
    ensures { FramesHaveTheEvents }
{}

/// Each recording without a fault has an output, with any number of workers.
pub fn faultless_recordings_have_outputs()
    ensures { FaultlessRecordingsHaveOutputs }
{}

/// Each recording that can be written has an output, with any number of workers.
pub fn written_recordings_have_outputs()
    ensures { WrittenRecordingsHaveOutputs }
{}

/// With one worker a recording has at most one output.
pub fn one_worker_has_one_output()
    ensures { OneWorkerHasOneOutput }
{}

/// The journals that are read off the text of a recording's frames, or off its whole output, are those with which it
/// was made, where those are right.
pub fn outputs_spell_their_journals()
    ensures { OutputsSpellTheirJournals }
{}

/// A text is read as a line exactly where the line is in range and is printed so.
pub fn lines_read_back()
    ensures { LinesReadBack }
{}

/// No two lines in range are printed alike.
pub fn lines_are_printed_apart()
    ensures { LinesArePrintedApart }
{}

/// The map of a recording keeps the rules of maps, and a recording without a fault has one.
pub fn recordings_have_maps()
    ensures { RecordingsHaveMaps }
{}

/// Each item has one taker, until its delay is over: in right journals of a recording's frames, in those that are read
/// off its output or off the text of its first frames, and in those of which a part was written.
pub fn outputs_have_one_taker()
    ensures { OutputsHaveOneTaker }
{}

/// A recording has at most 100,000 frames; with right journals the text of its first frames has at most 1,120,000 bytes a
/// frame, and its whole output at most 16 more.
pub fn outputs_are_bounded()
    ensures { OutputsAreBounded }
{}

/// The lines of a frame have one `to` line for each slot that is live after the moves, with the snapshot of its player,
/// in rising slot.
pub fn frames_have_one_reply_each()
    ensures { FramesHaveOneReplyEach }
{}

/// The lines of a frame have one `no` line for each packet that was refused, with its place and the refusal, and one
/// `joined` line for each that joined, in the order of arrival, and no other. Each other packet makes its client leave,
/// or gives moves: one at least, and at most as many as it has commands.
pub fn frames_answer_their_packets()
    ensures { FramesAnswerTheirPackets }
{}

/// No frames have no lines, and one frame more adds its own, with the number that follows, and from the state that the
/// frames before it left.
pub fn lines_are_in_turn()
    ensures { LinesAreInTurn }
{}

/// Journals of frames and of one more are right exactly where those of the frames are, and the last is right for what is
/// received in the frame that follows; the same of the order of arrival.
pub fn journals_are_in_turn()
    ensures { JournalsAreInTurn }
{}

/// Where the last `did` line of a slot in a frame reports its player, there its `to` line shows it, and there it begins
/// the next frame, before the tick, unless it leaves.
pub fn last_moves_are_shown()
    ensures { LastMovesAreShown }
{}

/// Without its `from` lines a fed output is an output of the recording with the same map whose packets stand in the order
/// that these lines spell; and each output of such a recording is a fed output without these lines.
pub fn fed_outputs_are_outputs()
    ensures { FedOutputsAreOutputs }
{}

/// Each recording without a fault has a fed output in each order of arrival, with any number of workers.
pub fn faultless_recordings_have_fed_outputs()
    ensures { FaultlessRecordingsHaveFedOutputs }
{}

/// With one worker a recording has at most one fed output in each order of arrival.
pub fn one_worker_has_one_fed_output()
    ensures { OneWorkerHasOneFedOutput }
{}

/// With right journals the text of the first frames of a recording that is fed has at most 1,382,656 bytes a frame, and its
/// whole output at most 16 more.
pub fn fed_outputs_are_bounded()
    ensures { FedOutputsAreBounded }
{}

/// No frames that are fed have no lines, and one frame more adds its own: its `frame` line, then one for each of its
/// packets in the order in which they arrived, and then its other lines.
pub fn fed_lines_are_in_turn()
    ensures { FedLinesAreInTurn }
{}
