ghost use Rattle.transcript_check.specs.Laws.{VerdictsExclude, OutputsAreRight, RightOnesAreOutputs, VerdictsAreOnOutputs};
ghost use Rattle.transcript_check.specs.Laws.{RecordingsEndOnce, VerdictsAreOne, RightOnesCountTheirLines};
ghost use Rattle.transcript_check.specs.LogLaws.{RightLogsAreOutputs, OutputsAreRightLogs, LogVerdictsAreOne};
ghost use Rattle.transcript_check.specs.LogLaws.{RightLogsCountTheirLines};

/// No transcript is both right and wrong: where a verdict was given, a right transcript was called right and a wrong one
/// wrong.
pub fn verdicts_exclude_each_other()
    ensures { VerdictsExclude }
{}

/// What begins with an output of a recording, whatever number of workers played it, is a right transcript of it.
pub fn outputs_are_right()
    ensures { OutputsAreRight }
{}

/// A right transcript of a recording without a fault begins with an output of it, one that more than one worker may
/// write.
pub fn right_ones_are_outputs()
    ensures { RightOnesAreOutputs }
{}

/// What follows a recording that was judged right begins with an output of `play` for it, and what follows one that was
/// judged wrong begins with none, however few frames it may have had where it was judged.
pub fn verdicts_are_on_outputs()
    ensures { VerdictsAreOnOutputs }
{}

/// An input is parted into a recording, with its end, and what follows it in one way at most.
pub fn recordings_end_once()
    ensures { RecordingsEndOnce }
{}

/// Two verdicts on one input are equal: both are `Right` with the same numbers of frames and of moves, or both are
/// `Wrong` with the same line.
pub fn verdicts_are_one()
    ensures { VerdictsAreOne }
{}

/// The numbers of a transcript that was judged right are counted off it: it begins with an output of the recording that
/// has so many lines that begin with `frame `, and so many that begin with `did `.
pub fn right_ones_count_their_lines()
    ensures { RightOnesCountTheirLines }
{}

/// A right log begins with an output of `feed`, one that more than one worker may write, for the recording of its map with
/// its packets, which arrived in their order; without its `from` lines that is an output of `play` for this recording.
pub fn right_logs_are_outputs()
    ensures { RightLogsAreOutputs }
{}

/// What begins with an output of `feed` for a recording, whatever number of workers wrote it, is a right log of its map,
/// with the number of its frames and that of its `did` lines.
pub fn outputs_are_right_logs()
    ensures { OutputsAreRightLogs }
{}

/// Two verdicts on the lines of a map and the log after them are equal: both are `Right` with the same numbers of frames
/// and of moves, or both are `Wrong` with the same line.
pub fn log_verdicts_are_one()
    ensures { LogVerdictsAreOne }
{}

/// The numbers of a right log are counted off it: it begins with an output of `feed` for the recording of its map with its
/// packets that has so many lines that begin with `frame `, and so many that begin with `did `.
pub fn right_logs_count_their_lines()
    ensures { RightLogsCountTheirLines }
{}
