ghost use Rattle.std.specs.Prelude.{◌≡◌, ◌<◌, ◌≤◌, ◌^◌, true, false, length, map, IfOk, IfErr};
ghost use Rattle.std.specs.List.{AllByRecursion};
ghost use Rattle.arena_map.specs.declared.limits.TheConstants.{MOST_FRAMES};
ghost use Rattle.demo_lines.specs.Reads.{fresh_within};
ghost use Rattle.transcript_check.specs.Reading.{ahead_of, MayRead, IsNeeded, Misses, ReadFails};
ghost use Rattle.transcript_check.specs.Looked.{LooksAt};
ghost use Rattle.transcript_check.specs.Checkers.{new_checker, IsChecker};
ghost use Rattle.transcript_check.specs.Verdicts.{IsShort, IsVerdict, Judges, StopsChecking};

use crate::checker::Checker;
use crate::recorded::read_recording;
use crate::verdict::Verdict;
use demo_lines::{DemoReader, DemoStop};
use edge_io::Source;
use packet_read::Arrival;
use std::alloc::Global;

/// Compares what follows a recording with the output of its frames. So many lines are before it.
fn compare<S: Source>(
    checker: &mut Checker,
    frames: &[Vec<Arrival>],
    before: u64,
    source: &mut S,
) -> Result<Verdict, DemoStop>
    requires new { checker.old ≡ new_checker checker.old.map checker.old.input }
    requires first { checker.old.input.count ≡ 0 }
    requires free { checker.old.input.held ≡ false }
    requires is { IsChecker checker.old.map checker.old.state }
    requires few { length frames.now ≤ MOST_FRAMES }
    requires short { AllByRecursion IsShort (map (λ arrivals. arrivals.items) frames.now) }
    requires before { before < 2 ^ 62 }
    requires may { MayRead S.Source checker.old.input source.old }
    ensures ok { IfOk result (λ verdict. Misses S.Source source.old source.new checker.old.input (λ bytes.
        IsVerdict checker.old.map (map (λ arrivals. arrivals.items) frames.now) bytes before verdict)) }
    ensures looked { IfOk result (λ verdict. LooksAt verdict checker.old.map (map (λ arrivals. arrivals.items) frames.now)
        (ahead_of S.Source checker.old.input source.old) (ahead_of S.Source checker.new.input source.new)
        (IsNeeded S.Source source.old source.new checker.old.input checker.new.input) (S.ended source.new ≡ true)) }
    ensures err { IfErr result (ReadFails S.Source source.old source.new checker.old.input) }
{
    for arrivals in frames {
        let line = before + checker.lines() + 1;
        if !checker.expect_frame(arrivals.as_slice(), source)? {
            return Ok(Verdict::Wrong { line });
        }
    }
    let line = before + checker.lines() + 1;
    if !checker.expect_end(source)? {
        return Ok(Verdict::Wrong { line });
    }
    Ok(Verdict::Right {
        frames: checker.frames(),
        moves: checker.moves(),
    })
}

/// Reads a recording, which ends with its line `end`, and compares what follows it with the output of the recording. The
/// reader is to be a new one; it says how many frames the recording may have, all of which are kept in memory.
///
/// [`Verdict::Right`] comes exactly where what follows begins with an output that a plain server gives for the recording
/// with some order of each frame's moves in which each player's are in the order sent. Where it doesn't,
/// [`Verdict::Wrong`] has the first line of the first piece that is wrong. What follows the last line of the output isn't
/// looked at, nor what follows the first line that no right output goes on with: no more is read than the block that the
/// last line ends in.
pub fn check<S: Source>(
    alloc: Global,
    mut reader: DemoReader,
    source: &mut S,
) -> Result<Verdict, DemoStop>
    requires fresh { reader ≡ fresh_within reader.reading.limit }
    requires limit { reader.reading.limit ≤ MOST_FRAMES }
    ensures ok { IfOk result (Judges S.Source reader.reading.limit source.old source.new) }
    ensures err { IfErr result (StopsChecking S.Source reader.reading.limit source.old source.new) }
{
    let recorded = read_recording(alloc, &mut reader, source)?;
    let before = reader.end_line();
    let map = reader.take_map().unwrap();
    let mut checker = Checker::new(alloc, map, reader)?;
    compare(&mut checker, recorded.frames(), before, source)
}
