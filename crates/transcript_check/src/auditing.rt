ghost use Rattle.std.specs.Prelude.{◌≡◌, ◌<◌, ◌^◌, true, false, [], IfOk, IfErr};
ghost use Rattle.demo_lines.specs.Reads.{fresh_within};
ghost use Rattle.transcript_check.specs.Reading.{ahead_of, MayRead, IsNeeded, Misses, ReadFails};
ghost use Rattle.transcript_check.specs.Checkers.{new_checker, IsChecker};
ghost use Rattle.transcript_check.specs.Audits.{IsLogVerdict, LooksAtLog, JudgesLog};
ghost use Rattle.transcript_check.specs.Verdicts.{StopsChecking};

use crate::checker::Checker;
use crate::packets::Packets;
use crate::recorded::read_recording;
use crate::verdict::Verdict;
use demo_lines::{DemoReader, DemoStop};
use edge_io::Source;
use std::alloc::Global;

/// Compares what follows the lines of a map with what `feed` writes after them, frame by frame. So many lines are before it.
fn compare_log<S: Source>(
    checker: &mut Checker,
    packets: &mut Packets,
    before: u64,
    source: &mut S,
) -> Result<Verdict, DemoStop>
    requires new { checker.old ≡ new_checker checker.old.map checker.old.input }
    requires first { checker.old.input.count ≡ 0 }
    requires free { checker.old.input.held ≡ false }
    requires is { IsChecker checker.old.map checker.old.state }
    requires before { before < 2 ^ 62 }
    requires may { MayRead S.Source checker.old.input source.old }
    ensures ok { IfOk result (λ verdict. Misses S.Source source.old source.new checker.old.input (λ bytes.
        IsLogVerdict checker.old.map bytes before verdict)) }
    ensures looked { IfOk result (λ verdict. LooksAtLog verdict checker.old.map []
        (ahead_of S.Source checker.old.input source.old) (ahead_of S.Source checker.new.input source.new)
        (IsNeeded S.Source source.old source.new checker.old.input checker.new.input) (S.ended source.new ≡ true)) }
    ensures err { IfErr result (ReadFails S.Source source.old source.new checker.old.input) }
{
    'pieces: loop {
        let line = before + checker.lines() + 1;
        if !checker.take_line(source)? {
            return Ok(Verdict::Wrong { line });
        }
        if checker.is_end() {
            return Ok(Verdict::Right {
                frames: checker.frames(),
                moves: checker.moves(),
            });
        }
        if !checker.is_frame() {
            return Ok(Verdict::Wrong { line });
        }
        if !checker.expect_fed(packets, source)? {
            return Ok(Verdict::Wrong { line });
        }
    }
}

/// Reads the lines of a map up to its line `end`, and judges the log of a match that follows: frame by frame, with one
/// frame in memory. The reader is to be a new one of a recording that may have no frame, so a line `frame` before `end`
/// is refused, with fault 9 where it has no earlier one.
///
/// [`Verdict::Right`] comes exactly where what follows begins with what `feed` writes for a recording of the map, with
/// some packets, in the order of its `from` lines, and some order of each frame's moves in which each player's are in the
/// order sent. Where it doesn't, [`Verdict::Wrong`] has the first line of the first piece that is wrong. What follows the
/// last line isn't looked at, nor what follows the first line that no right log goes on with: no more is read than the
/// block that the last line ends in.
pub fn audit<S: Source>(
    alloc: Global,
    mut reader: DemoReader,
    source: &mut S,
) -> Result<Verdict, DemoStop>
    requires fresh { reader ≡ fresh_within 0 }
    ensures ok { IfOk result (JudgesLog S.Source source.old source.new) }
    ensures err { IfErr result (StopsChecking S.Source 0 source.old source.new) }
{
    // A recording that may have no frame has none.
    let _recorded = read_recording(alloc, &mut reader, source)?;
    let before = reader.end_line();
    let map = reader.take_map().unwrap();
    let mut packets = Packets::new(alloc)?;
    let mut checker = Checker::new(alloc, map, reader)?;
    compare_log(&mut checker, &mut packets, before, source)
}
