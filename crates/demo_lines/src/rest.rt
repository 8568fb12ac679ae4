ghost use Rattle.std.specs.Prelude.{◌≡◌, ◌<◌, ◌≤◌, true, [], ◌++◌, length, IfOk, OnOk, OnErr, IfSome, IsOk};
ghost use Rattle.std.specs.Bool.{OnTrue, OnFalse};
ghost use Rattle.edge_io.specs.Counts.{HasRisen};
ghost use Rattle.edge_io.specs.Lines.{ahead, HasNotReadAhead};
ghost use Rattle.demo_lines.specs.Rest.{GivesRestLine, HasNoRestLine, TakesLineAtMost};

use byte_lists::ByteBuf;
use edge_io::{Failed, LineBuf, LineReader, NextLine, ROOM, Source};

/// How many bytes the longest line after a recording has, its line feed not counted: those of the longest line of output.
pub const LONGEST_REST: usize = ROOM;

// A longer line is no line of an output, and counts as the end of what follows.
/// The bytes of a line after a recording.
pub type RestBuf = ByteBuf<LONGEST_REST>;

/// Puts bytes last. It is false exactly where there is no room for them.
fn put(out: &mut RestBuf, bytes: &[u8]) -> bool
    ensures put { OnTrue result (out.new ≡ out.old ++ bytes.now) }
    ensures full { OnFalse result (LONGEST_REST < length (out.old ++ bytes.now)) }
    ensures within { length out.new ≤ LONGEST_REST }
{
    if bytes.len() > LONGEST_REST - out.len() {
        return false;
    }
    out.extend(bytes);
    true
}

/// Puts the next line of what is ahead into `out`, which is empty, in parts of as many bytes as a line of a recording may
/// have. It is false where no line feed follows, or the line is too long.
pub(crate) fn next_rest<S: Source>(
    lines: &mut LineReader,
    part: &mut LineBuf,
    source: &mut S,
    out: &mut RestBuf,
) -> Result<bool, Failed>
    requires { out.old ≡ [] }
    ensures line { IfOk result (λ is. OnTrue is
        (GivesRestLine (ahead lines.old (S.left source.old)) (ahead lines.new (S.left source.new)) out.new)) }
    ensures none { IfOk result (λ is. OnFalse is
        (IfSome (ahead lines.old (S.left source.old)) HasNoRestLine)) }
    ensures needed { IfOk result (λ is. OnTrue is
        (HasNotReadAhead source.old source.new (S.last source.new) lines.old lines.new)) }
    ensures taken { IfOk result (λ is. OnFalse is (TakesLineAtMost
        (ahead lines.old (S.left source.old)) (ahead lines.new (S.left source.new))
        (HasNotReadAhead source.old source.new (S.last source.new) lines.old lines.new
        × (S.ended source.new ≡ S.ended source.old)) (S.ended source.new ≡ true))) }
    ensures before_end { IfOk result (λ is. OnTrue is (S.ended source.new ≡ S.ended source.old)) }
    ensures no_end { OnErr result (S.ended source.new ≡ S.ended source.old) }
    ensures later { S.faults source.old ≤ S.faults source.new }
    ensures fault { OnErr result (HasRisen (S.faults source.old) (S.faults source.new)) }
    ensures uncounted { OnOk result (S.faults source.new ≡ S.faults source.old) }
    ensures sure { S.never_fails source.old → IsOk result }
    ensures keeps { S.never_fails source.old → S.never_fails source.new }
{
    'parts: loop {
        let next = lines.next_line(source, part)?;
        if !put(out, part.as_slice()) {
            return Ok(false);
        }
        match next {
            NextLine::Whole => return Ok(true),
            NextLine::Long => {}
            NextLine::Ended => return Ok(false),
        }
    }
}
