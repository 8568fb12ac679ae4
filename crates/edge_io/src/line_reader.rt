ghost use Rattle.std.specs.Prelude.{◌≡◌, ℕ, ◌+◌, ◌<◌, ◌≤◌, ◌↔◌, true, List, [], IsOk, IfOk, OnOk, OnErr};
ghost use Rattle.std.specs.Prelude.{IsTrue, length, drop};
ghost use Rattle.std.specs.Bool.{OnFalse, OnTrue};
ghost use Rattle.std.specs.Io.KnownBytes.{Keeps, IsAtEnd};
ghost use Rattle.edge_io.specs.Counts.{CountsFaults};
ghost use Rattle.edge_io.specs.Lines.{ahead, HasNoLineFeed, AreBytes, GivesLine, GivesLongFront, GivesFront};
ghost use Rattle.edge_io.specs.Lines.{GivesLastPart, HasNotReadAhead, OnLine, OnWhole, OnLong, OnEnded, MovesFront};

use crate::failed::Failed;
use crate::line_buf::LineBuf;
use crate::source::Source;
use memchr::memchr;
use std::alloc::{AllocError, Global};
use std::marker::Model;

/// How many bytes the longest line of input has, its line feed not counted.
pub const LONGEST: usize = 512;

/// How many bytes a source is asked for in one read.
const BLOCK: usize = 8_192;

/// What a call of [`LineReader::next_line`] gave.
#[derive(Clone, Copy, Debug, PartialEq, Eq)]
pub enum NextLine {
    /// A line that a line feed ends.
    Whole,
    /// The front of a line that has more than [`LONGEST`] bytes.
    Long,
    /// The input ended: what follows the last line feed, often nothing.
    Ended,
}

/// How the bytes that are buffered continue a line.
enum Front {
    /// A line feed ended it.
    Closed,
    /// It has one byte more than the longest line.
    Over,
    /// It goes on.
    Open,
}

/// Gives the lines of a source one at a time, and reads the source in blocks. A contract sees it as the bytes that are
/// buffered and not yet given.
#[derive(Drop)]
pub struct LineReader {
    block: Vec<u8>,
    start: usize,
    end: usize,
}

impl Model for LineReader {
    ghost use Rattle.std.specs.Prelude.{◌≡◌, ℕ, ◌≤◌, List, slice_range, vec_len};
    ghost use Rattle.edge_io.specs.declared.line_reader.TheConstants.{BLOCK};

    ghost Value = { List ℕ };

    ghost view = { λ r. slice_range r.block.items r.start r.end };

    ghost invariant = { λ r. (r.start ≤ r.end) × (r.end ≤ vec_len r.block) × (vec_len r.block ≡ BLOCK) };
}

impl LineReader {
    /// A reader that has nothing buffered.
    pub fn new(alloc: Global) -> Result<LineReader, AllocError>
        ensures { IfOk result (λ reader. reader ≡ []) }
    {
        Ok(LineReader {
            block: vec![in alloc; 0; BLOCK]?,
            start: 0,
            end: 0,
        })
    }

    /// Clears `line` and gives it the next line of what is ahead, which is what is buffered and then what `source` has
    /// left. The reader is to be used with one source alone. It reads a block only where the line needs it.
    ///
    /// - [`NextLine::Whole`]: the line without its line feed, at most [`LONGEST`] bytes; the line feed is taken too.
    /// - [`NextLine::Long`]: the first `LONGEST + 1` bytes of a line that has more than [`LONGEST`].
    /// - [`NextLine::Ended`]: what was ahead, without a line feed, at most [`LONGEST`] bytes; nothing is ahead now.
    /// - [`Failed`]: a read failed, so the source's count of faults rose, which it does in no other case. `line` has
    ///   the front of a line that was read so far, and nothing is buffered.
    pub fn next_line<S: Source>(
        &mut self,
        source: &mut S,
        line: &mut LineBuf,
    ) -> Result<NextLine, Failed>
        ensures whole { IfOk result (λ next. OnWhole next
            (GivesLine (ahead self.old (S.left source.old)) (ahead self.new (S.left source.new)) line.new)) }
        ensures long { IfOk result (λ next. OnLong next
            (GivesLongFront (ahead self.old (S.left source.old)) (ahead self.new (S.left source.new)) line.new)) }
        ensures ended { IfOk result (λ next. OnEnded next (GivesLastPart
            (ahead self.old (S.left source.old)) (ahead self.new (S.left source.new)) line.new self.new)) }
        ensures failed { OnErr result
            (GivesFront (ahead self.old (S.left source.old)) (ahead self.new (S.left source.new)) line.new self.new) }

        ensures bytes { AreBytes line.new }
        ensures needed { IfOk result (λ next. OnLine next
            (HasNotReadAhead source.old source.new (S.last source.new) self.old self.new)) }
        ensures at_end { IfOk result (λ next. OnEnded next (S.ended source.new ≡ true)) }
        ensures before_end { IfOk result (λ next. OnLine next (S.ended source.new ≡ S.ended source.old)) }
        ensures no_end { OnErr result (S.ended source.new ≡ S.ended source.old) }

        ensures faults { CountsFaults (S.faults source.old) (S.faults source.new) result }
        ensures sure { S.never_fails source.old → IsOk result }
        ensures keeps { S.never_fails source.old → S.never_fails source.new }
    {
        line.clear();
        while self.fill(source)? {
            match self.take_front(line) {
                Front::Closed => return Ok(NextLine::Whole),
                Front::Over => return Ok(NextLine::Long),
                Front::Open => {}
            }
        }
        Ok(NextLine::Ended)
    }

    /// Reads a block if nothing is buffered. It is false where the input has ended.
    fn fill<S: Source>(&mut self, source: &mut S) -> Result<bool, Failed>
        ensures kept { Keeps (ahead self.old (S.left source.old)) (ahead self.new (S.left source.new)) }
        ensures some { IfOk result (λ is. IsTrue is ↔ (0 < length self.new)) }
        ensures end { IfOk result (λ _. length self.new ≡ 0 → IsAtEnd (S.left source.new)) }
        ensures err { OnErr result (self.new ≡ []) }

        ensures unasked { 0 < length self.old → (self.new ≡ self.old) × (source.new ≡ source.old) }
        ensures asked { length self.old ≡ 0 → IfOk result (λ _. length self.new ≡ S.last source.new) }
        ensures at_end { IfOk result (λ is. OnFalse is (S.ended source.new ≡ true)) }
        ensures before_end { IfOk result (λ is. OnTrue is (S.ended source.new ≡ S.ended source.old)) }
        ensures no_end { OnErr result (S.ended source.new ≡ S.ended source.old) }

        ensures faults { CountsFaults (S.faults source.old) (S.faults source.new) result }
        ensures sure { S.never_fails source.old → IsOk result }
        ensures keeps { S.never_fails source.old → S.never_fails source.new }
    {
        if self.start < self.end {
            return Ok(true);
        }
        self.start = 0;
        self.end = 0;
        self.end = source.read(self.block.as_mut_slice())?;
        Ok(self.end > 0)
    }

    /// Moves bytes that are buffered to the end of `line`, up to its line feed or one byte too many.
    fn take_front(&mut self, line: &mut LineBuf) -> Front
        requires some { 0 < length self.old }
        requires fits { length line.old ≤ LONGEST }
        requires one_line { HasNoLineFeed line.old }
        requires bytes { AreBytes line.old }
        ensures moves { MovesFront result line.old self.old line.new self.new }
        ensures taken { length self.new < length self.old }
        ensures one_line { HasNoLineFeed line.new }
        ensures bytes { AreBytes line.new }
    {
        let pending = self.pending();
        let window = &pending[..pending.len().min(LONGEST + 1 - line.len())];
        match memchr(b'\n', window) {
            Some(count) => {
                line.extend(&window[..count]);
                self.consume(count + 1);
                Front::Closed
            }
            None => {
                let count = window.len();
                line.extend(window);
                self.consume(count);
                if line.len() > LONGEST {
                    Front::Over
                } else {
                    Front::Open
                }
            }
        }
    }

    /// The bytes that are buffered and not yet given.
    fn pending(&self) -> &[u8]
        ensures { result.now ≡ self.now }
    {
        &self.block[self.start..self.end]
    }

    /// Gives up the first `count` bytes that are buffered.
    fn consume(&mut self, count: usize)
        requires { count ≤ length self.old }
        ensures { self.new ≡ drop count self.old }
    {
        self.start += count;
    }
}
