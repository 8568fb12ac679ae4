ghost use Rattle.std.specs.Prelude.{◌≡◌, false, [], ◌∷◌, map, Some, IfOk, IfErr};
ghost use Rattle.std.specs.Option.{option_map};
ghost use Rattle.std.specs.Bool.{OnTrue, OnFalse};
ghost use Rattle.out_text.specs.Dids.{Did};
ghost use Rattle.out_text.specs.OutLines as lines;
ghost use Rattle.out_text.specs.OutLines.{DidLine, printed_line, line_spelling, text_of};
ghost use Rattle.out_text.specs.Printing.{line_of};
ghost use Rattle.out_text.specs.Ranges.{HasRoom, IsDidInRange};
ghost use Rattle.out_text.specs.Transcripts.{BeginsWith};
ghost use Rattle.transcript_check.specs.Reading.{MayRead, ReadsLines, Misses, ReadFails, ReadsOneAtMost, ReadsBeginning};

use crate::input::Input;
use demo_lines::{DemoReader, DemoStop};
use edge_io::{LineBuf, Source};
use out_text::{OutLine, Printed, print_line, read_line};
use snapshot_write::ReplyBuf;
use std::alloc::{AllocError, Global};

mod packets;
mod replies;

/// Whose move a line reports, and its number.
#[derive(Clone, Copy, Debug, PartialEq, Eq)]
pub struct Reported {
    /// The player's slot.
    pub slot: u8,
    /// The player's own number of the move.
    pub seq: u32,
}

/// Compares the lines of a transcript, one after another, with those that are wanted. It has room for one line of each,
/// and takes no memory for a line.
#[derive(Drop)]
pub struct Lines {
    /// The lines of the transcript.
    pub input: Input,
    wanted: LineBuf,
    bytes: ReplyBuf,
}

/// Whose move a line reports, if it reports one.
fn move_of(line: Option<OutLine>) -> Option<Reported>
    ensures { (d : Did) → option_map line_of line.entry ≡ Some (DidLine d)
        → result ≡ Some (record { slot = d.slot; seq = d.seq }) }
{
    match line {
        Some(OutLine::Did { slot, seq, .. }) => Some(Reported { slot, seq }),
        _ => None,
    }
}

/// Whether the next line is this one, which is printed into `wanted`.
fn expect_printed<S: Source>(
    input: &mut Input,
    wanted: &mut LineBuf,
    line: &OutLine,
    source: &mut S,
) -> Result<bool, DemoStop>
    requires may { MayRead S.Source input.old source.old }
    requires room { HasRoom (line_of line.now) }
    ensures ok { IfOk result (λ is. OnTrue is
        (ReadsLines S.Source source.old source.new input.old input.new (line_of line.now ∷ []))) }
    ensures missed { IfOk result (λ is. OnFalse is (Misses S.Source source.old source.new input.old
        (λ bytes. BeginsWith bytes (printed_line (line_of line.now)) → ⊥))) }
    ensures looked { IfOk result (λ is. OnFalse is (ReadsOneAtMost S.Source source.old source.new input.old input.new)) }
    ensures err { IfErr result (ReadFails S.Source source.old source.new input.old) }
    ensures held { IfOk result (λ is. OnTrue is (input.new.held ≡ false)) }
{
    wanted.clear();
    print_line(line, wanted);
    input.expect(wanted.as_slice(), source)
}

impl Lines {
    /// Compares what follows the recording that the reader has read to its end; no line of it was read. The only error
    /// is that memory is refused.
    pub fn new(alloc: Global, reader: DemoReader) -> Result<Lines, AllocError>
        ensures demo { IfOk result (λ l. l.input.demo ≡ reader) }
        ensures count { IfOk result (λ l. l.input.count ≡ 0) }
        ensures held { IfOk result (λ l. l.input.held ≡ false) }
    {
        Ok(Lines {
            input: Input::new(alloc, reader)?,
            wanted: LineBuf::new(alloc)?,
            bytes: ReplyBuf::new(alloc)?,
        })
    }

    /// Whether the line that was read last is this one.
    pub fn is_given(&mut self, line: &OutLine) -> bool
        requires { HasRoom (line_of line.now) }
        ensures same { OnTrue result (self.old.input.given ≡ line_spelling (line_of line.now)) }
        ensures other { OnFalse result (self.old.input.given ≡ line_spelling (line_of line.now) → ⊥) }
        ensures input { self.new.input ≡ self.old.input }
    {
        self.wanted.clear();
        print_line(line, &mut self.wanted);
        self.input.is_line(self.wanted.as_slice())
    }

    /// Whether the next line is this one.
    pub fn expect<S: Source>(&mut self, line: &OutLine, source: &mut S) -> Result<bool, DemoStop>
        requires may { MayRead S.Source self.old.input source.old }
        requires room { HasRoom (line_of line.now) }
        ensures ok { IfOk result (λ is. OnTrue is
            (ReadsLines S.Source source.old source.new self.old.input self.new.input (line_of line.now ∷ []))) }
        ensures missed { IfOk result (λ is. OnFalse is (Misses S.Source source.old source.new self.old.input
            (λ bytes. BeginsWith bytes (printed_line (line_of line.now)) → ⊥))) }
        ensures looked { IfOk result (λ is. OnFalse is
            (ReadsOneAtMost S.Source source.old source.new self.old.input self.new.input)) }
        ensures err { IfErr result (ReadFails S.Source source.old source.new self.old.input) }
        ensures held { IfOk result (λ is. OnTrue is (self.new.input.held ≡ false)) }
    {
        expect_printed(&mut self.input, &mut self.wanted, line, source)
    }

    /// Whether the next lines are those of these, one each.
    pub fn expect_each<T: Printed, S: Source>(
        &mut self,
        items: &[T],
        source: &mut S,
    ) -> Result<bool, DemoStop>
        requires may { MayRead S.Source self.old.input source.old }
        ensures ok { IfOk result (λ is. OnTrue is
            (ReadsLines S.Source source.old source.new self.old.input self.new.input (map T.line items.now))) }
        ensures missed { IfOk result (λ is. OnFalse is (Misses S.Source source.old source.new self.old.input
            (λ bytes. BeginsWith bytes (text_of (map T.line items.now)) → ⊥))) }
        ensures looked { IfOk result (λ is. OnFalse is (ReadsBeginning S.Source (λ lines. lines ≡ map T.line items.now)
            source.old source.new self.old.input self.new.input)) }
        ensures err { IfErr result (ReadFails S.Source source.old source.new self.old.input) }
    {
        for item in items {
            if !self.expect(&item.line(), source)? {
                return Ok(false);
            }
        }
        Ok(true)
    }

    /// Whose move the line that was read last reports, if it reports one. It is not to be trusted beyond that: only what
    /// running the move comes to shows whether the line is right.
    pub fn reported(&mut self) -> Option<Reported>
        ensures only { (d : Did) → IsDidInRange d → self.old.input.given ≡ line_spelling (DidLine d)
            → result ≡ Some (record { slot = d.slot; seq = d.seq }) }
        ensures input { self.new.input ≡ self.old.input }
    {
        self.bytes.clear();
        move_of(read_line(self.input.line(), &mut self.bytes))
    }
}
