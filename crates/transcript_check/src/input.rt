ghost use Rattle.std.specs.Prelude.{◌≡◌, ◌≤◌, true, false, [], ◌∷◌, length, IfOk, OnOk, IfErr};
ghost use Rattle.std.specs.Bool.{OnTrue, OnFalse};
ghost use Rattle.demo_lines.specs.declared.rest.TheConstants.{LONGEST_REST};
ghost use Rattle.demo_lines.specs.Rest.{HasNoRestLine};
ghost use Rattle.out_text.specs.OutLines as lines;
ghost use Rattle.out_text.specs.OutLines.{printed_line, line_spelling};
ghost use Rattle.out_text.specs.Transcripts.{BeginsWith};
ghost use Rattle.out_text.specs.Feeds.{is_from_line};
ghost use Rattle.transcript_check.specs.Reading.{MayRead, HoldsLine, IsRestLine, without_held, ReadsLine, ReadsLines, Misses};
ghost use Rattle.transcript_check.specs.Reading.{ReadFails, ReadsOneAtMost};

use demo_lines::{DemoReader, DemoStop, RestBuf};
use edge_io::Source;
use std::alloc::{AllocError, Global};
use std::marker::Model;

/// What follows a recording, read line by line. It has room for one line, and takes no memory for a line.
#[derive(Drop)]
pub struct Input {
    reader: DemoReader,
    given: RestBuf,
    is_held: bool,
    count: u64,
}

impl Model for Input {
    ghost use Rattle.std.specs.Prelude.{◌≡◌, true};
    ghost use Rattle.transcript_check.specs.Reading.{InputView, IsRestLine};

    ghost Value = { InputView };

    ghost view = { λ i. record { demo = i.reader; given = i.given; held = i.is_held; count = i.count } };

    // A line that is held is a whole one.
    ghost invariant = { λ i. i.is_held ≡ true → IsRestLine i.given };
}

impl Input {
    /// What follows the recording that the reader has read to its end; no line of it was read. The only error is that
    /// memory is refused.
    pub fn new(alloc: Global, reader: DemoReader) -> Result<Input, AllocError>
        ensures demo { IfOk result (λ i. i.demo ≡ reader) }
        ensures count { IfOk result (λ i. i.count ≡ 0) }
        ensures held { IfOk result (λ i. i.held ≡ false) }
    {
        Ok(Input {
            given: RestBuf::new(alloc)?,
            reader,
            is_held: false,
            count: 0,
        })
    }

    /// How many lines were read; it stops at the end of its type.
    pub fn count(&self) -> u64
        ensures { result ≡ self.now.count }
    {
        self.count
    }

    /// The line that was read last.
    pub fn line(&self) -> &[u8]
        ensures { result.now ≡ self.now.given }
    {
        self.given.as_slice()
    }

    /// Whether the line that was read last begins with `from `.
    pub fn is_from(&self) -> bool
        ensures { result ≡ is_from_line self.now.given }
    {
        self.given.as_slice().starts_with(b"from ".as_slice())
    }

    /// Whether the line that was read last is this one.
    pub fn is_line(&self, wanted: &[u8]) -> bool
        ensures same { OnTrue result (self.now.given ≡ wanted.now) }
        ensures other { OnFalse result (self.now.given ≡ wanted.now → ⊥) }
    {
        self.given.as_slice() == wanted
    }

    /// Reads the next line, and holds it for [`take`](Self::take). It is false where there is none.
    pub fn look<S: Source>(&mut self, source: &mut S) -> Result<bool, DemoStop>
        requires may { MayRead S.Source self.old source.old }
        ensures line { IfOk result (λ is. OnTrue is (HoldsLine S.Source source.old source.new self.old self.new)) }
        ensures none { IfOk result (λ is. OnFalse is (Misses S.Source source.old source.new self.old HasNoRestLine)) }
        ensures looked { IfOk result (λ is. OnFalse is (ReadsOneAtMost S.Source source.old source.new self.old self.new)) }
        ensures err { IfErr result (ReadFails S.Source source.old source.new self.old) }
    {
        if self.is_held {
            return Ok(true);
        }
        self.given.clear();
        self.is_held = self.reader.rest(source, &mut self.given)?;
        Ok(self.is_held)
    }

    /// Takes the line that is held.
    pub fn accept(&mut self)
        requires { self.old.held ≡ true }
        ensures taken { self.new ≡ without_held self.old }
        ensures line { IsRestLine self.old.given }
    {
        self.is_held = false;
        self.count = self.count.saturating_add(1);
    }

    /// Reads the next line, or takes the one that is held. It is false where there is none.
    pub fn take<S: Source>(&mut self, source: &mut S) -> Result<bool, DemoStop>
        requires may { MayRead S.Source self.old source.old }
        ensures line { IfOk result (λ is. OnTrue is (ReadsLine S.Source source.old source.new self.old self.new)) }
        ensures none { IfOk result (λ is. OnFalse is (Misses S.Source source.old source.new self.old HasNoRestLine)) }
        ensures looked { IfOk result (λ is. OnFalse is (ReadsOneAtMost S.Source source.old source.new self.old self.new)) }
        ensures err { IfErr result (ReadFails S.Source source.old source.new self.old) }
    {
        if !self.look(source)? {
            return Ok(false);
        }
        self.accept();
        Ok(true)
    }

    /// Whether the next line is this one.
    pub fn expect<S: Source>(&mut self, wanted: &[u8], source: &mut S) -> Result<bool, DemoStop>
        requires may { MayRead S.Source self.old source.old }
        requires short { length wanted.now ≤ LONGEST_REST }
        ensures ok { (line : lines.OutLine) → wanted.now ≡ line_spelling line → IfOk result (λ is. OnTrue is
            (ReadsLines S.Source source.old source.new self.old self.new (line ∷ []))) }
        ensures missed { (line : lines.OutLine) → wanted.now ≡ line_spelling line → IfOk result (λ is. OnFalse is
            (Misses S.Source source.old source.new self.old (λ bytes. BeginsWith bytes (printed_line line) → ⊥))) }
        ensures looked { IfOk result (λ is. OnFalse is (ReadsOneAtMost S.Source source.old source.new self.old self.new)) }
        ensures err { IfErr result (ReadFails S.Source source.old source.new self.old) }
        ensures held { IfOk result (λ is. OnTrue is (self.new.held ≡ false)) }
    {
        if !self.take(source)? {
            return Ok(false);
        }
        Ok(self.is_line(wanted))
    }
}
