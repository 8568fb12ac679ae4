ghost use Rattle.std.specs.Prelude.{◌≡◌, ◌*◌, ◌<◌, ◌≤◌, true, IfOk, IfErr};
ghost use Rattle.std.specs.Bool.{OnTrue, OnFalse};
ghost use Rattle.arena_map.specs.declared.limits.TheConstants.{MOST_FRAMES};
ghost use Rattle.arena_map.specs.Maps.{is_ready};
ghost use Rattle.client_ports.specs.declared.received.TheConstants.{MOST_FRAME_MOVES};
ghost use Rattle.demo_lines.specs.Rest.{HasNoRestLine};
ghost use Rattle.out_text.specs.OutLines.{FrameLine, EndLine, line_spelling};
ghost use Rattle.transcript_check.specs.Reading.{MayRead, ReadsLine, Misses, ReadsOneAtMost, ReadFails};
ghost use Rattle.transcript_check.specs.Checkers.{with_input, IsChecker};
ghost use Rattle.transcript_check.specs.Packets.{TakesFed, MissesFed, BeginsFed};
ghost use Rattle.transcript_check.specs.Audits.{OpensFrame};

use super::Checker;
use crate::packets::Packets;
use arena_map::MOST_FRAMES;
use demo_lines::DemoStop;
use edge_io::Source;
use out_text::OutLine;

impl Checker {
    /// Reads the next line, which should be the first of a piece. It is false where there is none.
    pub fn take_line<S: Source>(&mut self, source: &mut S) -> Result<bool, DemoStop>
        requires may { MayRead S.Source self.old.input source.old }
        ensures line { IfOk result (λ is. OnTrue is
            (ReadsLine S.Source source.old source.new self.old.input self.new.input)) }
        ensures none { IfOk result (λ is. OnFalse is
            (Misses S.Source source.old source.new self.old.input HasNoRestLine)) }
        ensures looked { IfOk result (λ is. OnFalse is
            (ReadsOneAtMost S.Source source.old source.new self.old.input self.new.input)) }
        ensures err { IfErr result (ReadFails S.Source source.old source.new self.old.input) }
        ensures server { self.new ≡ with_input self.old self.new.input }
    {
        self.comparison.lines.input.take(source)
    }

    /// Whether the line that was read last is the last one of a log with the frames that were right.
    pub fn is_end(&mut self) -> bool
        ensures same { OnTrue result (self.old.input.given ≡ line_spelling (EndLine self.old.frames)) }
        ensures other { OnFalse result (self.old.input.given ≡ line_spelling (EndLine self.old.frames) → ⊥) }
        ensures server { self.new ≡ self.old }
    {
        let line = OutLine::End(self.frames);
        self.comparison.lines.is_given(&line)
    }

    /// Whether the map may have one frame more: it has a spawn, and there aren't as many as there may be.
    fn may_open(&self) -> bool
        ensures yes { OnTrue result ((self.now.frames < MOST_FRAMES) × (is_ready self.now.map ≡ true)) }
        ensures no { OnFalse result (self.now.frames < MOST_FRAMES → is_ready self.now.map ≡ true → ⊥) }
    {
        self.frames < MOST_FRAMES && self.comparison.mover.action.map().ready()
    }

    /// Whether the line that was read last opens the next frame of a log, and one more may come.
    pub fn is_frame(&mut self) -> bool
        ensures yes { OnTrue result (OpensFrame self.old self.old.input.given) }
        ensures no { OnFalse result (OpensFrame self.old self.old.input.given → ⊥) }
        ensures server { self.new ≡ self.old }
    {
        if !self.may_open() {
            return false;
        }
        let line = OutLine::Frame(self.frames);
        self.comparison.lines.is_given(&line)
    }

    /// Whether the next lines are those of a frame after its first: its packets, which are kept here, and its answers. It
    /// takes no memory.
    pub fn expect_fed<S: Source>(
        &mut self,
        packets: &mut Packets,
        source: &mut S,
    ) -> Result<bool, DemoStop>
        requires is { IsChecker self.old.map self.old.state }
        requires frames { self.old.frames < MOST_FRAMES }
        requires moves { self.old.moves ≤ MOST_FRAME_MOVES * self.old.frames }
        requires may { MayRead S.Source self.old.input source.old }
        ensures ok { IfOk result (λ is. OnTrue is
            (TakesFed S.Source source.old source.new self.old self.new)) }
        ensures missed { IfOk result (λ is. OnFalse is
            (MissesFed S.Source source.old source.new self.old)) }
        ensures looked { IfOk result (λ is. OnFalse is
            (BeginsFed S.Source source.old source.new self.old self.new)) }
        ensures err { IfErr result (ReadFails S.Source source.old source.new self.old.input) }
    {
        if !self.read_packets(packets, source)? {
            return Ok(false);
        }
        self.expect_answers(packets.as_slice(), source)
    }
}
