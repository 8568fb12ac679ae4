use crate::comparison::Comparison;
use crate::packets::Packets;
use arena_map::ArenaMap;
use client_ports::Received;
use demo_lines::{DemoReader, DemoStop};
use edge_io::Source;
use out_text::OutLine;
use packet_read::{Arrival, MOST_ARRIVALS};
use server_state::State;
use std::alloc::{AllocError, Global};
use std::marker::Model;

mod fed;

/// A plain server between two frames, and what it compares the lines of a transcript with.
#[derive(Drop)]
pub struct Checker {
    comparison: Comparison,
    state: State,
    frames: u32,
    moves: u64,
    received: Received,
}

// Clauses see the map, the clients by slot beside the records by id, the counts, and what follows.
impl Model for Checker {
    ghost use Rattle.arena_actions.specs.MapActions.{map_in};
    ghost use Rattle.std.specs.Prelude.{◌≡◌};
    ghost use Rattle.client_ports.specs.States.{state_of};
    ghost use Rattle.client_ports.specs.Lists.{room_for};
    ghost use Rattle.packet_read.specs.declared.arrival.TheConstants.{MOST_ARRIVALS};
    ghost use Rattle.transcript_check.specs.Checkers.{CheckerView};

    ghost Value = { CheckerView };

    ghost view = { λ c. record {
      map = map_in c.comparison.mover.action;
      state = state_of c.state.ports c.state.world.records;
      frames = c.frames;
      moves = c.moves;
      input = c.comparison.lines.input;
    } };

    ghost invariant = { λ c. c.received.room ≡ room_for MOST_ARRIVALS };
}

impl Checker {
    ghost use Rattle.std.specs.Prelude.{◌≡◌, ◌*◌, ◌<◌, ◌≤◌, true, false, [], ◌∷◌, length, IfOk, IfErr};
    ghost use Rattle.std.specs.Bool.{OnTrue, OnFalse};
    ghost use Rattle.arena_map.specs.declared.limits.TheConstants.{MOST_FRAMES};
    ghost use Rattle.plain_server.specs.Frames.{received_in, IsRightAfter};
    ghost use Rattle.out_text.specs.FrameLines.{lines_with};
    ghost use Rattle.out_text.specs.OutLines.{EndLine, printed_line};
    ghost use Rattle.out_text.specs.Printing.{line_of};
    ghost use Rattle.out_text.specs.Ranges.{HasRoom};
    ghost use Rattle.out_text.specs.Transcripts.{BeginsWith};
    ghost use Rattle.client_ports.specs.declared.received.TheConstants.{MOST_FRAME_MOVES};
    ghost use Rattle.transcript_check.specs.Reading.{MayRead, ReadsLines, ReadsOneAtMost, ReadsBeginning, Misses, ReadFails};
    ghost use Rattle.transcript_check.specs.Checkers.{new_checker, with_input, IsChecker};
    ghost use Rattle.transcript_check.specs.Packets.{ArePackets, HasNoPackets, ReadsPackets};
    ghost use Rattle.transcript_check.specs.Pieces.{MissesFrame, BeginsFrame, TakesFrame, answers_with};

    /// A server in this arena, before the first frame, and what follows the recording that the reader has read to its
    /// end. It takes all memory that checking needs. The only error is that memory is refused; the map is then gone.
    pub fn new(alloc: Global, map: ArenaMap, reader: DemoReader) -> Result<Checker, AllocError>
        ensures checker { IfOk result (λ checker. checker ≡ new_checker map checker.input) }
        ensures demo { IfOk result (λ checker. checker.input.demo ≡ reader) }
        ensures count { IfOk result (λ checker. checker.input.count ≡ 0) }
        ensures held { IfOk result (λ checker. checker.input.held ≡ false) }
        ensures is { IfOk result (λ checker. IsChecker checker.map checker.state) }
    {
        let comparison = Comparison::new(alloc, map, reader)?;
        let arena = comparison.mover.action.map();
        let state = State::opening(alloc, arena)?;
        Ok(Checker {
            comparison,
            state,
            frames: 0,
            moves: 0,
            received: Received::new(alloc, MOST_ARRIVALS)?,
        })
    }

    /// How many frames were right.
    pub fn frames(&self) -> u32
        ensures { result ≡ self.now.frames }
    {
        self.frames
    }

    /// How many moves were received in them.
    pub fn moves(&self) -> u64
        ensures { result ≡ self.now.moves }
    {
        self.moves
    }

    /// How many lines were read.
    pub fn lines(&self) -> u64
        ensures { result ≡ self.now.input.count }
    {
        self.comparison.lines.input.count()
    }

    /// Whether the next line is this one, which has no bytes of a packet or a snapshot.
    fn expect<S: Source>(&mut self, line: &OutLine, source: &mut S) -> Result<bool, DemoStop>
        requires may { MayRead S.Source self.old.input source.old }
        requires room { HasRoom (line_of line.now) }
        ensures ok { IfOk result (λ is. OnTrue is (ReadsLines S.Source source.old source.new self.old.input self.new.input
            (line_of line.now ∷ []))) }
        ensures missed { IfOk result (λ is. OnFalse is (Misses S.Source source.old source.new self.old.input
            (λ bytes. BeginsWith bytes (printed_line (line_of line.now)) → ⊥))) }
        ensures looked { IfOk result (λ is. OnFalse is
            (ReadsOneAtMost S.Source source.old source.new self.old.input self.new.input)) }
        ensures err { IfErr result (ReadFails S.Source source.old source.new self.old.input) }
        ensures held { IfOk result (λ is. OnTrue is (self.new.input.held ≡ false)) }
        ensures server { self.new ≡ with_input self.old self.new.input }
    {
        self.comparison.lines.expect(line, source)
    }

    /// Reads the packets of a frame off its `from` lines, up to the first other line, which is held. It is false where there
    /// are none that a frame may have.
    fn read_packets<S: Source>(
        &mut self,
        packets: &mut Packets,
        source: &mut S,
    ) -> Result<bool, DemoStop>
        requires may { MayRead S.Source self.old.input source.old }
        ensures ok { IfOk result (λ is. OnTrue is
            (ReadsPackets S.Source source.old source.new self.old.input self.new.input packets.new)) }
        ensures missed { IfOk result (λ is. OnFalse is
            (Misses S.Source source.old source.new self.old.input HasNoPackets)) }
        ensures looked { IfOk result (λ is. OnFalse is
            (ReadsBeginning S.Source ArePackets source.old source.new self.old.input self.new.input)) }
        ensures err { IfErr result (ReadFails S.Source source.old source.new self.old.input) }
        ensures server { self.new ≡ with_input self.old self.new.input }
    {
        self.comparison.lines.read_packets(packets, source)
    }

    /// Whether the next lines are those of a frame with these packets after its first. It takes no memory.
    pub fn expect_answers<S: Source>(
        &mut self,
        arrivals: &[Arrival],
        source: &mut S,
    ) -> Result<bool, DemoStop>
        requires is { IsChecker self.old.map self.old.state }
        requires few { length arrivals.now ≤ MOST_ARRIVALS }
        requires frames { self.old.frames < MOST_FRAMES }
        requires moves { self.old.moves ≤ MOST_FRAME_MOVES * self.old.frames }
        requires may { MayRead S.Source self.old.input source.old }
        ensures ok { IfOk result (λ is. OnTrue is
            (TakesFrame S.Source answers_with source.old source.new self.old self.new arrivals.now)) }
        ensures missed { IfOk result (λ is. OnFalse is
            (MissesFrame S.Source answers_with source.old source.new self.old arrivals.now)) }
        ensures looked { IfOk result (λ is. OnFalse is
            (BeginsFrame S.Source answers_with source.old source.new self.old self.new arrivals.now)) }
        ensures err { IfErr result (ReadFails S.Source source.old source.new self.old.input) }
    {
        self.received.clear();
        self.state.receive(
            self.comparison.mover.action.map(),
            self.frames,
            arrivals,
            &mut self.received,
        );
        let is_right = self
            .comparison
            .expect_answers(self.frames, &self.received, &mut self.state.world, source)?;
        if !is_right {
            return Ok(false);
        }
        self.state.finish();
        self.frames += 1;
        self.moves += self.received.moves().len() as u64;
        Ok(true)
    }

    /// Whether the next lines are those of a frame with these packets. It takes no memory.
    pub fn expect_frame<S: Source>(
        &mut self,
        arrivals: &[Arrival],
        source: &mut S,
    ) -> Result<bool, DemoStop>
        requires is { IsChecker self.old.map self.old.state }
        requires few { length arrivals.now ≤ MOST_ARRIVALS }
        requires frames { self.old.frames < MOST_FRAMES }
        requires moves { self.old.moves ≤ MOST_FRAME_MOVES * self.old.frames }
        requires may { MayRead S.Source self.old.input source.old }
        ensures ok { IfOk result (λ is. OnTrue is
            (TakesFrame S.Source lines_with source.old source.new self.old self.new arrivals.now)) }
        ensures missed { IfOk result (λ is. OnFalse is
            (MissesFrame S.Source lines_with source.old source.new self.old arrivals.now)) }
        ensures looked { IfOk result (λ is. OnFalse is
            (BeginsFrame S.Source lines_with source.old source.new self.old self.new arrivals.now)) }
        ensures err { IfErr result (ReadFails S.Source source.old source.new self.old.input) }
    {
        if !self.expect(&OutLine::Frame(self.frames()), source)? {
            return Ok(false);
        }
        self.expect_answers(arrivals, source)
    }

    /// Whether the next line is the last one of an output after the frames that were right.
    pub fn expect_end<S: Source>(&mut self, source: &mut S) -> Result<bool, DemoStop>
        requires may { MayRead S.Source self.old.input source.old }
        ensures ok { IfOk result (λ is. OnTrue is (ReadsLines S.Source source.old source.new self.old.input self.new.input
            (EndLine self.old.frames ∷ []))) }
        ensures missed { IfOk result (λ is. OnFalse is (Misses S.Source source.old source.new self.old.input
            (λ bytes. BeginsWith bytes (printed_line (EndLine self.old.frames)) → ⊥))) }
        ensures looked { IfOk result (λ is. OnFalse is
            (ReadsOneAtMost S.Source source.old source.new self.old.input self.new.input)) }
        ensures err { IfErr result (ReadFails S.Source source.old source.new self.old.input) }
        ensures held { IfOk result (λ is. OnTrue is (self.new.input.held ≡ false)) }
        ensures server { self.new ≡ with_input self.old self.new.input }
    {
        self.expect(&OutLine::End(self.frames()), source)
    }
}
