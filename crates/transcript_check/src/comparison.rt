ghost use Rattle.arena_actions.specs.MapActions.{map_in};
ghost use Rattle.std.specs.Prelude.{◌≡◌, false, All, map, IfOk, IfErr};
ghost use Rattle.std.specs.List.{AllByRecursion};
ghost use Rattle.std.specs.Bool.{OnTrue, OnFalse};
ghost use Rattle.entity_recs.specs.Commands.{command_of};
ghost use Rattle.move_journal.specs.Merges.{IsRight, HasNumbersApart};
ghost use Rattle.arena_map.specs.Validity.{IsValidWorld};
ghost use Rattle.arena_outcomes.specs.Outcomes.{outcome_on};
ghost use Rattle.plain_server.specs.RecordsById.{world_of};
ghost use Rattle.plain_server.specs.Moving.{HasLivePlayer, HasSmallNumber, records_after};
ghost use Rattle.out_text.specs.FrameLines.{did_line};
ghost use Rattle.out_text.specs.Printing.{line_of};
ghost use Rattle.out_text.specs.Ranges.{HasRoom};
ghost use Rattle.transcript_check.specs.Reading.{MayRead, Misses, ReadFails, ReadsOneAtMost, ReadsBeginning};
ghost use Rattle.transcript_check.specs.Moves as specs;
ghost use Rattle.transcript_check.specs.Moves.{IsNoMove, TakesMove, RunsMoves};
ghost use Rattle.transcript_check.specs.Pieces.{HasNoJournal, AreOfJournal};

use crate::lines::Lines;
use crate::mover::Mover;
use crate::other_list::OtherList;
use crate::pending::Pending;
use arena_map::ArenaMap;
use demo_lines::{DemoReader, DemoStop};
use edge_io::Source;
use entity_recs::Cmd;
use out_text::OutLine;
use std::alloc::{AllocError, Global};
use world_tree::World;

mod answers;

// A `did` line is trusted only for whose move it is: the first move of that player that is left is run, and the line
// that this gives is compared. The moves run against all other live records, without regions: at 64 players this is
// as fast.
/// Compares the lines of a transcript with what the moves of a frame come to, and runs these.
#[derive(Drop)]
pub struct Comparison {
    /// Runs the moves, in the arena of the map.
    pub mover: Mover,
    pending: Pending,
    /// The lines of the transcript.
    pub lines: Lines,
}

/// Runs a move of a live player, and gives its line.
fn run_for_line(mover: &mut Mover, world: &mut World, cmd: &Cmd) -> OutLine<'static>
    requires valid { IsValidWorld (map_in mover.old.action) world.old.records }
    requires live { HasLivePlayer world.old.records (command_of cmd.now) }
    ensures line { line_of result ≡ specs.move_line (map_in mover.old.action) world.old.records (command_of cmd.now) }
    ensures room { HasRoom (line_of result) }
    ensures records { world.new.records
        ≡ records_after (map_in mover.old.action) world.old.records (command_of cmd.now) }
    ensures action { mover.new.action ≡ mover.old.action }
{
    let reply = mover.run(world, cmd);
    OutLine::Did {
        slot: cmd.slot,
        seq: cmd.seq,
        origin: reply.origin,
        got: reply.got,
    }
}

impl Comparison {
    /// Compares what follows the recording that the reader has read to its end, in the arena of its map. The only error
    /// is that memory is refused; the map is then gone.
    pub fn new(alloc: Global, map: ArenaMap, reader: DemoReader) -> Result<Comparison, AllocError>
        ensures map { IfOk result (λ c. map_in c.mover.action ≡ map) }
        ensures demo { IfOk result (λ c. c.lines.input.demo ≡ reader) }
        ensures count { IfOk result (λ c. c.lines.input.count ≡ 0) }
        ensures held { IfOk result (λ c. c.lines.input.held ≡ false) }
    {
        let others = OtherList::new(alloc)?;
        Ok(Comparison {
            mover: Mover::new(alloc, map, others)?,
            pending: Pending::new(alloc)?,
            lines: Lines::new(alloc, reader)?,
        })
    }

    /// Whether the line that was read last reports a move that is the next one of its player, and what running it on the
    /// world comes to.
    fn is_next_move(&mut self, world: &mut World) -> bool
        requires valid { IsValidWorld (map_in self.old.mover.action) world.old.records }
        requires live { AllByRecursion (HasLivePlayer world.old.records) self.old.pending }
        ensures ok { OnTrue result (specs.ReportsMove (map_in self.old.mover.action) self.old.lines.input.given
            world.old.records world.new.records self.old.pending self.new.pending) }
        ensures missed { OnFalse result (specs.ReportsNone (map_in self.old.mover.action) self.old.lines.input.given
            world.old.records self.old.pending) }
        ensures input { self.new.lines.input ≡ self.old.lines.input }
        ensures action { self.new.mover.action ≡ self.old.mover.action }
    {
        let Some(reported) = self.lines.reported() else {
            return false;
        };
        let Some(cmd) = self.pending.take_first_of(reported.slot) else {
            return false;
        };
        if cmd.seq != reported.seq {
            return false;
        }
        let line = run_for_line(&mut self.mover, world, &cmd);
        self.lines.is_given(&line)
    }

    /// Whether the next line reports a move that is the next one of its player, and what running it on the world comes
    /// to.
    fn expect_move<S: Source>(
        &mut self,
        world: &mut World,
        source: &mut S,
    ) -> Result<bool, DemoStop>
        requires may { MayRead S.Source self.old.lines.input source.old }
        requires valid { IsValidWorld (map_in self.old.mover.action) world.old.records }
        requires live { AllByRecursion (HasLivePlayer world.old.records) self.old.pending }
        ensures ok { IfOk result (λ is. OnTrue is (TakesMove S.Source (map_in self.old.mover.action) source.old source.new
            self.old.lines.input self.new.lines.input world.old.records world.new.records self.old.pending
            self.new.pending)) }
        ensures missed { IfOk result (λ is. OnFalse is (Misses S.Source source.old source.new self.old.lines.input
            (IsNoMove (map_in self.old.mover.action) world.old.records self.old.pending))) }
        ensures looked { IfOk result (λ is. OnFalse is
            (ReadsOneAtMost S.Source source.old source.new self.old.lines.input self.new.lines.input)) }
        ensures err { IfErr result (ReadFails S.Source source.old source.new self.old.lines.input) }
        ensures action { self.new.mover.action ≡ self.old.mover.action }
    {
        if !self.lines.input.take(source)? {
            return Ok(false);
        }
        Ok(self.is_next_move(world))
    }

    /// Whether the next lines report the moves that are left, each once and each player's in the order sent, and what
    /// running them on the world, one after another, comes to.
    fn expect_moves<S: Source>(
        &mut self,
        world: &mut World,
        source: &mut S,
    ) -> Result<bool, DemoStop>
        requires may { MayRead S.Source self.old.lines.input source.old }
        requires valid { IsValidWorld (map_in self.old.mover.action) world.old.records }
        requires live { All (HasLivePlayer world.old.records) self.old.pending }
        requires apart { HasNumbersApart self.old.pending }
        requires small { AllByRecursion HasSmallNumber self.old.pending }
        ensures ok { IfOk result (λ is. OnTrue is (RunsMoves S.Source (map_in self.old.mover.action) source.old source.new
            self.old.lines.input self.new.lines.input world.old.records world.new.records self.old.pending)) }
        ensures missed { IfOk result (λ is. OnFalse is (Misses S.Source source.old source.new self.old.lines.input
            (HasNoJournal (IsRight (outcome_on (map_in self.old.mover.action)) (world_of world.old.records)
            self.old.pending) (map did_line)))) }
        ensures looked { IfOk result (λ is. OnFalse is (ReadsBeginning S.Source (AreOfJournal
            (IsRight (outcome_on (map_in self.old.mover.action)) (world_of world.old.records) self.old.pending)
            (map did_line)) source.old source.new self.old.lines.input self.new.lines.input)) }
        ensures err { IfErr result (ReadFails S.Source source.old source.new self.old.lines.input) }
        ensures action { self.new.mover.action ≡ self.old.mover.action }
    {
        while !self.pending.is_empty() {
            if !self.expect_move(world, source)? {
                return Ok(false);
            }
        }
        Ok(true)
    }
}
