ghost use Rattle.arena_actions.specs.MapActions.{map_in};
ghost use Rattle.std.specs.Prelude.{◌≡◌, ◌*◌, ◌≤◌, length, All, IfOk, IfErr};
ghost use Rattle.std.specs.Bool.{OnTrue, OnFalse};
ghost use Rattle.move_journal.specs.Merges.{IsRight, HasNumbersApart};
ghost use Rattle.arena_map.specs.Validity.{IsValidWorld};
ghost use Rattle.arena_outcomes.specs.Outcomes.{outcome_on};
ghost use Rattle.plain_server.specs.RecordsById.{world_of};
ghost use Rattle.plain_server.specs.Moving.{HasLivePlayer};
ghost use Rattle.out_text.specs.OutLines.{text_of};
ghost use Rattle.out_text.specs.Transcripts.{BeginsWith};
ghost use Rattle.transcript_check.specs.Reading.{MayRead, ReadsLines, Misses, ReadFails, ReadsBeginning};
ghost use Rattle.transcript_check.specs.Moves.{answers_among, RunsAnswers};
ghost use Rattle.transcript_check.specs.Pieces.{HasNoJournal, AreOfJournal, early_lines};

use super::Comparison;
use crate::lines::Lines;
use client_ports::Received;
use demo_lines::DemoStop;
use edge_io::Source;
use world_tree::World;

/// Whether the next lines are the refusals and the joins of a frame.
fn expect_early<S: Source>(
    lines: &mut Lines,
    received: &Received,
    source: &mut S,
) -> Result<bool, DemoStop>
    requires may { MayRead S.Source lines.old.input source.old }
    ensures ok { IfOk result (λ is. OnTrue is (ReadsLines S.Source source.old source.new lines.old.input lines.new.input
        (early_lines received.now.lists))) }
    ensures missed { IfOk result (λ is. OnFalse is (Misses S.Source source.old source.new lines.old.input
        (λ bytes. BeginsWith bytes (text_of (early_lines received.now.lists)) → ⊥))) }
    ensures looked { IfOk result (λ is. OnFalse is (ReadsBeginning S.Source
        (λ these. these ≡ early_lines received.now.lists) source.old source.new lines.old.input lines.new.input)) }
    ensures err { IfErr result (ReadFails S.Source source.old source.new lines.old.input) }
{
    if !lines.expect_each(received.refused(), source)? {
        return Ok(false);
    }
    lines.expect_each(received.joined(), source)
}

impl Comparison {
    /// Whether the next lines are those of a frame after its first, in which this was received: its moves are run on the
    /// world.
    pub fn expect_answers<S: Source>(
        &mut self,
        frame: u32,
        received: &Received,
        world: &mut World,
        source: &mut S,
    ) -> Result<bool, DemoStop>
        requires may { MayRead S.Source self.old.lines.input source.old }
        requires valid { IsValidWorld (map_in self.old.mover.action) world.old.records }
        requires live { All (HasLivePlayer world.old.records) received.now.lists.moves }
        requires apart { HasNumbersApart received.now.lists.moves }
        requires few { length received.now.lists.moves ≤ 8 * 64 }
        ensures ok { IfOk result (λ is. OnTrue is (RunsAnswers S.Source (map_in self.old.mover.action) frame
            received.now.lists source.old source.new self.old.lines.input self.new.lines.input world.old.records
            world.new.records)) }
        ensures missed { IfOk result (λ is. OnFalse is (Misses S.Source source.old source.new self.old.lines.input
            (HasNoJournal (IsRight (outcome_on (map_in self.old.mover.action)) (world_of world.old.records)
            received.now.lists.moves)
            (answers_among (map_in self.old.mover.action) frame world.old.records received.now.lists)))) }
        ensures looked { IfOk result (λ is. OnFalse is (ReadsBeginning S.Source (AreOfJournal
            (IsRight (outcome_on (map_in self.old.mover.action)) (world_of world.old.records) received.now.lists.moves)
            (answers_among (map_in self.old.mover.action) frame world.old.records received.now.lists))
            source.old source.new self.old.lines.input self.new.lines.input)) }
        ensures err { IfErr result (ReadFails S.Source source.old source.new self.old.lines.input) }
        ensures action { self.new.mover.action ≡ self.old.mover.action }
    {
        if !expect_early(&mut self.lines, received, source)? {
            return Ok(false);
        }
        self.pending.set(received.moves());
        if !self.expect_moves(world, source)? {
            return Ok(false);
        }
        self.lines.expect_replies(world, frame, source)
    }
}
