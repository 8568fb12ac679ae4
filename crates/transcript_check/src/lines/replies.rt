ghost use Rattle.std.specs.Prelude.{◌≡◌, map, IfOk, IfErr};
ghost use Rattle.std.specs.Option.{option_to_list};
ghost use Rattle.std.specs.Bool.{OnTrue, OnFalse};
ghost use Rattle.world_tree.specs.Worlds.{IsLinked, record_of};
ghost use Rattle.world_tree.specs.Live.{live_in};
ghost use Rattle.out_text.specs.FrameLines.{to_line, to_lines};
ghost use Rattle.out_text.specs.OutLines.{text_of};
ghost use Rattle.out_text.specs.Transcripts.{BeginsWith};
ghost use Rattle.transcript_check.specs.Reading.{MayRead, ReadsLines, Misses, ReadFails, ReadsOneAtMost, ReadsBeginning};

use super::{Lines, expect_printed};
use demo_lines::DemoStop;
use edge_io::Source;
use entity_recs::SLOTS;
use out_text::OutLine;
use snapshot_write::write_snapshot;
use world_tree::World;

impl Lines {
    /// Whether the next line is that of the snapshot of the player in this slot, if it is live; else nothing is read.
    fn expect_reply<S: Source>(
        &mut self,
        world: &World,
        frame: u32,
        slot: u8,
        source: &mut S,
    ) -> Result<bool, DemoStop>
        requires may { MayRead S.Source self.old.input source.old }
        ensures ok { IfOk result (λ is. OnTrue is (ReadsLines S.Source source.old source.new self.old.input self.new.input
            (map (to_line frame (live_in world.now.records)) (option_to_list (record_of world.now slot))))) }
        ensures missed { IfOk result (λ is. OnFalse is (Misses S.Source source.old source.new self.old.input
            (λ bytes. BeginsWith bytes (text_of (map (to_line frame (live_in world.now.records))
            (option_to_list (record_of world.now slot)))) → ⊥))) }
        ensures looked { IfOk result (λ is. OnFalse is
            (ReadsOneAtMost S.Source source.old source.new self.old.input self.new.input)) }
        ensures err { IfErr result (ReadFails S.Source source.old source.new self.old.input) }
        ensures linked { IsLinked world.now }
    {
        let Some(_player) = world.get(u16::from(slot)) else {
            return Ok(true);
        };
        self.bytes.clear();
        write_snapshot(world, frame, slot, &mut self.bytes);
        let line = OutLine::To {
            slot,
            bytes: self.bytes.as_slice(),
        };
        expect_printed(&mut self.input, &mut self.wanted, &line, source)
    }

    /// Whether the next lines are those of the snapshots of the live players, in rising slot.
    pub fn expect_replies<S: Source>(
        &mut self,
        world: &World,
        frame: u32,
        source: &mut S,
    ) -> Result<bool, DemoStop>
        requires may { MayRead S.Source self.old.input source.old }
        ensures ok { IfOk result (λ is. OnTrue is (ReadsLines S.Source source.old source.new self.old.input self.new.input
            (to_lines frame world.now.records))) }
        ensures missed { IfOk result (λ is. OnFalse is (Misses S.Source source.old source.new self.old.input
            (λ bytes. BeginsWith bytes (text_of (to_lines frame world.now.records)) → ⊥))) }
        ensures looked { IfOk result (λ is. OnFalse is (ReadsBeginning S.Source
            (λ lines. lines ≡ to_lines frame world.now.records) source.old source.new self.old.input self.new.input)) }
        ensures err { IfErr result (ReadFails S.Source source.old source.new self.old.input) }
    {
        for slot in 0..SLOTS as u8 {
            if !self.expect_reply(world, frame, slot, source)? {
                return Ok(false);
            }
        }
        Ok(true)
    }
}
