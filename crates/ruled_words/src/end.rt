ghost use Rattle.std.specs.Prelude.{◌≡◌, ℕ, ◌<◌, length, slice_index};
ghost use Rattle.std.specs.Mem.Slots.{slots_items, slots_len, IsFull};
ghost use mathlib.Core.Option.{some};
ghost use lib.ListN.{get_elem?};
ghost use Rattle.core_steps.specs.Stands.{IsStart};
ghost use Rattle.ruled_words.specs.Going.{IsAtRest};
ghost use Rattle.ruled_words.specs.Passes.{fixed_in, sight_of};
ghost use Rattle.ruled_words.specs.Sights.{AreRefusalsServed, with_one_ended};
ghost use Rattle.ruled_words.specs.Ends.{AreEndedBelow, Closes, ClosesInto};
ghost use Rattle.world_tree.specs.Worlds.{IsLinked};

use crate::hand::Hand;
use crate::shared_words::SharedWords;
use atomic_table::Closed;
use core_steps::TABLE_WORDS;
use entity_recs::Action;
use records::relink_all;
use std::alloc::Global;
use world_tree::World;

mod records;

/// The words of a closed table, whose memory is given back.
fn words_of(closed: Closed<(), Global>) -> [u64; TABLE_WORDS]
    requires size { (slots_len closed.words ≡ TABLE_WORDS) × (slots_len closed.slots ≡ 0) }
    requires full { IsFull closed.words }
    ensures { (k : ℕ) → k < TABLE_WORDS → get_elem? (slots_items closed.words) k ≡ some (slice_index result k) }
{
    let mut words = [0; TABLE_WORDS];
    for i in 0..TABLE_WORDS {
        words[i] = closed.word(i);
    }
    closed.free();
    words
}

impl<'a, A: Action> SharedWords<'a, A> {
    /// The seat of another hand that rests is ended into that of the first.
    pub fn end(&self, first: &mut Hand, other: Hand)
        requires table { (first.old.table ≡ self.now.table) × (other.table ≡ self.now.table) }
        requires rests { IsAtRest first.old.view × IsAtRest other.view }
        requires first { first.old.number ≡ 0 }
        ensures table { first.new.table ≡ first.old.table }
        ensures sight { sight_of first.new ≡ with_one_ended (sight_of first.old) (sight_of other) }
    {
        first.end(&self.table.shared, other);
    }

    // The words are copied into an array and the table is freed before any record is read, so the functions on
    // records see plain words.
    /// Closes the table, of which all other seats were ended into the first one's, and makes the records of the world that
    /// the table began with those of its words. It takes no memory.
    pub fn close_into(self, first: Hand, world: &mut World)
        requires table { first.table ≡ self.table }
        requires rests { IsAtRest first.view }
        requires first { first.number ≡ 0 }
        requires ended { AreEndedBelow (length self.rooms) first.view }
        requires world { world.old ≡ self.world }
        ensures closes { ClosesInto (fixed_in A.meaning self.entry) world.new first.view }
        ensures refusals { AreRefusalsServed first.tally }
        ensures made { first.view.made ≡ length self.entry.rooms }
        ensures tree { world.new.tree ≡ world.old.tree }
        ensures linked { IsLinked world.new }
    {
        relink_all(&self.close(first), world);
    }

    /// Closes the table, of which all other seats were ended into the first one's, and gives its words. It takes no
    /// memory.
    fn close(self, first: Hand) -> [u64; TABLE_WORDS]
        requires table { first.table ≡ self.table }
        requires rests { IsAtRest first.view }
        requires first { first.number ≡ 0 }
        requires ended { AreEndedBelow (length self.rooms) first.view }
        ensures closes { Closes (fixed_in A.meaning self.entry) result first.view }
        ensures refusals { AreRefusalsServed first.tally }
        ensures made { first.view.made ≡ length self.entry.rooms }
        ensures start { IsStart (fixed_in A.meaning self.entry) }
    {
        let SharedWords {
            rules: _rules,
            table,
        } = self;
        words_of(table.close_with(first.into_table_seat()))
    }
}
