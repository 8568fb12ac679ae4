ghost use Rattle.std.specs.Prelude.{◌≡◌, true};
ghost use Rattle.ruled_words.specs.Passes.{IsOwn, next_in, after_in};
ghost use Rattle.region_locks.specs.NextCalls.{is_unlink_next};
ghost use Rattle.region_locks.specs.NextCalls.{is_store_next, is_link_next};

use crate::owed::{bit_owed, put_owed, slot_and_seq};
use crate::pass::Pass;
use crate::table::NodeTable;
use core_steps::list_word;
use entity_recs::Action;
use ruled_words::WordStep;

impl<'a, A: Action> NodeTable<'a, A> {
    /// Clears the own player's bit in the list word of its old node, which is the pass's next step.
    pub fn unlink(&self, pass: &mut Pass<A>)
        requires own { IsOwn A.meaning self.now pass.old }
        requires next { is_unlink_next (next_in A.meaning self.now pass.old)
            ≡ true }
        ensures own { IsOwn A.meaning self.now pass.new }
        ensures pass { pass.new ≡ after_in A.meaning self.now 0 pass.old }
    {
        let (slot, _) = slot_and_seq(&pass.seat);
        let word = list_word(bit_owed(&pass.seat));
        self.step_word(pass, usize::from(word), WordStep::Clear(slot));
    }

    /// Stores the next word that is owed after the commit, which is the pass's next step: first the five words and the
    /// state word of the own record, then the new states of the effect, in its order.
    pub fn store_next(&self, pass: &mut Pass<A>)
        requires own { IsOwn A.meaning self.now pass.old }
        requires next { is_store_next (next_in A.meaning self.now pass.old)
            ≡ true }
        ensures own { IsOwn A.meaning self.now pass.new }
        ensures pass { pass.new ≡ after_in A.meaning self.now 0 pass.old }
    {
        let (word, new) = put_owed(&pass.seat);
        self.step_word(pass, word, WordStep::Store(new));
    }

    /// Sets the own player's bit in the list word of its new node, which is the pass's next step.
    pub fn link(&self, pass: &mut Pass<A>)
        requires own { IsOwn A.meaning self.now pass.old }
        requires next { is_link_next (next_in A.meaning self.now pass.old)
            ≡ true }
        ensures own { IsOwn A.meaning self.now pass.new }
        ensures pass { pass.new ≡ after_in A.meaning self.now 0 pass.old }
    {
        let (slot, _) = slot_and_seq(&pass.seat);
        let word = list_word(bit_owed(&pass.seat));
        self.step_word(pass, usize::from(word), WordStep::Set(slot));
    }
}
