ghost use Rattle.std.specs.Prelude.{◌≡◌, ℕ, List, [], ◌∷◌, ◌++◌, ◌≤◌, true, length, is_some};
ghost use Rattle.core_steps.specs.declared.step.StepKind.TheVariants.{Commit};
ghost use Rattle.core_steps.specs.Machine.{ReadPlayer, YieldCount, index_of, kind_of};
ghost use Rattle.core_steps.specs.Reads.{record_read};
ghost use Rattle.core_seats.specs.Nexts.{the_next};
ghost use Rattle.ruled_words.specs.Holders.{IsFoundNode};
ghost use Rattle.ruled_words.specs.Passes.{fixed_in, word_after, IsOwn, next_in, after_in};
ghost use Rattle.ruled_words.specs.WordSteps.{word_by, MayBe};

use crate::follow::follow;
use crate::pass::Pass;
use crate::table::NodeTable;
use entity_recs::Action;
use ruled_words::WordStep;

impl<'a, A: Action> NodeTable<'a, A> {
    /// The pass makes its next step, which does this to the word, and gives the word that was found, or for a store the
    /// one that was stored.
    pub(crate) fn step_word(&self, pass: &mut Pass<A>, word: usize, step: WordStep) -> u64
        requires own { IsOwn A.meaning self.now pass.old }
        requires comes { is_some (next_in A.meaning self.now pass.old) ≡ true }
        requires index { word ≡ index_of pass.old.view (the_next (next_in A.meaning self.now pass.old)) }
        requires left { (found : ℕ) → word_after (fixed_in A.meaning self.now) pass.old found ≡ word_by step found }
        requires may { MayBe step (fixed_in A.meaning self.now) pass.old.view
            (the_next (next_in A.meaning self.now pass.old)) word }
        ensures pass { pass.new ≡ after_in A.meaning self.now result pass.old }
        ensures own { IsOwn A.meaning self.now pass.new }
        ensures taken { (node slot : ℕ) (part players plan : List ℕ)
            → the_next (next_in A.meaning self.now pass.old) ≡ ReadPlayer node part slot players plan
            → length part ≡ 5 → (A.meaning self.now.action).takes (record_read slot (part ++ result ∷ [])) ≡ true }
        ensures counted { the_next (next_in A.meaning self.now pass.old) ≡ YieldCount → pass.old.view.seen ≤ result }
        ensures node { IsFoundNode (fixed_in A.meaning self.now) (length self.now.rooms) pass.old.number pass.old.view
            (the_next (next_in A.meaning self.now pass.old)) result }
        ensures seen { kind_of (the_next (next_in A.meaning self.now pass.old)) ≡ Commit
            → pass.old.view.seen ≤ result }
        ensures stored { (new : ℕ) → step ≡ WordStep.Store new → result ≡ new }
    {
        let found = self.words.step_beside(
            &mut pass.hand,
            &pass.seat.given,
            pass.seat.quits,
            &pass.effect,
            word,
            step,
        );
        follow(self.rules(), &mut pass.seat, &mut pass.effect, found);
        found
    }
}
