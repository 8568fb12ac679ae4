ghost use Rattle.std.specs.Prelude.{◌≡◌, ℕ, true, length, is_some, Some, OnOk, IfErr};
ghost use Rattle.core_steps.specs.Steps.{is_taking};
ghost use Rattle.ruled_words.specs.Holders.{IsOtherHolder, IsReached};
ghost use Rattle.ruled_words.specs.Passes.{fixed_in, IsHolderIn, first_effect, IsOwn, next_in, after_in};
ghost use Rattle.ruled_words.specs.Passes.{node_taken_next, node_given_next, list_read_next, state_read_next};

use crate::pass::Pass;
use crate::table::NodeTable;
use core_steps::{FIRST_STATE_WORD, list_word, node_word};
use entity_recs::{Action, Effect};
use ruled_words::WordStep;
use shared_moves::{Holder, holder_in};

/// Whether one of two effects is there: the one that is kept, or the one in view.
fn is_in_hand(kept: &Option<Effect>, in_view: &Option<Effect>) -> bool
    ensures { result ≡ is_some (first_effect kept.now in_view.now) }
{
    kept.is_some() || in_view.is_some()
}

impl<'a, A: Action> NodeTable<'a, A> {
    /// Takes the node, which is the pass's next step. `Err` exactly where its word was not 0, so that another pass held
    /// it: the error names that pass and its leaves, and the pass keeps the word as its last refused take.
    pub fn take(&self, pass: &mut Pass<A>, node: u8) -> Result<(), Holder>
        requires own { IsOwn A.meaning self.now pass.old }
        requires next { node_taken_next (next_in A.meaning self.now pass.old)
            ≡ Some node }
        ensures own { IsOwn A.meaning self.now pass.new }
        ensures ok { OnOk result (pass.new ≡ after_in A.meaning self.now 0 pass.old) }
        ensures err { IfErr result (λ h. (found : ℕ)
            × (pass.new ≡ after_in A.meaning self.now found pass.old)
            × IsHolderIn (fixed_in A.meaning self.now) found node h.number h.leaves
            × IsOtherHolder (fixed_in A.meaning self.now) (length self.now.rooms) pass.old.number node found
            h.number h.leaves
            × IsReached (fixed_in A.meaning self.now) pass.old.view node) }
        ensures may_quit { IfErr result (λ h. is_taking pass.new.view.point ≡ true) }
    {
        let number = pass.number();
        let writing = is_in_hand(&pass.effect, &pass.seat.effect);
        let wanted = pass.seat.wanted.as_slice();
        let new = self.rules().held_word(number, writing, wanted, node);
        let found = self.step_word(pass, usize::from(node_word(node)), WordStep::Take(new));
        if found == 0 {
            Ok(())
        } else {
            Err(holder_in(found, self.rules().is_leaf(node)))
        }
    }

    /// Gives back the node, which is the pass's next step: after a visit, after the commit, or while it gives up.
    pub fn give_back(&self, pass: &mut Pass<A>, node: u8)
        requires own { IsOwn A.meaning self.now pass.old }
        requires next { node_given_next (next_in A.meaning self.now pass.old)
            ≡ Some node }
        ensures own { IsOwn A.meaning self.now pass.new }
        ensures pass { pass.new ≡ after_in A.meaning self.now 0 pass.old }
    {
        self.step_word(pass, usize::from(node_word(node)), WordStep::Store(0));
    }

    /// Loads the list word of the node, which is the pass's next step: bit p is set where player p is linked there.
    pub fn load_list(&self, pass: &mut Pass<A>, node: u8) -> u64
        requires own { IsOwn A.meaning self.now pass.old }
        requires next { list_read_next (next_in A.meaning self.now pass.old)
            ≡ Some node }
        ensures own { IsOwn A.meaning self.now pass.new }
        ensures pass { pass.new ≡ after_in A.meaning self.now result pass.old }
    {
        self.step_word(pass, usize::from(list_word(node)), WordStep::Load)
    }

    /// Loads the state word of a thing of the map, which is the pass's next step.
    pub fn load_state(&self, pass: &mut Pass<A>, id: u16) -> u64
        requires own { IsOwn A.meaning self.now pass.old }
        requires next { state_read_next (next_in A.meaning self.now pass.old)
            ≡ Some id }
        ensures own { IsOwn A.meaning self.now pass.new }
        ensures pass { pass.new ≡ after_in A.meaning self.now result pass.old }
    {
        self.step_word(
            pass,
            usize::from(FIRST_STATE_WORD) + usize::from(id),
            WordStep::Load,
        )
    }
}
