ghost use Rattle.std.specs.Prelude.{◌≡◌, true, false, not, is_some};
ghost use Rattle.core_steps.specs.Steps.{first_yield, is_taking};
ghost use Rattle.ruled_words.specs.Passes.{fixed_in, IsOwn};
ghost use Rattle.shared_moves.specs.InHand.{MayBegin};
ghost use Rattle.region_locks.specs.Quitting.{HasQuit, has_next_step, next_step};

use crate::pass::Pass;
use crate::table::NodeTable;
use core_steps::Step;
use entity_recs::Action;
use ruled_words::WordStep;

impl<'a, A: Action> NodeTable<'a, A> {
    /// The pass's next step, by its kind and its word. `None` exactly where the pass has no command in hand, or where
    /// `resolve` is to be called next.
    pub fn next(&self, pass: &Pass<A>) -> Option<Step>
        requires own { IsOwn A.meaning self.now pass.now }
        ensures step { result ≡ next_step (fixed_in A.meaning self.now) pass.now }
        ensures some { is_some result ≡ has_next_step pass.now }
    {
        let number = pass.number();
        pass.seat.next_step(self.rules(), number, &pass.effect)
    }

    /// Whether the pass holds no node.
    fn holds_nothing(&self, pass: &Pass<A>) -> bool
        ensures { result ≡ not (is_some (first_yield (fixed_in A.meaning self.now)
            pass.now.view)) }
    {
        pass.seat.inner_held(self.rules()).is_empty() && pass.seat.leaves_held().is_empty()
    }

    /// Gives up the command in hand, as after a refused take. What the pass holds is to be given back next, inner nodes
    /// and then leaves, each in rising number, and with the last of them the command is no longer in hand. Where
    /// the pass holds nothing the count is loaded at once, and the command is then no longer in hand. Giving up may
    /// begin at any take before the commit, and where the commit comes next; a pass that was not refused may do so too.
    pub fn quit(&self, pass: &mut Pass<A>)
        requires own { IsOwn A.meaning self.now pass.old }
        requires at_take { is_taking pass.old.view.point ≡ true }
        ensures own { IsOwn A.meaning self.now pass.new }
        ensures pass { HasQuit (fixed_in A.meaning self.now) pass.old pass.new }
        ensures free { is_some (first_yield (fixed_in A.meaning self.now) pass.old.view) ≡ false
            → MayBegin pass.new }
    {
        let holds_nothing = self.holds_nothing(pass);
        pass.seat.quits = true;
        if holds_nothing {
            self.step_word(pass, 0, WordStep::Load);
        }
    }
}
