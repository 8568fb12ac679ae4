ghost use Rattle.std.specs.Prelude.{◌≡◌, Some, None};
ghost use Rattle.core_steps.specs.Points.{Resolving};
ghost use Rattle.core_steps.specs.Reads.{effect_loaded};
ghost use Rattle.ruled_words.specs.Passes.{fixed_in, IsOwn};

use crate::pass::Pass;
use crate::table::NodeTable;
use entity_recs::{Action, Effect};

impl<'a, A: Action> NodeTable<'a, A> {
    /// Gives the pass the effect of its command, which it keeps: what the action gives on what the pass has loaded. It
    /// is no step on a word. The write nodes, the entry and the stores follow from it.
    pub fn resolve(&self, pass: &mut Pass<A>, e: Effect)
        requires own { IsOwn A.meaning self.now pass.old }
        requires read { pass.old.view.point ≡ Resolving }
        requires once { pass.old.effect ≡ None }
        requires effect { e ≡ effect_loaded (fixed_in A.meaning self.now) pass.old.view }
        ensures own { IsOwn A.meaning self.now pass.new }
        ensures pass { pass.new ≡ record pass.old { effect = Some e } }
    {
        pass.effect = Some(e);
    }
}
