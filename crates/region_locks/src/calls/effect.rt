ghost use Rattle.std.specs.Prelude.{◌≡◌};
ghost use Rattle.core_steps.specs.Points.{Resolving};
ghost use Rattle.core_steps.specs.Reads.{effect_loaded};
ghost use Rattle.ruled_words.specs.Passes.{fixed_in, IsOwn};

use crate::pass::Pass;
use crate::table::NodeTable;
use entity_recs::{Action, Effect};

impl<'a, A: Action> NodeTable<'a, A> {
    /// The effect of the command in hand, once all is read: what the action gives on what the pass has loaded.
    pub fn effect(&self, pass: &mut Pass<A>) -> Effect
        requires own { IsOwn A.meaning self.now pass.old }
        requires read { pass.old.view.point ≡ Resolving }
        ensures effect { result ≡ effect_loaded (fixed_in A.meaning self.now) pass.old.view }
        ensures pass { pass.new ≡ pass.old }
    {
        let Some(effect) = pass.seat.resolved(self.rules(), &mut pass.room.near) else {
            unreachable!()
        };
        effect
    }
}
