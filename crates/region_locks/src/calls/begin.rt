ghost use Rattle.std.specs.Prelude.{◌≡◌, ◌≤◌, ◌%◌, ◌<◌, true, length, Some, None};
ghost use Rattle.entity_recs.specs.Commands.{command_of};
ghost use Rattle.core_steps.specs.Nodes.{has};
ghost use Rattle.core_steps.specs.Points.{Idle};
ghost use Rattle.ruled_words.specs.Going.{view_looked};
ghost use Rattle.ruled_words.specs.Passes.{fixed_in, sight_of, IsOwn};
ghost use Rattle.ruled_words.specs.Plays.{IsSoundSight};

use crate::pass::Pass;
use crate::table::NodeTable;
use entity_recs::{Action, Cmd};

impl<'a, A: Action> NodeTable<'a, A> {
    /// Gives the pass a command. It is no step on a word: the command enters the pass's view with the first load of its
    /// own record.
    pub fn begin(&self, pass: &mut Pass<A>, cmd: Cmd)
        requires own { IsOwn A.meaning self.now pass.old }
        requires none { (pass.old.given ≡ None) × (pass.old.view.point ≡ Idle) }
        requires room { length pass.old.view.log < pass.old.view.room }
        requires live { has (fixed_in A.meaning self.now).start.ids cmd.slot ≡ true }
        requires serves { cmd.slot % length self.now.rooms ≡ pass.old.number }
        ensures own { IsOwn A.meaning self.now pass.new }
        ensures pass { pass.new ≡ record pass.old { given = Some (command_of cmd) } }
    {
        pass.seat.given = Some(cmd);
    }

    /// The pass, which rests, loads the count.
    fn look_word(&self, pass: &mut Pass<A>) -> u64
        requires own { IsOwn A.meaning self.now pass.old }
        requires rests { pass.old.view.point ≡ Idle }
        ensures pass { pass.new ≡ record pass.old { view = view_looked result pass.old.view } }
        ensures seen { pass.old.view.seen ≤ result }
        ensures sound_sight { IsSoundSight (fixed_in A.meaning self.now) (length self.now.rooms)
            (sight_of pass.new) }
    {
        let seen = self.words.look_on(&mut pass.hand);
        pass.seat.seen = seen;
        seen
    }

    /// Loads the count of commits, with no command in hand. The pass has then seen that number.
    pub fn look(&self, pass: &mut Pass<A>) -> u64
        requires own { IsOwn A.meaning self.now pass.old }
        requires none { (pass.old.given ≡ None) × (pass.old.view.point ≡ Idle) }
        ensures own { IsOwn A.meaning self.now pass.new }
        ensures pass { pass.new ≡ record pass.old { view = view_looked result pass.old.view } }
        ensures seen { pass.old.view.seen ≤ result }
    {
        self.look_word(pass)
    }
}
