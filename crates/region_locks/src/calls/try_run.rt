ghost use Rattle.std.specs.Prelude.{◌≡◌, ◌%◌, true, length, IfOk, IfErr, OnOk};
ghost use Rattle.entity_recs.specs.Commands.{command_of};
ghost use Rattle.core_steps.specs.Nodes.{has};
ghost use Rattle.ruled_words.specs.GivingUp.{NoTakeWasRefused};
ghost use Rattle.ruled_words.specs.Passes.{fixed_in, IsOwn};
ghost use Rattle.shared_moves.specs.InHand.{MayBegin};
ghost use Rattle.shared_moves.specs.Moves.{HasRun, WasNotRun};

use crate::pass::Pass;
use crate::table::NodeTable;
use entity_recs::{Action, Cmd, Entry};
use move_journal::same_entry;
use ruled_words::{AtOnce, GivenUp};
use shared_moves::{Again, NoGate, again_after, walk};

impl<'a, A: Action> NodeTable<'a, A> {
    // The hand makes the whole move, and the seat in plain values comes after it: it keeps the entry, or looks at the
    // count that the hand may have seen as it gave up.
    /// Runs the command and gives its entry, without waiting: no take is refused. `Err` where a node that it takes was
    /// held by another pass, at the first such take; then nothing is committed, the pass holds no node, and the command
    /// may be tried again.
    pub fn try_run(&self, pass: &mut Pass<A>, cmd: Cmd) -> Result<Entry, Again>
        requires own { IsOwn A.meaning self.now pass.old }
        requires free { MayBegin pass.old }
        requires live { has (fixed_in A.meaning self.now).start.ids cmd.slot ≡ true }
        requires serves { cmd.slot % length self.now.rooms ≡ pass.old.number }
        ensures ok { IfOk result (λ e. HasRun (fixed_in A.meaning self.now)
            (length self.now.rooms) self.now.table pass.old pass.new (command_of cmd) e) }
        ensures served { OnOk result (NoTakeWasRefused pass.old pass.new) }
        ensures err { IfErr result (λ a. WasNotRun (fixed_in A.meaning self.now)
            (length self.now.rooms) self.now.table pass.old pass.new (command_of cmd) a) }
    {
        pass.seat.forget();
        match walk(
            &self.words,
            &AtOnce,
            &mut pass.hand,
            &mut pass.seat.refusals,
            &mut pass.room,
            &cmd,
            &NoGate,
        ) {
            Ok(entry) => {
                pass.seat.keep(cmd, same_entry(&entry));
                Ok(entry)
            }
            Err(GivenUp) => {
                pass.seat.seen = self.words.look_on(&mut pass.hand);
                // The refused take was noted.
                let refused = pass.seat.refusals.last.as_ref().unwrap();
                Err(again_after(refused, self.words.first_leaf()))
            }
        }
    }
}
