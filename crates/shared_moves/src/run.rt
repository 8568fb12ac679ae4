ghost use Rattle.std.specs.Prelude.{◌≡◌, ◌%◌, true, length, IfOk, IfErr, OnOk};
ghost use Rattle.entity_recs.specs.Commands.{command_of};
ghost use Rattle.core_steps.specs.Nodes.{has};
ghost use Rattle.ruled_words.specs.GivingUp.{NoTakeWasRefused};
ghost use Rattle.ruled_words.specs.Passes.{fixed_in, IsOwn};
ghost use Rattle.shared_moves.specs.InHand.{MayBegin};
ghost use Rattle.shared_moves.specs.Moves.{HasRun, HasRunIntoLog, WasNotRun};

use crate::again::{Again, again_after};
use crate::gate::Gate;
use crate::pass::Pass;
use crate::shared::Shared;
use crate::walking::walk;
use entity_recs::{Action, Cmd, Entry};
use move_journal::same_entry;
use ruled_words::{AtOnce, GivenUp, Waiting};
use std::sync::Wait;

impl<'a, A: Action> Shared<'a, A> {
    /// Runs the command, whose entry the log of the pass then ends with. Each take that is refused is tried again until
    /// it is served, so the call may wait.
    pub fn run_into_log<R: Wait, G: Gate>(&self, rt: &R, pass: &mut Pass<A>, cmd: Cmd, gate: &G)
        requires own { IsOwn A.meaning self.now pass.old }
        requires free { MayBegin pass.old }
        requires live { has (fixed_in A.meaning self.now).start.ids cmd.slot ≡ true }
        requires serves { cmd.slot % length self.now.rooms ≡ pass.old.number }
        ensures { HasRunIntoLog (fixed_in A.meaning self.now) (length self.now.rooms) self.now.table
            pass.old pass.new (command_of cmd) }
    {
        let walked = walk(
            &self.words,
            &Waiting { rt },
            &mut pass.hand,
            &mut pass.refusals,
            &mut pass.room,
            &cmd,
            gate,
        );
        // A walk that waits isn't given up.
        pass.log.push(walked.unwrap());
    }

    /// Runs the command and gives its entry, as `run_into_log`, which leaves it in the log of the pass.
    pub fn run<R: Wait, G: Gate>(&self, rt: &R, pass: &mut Pass<A>, cmd: Cmd, gate: &G) -> Entry
        requires own { IsOwn A.meaning self.now pass.old }
        requires free { MayBegin pass.old }
        requires live { has (fixed_in A.meaning self.now).start.ids cmd.slot ≡ true }
        requires serves { cmd.slot % length self.now.rooms ≡ pass.old.number }
        ensures { HasRun (fixed_in A.meaning self.now) (length self.now.rooms) self.now.table
            pass.old pass.new (command_of cmd) result }
    {
        self.run_into_log(rt, pass, cmd, gate);
        pass.last_entry()
    }

    /// Runs the command and gives its entry, without waiting: no take is refused. `Err` where a node that it takes was
    /// held by another pass, at the first such take; then nothing is committed, the pass holds no node, and the command
    /// may be tried again.
    pub fn try_run<G: Gate>(&self, pass: &mut Pass<A>, cmd: Cmd, gate: &G) -> Result<Entry, Again>
        requires own { IsOwn A.meaning self.now pass.old }
        requires free { MayBegin pass.old }
        requires live { has (fixed_in A.meaning self.now).start.ids cmd.slot ≡ true }
        requires serves { cmd.slot % length self.now.rooms ≡ pass.old.number }
        ensures ok { IfOk result (λ e. HasRun (fixed_in A.meaning self.now)
            (length self.now.rooms) self.now.table pass.old pass.new (command_of cmd) e) }
        ensures served { OnOk result (NoTakeWasRefused pass.old pass.new) }
        ensures err { IfErr result (λ a. WasNotRun (fixed_in A.meaning self.now)
            (length self.now.rooms) self.now.table pass.old pass.new (command_of cmd) a) }
    {
        match walk(
            &self.words,
            &AtOnce,
            &mut pass.hand,
            &mut pass.refusals,
            &mut pass.room,
            &cmd,
            gate,
        ) {
            Ok(entry) => {
                pass.log.push(same_entry(&entry));
                Ok(entry)
            }
            Err(GivenUp) => {
                // The refused take was noted.
                let refused = pass.refusals.last.as_ref().unwrap();
                Err(again_after(refused, self.words.first_leaf()))
            }
        }
    }
}
