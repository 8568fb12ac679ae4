ghost use Rattle.std.specs.Prelude.{◌≡◌, ℕ, List, [], ◌∷◌, ◌++◌, ◌+◌, ◌^◌, ◌<◌, ◌≤◌, ◌%◌, true, length, is_some};
ghost use Rattle.std.specs.Option.{option_map};
ghost use Rattle.entity_recs.specs.Commands.{command_of};
ghost use Rattle.core_steps.specs.declared.step.StepKind.TheVariants.{Commit};
ghost use Rattle.core_steps.specs.Machine.{ReadPlayer, YieldCount, IsPending, index_of, kind_of};
ghost use Rattle.core_steps.specs.Points.{Idle};
ghost use Rattle.core_steps.specs.Reads.{record_read};
ghost use Rattle.core_seats.specs.Nexts.{the_next};
ghost use Rattle.ruled_words.specs.Going.{IsAtRest, view_looked};
ghost use Rattle.ruled_words.specs.GivingUp.{quitting_pass};
ghost use Rattle.ruled_words.specs.Hands.{IsOwnHand, IsPlain, begun_with, pass_beside, pass_keeping, plain_pass, still_keeping};
ghost use Rattle.ruled_words.specs.Plays.{IsSoundSight};
ghost use Rattle.ruled_words.specs.Holders.{IsFoundNode};
ghost use Rattle.ruled_words.specs.Passes.{fixed_in, word_after, IsOwn, next_in, after_in, sight_of, HasGone};
ghost use Rattle.ruled_words.specs.WordSteps.{word_by, MayBe};

use crate::hand::Hand;
use crate::shared_words::SharedWords;
use crate::word_step::WordStep;
use core_steps::record_word;
use entity_recs::{Action, Cmd, Effect};

impl<'a, A: Action> SharedWords<'a, A> {
    /// The hand makes its next step, which does this to the word, and gives the word that was found, or for a store the
    /// one that was stored.
    pub(crate) fn step_hand(&self, hand: &mut Hand, word: usize, step: WordStep) -> u64
        requires own { IsOwnHand A.meaning self.now hand.old }
        requires comes { is_some (next_in A.meaning self.now hand.old) ≡ true }
        requires index { word ≡ index_of hand.old.view (the_next (next_in A.meaning self.now hand.old)) }
        requires left { (found : ℕ) → word_after (fixed_in A.meaning self.now) hand.old found ≡ word_by step found }
        requires may { MayBe step (fixed_in A.meaning self.now) hand.old.view
            (the_next (next_in A.meaning self.now hand.old)) word }
        ensures pass { hand.new ≡ after_in A.meaning self.now result hand.old }
        ensures own { IsOwnHand A.meaning self.now hand.new }
        ensures taken { (node slot : ℕ) (part players plan : List ℕ)
            → the_next (next_in A.meaning self.now hand.old) ≡ ReadPlayer node part slot players plan
            → length part ≡ 5 → (A.meaning self.now.action).takes (record_read slot (part ++ result ∷ [])) ≡ true }
        ensures node { IsFoundNode (fixed_in A.meaning self.now) (length self.now.rooms) hand.old.number hand.old.view
            (the_next (next_in A.meaning self.now hand.old)) result }
        ensures seen { kind_of (the_next (next_in A.meaning self.now hand.old)) ≡ Commit
            → hand.old.view.seen ≤ result }
        ensures small { kind_of (the_next (next_in A.meaning self.now hand.old)) ≡ Commit → result + 1 < 2 ^ 64 }
        ensures stored { (new : ℕ) → step ≡ WordStep.Store new → result ≡ new }
    {
        hand.step_on(&self.table.shared, word, step)
    }

    /// The hand begins the command, which enters its view with the first word of the own record, and gives that word.
    pub(crate) fn begin_hand(&self, hand: &mut Hand, cmd: &Cmd) -> u64
        requires own { IsOwn A.meaning self.now (plain_pass hand.old) }
        requires idle { hand.old.view.point ≡ Idle }
        requires pending { IsPending (fixed_in A.meaning self.now) hand.old.view (command_of cmd.now) }
        requires serves { cmd.now.slot % length self.now.rooms ≡ hand.old.number }
        ensures pass { hand.new ≡ begun_with (command_of cmd.now) result (plain_pass hand.old) }
        ensures own { IsOwnHand A.meaning self.now hand.new }
    {
        hand.begin_on(&self.table.shared, cmd, usize::from(record_word(cmd.slot)))
    }

    /// The hand makes the step that comes next with this effect of its command, where all is read: it takes the first
    /// write node, or commits.
    pub(crate) fn step_resolved(
        &self,
        hand: &mut Hand,
        effect: &Effect,
        word: usize,
        step: WordStep,
    ) -> u64
        requires own { IsOwn A.meaning self.now (pass_keeping hand.old effect.now) }
        requires comes { is_some (next_in A.meaning self.now (pass_keeping hand.old effect.now)) ≡ true }
        requires index { word ≡ index_of hand.old.view
            (the_next (next_in A.meaning self.now (pass_keeping hand.old effect.now))) }
        requires left { (found : ℕ) → word_after (fixed_in A.meaning self.now) (pass_keeping hand.old effect.now) found
            ≡ word_by step found }
        requires may { MayBe step (fixed_in A.meaning self.now) hand.old.view
            (the_next (next_in A.meaning self.now (pass_keeping hand.old effect.now))) word }
        ensures pass { still_keeping hand.new effect.now
            ≡ after_in A.meaning self.now result (pass_keeping hand.old effect.now) }
        ensures own { IsOwn A.meaning self.now (still_keeping hand.new effect.now) }
        ensures plain { IsPlain hand.new }
        ensures node { IsFoundNode (fixed_in A.meaning self.now) (length self.now.rooms) hand.old.number hand.old.view
            (the_next (next_in A.meaning self.now (pass_keeping hand.old effect.now))) result }
        ensures seen { kind_of (the_next (next_in A.meaning self.now (pass_keeping hand.old effect.now))) ≡ Commit
            → hand.old.view.seen ≤ result }
        ensures small { kind_of (the_next (next_in A.meaning self.now (pass_keeping hand.old effect.now))) ≡ Commit
            → result + 1 < 2 ^ 64 }
        ensures stored { (new : ℕ) → step ≡ WordStep.Store new → result ≡ new }
    {
        hand.resolve_on(&self.table.shared, effect, word, step)
    }

    /// The hand makes the step that comes next where giving up begins with it, or doesn't.
    pub(crate) fn step_yielding(
        &self,
        hand: &mut Hand,
        begins: bool,
        word: usize,
        step: WordStep,
    ) -> u64
        requires own { IsOwn A.meaning self.now (quitting_pass hand.old begins) }
        requires comes { is_some (next_in A.meaning self.now (quitting_pass hand.old begins)) ≡ true }
        requires index { word ≡ index_of hand.old.view
            (the_next (next_in A.meaning self.now (quitting_pass hand.old begins))) }
        requires left { (found : ℕ) → word_after (fixed_in A.meaning self.now) (quitting_pass hand.old begins) found
            ≡ word_by step found }
        requires may { MayBe step (fixed_in A.meaning self.now) hand.old.view
            (the_next (next_in A.meaning self.now (quitting_pass hand.old begins))) word }
        ensures pass { hand.new ≡ after_in A.meaning self.now result (quitting_pass hand.old begins) }
        ensures own { IsOwnHand A.meaning self.now hand.new }
        ensures counted { the_next (next_in A.meaning self.now (quitting_pass hand.old begins)) ≡ YieldCount
            → hand.old.view.seen ≤ result }
        ensures stored { (new : ℕ) → step ≡ WordStep.Store new → result ≡ new }
    {
        hand.yield_on(&self.table.shared, begins, word, step)
    }

    /// The hand makes the next step of its pass, where this command was given and isn't begun, it is to give up or not,
    /// and this effect is kept: the step does this to the word. It gives the word that was found, or for a store the one
    /// that was stored.
    pub fn step_beside(
        &self,
        hand: &mut Hand,
        given: &Option<Cmd>,
        quits: bool,
        effect: &Option<Effect>,
        word: usize,
        step: WordStep,
    ) -> u64
        requires own { IsOwn A.meaning self.now (pass_beside hand.old (option_map command_of given.now) quits effect.now) }
        requires comes { is_some (next_in A.meaning self.now (pass_beside hand.old (option_map command_of given.now) quits effect.now)) ≡ true }
        requires index { word ≡ index_of hand.old.view
            (the_next (next_in A.meaning self.now (pass_beside hand.old (option_map command_of given.now) quits effect.now))) }
        requires left { (found : ℕ) → word_after (fixed_in A.meaning self.now)
            (pass_beside hand.old (option_map command_of given.now) quits effect.now) found ≡ word_by step found }
        requires may { MayBe step (fixed_in A.meaning self.now) hand.old.view
            (the_next (next_in A.meaning self.now (pass_beside hand.old (option_map command_of given.now) quits effect.now))) word }
        ensures gone { HasGone (fixed_in A.meaning self.now) (length self.now.rooms)
            (pass_beside hand.old (option_map command_of given.now) quits effect.now) result hand.new }
        ensures stored { (new : ℕ) → step ≡ WordStep.Store new → result ≡ new }
    {
        hand.step_beside(&self.table.shared, given, quits, effect, word, step)
    }

    /// The hand, which rests, looks at the count of commits.
    pub fn look_on(&self, hand: &mut Hand) -> u64
        requires table { hand.old.table ≡ self.now.table }
        requires rests { IsAtRest hand.old.view }
        ensures hand { hand.new ≡ record hand.old { view = view_looked result hand.old.view } }
        ensures seen { hand.old.view.seen ≤ result }
        ensures sound_sight { IsSoundSight (fixed_in A.meaning self.now) (length self.now.rooms) (sight_of hand.new) }
    {
        hand.look_on(&self.table.shared)
    }
}
