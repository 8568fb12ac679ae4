ghost use Rattle.std.specs.Prelude.{◌≡◌, ◌==◌, ℕ, [], true, false, length, Some, if◌then◌else◌, OnOk, OnErr};
ghost use Rattle.core_steps.specs.Machine.{TakeNode};
ghost use Rattle.core_steps.specs.Steps.{point_after_take, view_after_refusal};
ghost use Rattle.core_steps.specs.Points.{Taking, Checking};
ghost use Rattle.core_steps.specs.Reads.{View};
ghost use Rattle.core_seats.specs.Refusals.{AreRefusals};
ghost use Rattle.ruled_words.specs.GivingUp.{NoTakeWasRefused, WasRefused, HasGivenUp};
ghost use Rattle.ruled_words.specs.Hands.{IsOwnHand};
ghost use Rattle.ruled_words.specs.Passes.{fixed_in, next_in, node_taken_next, word_after};
ghost use Rattle.ruled_words.specs.Straight.{AreHeldFor, IsTriedOn};
ghost use Rattle.ruled_words.specs.Tries.{IsTried, tried_until};
ghost use Rattle.ruled_words.specs.WordSteps.{word_by};

use crate::hand::Hand;
use crate::held::Held;
use crate::patience::{GivenUp, Patience};
use crate::shared_words::SharedWords;
use crate::word_step::WordStep;
use core_seats::{Refusals, lowest_bit, without_bit};
use core_steps::{NODE_HOLDERS, node_word};
use entity_recs::Action;
use std::hint::spin_loop;
use std::thread;

/// Whether the take was served: it found 0. One that was refused is counted.
pub(crate) fn note_refused(refusals: &mut Refusals, held: &Held, node: u8, found: u64) -> bool
    ensures served { result ≡ (found == 0) }
    ensures noted { (view : View) → held.now.own ≡ view.own → held.now.wanted.items ≡ view.wanted
        → AreRefusals refusals.old view
        → AreRefusals refusals.new (if found == 0 then view else view_after_refusal node found view) }
{
    if found == 0 {
        return true;
    }
    refusals.note(node, found, &held.own, &held.wanted);
    false
}

/// How often the word of a node that was held is looked at before the thread is yielded.
const LOOKS: u8 = 100;

impl<'a, A: Action> SharedWords<'a, A> {
    /// Waits until the word of a node that was held is 0, or for a while. To look is no step, and writes nothing, so it
    /// hinders the holder less than a take that is refused.
    pub(crate) fn wait_for(&self, node: u8) {
        for _ in 0..LOOKS {
            if self.table.shared.peek(usize::from(node_word(node))) == 0 {
                return;
            }
            spin_loop();
        }
        thread::yield_now();
    }

    /// Tries to take the node, which comes next, with this word: false where another pass holds it. The refused take is
    /// then noted, with the own record and the wanted leaves.
    pub(crate) fn try_node(
        &self,
        hand: &mut Hand,
        refusals: &mut Refusals,
        held: &Held,
        node: u8,
        new: u64,
    ) -> bool
        requires own { IsOwnHand A.meaning self.now hand.old }
        requires next { node_taken_next (next_in A.meaning self.now hand.old) ≡ Some node }
        requires word { (found : ℕ) → word_after (fixed_in A.meaning self.now) hand.old found
            ≡ word_by (WordStep.Take new) found }
        requires held { AreHeldFor (fixed_in A.meaning self.now) held.now hand.old.view }
        ensures own { IsOwnHand A.meaning self.now hand.new }
        ensures pass { IsTried (fixed_in A.meaning self.now) hand.old hand.new result }
        ensures tried { IsTriedOn hand.old.tally hand.new.tally }
        ensures served { result ≡ true → NoTakeWasRefused hand.old hand.new }
        ensures refused { result ≡ false
            → WasRefused (fixed_in A.meaning self.now) (length self.now.rooms) node hand.old hand.new }
        ensures refusals { AreRefusals refusals.old hand.old.view → AreRefusals refusals.new hand.new.view }
    {
        let found = self.step_hand(hand, usize::from(node_word(node)), WordStep::Take(new));
        note_refused(refusals, held, node, found)
    }

    /// Takes the node, which comes next, with this word: false where another pass holds it, and the take isn't tried
    /// again.
    pub(crate) fn take_node<P: Patience>(
        &self,
        patience: &P,
        hand: &mut Hand,
        refusals: &mut Refusals,
        held: &Held,
        node: u8,
        new: u64,
    ) -> bool
        requires own { IsOwnHand A.meaning self.now hand.old }
        requires next { next_in A.meaning self.now hand.old ≡ Some (TakeNode node) }
        requires word { (found : ℕ) → word_after (fixed_in A.meaning self.now) hand.old found
            ≡ word_by (WordStep.Take new) found }
        requires held { AreHeldFor (fixed_in A.meaning self.now) held.now hand.old.view }
        ensures own { IsOwnHand A.meaning self.now hand.new }
        ensures view { result ≡ true
            → hand.new ≡ tried_until hand.old (point_after_take node hand.old.view.point) hand.new }
        ensures tried { IsTriedOn hand.old.tally hand.new.tally }
        ensures served { P.waits ≡ false → result ≡ true → NoTakeWasRefused hand.old hand.new }
        ensures at_once { result ≡ false → P.waits ≡ false }
        ensures refused { result ≡ false
            → WasRefused (fixed_in A.meaning self.now) (length self.now.rooms) node hand.old hand.new }
        ensures refusals { AreRefusals refusals.old hand.old.view → AreRefusals refusals.new hand.new.view }
    {
        let mut tries = patience.more_tries();
        while !self.try_node(hand, refusals, held, node, new) {
            if tries.next().is_none() {
                return false;
            }
            self.wait_for(node);
        }
        true
    }

    /// Takes the leaves of the command, in rising number.
    pub fn take_leaves<P: Patience>(
        &self,
        patience: &P,
        hand: &mut Hand,
        refusals: &mut Refusals,
        held: &Held,
    ) -> Result<(), GivenUp>
        requires own { IsOwnHand A.meaning self.now hand.old }
        requires at { hand.old.view.point ≡ Taking [] hand.old.view.wanted }
        requires held { AreHeldFor (fixed_in A.meaning self.now) held.now hand.old.view }
        ensures own { IsOwnHand A.meaning self.now hand.new }
        ensures view { OnOk result (hand.new ≡ tried_until hand.old Checking hand.new) }
        ensures served { OnOk result (P.waits ≡ false → NoTakeWasRefused hand.old hand.new) }
        ensures at_once { OnErr result (P.waits ≡ false) }
        ensures given_up { OnErr result
            (HasGivenUp (fixed_in A.meaning self.now) (length self.now.rooms) hand.old hand.new) }
        ensures tried { IsTriedOn hand.old.tally hand.new.tally }
        ensures refusals { AreRefusals refusals.old hand.old.view → AreRefusals refusals.new hand.new.view }
    {
        // The word of a leaf that is held names the pass and the leaves of its command.
        let new = u64::from(hand.number) + NODE_HOLDERS * u64::from(held.leaves) + 1;
        let first = self.first_leaf();
        let mut taken = 0;
        let mut rest = u64::from(held.leaves);
        while rest != 0 {
            let leaf = lowest_bit(rest);
            rest = without_bit(rest, leaf);
            if !self.take_node(patience, hand, refusals, held, first + leaf, new) {
                return Err(self.give_up(hand, &[], &held.wanted.as_slice()[..taken]));
            }
            taken += 1;
        }
        Ok(())
    }
}
