ghost use Rattle.std.specs.Prelude.{◌≡◌, ◌+◌, ◌∷◌, suc, true, false, length, Some, if◌then◌else◌, OnOk, OnErr};
ghost use Rattle.core_steps.specs.Points.{Resolving, Claiming};
ghost use Rattle.core_steps.specs.Reads.{effect_loaded};
ghost use Rattle.core_steps.specs.Steps.{first, view_after_take, view_after_claim};
ghost use Rattle.core_seats.specs.Refusals.{AreRefusals};
ghost use Rattle.ruled_words.specs.GivingUp.{NoTakeWasRefused, WasRefused, HasGivenUp};
ghost use Rattle.ruled_words.specs.Hands.{IsOwnHand};
ghost use Rattle.ruled_words.specs.Passes.{fixed_in};
ghost use Rattle.ruled_words.specs.Straight.{AreHeldFor};
ghost use Rattle.ruled_words.specs.Writing.{HasTried, nodes_written, claims_left, view_with_claims};

use crate::hand::Hand;
use crate::held::Held;
use crate::nodes::taking::note_refused;
use crate::patience::{GivenUp, Patience};
use crate::shared_words::SharedWords;
use crate::word_step::WordStep;
use core_seats::Refusals;
use core_steps::{NODE_HOLDERS, node_word};
use entity_recs::{Action, Effect};

/// The word of an inner node that the pass with this number holds to write.
fn writing_word(number: u8) -> u64
    ensures { result ≡ suc (number + NODE_HOLDERS) }
{
    u64::from(number) + NODE_HOLDERS + 1
}

impl<'a, A: Action> SharedWords<'a, A> {
    /// Tries to take the first write node, with which the effect enters the view. It is false where another pass holds
    /// the node.
    fn try_first(
        &self,
        hand: &mut Hand,
        refusals: &mut Refusals,
        held: &Held,
        effect: &Effect,
        node: u8,
    ) -> bool
        requires own { IsOwnHand A.meaning self.now hand.old }
        requires at { hand.old.view.point ≡ Resolving }
        requires effect { effect.now ≡ effect_loaded (fixed_in A.meaning self.now) hand.old.view }
        requires next { first (nodes_written (fixed_in A.meaning self.now) hand.old.view effect.now) ≡ Some node }
        requires held { AreHeldFor (fixed_in A.meaning self.now) held.now hand.old.view }
        ensures own { IsOwnHand A.meaning self.now hand.new }
        ensures tried { HasTried hand.old (if result
            then view_after_claim (fixed_in A.meaning self.now) effect.now node hand.old.view
            else hand.old.view) hand.new }
        ensures served { result ≡ true → NoTakeWasRefused hand.old hand.new }
        ensures refused { result ≡ false
            → WasRefused (fixed_in A.meaning self.now) (length self.now.rooms) node hand.old hand.new }
        ensures refusals { AreRefusals refusals.old hand.old.view → AreRefusals refusals.new hand.new.view }
    {
        let word = usize::from(node_word(node));
        let new = writing_word(hand.number);
        let found = self.step_resolved(hand, effect, word, WordStep::Take(new));
        note_refused(refusals, held, node, found)
    }

    /// Takes the first write node, with which the effect enters the view: false where another pass holds it, and the take
    /// isn't tried again.
    fn take_first<P: Patience>(
        &self,
        patience: &P,
        hand: &mut Hand,
        refusals: &mut Refusals,
        held: &Held,
        effect: &Effect,
        node: u8,
    ) -> bool
        requires own { IsOwnHand A.meaning self.now hand.old }
        requires at { hand.old.view.point ≡ Resolving }
        requires effect { effect.now ≡ effect_loaded (fixed_in A.meaning self.now) hand.old.view }
        requires next { first (nodes_written (fixed_in A.meaning self.now) hand.old.view effect.now) ≡ Some node }
        requires held { AreHeldFor (fixed_in A.meaning self.now) held.now hand.old.view }
        ensures own { IsOwnHand A.meaning self.now hand.new }
        ensures tried { result ≡ true → HasTried hand.old
            (view_after_claim (fixed_in A.meaning self.now) effect.now node hand.old.view) hand.new }
        ensures served { P.waits ≡ false → result ≡ true → NoTakeWasRefused hand.old hand.new }
        ensures at_once { result ≡ false → P.waits ≡ false }
        ensures refused { result ≡ false
            → WasRefused (fixed_in A.meaning self.now) (length self.now.rooms) node hand.old hand.new }
        ensures refusals { AreRefusals refusals.old hand.old.view → AreRefusals refusals.new hand.new.view }
    {
        let mut tries = patience.more_tries();
        while !self.try_first(hand, refusals, held, effect, node) {
            if tries.next().is_none() {
                return false;
            }
            self.wait_for(node);
        }
        true
    }

    /// Takes the first write node, with which the effect enters the view.
    fn claim_first<P: Patience>(
        &self,
        patience: &P,
        hand: &mut Hand,
        refusals: &mut Refusals,
        held: &Held,
        effect: &Effect,
        node: u8,
    ) -> Result<(), GivenUp>
        requires own { IsOwnHand A.meaning self.now hand.old }
        requires at { hand.old.view.point ≡ Resolving }
        requires effect { effect.now ≡ effect_loaded (fixed_in A.meaning self.now) hand.old.view }
        requires next { first (nodes_written (fixed_in A.meaning self.now) hand.old.view effect.now) ≡ Some node }
        requires held { AreHeldFor (fixed_in A.meaning self.now) held.now hand.old.view }
        ensures own { IsOwnHand A.meaning self.now hand.new }
        ensures tried { OnOk result (HasTried hand.old
            (view_after_claim (fixed_in A.meaning self.now) effect.now node hand.old.view) hand.new) }
        ensures served { OnOk result (P.waits ≡ false → NoTakeWasRefused hand.old hand.new) }
        ensures at_once { OnErr result (P.waits ≡ false) }
        ensures given_up { OnErr result
            (HasGivenUp (fixed_in A.meaning self.now) (length self.now.rooms) hand.old hand.new) }
        ensures refusals { AreRefusals refusals.old hand.old.view → AreRefusals refusals.new hand.new.view }
    {
        if self.take_first(patience, hand, refusals, held, effect, node) {
            return Ok(());
        }
        Err(self.give_up(hand, &[], held.wanted.as_slice()))
    }

    /// Takes the write node that comes next, after the first and these.
    fn claim_next<P: Patience>(
        &self,
        patience: &P,
        hand: &mut Hand,
        refusals: &mut Refusals,
        held: &Held,
        nodes: &[u8],
        node: u8,
    ) -> Result<(), GivenUp>
        requires own { IsOwnHand A.meaning self.now hand.old }
        requires at { hand.old.view.point
            ≡ Claiming nodes.now (node ∷ claims_left hand.old.view.point) }
        requires held { AreHeldFor (fixed_in A.meaning self.now) held.now hand.old.view }
        ensures own { IsOwnHand A.meaning self.now hand.new }
        ensures tried { OnOk result (HasTried hand.old (view_after_take node hand.old.view) hand.new) }
        ensures served { OnOk result (P.waits ≡ false → NoTakeWasRefused hand.old hand.new) }
        ensures at_once { OnErr result (P.waits ≡ false) }
        ensures given_up { OnErr result
            (HasGivenUp (fixed_in A.meaning self.now) (length self.now.rooms) hand.old hand.new) }
        ensures refusals { AreRefusals refusals.old hand.old.view → AreRefusals refusals.new hand.new.view }
    {
        let new = writing_word(hand.number);
        if self.take_node(patience, hand, refusals, held, node, new) {
            return Ok(());
        }
        Err(self.give_up(hand, nodes, held.wanted.as_slice()))
    }

    /// Takes the write nodes of the effect, in rising number. With the first the effect enters the view.
    pub(crate) fn take_write_nodes<P: Patience>(
        &self,
        patience: &P,
        hand: &mut Hand,
        refusals: &mut Refusals,
        held: &Held,
        effect: &Effect,
        nodes: &[u8],
    ) -> Result<(), GivenUp>
        requires own { IsOwnHand A.meaning self.now hand.old }
        requires at { hand.old.view.point ≡ Resolving }
        requires effect { effect.now ≡ effect_loaded (fixed_in A.meaning self.now) hand.old.view }
        requires nodes { nodes.now ≡ nodes_written (fixed_in A.meaning self.now) hand.old.view effect.now }
        requires held { AreHeldFor (fixed_in A.meaning self.now) held.now hand.old.view }
        ensures own { IsOwnHand A.meaning self.now hand.new }
        ensures tried { OnOk result
            (HasTried hand.old (view_with_claims (fixed_in A.meaning self.now) effect.now hand.old.view) hand.new) }
        ensures served { OnOk result (P.waits ≡ false → NoTakeWasRefused hand.old hand.new) }
        ensures at_once { OnErr result (P.waits ≡ false) }
        ensures given_up { OnErr result
            (HasGivenUp (fixed_in A.meaning self.now) (length self.now.rooms) hand.old hand.new) }
        ensures refusals { AreRefusals refusals.old hand.old.view → AreRefusals refusals.new hand.new.view }
    {
        if nodes.is_empty() {
            return Ok(());
        }
        self.claim_first(patience, hand, refusals, held, effect, nodes[0])?;
        for i in 1..nodes.len() {
            self.claim_next(patience, hand, refusals, held, &nodes[..i], nodes[i])?;
        }
        Ok(())
    }
}
