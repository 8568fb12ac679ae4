ghost use Rattle.std.specs.Prelude.{◌≡◌, [], Some};
ghost use Rattle.core_steps.specs.Points.{Releasing};
ghost use Rattle.core_steps.specs.Reads.{without_command};
ghost use Rattle.ruled_words.specs.Hands.{IsOwnHand};
ghost use Rattle.ruled_words.specs.Passes.{fixed_in, next_in, after_in, node_given_next};
ghost use Rattle.ruled_words.specs.Straight.{AreHeldFor, in_view};

use crate::hand::Hand;
use crate::held::Held;
use crate::shared_words::SharedWords;
use crate::word_step::WordStep;
use core_seats::{lowest_bit, without_bit};
use core_steps::node_word;
use entity_recs::Action;

impl<'a, A: Action> SharedWords<'a, A> {
    /// Gives back the node, which is the next step.
    pub(crate) fn give_on(&self, hand: &mut Hand, node: u8)
        requires own { IsOwnHand A.meaning self.now hand.old }
        requires next { node_given_next (next_in A.meaning self.now hand.old) ≡ Some node }
        ensures own { IsOwnHand A.meaning self.now hand.new }
        ensures pass { hand.new ≡ after_in A.meaning self.now 0 hand.old }
    {
        self.step_hand(hand, usize::from(node_word(node)), WordStep::Store(0));
    }

    /// Gives back the write nodes, after the stores.
    pub(crate) fn release_nodes(&self, hand: &mut Hand, nodes: &[u8])
        requires own { IsOwnHand A.meaning self.now hand.old }
        requires at { hand.old.view.point ≡ Releasing nodes.now }
        ensures own { IsOwnHand A.meaning self.now hand.new }
        ensures view { hand.new ≡ in_view hand.old (record hand.old.view { point = Releasing [] }) }
    {
        for node in nodes {
            self.give_on(hand, *node);
        }
    }

    /// Gives back the leaves of the command, after the write nodes: the command is done.
    pub fn return_leaves(&self, hand: &mut Hand, held: &Held)
        requires own { IsOwnHand A.meaning self.now hand.old }
        requires at { hand.old.view.point ≡ Releasing [] }
        requires held { AreHeldFor (fixed_in A.meaning self.now) held.now hand.old.view }
        ensures own { IsOwnHand A.meaning self.now hand.new }
        ensures view { hand.new ≡ in_view hand.old (without_command hand.old.view) }
    {
        let first = self.first_leaf();
        let mut rest = u64::from(held.leaves);
        while rest != 0 {
            let leaf = lowest_bit(rest);
            rest = without_bit(rest, leaf);
            self.give_on(hand, first + leaf);
        }
    }
}
