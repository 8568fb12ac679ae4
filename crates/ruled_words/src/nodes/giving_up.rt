ghost use Rattle.std.specs.Prelude.{◌≡◌, ◌≤◌, true, Some, None};
ghost use Rattle.core_steps.specs.Held.{inner_held, leaves_held};
ghost use Rattle.core_steps.specs.Steps.{first_yield, is_taking};
ghost use Rattle.ruled_words.specs.GivingUp.{quitting_pass, view_given_up};
ghost use Rattle.ruled_words.specs.Hands.{IsOwnHand};
ghost use Rattle.ruled_words.specs.Passes.{fixed_in, IsOwn, next_in, after_in, node_given_next};
ghost use Rattle.ruled_words.specs.Straight.{in_view};

use crate::hand::Hand;
use crate::patience::GivenUp;
use crate::shared_words::SharedWords;
use crate::word_step::WordStep;
use core_steps::{COUNT_WORD, node_word};
use entity_recs::Action;

impl<'a, A: Action> SharedWords<'a, A> {
    /// Gives back the node, which is the next step where giving up begins with it, or has begun.
    fn yield_node(&self, hand: &mut Hand, node: u8, begins: bool)
        requires own { IsOwnHand A.meaning self.now hand.old }
        requires quits { IsOwn A.meaning self.now (quitting_pass hand.old begins) }
        requires next { node_given_next (next_in A.meaning self.now (quitting_pass hand.old begins)) ≡ Some node }
        ensures own { IsOwnHand A.meaning self.now hand.new }
        ensures pass { hand.new ≡ after_in A.meaning self.now 0 (quitting_pass hand.old begins) }
    {
        self.step_yielding(
            hand,
            begins,
            usize::from(node_word(node)),
            WordStep::Store(0),
        );
    }

    /// Gives up the command where nothing is held: the count of commits is loaded.
    fn yield_nothing(&self, hand: &mut Hand)
        requires own { IsOwnHand A.meaning self.now hand.old }
        requires at_take { is_taking hand.old.view.point ≡ true }
        requires none { first_yield (fixed_in A.meaning self.now) hand.old.view ≡ None }
        ensures own { IsOwnHand A.meaning self.now hand.new }
        ensures view { hand.new ≡ in_view hand.old (view_given_up hand.new.view.seen hand.old.view) }
        ensures seen { hand.old.view.seen ≤ hand.new.view.seen }
    {
        self.step_yielding(hand, true, usize::from(COUNT_WORD), WordStep::Load);
    }

    /// Gives up the command, where a node or the commit comes next: what the hand holds is given back, these inner nodes
    /// and then these leaves, each in rising number. Where it holds nothing the count of commits is loaded. The command
    /// is then no longer in hand.
    pub(crate) fn give_up(&self, hand: &mut Hand, nodes: &[u8], leaves: &[u8]) -> GivenUp
        requires own { IsOwnHand A.meaning self.now hand.old }
        requires at_take { is_taking hand.old.view.point ≡ true }
        requires nodes { nodes.now ≡ inner_held (fixed_in A.meaning self.now) hand.old.view.point }
        requires leaves { leaves.now ≡ leaves_held hand.old.view.point hand.old.view.wanted }
        ensures own { IsOwnHand A.meaning self.now hand.new }
        ensures view { hand.new ≡ in_view hand.old (view_given_up hand.new.view.seen hand.old.view) }
        ensures seen { hand.old.view.seen ≤ hand.new.view.seen }
    {
        let mut begins = true;
        for node in nodes {
            self.yield_node(hand, *node, begins);
            begins = false;
        }
        for leaf in leaves {
            self.yield_node(hand, *leaf, begins);
            begins = false;
        }
        if begins {
            self.yield_nothing(hand);
        }
        GivenUp
    }
}
