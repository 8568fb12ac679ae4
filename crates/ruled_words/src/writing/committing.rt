ghost use Rattle.std.specs.Prelude.{◌≡◌, ◌+◌, ◌^◌, ◌<◌, ◌≤◌, [], Some};
ghost use Rattle.core_steps.specs.Points.{Resolving, Claiming};
ghost use Rattle.core_steps.specs.Reads.{effect_loaded};
ghost use Rattle.core_steps.specs.Steps.{view_after_commit};
ghost use Rattle.ruled_words.specs.Hands.{IsOwnHand};
ghost use Rattle.ruled_words.specs.Passes.{fixed_in};
ghost use Rattle.ruled_words.specs.Straight.{in_view};
ghost use Rattle.ruled_words.specs.Writing.{IsClaimed, nodes_written, nodes_held};

use crate::hand::Hand;
use crate::shared_words::SharedWords;
use crate::word_step::WordStep;
use core_steps::COUNT_WORD;
use entity_recs::{Action, Effect};

impl<'a, A: Action> SharedWords<'a, A> {
    /// Commits with this effect, which has no write node, and gives the place: the count of commits grows by one.
    fn commit_free(&self, hand: &mut Hand, effect: &Effect) -> u64
        requires own { IsOwnHand A.meaning self.now hand.old }
        requires at { hand.old.view.point ≡ Resolving }
        requires effect { effect.now ≡ effect_loaded (fixed_in A.meaning self.now) hand.old.view }
        requires none { nodes_written (fixed_in A.meaning self.now) hand.old.view effect.now ≡ [] }
        ensures own { IsOwnHand A.meaning self.now hand.new }
        ensures view { hand.new ≡ in_view hand.old
            (view_after_commit (fixed_in A.meaning self.now) result effect.now [] hand.old.view) }
        ensures seen { hand.old.view.seen ≤ result }
        ensures small { result + 1 < 2 ^ 64 }
    {
        let place = self.step_resolved(hand, effect, usize::from(COUNT_WORD), WordStep::Count);
        place
    }

    /// Commits with the effect in view, where its write nodes are held, and gives the place: the count of commits grows
    /// by one.
    fn commit_claimed(&self, hand: &mut Hand, effect: &Effect) -> u64
        requires own { IsOwnHand A.meaning self.now hand.old }
        requires at { hand.old.view.point ≡ Claiming (nodes_held hand.old.view.point) [] }
        requires effect { hand.old.view.effect ≡ Some effect.now }
        ensures own { IsOwnHand A.meaning self.now hand.new }
        ensures view { hand.new ≡ in_view hand.old (view_after_commit (fixed_in A.meaning self.now) result effect.now
            (nodes_held hand.old.view.point) hand.old.view) }
        ensures seen { hand.old.view.seen ≤ result }
        ensures small { result + 1 < 2 ^ 64 }
    {
        // The effect is in view already.
        let _ = effect;
        self.step_hand(hand, usize::from(COUNT_WORD), WordStep::Count)
    }

    /// Commits with this effect, whose write nodes are held, and gives the place: the count of commits grows by one.
    pub(crate) fn commit_on(&self, hand: &mut Hand, effect: &Effect, nodes: &[u8]) -> u64
        requires own { IsOwnHand A.meaning self.now hand.old }
        requires claimed { IsClaimed (fixed_in A.meaning self.now) effect.now hand.old.view }
        requires effect { effect.now ≡ effect_loaded (fixed_in A.meaning self.now) hand.old.view }
        requires nodes { nodes.now ≡ nodes_written (fixed_in A.meaning self.now) hand.old.view effect.now }
        ensures own { IsOwnHand A.meaning self.now hand.new }
        ensures view { hand.new ≡ in_view hand.old
            (view_after_commit (fixed_in A.meaning self.now) result effect.now nodes.now hand.old.view) }
        ensures seen { hand.old.view.seen ≤ result }
        ensures small { result + 1 < 2 ^ 64 }
    {
        if nodes.is_empty() {
            self.commit_free(hand, effect)
        } else {
            self.commit_claimed(hand, effect)
        }
    }
}
