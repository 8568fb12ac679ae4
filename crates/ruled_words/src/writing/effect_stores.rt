ghost use Rattle.std.specs.Prelude.{◌≡◌, ◌∷◌, ◌++◌, map, length};
ghost use Rattle.core_steps.specs.Cells.{Body, State};
ghost use Rattle.core_steps.specs.Nodes.{home};
ghost use Rattle.core_steps.specs.Points.{Releasing, Clear, Put, Link, body_stores, stores_of};
ghost use Rattle.core_steps.specs.Steps.{storing};
ghost use Rattle.ruled_words.specs.Hands.{IsOwnHand};
ghost use Rattle.ruled_words.specs.Passes.{fixed_in};
ghost use Rattle.ruled_words.specs.Straight.{in_view};
ghost use Rattle.ruled_words.specs.Writing.{nodes_held, owed_beyond, state_store};

use crate::hand::Hand;
use crate::shared_words::SharedWords;
use crate::word_step::WordStep;
use core_steps::{FIRST_STATE_WORD, PlayerWords, encode, list_word, record_word};
use entity_recs::{Action, Effect, NewState};

impl<'a, A: Action> SharedWords<'a, A> {
    /// Clears the own player's bit in the list word of its old node, which comes next.
    fn clear_bit(&self, hand: &mut Hand, slot: u8, node: u8)
        requires own { IsOwnHand A.meaning self.now hand.old }
        requires next { hand.old.view.point
            ≡ storing (nodes_held hand.old.view.point) (Clear node ∷ owed_beyond 1 hand.old.view.point) }
        requires slot { slot ≡ hand.old.view.cmd.slot }
        ensures own { IsOwnHand A.meaning self.now hand.new }
        ensures view { hand.new ≡ in_view hand.old (record hand.old.view {
          point = storing (nodes_held hand.old.view.point) (owed_beyond 1 hand.old.view.point);
        }) }
    {
        self.step_hand(hand, usize::from(list_word(node)), WordStep::Clear(slot));
    }

    /// Sets the own player's bit in the list word of its new node, which comes next.
    fn set_bit(&self, hand: &mut Hand, slot: u8, node: u8)
        requires own { IsOwnHand A.meaning self.now hand.old }
        requires next { hand.old.view.point
            ≡ storing (nodes_held hand.old.view.point) (Link node ∷ owed_beyond 1 hand.old.view.point) }
        requires slot { slot ≡ hand.old.view.cmd.slot }
        ensures own { IsOwnHand A.meaning self.now hand.new }
        ensures view { hand.new ≡ in_view hand.old (record hand.old.view {
          point = storing (nodes_held hand.old.view.point) (owed_beyond 1 hand.old.view.point);
        }) }
    {
        self.step_hand(hand, usize::from(list_word(node)), WordStep::Set(slot));
    }

    /// Stores a word of the own record, which comes next.
    fn store_body(&self, hand: &mut Hand, slot: u8, k: u8, word: u64)
        requires own { IsOwnHand A.meaning self.now hand.old }
        requires next { hand.old.view.point
            ≡ storing (nodes_held hand.old.view.point) (Put (Body slot k) word ∷ owed_beyond 1 hand.old.view.point) }
        ensures own { IsOwnHand A.meaning self.now hand.new }
        ensures view { hand.new ≡ in_view hand.old (record hand.old.view {
          point = storing (nodes_held hand.old.view.point) (owed_beyond 1 hand.old.view.point);
        }) }
    {
        let index = usize::from(record_word(slot)) + usize::from(k);
        self.step_hand(hand, index, WordStep::Store(word));
    }

    /// Stores the state word of an id, which comes next.
    fn store_state(&self, hand: &mut Hand, id: u16, state: u64)
        requires own { IsOwnHand A.meaning self.now hand.old }
        requires next { hand.old.view.point
            ≡ storing (nodes_held hand.old.view.point) (Put (State id) state ∷ owed_beyond 1 hand.old.view.point) }
        ensures own { IsOwnHand A.meaning self.now hand.new }
        ensures view { hand.new ≡ in_view hand.old (record hand.old.view {
          point = storing (nodes_held hand.old.view.point) (owed_beyond 1 hand.old.view.point);
        }) }
    {
        let index = usize::from(FIRST_STATE_WORD) + usize::from(id);
        self.step_hand(hand, index, WordStep::Store(state));
    }

    /// Stores the five words of the own record, which come next.
    fn store_words(&self, hand: &mut Hand, slot: u8, words: &PlayerWords)
        requires own { IsOwnHand A.meaning self.now hand.old }
        requires next { hand.old.view.point ≡ storing (nodes_held hand.old.view.point)
            (body_stores slot 0 words.now ++ owed_beyond 5 hand.old.view.point) }
        ensures own { IsOwnHand A.meaning self.now hand.new }
        ensures view { hand.new ≡ in_view hand.old (record hand.old.view {
          point = storing (nodes_held hand.old.view.point) (owed_beyond 5 hand.old.view.point);
        }) }
    {
        for k in 0..5u8 {
            self.store_body(hand, slot, k, words[usize::from(k)]);
        }
    }

    /// Stores the new states, which come next.
    fn store_states(&self, hand: &mut Hand, states: &[NewState])
        requires own { IsOwnHand A.meaning self.now hand.old }
        requires next { hand.old.view.point ≡ storing (nodes_held hand.old.view.point)
            (map state_store states.now ++ owed_beyond (length states.now) hand.old.view.point) }
        ensures own { IsOwnHand A.meaning self.now hand.new }
        ensures view { hand.new ≡ in_view hand.old (record hand.old.view {
          point = storing (nodes_held hand.old.view.point) (owed_beyond (length states.now) hand.old.view.point);
        }) }
    {
        for new_state in states {
            self.store_state(hand, new_state.id, new_state.state);
        }
    }

    /// Makes the stores of the effect, after the commit: the own player's bit is cleared at its old node, the words and
    /// the state word of its record are stored, then the new states of the effect, in its order, and the bit is set at
    /// the new node.
    pub(crate) fn store_all(&self, hand: &mut Hand, slot: u8, effect: &Effect, old: u8, new: u8)
        requires own { IsOwnHand A.meaning self.now hand.old }
        requires next { hand.old.view.point ≡ storing (nodes_held hand.old.view.point)
            (stores_of (fixed_in A.meaning self.now) slot old effect.now) }
        requires slot { slot ≡ hand.old.view.cmd.slot }
        requires node { new ≡ home (fixed_in A.meaning self.now) effect.now.me }
        ensures own { IsOwnHand A.meaning self.now hand.new }
        ensures view { hand.new ≡ in_view hand.old
            (record hand.old.view { point = Releasing (nodes_held hand.old.view.point) }) }
    {
        self.clear_bit(hand, slot, old);
        self.store_words(hand, slot, &encode(&effect.me));
        self.store_state(hand, u16::from(slot), effect.me.state);
        self.store_states(hand, effect.states.as_slice());
        self.set_bit(hand, slot, new);
    }
}
