ghost use Rattle.std.specs.Prelude.{◌≡◌, ◌<◌, ◌%◌, [], suc, true, length, Some};
ghost use Rattle.entity_recs.specs.Commands.{command_of};
ghost use Rattle.core_steps.specs.Cells.{cell_of, cell_index};
ghost use Rattle.core_steps.specs.Machine.{IsPending};
ghost use Rattle.core_steps.specs.Steps.{visiting};
ghost use Rattle.core_steps.specs.Nodes.{plan_of};
ghost use Rattle.core_steps.specs.Points.{Idle, Checking};
ghost use Rattle.core_steps.specs.Reads.{region_in};
ghost use Rattle.ruled_words.specs.Loads.{after_loads, record_loaded_next};
ghost use Rattle.ruled_words.specs.Hands.{IsOwnHand, plain_pass};
ghost use Rattle.ruled_words.specs.Passes.{fixed_in, IsOwn, next_in};
ghost use Rattle.ruled_words.specs.Straight.{in_view, in_view_with, is_taking_leaves, taking_leaves};

use crate::hand::Hand;
use crate::shared_words::SharedWords;
use crate::word_step::WordStep;
use arena_geo::Region;
use core_seats::LoadedPlayer;
use core_steps::{record_word, state_word};
use entity_recs::{Action, Cmd};

/// The index of the `k`-th of the six words of a player's record: its five words, and after them its state word.
pub fn index_of_word(slot: u8, k: usize) -> usize
    requires { k < 6 }
    ensures { result ≡ cell_index (cell_of slot k) }
{
    if k < 5 {
        usize::from(record_word(slot)) + k
    } else {
        usize::from(state_word(u16::from(slot)))
    }
}

impl<'a, A: Action> SharedWords<'a, A> {
    /// Loads the own record for the command, which are the hand's next six steps, and gives its words. With the first
    /// word the command enters the view, and after the last one the leaves are to be taken.
    pub fn own_words(&self, hand: &mut Hand, cmd: &Cmd) -> LoadedPlayer
        requires own { IsOwn A.meaning self.now (plain_pass hand.old) }
        requires idle { hand.old.view.point ≡ Idle }
        requires pending { IsPending (fixed_in A.meaning self.now) hand.old.view (command_of cmd.now) }
        requires serves { cmd.now.slot % length self.now.rooms ≡ hand.old.number }
        ensures own { IsOwnHand A.meaning self.now hand.new }
        ensures view { hand.new ≡ in_view_with hand.old
            (taking_leaves (fixed_in A.meaning self.now) (command_of cmd.now) result hand.old.view)
            (record hand.old.tally { begun = suc hand.old.tally.begun }) }
        ensures six { length result ≡ 6 }
    {
        let mut words = [0; 6];
        words[0] = self.begin_hand(hand, cmd);
        for k in 1..6 {
            words[k] = self.step_hand(hand, index_of_word(cmd.slot, k), WordStep::Load);
        }
        words
    }

    /// Loads the record of the player in this slot, which are the hand's next six steps, and gives its words.
    pub(crate) fn load_player_words(&self, hand: &mut Hand, slot: u8) -> LoadedPlayer
        requires own { IsOwnHand A.meaning self.now hand.old }
        requires next { record_loaded_next hand.old.view (next_in A.meaning self.now hand.old) ≡ Some slot }
        ensures own { IsOwnHand A.meaning self.now hand.new }
        ensures pass { hand.new ≡ after_loads (fixed_in A.meaning self.now) hand.old result }
        ensures six { length result ≡ 6 }
    {
        let mut words = [0; 6];
        for k in 0..6 {
            words[k] = self.step_hand(hand, index_of_word(slot, k), WordStep::Load);
        }
        words
    }

    /// Loads the own record again, once all leaves are held, and gives its words. Then the nodes of the region are to be
    /// visited.
    pub fn own_again(&self, hand: &mut Hand, slot: u8) -> LoadedPlayer
        requires own { IsOwnHand A.meaning self.now hand.old }
        requires at { hand.old.view.point ≡ Checking }
        requires none { hand.old.view.again ≡ [] }
        requires slot { slot ≡ hand.old.view.cmd.slot }
        ensures own { IsOwnHand A.meaning self.now hand.new }
        ensures view { let F = fixed_in A.meaning self.now in let v = hand.old.view in
            hand.new ≡ in_view hand.old (record v {
              again = result;
              point = visiting F v (plan_of F (region_in F v.cmd v.own));
            }) }
        ensures six { length result ≡ 6 }
    {
        self.load_player_words(hand, slot)
    }

    /// The region of the command, by the own record that was loaded.
    pub fn region_of(&self, hand: &Hand, cmd: &Cmd, own: &LoadedPlayer) -> Region
        requires own { IsOwnHand A.meaning self.now hand.now }
        requires at { is_taking_leaves hand.now.view.point ≡ true }
        requires cmd_is { command_of cmd.now ≡ hand.now.view.cmd }
        requires own_is { own.now ≡ hand.now.view.own }
        ensures { result ≡ region_in (fixed_in A.meaning self.now) hand.now.view.cmd hand.now.view.own }
    {
        self.rules.region(cmd, own)
    }
}
