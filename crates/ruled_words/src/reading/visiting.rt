ghost use Rattle.std.specs.Prelude.{◌≡◌, ◌<◌, ◌%◌, ◌^◌, ℕ, [], false, length, bit_or, IfOk, OnOk, OnErr};
ghost use Rattle.areanode.specs.Trees.{leaves_of, visited_of};
ghost use Rattle.core_steps.specs.Steps.{visiting};
ghost use Rattle.core_steps.specs.Nodes.{inner_nodes, inner_visited, plan_of};
ghost use Rattle.core_steps.specs.Points.{Entering, Entered, Leaving};
ghost use Rattle.core_steps.specs.Reads.{region_in};
ghost use Rattle.core_seats.specs.Refusals.{AreRefusals};
ghost use Rattle.ruled_words.specs.GivingUp.{NoTakeWasRefused, HasGivenUp};
ghost use Rattle.ruled_words.specs.Hands.{IsOwnHand};
ghost use Rattle.ruled_words.specs.Passes.{fixed_in};
ghost use Rattle.ruled_words.specs.Straight.{AreHeldFor, HasKept, IsTriedOn, in_view, in_view_with, nodes_read};
ghost use Rattle.ruled_words.specs.Visits.{plan_left, read_until, under_until, visited_until};

use crate::hand::Hand;
use crate::held::Held;
use crate::patience::{GivenUp, Patience};
use crate::shared_words::SharedWords;
use crate::word_step::WordStep;
use core_seats::{LoadedPlayers, Refusals, lowest_bit, without_bit};
use core_steps::list_word;
use entity_recs::Action;

impl<'a, A: Action> SharedWords<'a, A> {
    /// Loads the list word of the entered node, and the words of each player under it but the own one, which are kept by
    /// slot. Gives the list word without the own bit.
    pub(crate) fn read_under(
        &self,
        hand: &mut Hand,
        node: u8,
        slot: u8,
        by_slot: &mut LoadedPlayers,
    ) -> u64
        requires own { IsOwnHand A.meaning self.now hand.old }
        requires at { hand.old.view.point ≡ Entered node (plan_left hand.old.view.point) }
        requires slot { slot ≡ hand.old.view.cmd.slot }
        ensures own { IsOwnHand A.meaning self.now hand.new }
        ensures view { hand.new ≡ under_until (fixed_in A.meaning self.now) hand.old node [] hand.new }
        ensures kept { (seen : ℕ) → HasKept seen by_slot.old hand.old.view.others
            → HasKept (bit_or seen result) by_slot.new hand.new.view.others }
    {
        let list = self.step_hand(hand, usize::from(list_word(node)), WordStep::Load);
        let players = without_bit(list, slot);
        let mut rest = players;
        while rest != 0 {
            let other = lowest_bit(rest);
            rest = without_bit(rest, other);
            by_slot[usize::from(other)] = self.load_player_words(hand, other);
        }
        players
    }

    /// Reads the leaves of the region, in rising number, which are visited next: the words of their players are kept by
    /// slot. Gives the bits of these players.
    pub(crate) fn read_leaves(
        &self,
        hand: &mut Hand,
        held: &Held,
        by_slot: &mut LoadedPlayers,
    ) -> u64
        requires own { IsOwnHand A.meaning self.now hand.old }
        requires at { let F = fixed_in A.meaning self.now in let v = hand.old.view in
            v.point ≡ visiting F v (plan_of F (region_in F v.cmd v.own)) }
        requires held { AreHeldFor (fixed_in A.meaning self.now) held.now hand.old.view }
        ensures own { IsOwnHand A.meaning self.now hand.new }
        ensures view { let F = fixed_in A.meaning self.now in let v = hand.old.view in
            hand.new ≡ read_until hand.old (visiting F v (inner_visited F (region_in F v.cmd v.own))) hand.new }
        ensures kept { (seen : ℕ) → HasKept seen by_slot.old hand.old.view.others
            → HasKept (bit_or seen result) by_slot.new hand.new.view.others }
    {
        let first = self.first_leaf();
        let mut seen = 0;
        let mut rest = u64::from(held.leaves);
        while rest != 0 {
            let leaf = lowest_bit(rest);
            rest = without_bit(rest, leaf);
            seen |= self.read_under(hand, first + leaf, held.slot, by_slot);
        }
        seen
    }

    /// Gives back the inner node, of which all is read.
    fn leave(&self, hand: &mut Hand, node: u8)
        requires own { IsOwnHand A.meaning self.now hand.old }
        requires at { hand.old.view.point ≡ Leaving node (plan_left hand.old.view.point) }
        ensures own { IsOwnHand A.meaning self.now hand.new }
        ensures view { let v = hand.old.view in hand.new ≡ in_view hand.old
            (record v { point = visiting (fixed_in A.meaning self.now) v (plan_left v.point) }) }
    {
        self.give_on(hand, node);
    }

    /// Takes the inner node, which is visited next, reads it, and gives it back. Gives the bits of its players.
    pub(crate) fn visit_inner<P: Patience>(
        &self,
        patience: &P,
        hand: &mut Hand,
        refusals: &mut Refusals,
        held: &Held,
        node: u8,
        by_slot: &mut LoadedPlayers,
    ) -> Result<u64, GivenUp>
        requires own { IsOwnHand A.meaning self.now hand.old }
        requires at { hand.old.view.point ≡ Entering node (plan_left hand.old.view.point) }
        requires inner { node < inner_nodes (fixed_in A.meaning self.now) }
        requires held { AreHeldFor (fixed_in A.meaning self.now) held.now hand.old.view }
        ensures own { IsOwnHand A.meaning self.now hand.new }
        ensures view { OnOk result (hand.new ≡ visited_until hand.old
            (visiting (fixed_in A.meaning self.now) hand.old.view (plan_left hand.old.view.point)) hand.new) }
        ensures served { OnOk result (P.waits ≡ false → NoTakeWasRefused hand.old hand.new) }
        ensures at_once { OnErr result (P.waits ≡ false) }
        ensures given_up { OnErr result
            (HasGivenUp (fixed_in A.meaning self.now) (length self.now.rooms) hand.old hand.new) }
        ensures tried { IsTriedOn hand.old.tally hand.new.tally }
        ensures refusals { AreRefusals refusals.old hand.old.view → AreRefusals refusals.new hand.new.view }
        ensures kept { IfOk result (λ players. (seen : ℕ) → HasKept seen by_slot.old hand.old.view.others
            → HasKept (bit_or seen players) by_slot.new hand.new.view.others) }
    {
        // The word of an inner node that is held to read names the pass alone.
        let new = u64::from(hand.number) + 1;
        if !self.take_node(patience, hand, refusals, held, node, new) {
            return Err(self.give_up(hand, &[], held.wanted.as_slice()));
        }
        let players = self.read_under(hand, node, held.slot, by_slot);
        self.leave(hand, node);
        Ok(players)
    }

    /// Visits the inner nodes over the leaves of the region, in rising number: the words of their players are kept by
    /// slot. Gives the bits of these players.
    pub(crate) fn read_inner<P: Patience>(
        &self,
        patience: &P,
        hand: &mut Hand,
        refusals: &mut Refusals,
        held: &Held,
        by_slot: &mut LoadedPlayers,
    ) -> Result<u64, GivenUp>
        requires own { IsOwnHand A.meaning self.now hand.old }
        requires at { let F = fixed_in A.meaning self.now in let v = hand.old.view in
            v.point ≡ visiting F v (inner_visited F (region_in F v.cmd v.own)) }
        requires held { AreHeldFor (fixed_in A.meaning self.now) held.now hand.old.view }
        ensures own { IsOwnHand A.meaning self.now hand.new }
        ensures view { OnOk result (hand.new ≡ visited_until hand.old
            (visiting (fixed_in A.meaning self.now) hand.old.view []) hand.new) }
        ensures served { OnOk result (P.waits ≡ false → NoTakeWasRefused hand.old hand.new) }
        ensures at_once { OnErr result (P.waits ≡ false) }
        ensures given_up { OnErr result
            (HasGivenUp (fixed_in A.meaning self.now) (length self.now.rooms) hand.old hand.new) }
        ensures tried { IsTriedOn hand.old.tally hand.new.tally }
        ensures refusals { AreRefusals refusals.old hand.old.view → AreRefusals refusals.new hand.new.view }
        ensures kept { IfOk result (λ players. (seen : ℕ) → HasKept seen by_slot.old hand.old.view.others
            → HasKept (bit_or seen players) by_slot.new hand.new.view.others) }
    {
        let mut seen = 0;
        let mut rest = u64::from(held.inner);
        while rest != 0 {
            let node = lowest_bit(rest);
            rest = without_bit(rest, node);
            seen |= self.visit_inner(patience, hand, refusals, held, node, by_slot)?;
        }
        Ok(seen)
    }

    /// Reads the nodes of the region, which are visited next: its leaves, which are held, and then the inner nodes over
    /// them. The words of the players are kept by slot. Gives the bits of these players.
    pub fn read_nodes<P: Patience>(
        &self,
        patience: &P,
        hand: &mut Hand,
        refusals: &mut Refusals,
        held: &Held,
        by_slot: &mut LoadedPlayers,
    ) -> Result<u64, GivenUp>
        requires own { IsOwnHand A.meaning self.now hand.old }
        requires at { let F = fixed_in A.meaning self.now in let v = hand.old.view in
            v.point ≡ visiting F v (plan_of F (region_in F v.cmd v.own)) }
        requires others { hand.old.view.others ≡ [] }
        requires held { AreHeldFor (fixed_in A.meaning self.now) held.now hand.old.view }
        ensures own { IsOwnHand A.meaning self.now hand.new }
        ensures view { OnOk result (hand.new ≡ in_view_with hand.old
            (nodes_read (fixed_in A.meaning self.now) hand.old.view hand.new.view) hand.new.tally) }
        ensures served { OnOk result (P.waits ≡ false → NoTakeWasRefused hand.old hand.new) }
        ensures at_once { OnErr result (P.waits ≡ false) }
        ensures given_up { OnErr result
            (HasGivenUp (fixed_in A.meaning self.now) (length self.now.rooms) hand.old hand.new) }
        ensures tried { IsTriedOn hand.old.tally hand.new.tally }
        ensures refusals { AreRefusals refusals.old hand.old.view → AreRefusals refusals.new hand.new.view }
        ensures kept { IfOk result (λ players. HasKept players by_slot.new hand.new.view.others) }
    {
        let outer = self.read_leaves(hand, held, by_slot);
        let over = self.read_inner(patience, hand, refusals, held, by_slot)?;
        Ok(outer | over)
    }
}
