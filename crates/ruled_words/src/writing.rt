ghost use Rattle.std.specs.Prelude.{◌≡◌, false, length, IfOk, OnOk, OnErr};
ghost use Rattle.entity_recs.specs.Records.{IsRecord};
ghost use Rattle.core_steps.specs.Nodes.{home, inner_of_two};
ghost use Rattle.core_steps.specs.Points.{Resolving};
ghost use Rattle.core_steps.specs.Reads.{effect_loaded};
ghost use Rattle.core_seats.specs.Refusals.{AreRefusals};
ghost use Rattle.ruled_words.specs.GivingUp.{NoTakeWasRefused, HasGivenUp};
ghost use Rattle.ruled_words.specs.Hands.{IsOwnHand};
ghost use Rattle.ruled_words.specs.Passes.{fixed_in};
ghost use Rattle.ruled_words.specs.Straight.{AreHeldFor};
ghost use Rattle.ruled_words.specs.Writing.{HasWritten};

use crate::hand::Hand;
use crate::held::Held;
use crate::patience::{GivenUp, Patience};
use crate::shared_words::SharedWords;
use core_seats::{LoadedPlayer, NodeQueue, Refusals, read_record};
use entity_recs::{Action, Effect, Rec};

mod claiming;
mod committing;
mod effect_stores;

impl<'a, A: Action> SharedWords<'a, A> {
    /// The node at which a player with this record is linked, and the one at which it will be with the effect.
    fn homes(&self, before: &Rec, effect: &Effect) -> (u8, u8)
        requires before { IsRecord before.now }
        requires after { IsRecord effect.now.me }
        ensures old { result.0 ≡ home (fixed_in A.meaning self.now) before.now }
        ensures new { result.1 ≡ home (fixed_in A.meaning self.now) effect.now.me }
    {
        (self.rules.home(before), self.rules.home(&effect.me))
    }

    /// The write nodes of an effect whose player moves from one node to another: the inner ones of them, rising, without
    /// repeats.
    fn write_nodes(&self, old: u8, new: u8) -> NodeQueue
        ensures { result.items ≡ inner_of_two (fixed_in A.meaning self.now) old new }
    {
        self.rules.inner_of_two(old, new)
    }

    /// Writes the effect of the command in hand, where all is read, and gives its place: the write nodes are taken, the
    /// command is committed, the stores are made, and the write nodes are given back. `again` is the own record as it was
    /// loaded again. `Err` exactly where a take was refused and isn't tried again: the command is then given up.
    pub fn write_effect<P: Patience>(
        &self,
        patience: &P,
        hand: &mut Hand,
        refusals: &mut Refusals,
        held: &Held,
        again: &LoadedPlayer,
        effect: &Effect,
    ) -> Result<u64, GivenUp>
        requires own { IsOwnHand A.meaning self.now hand.old }
        requires at { hand.old.view.point ≡ Resolving }
        requires effect { effect.now ≡ effect_loaded (fixed_in A.meaning self.now) hand.old.view }
        requires held { AreHeldFor (fixed_in A.meaning self.now) held.now hand.old.view }
        requires again_is { again.now ≡ hand.old.view.again }
        ensures own { IsOwnHand A.meaning self.now hand.new }
        ensures written { IfOk result (λ place. HasWritten effect.now place hand.old hand.new) }
        ensures served { OnOk result (P.waits ≡ false → NoTakeWasRefused hand.old hand.new) }
        ensures at_once { OnErr result (P.waits ≡ false) }
        ensures given_up { OnErr result
            (HasGivenUp (fixed_in A.meaning self.now) (length self.now.rooms) hand.old hand.new) }
        ensures refusals { AreRefusals refusals.old hand.old.view → AreRefusals refusals.new hand.new.view }
    {
        let (old, new) = self.homes(&read_record(held.slot, again), effect);
        let queue = self.write_nodes(old, new);
        let nodes = queue.as_slice();
        self.take_write_nodes(patience, hand, refusals, held, effect, nodes)?;
        let place = self.commit_on(hand, effect, nodes);
        self.store_all(hand, held.slot, effect, old, new);
        self.release_nodes(hand, nodes);
        Ok(place)
    }
}
