ghost use Rattle.std.specs.Prelude.{◌≡◌, ◌<◌, ◌≤◌, ◌+◌, [], length};
ghost use Rattle.entity_recs.specs.Actions.{IsCall};
ghost use Rattle.entity_recs.specs.Commands.{command_of};
ghost use Rattle.core_steps.specs.Points.{Resolving};
ghost use Rattle.core_steps.specs.Reads.{region_in, things_in, effect_loaded};
ghost use Rattle.core_steps.specs.Steps.{sensing};
ghost use Rattle.core_seats.specs.NearKept.{players_kept};
ghost use Rattle.ruled_words.specs.Passes.{fixed_in, IsOwn};
ghost use Rattle.ruled_words.specs.Hands.{IsOwnHand, pass_keeping};
ghost use Rattle.ruled_words.specs.Straight.{in_view, HasKept};

use crate::hand::Hand;
use crate::shared_words::SharedWords;
use arena_geo::Region;
use core_seats::{LoadedPlayer, LoadedPlayers, read_record};
use entity_recs::{Action, Cmd, Effect, Rec};
use world_tree::NearList;

impl<'a, A: Action> SharedWords<'a, A> {
    /// Puts the records of the words kept of live players but this one that touch a region into an empty list, in rising
    /// slot. The list has room for all players.
    fn put_players(
        &self,
        seen: u64,
        by_slot: &LoadedPlayers,
        region: &Region,
        slot: u8,
        near: &mut NearList,
    )
        requires slot { slot < 64 }
        requires empty { near.old.items ≡ [] }
        requires room { 64 ≤ near.old.room }
        ensures players { near.new.items ≡ players_kept (fixed_in A.meaning self.now) region.now slot seen by_slot.now }
        ensures few { length near.new.items ≤ 64 }
        ensures room { near.new.room ≡ near.old.room }
    {
        self.rules.put_players(seen, by_slot, region, slot, near);
    }

    /// What a command of this player does among these records.
    fn act(&self, me: &Rec, near: &[Rec], cmd: &Cmd) -> Effect
        requires { IsCall (fixed_in A.meaning self.now).takes me.now near.now (command_of cmd.now) }
        ensures { result ≡ (fixed_in A.meaning self.now).effect_of me.now near.now (command_of cmd.now) }
    {
        self.rules.act(me, near, cmd)
    }

    /// Loads the states of the things of the map that the region touches, once all lists are read, and gives the effect of
    /// the command: what the action gives on what was loaded. `again` is the own record as it was loaded again, and
    /// `by_slot` the words of the players in `seen`. The near list is only room, for 64 records and all that live at
    /// the start.
    pub fn read_effect(
        &self,
        hand: &mut Hand,
        near: &mut NearList,
        cmd: &Cmd,
        region: &Region,
        again: &LoadedPlayer,
        seen: u64,
        by_slot: &LoadedPlayers,
    ) -> Effect
        requires own { IsOwnHand A.meaning self.now hand.old }
        requires at { let F = fixed_in A.meaning self.now in
            hand.old.view.point ≡ sensing (things_in F (region_in F hand.old.view.cmd hand.old.view.own)) }
        requires region_is { region.now
            ≡ region_in (fixed_in A.meaning self.now) hand.old.view.cmd hand.old.view.own }
        requires cmd_is { command_of cmd.now ≡ hand.old.view.cmd }
        requires again_is { again.now ≡ hand.old.view.again }
        requires kept { HasKept seen by_slot.now hand.old.view.others }
        requires room { 64 + length (fixed_in A.meaning self.now).start.ids ≤ near.old.room }
        ensures own { IsOwnHand A.meaning self.now hand.new }
        ensures view { hand.new ≡ in_view hand.old
            (record hand.old.view { states = hand.new.view.states; point = Resolving }) }
        ensures effect { result ≡ effect_loaded (fixed_in A.meaning self.now) hand.new.view }
        ensures resolved { IsOwn A.meaning self.now (pass_keeping hand.new result) }
        ensures room { near.new.room ≡ near.old.room }
    {
        near.clear();
        self.put_players(seen, by_slot, region, cmd.slot, near);
        self.load_states(hand, region, near);
        self.act(&read_record(cmd.slot, again), near.as_slice(), cmd)
    }
}
