ghost use Rattle.arena_actions.specs.MapActions.{map_in, IsOfItsMap};
ghost use Rattle.arena_actions.proofs.OfItsMap.{IsOfItsMap-prop};
ghost use Rattle.std.specs.Prelude.{◌≡◌, ◌<◌, [], ◌∷◌, ◌++◌, filter, length, map, Some, IfOk, IsSome, ◌^◌};
ghost use Rattle.std.specs.Option.{option_to_list};
ghost use Rattle.entity_recs.specs.declared.limits.TheConstants.{IDS};
ghost use Rattle.entity_recs.specs.declared.effect.NewState.{NewState};
ghost use Rattle.entity_recs.specs.Records.{with_state};
ghost use Rattle.entity_recs.specs.Commands.{command_of};
ghost use Rattle.entity_recs.specs.Worlds.{others_of};
ghost use Rattle.world_tree.specs.Worlds.{IsLinked, record_of};
ghost use Rattle.arena_map.specs.Validity.{IsValidWorld};
ghost use Rattle.plain_server.specs.RecordsById.{world_of};
ghost use Rattle.transcript_check.specs.Moves.{is_other};
ghost use Rattle.plain_server.specs.Moving.{HasLivePlayer, effect_among, with_new_states, records_after};

use crate::other_list::OtherList;
use arena_actions::MapAction;
use arena_map::ArenaMap;
use entity_recs::{Cmd, Effect, NewState, Rec, Reply};
use std::alloc::{AllocError, Global};
use world_tree::World;

/// Runs moves one after another on a world, each over all other live records.
#[derive(Drop)]
pub struct Mover {
    /// The move of the map.
    pub action: MapAction,
    others: OtherList,
    ghost of_its_map: { IsOfItsMap action } by { IsOfItsMap-prop action },
}

/// Puts a record last, if it is another one.
fn put_if_other(r: Rec, slot: u16, others: &mut OtherList)
    requires { length others.old < IDS }
    ensures { others.new ≡ others.old ++ filter (is_other slot) (r ∷ []) }
{
    if r.id == slot {
        return;
    }
    others.push(r);
}

/// Puts the record with this id last, if it is live and another one.
fn put_other(world: &World, id: u16, slot: u16, others: &mut OtherList)
    requires { length others.old < IDS }
    ensures put { others.new ≡ others.old ++ filter (is_other slot) (option_to_list (record_of world.now id)) }
    ensures linked { IsLinked world.now }
{
    let Some(r) = world.get(id) else {
        return;
    };
    put_if_other(r, slot, others);
}

/// Puts the live records but one into the list, in rising id, in the place of what is there.
fn list_others(world: &World, slot: u16, others: &mut OtherList)
    ensures others { others.new ≡ others_of (world_of world.now.records) slot }
    ensures linked { IsLinked world.now }
{
    others.clear();
    for id in world.live_ids() {
        put_other(world, *id, slot, others);
    }
}

/// The record in another state.
fn in_state(r: Rec, state: u64) -> Rec
    ensures { result ≡ with_state r state }
{
    Rec { state, ..r }
}

/// Puts the record with this id in another state, if it is live.
fn put_state(world: &mut World, new: &NewState)
    ensures { world.new.records ≡ with_new_states (new.now ∷ []) world.old.records }
{
    if let Some(r) = world.get(new.id) {
        world.relink(in_state(r, new.state));
    }
}

/// Puts records in other states. Of two states of one record the first is put last, and so it is the record's state.
fn put_states(world: &mut World, states: &[NewState])
    ensures { world.new.records ≡ with_new_states states.now world.old.records }
{
    let mut left = states.len();
    while left > 0 {
        left -= 1;
        put_state(world, &states[left]);
    }
}

/// The record of a live player.
fn player_in(world: &World, slot: u8) -> Rec
    requires { IsSome (record_of world.now slot) }
    ensures player { record_of world.now slot ≡ Some result }
    ensures score { result.score < 2 ^ 32 }
    ensures linked { IsLinked world.now }
{
    world.get(u16::from(slot)).unwrap()
}

impl Mover {
    ghost use Rattle.arena_actions.specs.MapActions.{map_in};
    /// Runs moves in this arena, with this list for the records that each runs over. The only error is that memory is
    /// refused; the map is then gone.
    pub fn new(alloc: Global, map: ArenaMap, others: OtherList) -> Result<Mover, AllocError>
        ensures { IfOk result (λ mover. map_in mover.action ≡ map) }
    {
        let action = MapAction::indexed(alloc, map)?;
        Ok(Mover { action, others })
    }

    /// What a move of a live player does.
    fn effect(&mut self, world: &World, cmd: &Cmd) -> Effect
        requires valid { IsValidWorld (map_in self.old.action) world.now.records }
        requires live { HasLivePlayer world.now.records (command_of cmd.now) }
        ensures effect { result ≡ effect_among (map_in self.old.action) world.now.records (command_of cmd.now) }
        ensures action { self.new.action ≡ self.old.action }
    {
        let me = player_in(world, cmd.slot);
        list_others(world, u16::from(cmd.slot), &mut self.others);
        self.action.act(&me, self.others.as_slice(), cmd)
    }

    /// Runs a move of a live player, and gives what the player is answered.
    pub fn run(&mut self, world: &mut World, cmd: &Cmd) -> Reply
        requires valid { IsValidWorld (map_in self.old.action) world.old.records }
        requires live { HasLivePlayer world.old.records (command_of cmd.now) }
        ensures reply { result ≡ (effect_among (map_in self.old.action) world.old.records (command_of cmd.now)).reply }
        ensures records { world.new.records
            ≡ records_after (map_in self.old.action) world.old.records (command_of cmd.now) }
        ensures action { self.new.action ≡ self.old.action }
    {
        let Effect { me, states, reply } = self.effect(world, cmd);
        put_states(world, states.as_slice());
        world.relink(me);
        reply
    }
}
