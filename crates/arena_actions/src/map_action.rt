use crate::arena_action::ArenaAction;
use crate::shot_action::ShotAction;
use arena_map::ArenaMap;
use entity_recs::{Cmd, Effect, Rec};
use std::alloc::{AllocError, Global};

/// The action of a map: that of its arena, with shots or without, as the map says.
#[derive(Drop)]
pub enum MapAction {
    /// No player can shoot.
    Plain(ArenaAction),
    /// Players shoot.
    Shots(ShotAction),
}

impl MapAction {
    ghost use Rattle.std.specs.Prelude.{◌≡◌, All, IfOk, map};
    ghost use Rattle.std.specs.List.Sorted.{IsStrictlyIncreasing};
    ghost use Rattle.entity_recs.specs.Records.{IsRecord};
    ghost use Rattle.entity_recs.specs.Commands.{command_of};
    ghost use Rattle.arena_map.specs.Maps.{IsMap};
    ghost use Rattle.trigger_rules.specs.Laws.{IsPlayerOn};
    ghost use Rattle.arena_outcomes.specs.Outcomes.{outcome_on};
    ghost use Rattle.arena_actions.specs.MapActions.{map_in, IsOfItsMap, IsActionOf};

    /// The action of this map.
    pub fn new(map: ArenaMap) -> MapAction
        ensures { IsActionOf map result }
    {
        if map.shots() {
            MapAction::Shots(ShotAction::new(map))
        } else {
            MapAction::Plain(ArenaAction::new(map))
        }
    }

    /// The action of this map with an index over its solids. The only error is that memory is refused; the map is then
    /// gone.
    pub fn indexed(alloc: Global, map: ArenaMap) -> Result<MapAction, AllocError>
        ensures { IfOk result (IsActionOf map) }
    {
        Ok(if map.shots() {
            MapAction::Shots(ShotAction::indexed(alloc, map)?)
        } else {
            MapAction::Plain(ArenaAction::indexed(alloc, map)?)
        })
    }

    /// The map, which keeps its rules.
    pub fn map(&self) -> &ArenaMap
        ensures value { result.now ≡ map_in self.now }
        ensures rules { IsMap (map_in self.now) }
    {
        match self {
            MapAction::Plain(action) => action.map(),
            MapAction::Shots(action) => action.map(),
        }
    }

    /// What a command does to its player among other live records, in rising id.
    pub fn act(&self, me: &Rec, near: &[Rec], cmd: &Cmd) -> Effect
        requires of_its_map { IsOfItsMap self.now }
        requires player { IsPlayerOn (map_in self.now) me.now }
        requires records { All IsRecord near.now }
        requires rising { IsStrictlyIncreasing (map (λ r. r.id) near.now) }
        ensures { result ≡ outcome_on (map_in self.now) me.now near.now (command_of cmd.now) }
    {
        match self {
            MapAction::Plain(action) => action.act(me, near, cmd),
            MapAction::Shots(action) => action.act(me, near, cmd),
        }
    }
}
