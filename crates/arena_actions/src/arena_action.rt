ghost use Rattle.arena_map.specs.Maps.{IsMap, solids_of};
ghost use Rattle.std.specs.Prelude.{◌≡◌};
ghost use Rattle.arena_actions.specs.Leaps.{leaps_of};
ghost use Rattle.arena_actions.specs.Solids.{MissesNone};
ghost use Rattle.arena_outcomes.proofs.Props.{IsMap-prop};
ghost use Rattle.std.proofs.Props.{props};

use crate::leaps::Leaps;
use crate::moving::moved_player;
use crate::solid_index::SolidIndex;
use arena_map::ArenaMap;
use entity_recs::{Cmd, Effect, IdList, Rec, Reply, StateList};
use std::alloc::{AllocError, Global};
use trigger_rules::touch_all;

// No model: a law of a trait ranges over every value of a model, without its invariant, and these laws need a map
// that keeps its rules.
/// The action of an arena: what a player's command does there. The player moves among the walls and blocks of the map
/// and the bodies of the other live solids, and then touches what it has come to: items, goals and teleporters.
#[derive(Drop)]
pub struct ArenaAction {
    /// The map of the arena.
    pub map: ArenaMap,
    pub(crate) index: SolidIndex,
    pub(crate) leaps: Leaps,
    pub ghost is_map: { IsMap map } by { IsMap-prop map },
    ghost are_leaps: { leaps ≡ leaps_of map } by { Prim.hlevel props },
    pub ghost misses_none: { MissesNone index.strips (solids_of map) } by { Prim.hlevel props },
}

impl ArenaAction {
    ghost use Rattle.std.specs.Prelude.{◌≡◌, All, IfOk, map};
    ghost use Rattle.std.specs.List.Sorted.{IsStrictlyIncreasing};
    ghost use Rattle.entity_recs.specs.Records.{IsRecord};
    ghost use Rattle.entity_recs.specs.Commands.{command_of};
    ghost use Rattle.trigger_rules.specs.Laws.{IsPlayerOn};
    ghost use Rattle.arena_outcomes.specs.Outcomes.{outcome_in};

    /// The action of this map's arena, which takes no memory: without an index, each move looks at all solids.
    pub fn new(map: ArenaMap) -> ArenaAction
        ensures { result.map ≡ map }
    {
        let leaps = Leaps::of(&map);
        ArenaAction {
            map,
            index: SolidIndex::none(),
            leaps,
        }
    }

    /// The action of this map's arena with an index over its solids, by which a move finds those that are near. The only
    /// error is that memory is refused; the map is then gone.
    pub fn indexed(alloc: Global, map: ArenaMap) -> Result<ArenaAction, AllocError>
        ensures { IfOk result (λ action. action.map ≡ map) }
    {
        let index = SolidIndex::of(alloc, map.bounds(), map.solids())?;
        let leaps = Leaps::of(&map);
        Ok(ArenaAction { map, index, leaps })
    }

    /// The map of the arena, which keeps its rules.
    pub fn map(&self) -> &ArenaMap
        ensures value { result.now ≡ self.now.map }
        ensures rules { IsMap self.now.map }
    {
        &self.map
    }

    /// What a command does to its player among other live records, in rising id.
    pub fn act(&self, me: &Rec, near: &[Rec], cmd: &Cmd) -> Effect
        requires player { IsPlayerOn self.now.map me.now }
        requires records { All IsRecord near.now }
        requires rising { IsStrictlyIncreasing (map (λ r. r.id) near.now) }
        ensures { result ≡ outcome_in self.now.map me.now near.now (command_of cmd.now) }
    {
        let mut after = moved_player(&self.map, &self.index, me, near, cmd);
        let mut states = StateList::new();
        let mut got = IdList::new();
        touch_all(
            &self.map,
            &mut after,
            near,
            cmd.frame,
            &mut states,
            &mut got,
        );
        let reply = Reply {
            origin: after.origin,
            got,
        };
        Effect {
            me: after,
            states,
            reply,
        }
    }
}
