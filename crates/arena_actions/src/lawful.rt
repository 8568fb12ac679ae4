use crate::arena_action::ArenaAction;
use crate::map_action::MapAction;
use crate::region::region_of;
use crate::shot_action::ShotAction;
use arena_geo::Region;
use arena_outcomes::{ROOM, SHOT_ROOM};
use entity_recs::{Action, Cmd, Effect, Rec};

impl Action for ArenaAction {
    ghost use Rattle.arena_outcomes.specs.Meanings.{meaning_of};
    ghost use Rattle.arena_outcomes.proofs.Lawful.{outcome_is_valid, outcome_is_local, outcome_stays_within};

    ghost meaning = { λ a. meaning_of a.map };

    fn region(&self, me: &Rec, cmd: &Cmd) -> Region {
        region_of(&self.leaps, me, cmd, ROOM)
    }

    fn act(&self, me: &Rec, near: &[Rec], cmd: &Cmd) -> Effect {
        self.act(me, near, cmd)
    }

    ghost validity = { λ a. outcome_is_valid a.map a.is_map };

    ghost locality = { λ a. outcome_is_local a.map a.is_map };

    ghost footprint = { λ a. outcome_stays_within a.map a.is_map };
}

impl Action for ShotAction {
    ghost use Rattle.arena_outcomes.specs.Meanings.{shot_meaning_of};
    ghost use Rattle.arena_outcomes.proofs.Lawful.{shots_are_valid, shots_are_local, shots_stay_within};

    ghost meaning = { λ a. shot_meaning_of a.arena.map };

    fn region(&self, me: &Rec, cmd: &Cmd) -> Region {
        region_of(&self.arena.leaps, me, cmd, SHOT_ROOM)
    }

    fn act(&self, me: &Rec, near: &[Rec], cmd: &Cmd) -> Effect {
        self.act(me, near, cmd)
    }

    ghost validity = { λ a. shots_are_valid a.arena.map a.arena.is_map };

    ghost locality = { λ a. shots_are_local a.arena.map a.arena.is_map };

    ghost footprint = { λ a. shots_stay_within a.arena.map a.arena.is_map };
}

impl Action for MapAction {
    ghost use Rattle.arena_outcomes.proofs.Lawful.{outcome_is_valid, outcome_is_local, outcome_stays_within};
    ghost use Rattle.arena_outcomes.proofs.Lawful.{shots_are_valid, shots_are_local, shots_stay_within};
    ghost use Rattle.arena_actions.specs.declared.map_action.MapAction.TheVariants.{Plain, Shots};
    ghost use Rattle.arena_actions.specs.MapActions.{meaning_in};

    ghost meaning = { λ a. meaning_in a };

    fn region(&self, me: &Rec, cmd: &Cmd) -> Region {
        match self {
            MapAction::Plain(action) => action.region(me, cmd),
            MapAction::Shots(action) => action.region(me, cmd),
        }
    }

    fn act(&self, me: &Rec, near: &[Rec], cmd: &Cmd) -> Effect {
        match self {
            MapAction::Plain(action) => Action::act(action, me, near, cmd),
            MapAction::Shots(action) => Action::act(action, me, near, cmd),
        }
    }

    ghost validity = { elim [
      | Plain a ↦ outcome_is_valid a.map a.is_map
      | Shots a ↦ shots_are_valid a.arena.map a.arena.is_map
    ] };

    ghost locality = { elim [
      | Plain a ↦ outcome_is_local a.map a.is_map
      | Shots a ↦ shots_are_local a.arena.map a.arena.is_map
    ] };

    ghost footprint = { elim [
      | Plain a ↦ outcome_stays_within a.map a.is_map
      | Shots a ↦ shots_stay_within a.arena.map a.arena.is_map
    ] };
}
