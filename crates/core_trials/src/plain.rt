ghost use Rattle.std.specs.Prelude.{◌≡◌, ◌==◌, not, map, IfSome};
ghost use Rattle.std.specs.Bool.{OnTrue};
ghost use Rattle.std.specs.List.{list_all};
ghost use Rattle.std.specs.List.Sorted.{IsStrictlyIncreasing};
ghost use Rattle.entity_recs.specs.declared.rec.Rec.{Rec};
ghost use Rattle.entity_recs.specs.Commands.{command_of};
ghost use Rattle.entity_recs.specs.Actions.{IsCommand};
ghost use Rattle.trial_outcomes.specs.Errand as errands;

use crate::{Errand, is_taken};
use entity_recs::{Action, Cmd, Effect, Rec};
use std::alloc::{AllocError, Global};

/// Whether the action takes each of the records.
fn are_taken(records: &[Rec]) -> bool
    ensures { result ≡ list_all errands.takes records.now }
{
    records.iter().all(is_taken)
}

/// Whether none of the records has this id.
fn none_has_id(records: &[Rec], id: u16) -> bool
    ensures { result ≡ list_all (λ (r : Rec). not (r.id == id)) records.now }
{
    records.iter().all(|r| r.id != id)
}

/// Whether the ids of the records rise.
fn are_rising(records: &[Rec]) -> bool
    ensures { OnTrue result (IsStrictlyIncreasing (map (λ (r : Rec). r.id) records.now)) }
{
    for i in 1..records.len() {
        if records[i - 1].id >= records[i].id {
            return false;
        }
    }
    true
}

/// What a command of this player does among the other records. There is none where the action takes no such call.
fn outcome(me: &Rec, others: &[Rec], cmd: &Cmd) -> Option<Effect>
    requires { IsCommand (command_of cmd.now) }
    ensures { IfSome result (λ e. e ≡ errands.effect_of me.now others.now (command_of cmd.now)) }
{
    if me.id != u16::from(cmd.slot) || !is_taken(me) {
        return None;
    }
    if !are_taken(others) || !none_has_id(others, me.id) || !are_rising(others) {
        return None;
    }
    Some(Errand.act(me, others, cmd))
}

/// All records but the one with this id.
fn others_than(alloc: Global, world: &[Rec], id: u16) -> Result<Vec<Rec>, AllocError> {
    let mut others = Vec::new(alloc);
    for r in world {
        if r.id != id {
            others.push(*r)?;
        }
    }
    Ok(others)
}

/// What a command does in a world, as a plain list of its records. There is none where its player isn't in the world.
pub fn outcome_in(alloc: Global, world: &[Rec], cmd: &Cmd) -> Result<Option<Effect>, AllocError>
    requires { IsCommand (command_of cmd.now) }
{
    let id = u16::from(cmd.slot);
    let others = others_than(alloc, world, id)?;
    let Some(me) = world.get(usize::from(id)) else {
        return Ok(None);
    };
    Ok(outcome(me, others.as_slice(), cmd))
}

/// The record after an effect.
fn record_after(r: &Rec, effect: &Effect) -> Rec {
    if r.id == effect.me.id {
        return effect.me;
    }
    let new = effect.states.as_slice().iter().find(|s| s.id == r.id);
    match new {
        Some(s) => Rec {
            state: s.state,
            ..*r
        },
        None => *r,
    }
}

/// Makes a world the one after an effect.
pub fn put_effect(world: &mut [Rec], effect: &Effect) {
    for r in world {
        *r = record_after(r, effect);
    }
}
