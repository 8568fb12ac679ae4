ghost use Rattle.std.specs.Prelude.{◌≡◌, ◌≤◌, Bool, All, length};
ghost use Rattle.box_trace.specs.declared.hit.TheConstants.{MOST_SOLIDS};
ghost use Rattle.entity_recs.specs.Records.{IsRecord};
ghost use Rattle.entity_recs.specs.Commands.{command_of};
ghost use Rattle.trigger_rules.specs.Touching.{first_walk, walk_of};
ghost use Rattle.shot_rules.specs.Shots.{after_shot};
ghost use Rattle.arena_outcomes.specs.Outcomes as outcomes;

use crate::arena_action::ArenaAction;
use crate::boxes::Boxes;
use crate::moving::{MANY_SOLIDS, SOME_SOLIDS};
use arena_geo::{Aabb, Vec3};
use arena_map::ArenaMap;
use entity_recs::{Cmd, Effect, IdList, Rec, Reply, StateList};
use shot_rules::{DOWN, fire, is_down, shot_range};
use std::alloc::{AllocError, Global};

/// The action of an arena where players shoot: what a player's command does there. A player that was hit too often is
/// down until a frame comes; the others move and touch what they come to, as in each arena, and then fire.
#[derive(Drop)]
pub struct ShotAction {
    /// The action of the same arena without shots.
    pub arena: ArenaAction,
}

/// The player as it begins a move, where it isn't down: whoever was has no damage.
fn player_after_rising(me: &Rec) -> Rec
    ensures { result ≡ outcomes.player_after_rising me.now }
{
    let state = if me.state >= DOWN { 0 } else { me.state };
    Rec { state, ..*me }
}

/// The player after a command with this number, where it is down: it stays where it is, at rest, and drops what it
/// carries.
fn player_while_down(me: &Rec, seq: u32) -> Rec
    ensures { result ≡ outcomes.player_while_down me.now seq }
{
    Rec {
        vel: Vec3::ZERO,
        flags: 0,
        carry: 0,
        seq,
        ..*me
    }
}

/// What a command does that changes nothing but its player.
fn effect_on_self(me: Rec) -> Effect
    ensures { result ≡ outcomes.effect_of (first_walk me) }
{
    let reply = Reply {
        origin: me.origin,
        got: IdList::new(),
    };
    Effect {
        me,
        states: StateList::new(),
        reply,
    }
}

/// The shot of a move with this effect, among these walls and blocks.
fn fire_among(fixed: &[Aabb], effect: &mut Effect, near: &[Rec], cmd: &Cmd)
    requires few { length fixed.now ≤ MOST_SOLIDS }
    requires record { IsRecord effect.old.me }
    requires records { All IsRecord near.now }
    requires lists { length effect.old.states ≡ length effect.old.reply.got }
    ensures walk { (ended : Bool) → walk_of effect.new.me effect.new.states effect.new.reply.got ended
        ≡ after_shot fixed.now near.now (command_of cmd.now)
        (walk_of effect.old.me effect.old.states effect.old.reply.got ended) }
    ensures origin { effect.new.reply.origin ≡ effect.old.reply.origin }
{
    let _fired = fire(
        &mut effect.me,
        cmd,
        fixed,
        near,
        &mut effect.states,
        &mut effect.reply.got,
    );
}

impl ShotAction {
    ghost use Rattle.std.specs.Prelude.{◌≡◌, ◌≤◌, Bool, Some, All, IfOk, map, length};
    ghost use Rattle.std.specs.Bool.{OnTrue, OnFalse};
    ghost use Rattle.std.specs.List.Sorted.{IsStrictlyIncreasing};
    ghost use Rattle.box_trace.specs.declared.hit.TheConstants.{MOST_SOLIDS};
    ghost use Rattle.entity_recs.specs.Records.{IsRecord};
    ghost use Rattle.entity_recs.specs.Commands.{command_of};
    ghost use Rattle.arena_map.specs.Maps.{IsMap, solids_of};
    ghost use Rattle.trigger_rules.specs.Touching.{walk_of};
    ghost use Rattle.trigger_rules.specs.Laws.{IsPlayerOn};
    ghost use Rattle.shot_rules.specs.Targets.{range_if_any};
    ghost use Rattle.shot_rules.specs.Shots.{after_shot};
    ghost use Rattle.arena_outcomes.specs.Outcomes.{shooting_in, shot_outcome};

    /// The action of this map's arena.
    pub fn new(map: ArenaMap) -> ShotAction
        ensures { result.arena.map ≡ map }
    {
        ShotAction {
            arena: ArenaAction::new(map),
        }
    }

    /// The action of this map's arena with an index over its solids. The only error is that memory is refused; the map is
    /// then gone.
    pub fn indexed(alloc: Global, map: ArenaMap) -> Result<ShotAction, AllocError>
        ensures { IfOk result (λ action. action.arena.map ≡ map) }
    {
        let arena = ArenaAction::indexed(alloc, map)?;
        Ok(ShotAction { arena })
    }

    /// The map of the arena, which keeps its rules.
    pub fn map(&self) -> &ArenaMap
        ensures value { result.now ≡ self.now.arena.map }
        ensures rules { IsMap self.now.arena.map }
    {
        self.arena.map()
    }

    /// The shot of a move with this effect, which may go within `place`, if at most `N` walls and blocks are there: no
    /// others are in its way. `false` where there are more; nothing is done then.
    #[inline(never)]
    fn fire_among_few<const N: usize>(
        &self,
        place: &Aabb,
        effect: &mut Effect,
        near: &[Rec],
        cmd: &Cmd,
    ) -> bool
        requires few { N ≤ MOST_SOLIDS }
        requires place { range_if_any effect.old.me.origin cmd.now.buttons cmd.now.wish_x cmd.now.wish_y
            ≡ Some place.now }
        requires record { IsRecord effect.old.me }
        requires records { All IsRecord near.now }
        requires lists { length effect.old.states ≡ length effect.old.reply.got }
        ensures walk { OnTrue result ((ended : Bool) → walk_of effect.new.me effect.new.states effect.new.reply.got ended
            ≡ after_shot (solids_of self.now.arena.map) near.now (command_of cmd.now)
            (walk_of effect.old.me effect.old.states effect.old.reply.got ended)) }
        ensures origin { effect.new.reply.origin ≡ effect.old.reply.origin }
        ensures unchanged { OnFalse result (effect.new ≡ effect.old) }
    {
        let all = self.arena.map.solids();
        let mut few = Boxes::<N>::new();
        if !few.push_overlapping(place, all, &self.arena.index) {
            return false;
        }
        fire_among(few.as_slice(), effect, near, cmd);
        true
    }

    /// The shot of a move with this effect, which may go within `place`. No walls and blocks but those there are in its
    /// way, and the index finds them, unless they are very many.
    fn fire_within(&self, place: &Aabb, effect: &mut Effect, near: &[Rec], cmd: &Cmd)
        requires place { range_if_any effect.old.me.origin cmd.now.buttons cmd.now.wish_x cmd.now.wish_y
            ≡ Some place.now }
        requires record { IsRecord effect.old.me }
        requires records { All IsRecord near.now }
        requires lists { length effect.old.states ≡ length effect.old.reply.got }
        ensures walk { (ended : Bool) → walk_of effect.new.me effect.new.states effect.new.reply.got ended
            ≡ after_shot (solids_of self.now.arena.map) near.now (command_of cmd.now)
            (walk_of effect.old.me effect.old.states effect.old.reply.got ended) }
        ensures origin { effect.new.reply.origin ≡ effect.old.reply.origin }
    {
        if self.fire_among_few::<SOME_SOLIDS>(place, effect, near, cmd) {
            return;
        }
        if self.fire_among_few::<MANY_SOLIDS>(place, effect, near, cmd) {
            return;
        }
        fire_among(self.arena.map.solids(), effect, near, cmd);
    }

    /// What a command does to its player, where it isn't down, among other live records, in rising id.
    fn shoot(&self, me: &Rec, near: &[Rec], cmd: &Cmd) -> Effect
        requires player { IsPlayerOn self.now.arena.map me.now }
        requires records { All IsRecord near.now }
        requires rising { IsStrictlyIncreasing (map (λ r. r.id) near.now) }
        ensures { result ≡ shooting_in self.now.arena.map me.now near.now (command_of cmd.now) }
    {
        let mut effect = self.arena.act(me, near, cmd);
        if let Some(place) = shot_range(effect.me.origin, cmd) {
            self.fire_within(&place, &mut effect, near, cmd);
        }
        effect
    }

    /// What a command does to its player among other live records, in rising id.
    pub fn act(&self, me: &Rec, near: &[Rec], cmd: &Cmd) -> Effect
        requires player { IsPlayerOn self.now.arena.map me.now }
        requires records { All IsRecord near.now }
        requires rising { IsStrictlyIncreasing (map (λ r. r.id) near.now) }
        ensures { result ≡ shot_outcome self.now.arena.map me.now near.now (command_of cmd.now) }
    {
        if is_down(me, cmd.frame) {
            return effect_on_self(player_while_down(me, cmd.seq));
        }
        self.shoot(&player_after_rising(me), near, cmd)
    }
}
