ghost use Rattle.std.specs.Prelude.{◌≡◌, ◌<◌, ℕ, List, ◌∷◌, map, Option};
ghost use Rattle.std.specs.Option.{option_map};
ghost use Rattle.entity_recs.specs.Commands.{Command};
ghost use Rattle.core_steps.specs.declared.sizes.TheConstants.{TABLE_WORDS};
ghost use Rattle.core_steps.specs.Points as core_points;
ghost use Rattle.core_steps.specs.Nodes.{Fixed};
ghost use Rattle.core_steps.specs.Reads.{View};
ghost use Rattle.core_steps.specs.Machine.{step_of, next_at, index_of_store};
ghost use Rattle.core_machine.specs.declared.point.Store.{Store};
ghost use Rattle.core_machine.specs.Points.{store_of};

use crate::point::{Point, Store};
use crate::seat::Seat;
use crate::word_steps::{
    first_of_two, give_step, list_step, load_step, node_step, player_step, state_step, store_step,
    take_step,
};
use core_seats::Rules;
use core_steps::{COUNT_WORD, Step, StepKind};
use entity_recs::{Action, Effect};
use world_tree::NearList;

/// The step of a seat that loads the count, or raises it by one.
fn count_step(number: u8, kind: StepKind) -> Step
    ensures { result ≡ record { seat = number; word = 0; kind = kind } }
{
    Step {
        seat: number,
        word: COUNT_WORD,
        kind,
    }
}

/// The step that makes the first of these stores, if any.
fn next_store_step(number: u8, stores: &[Store]) -> Option<Step>
    requires { (store : Store) (rest : List Store) → stores.now ≡ store ∷ rest
        → index_of_store (store_of store) < TABLE_WORDS }
    ensures { (F : Fixed) (view : View) (given : Option Command) (nodes : List ℕ) → result
        ≡ option_map (step_of number view) (next_at F view given (core_points.Storing nodes (map store_of stores.now))) }
{
    let &[store, ..] = stores else {
        return None;
    };
    Some(store_step(number, store))
}

impl Seat {
    ghost use Rattle.std.specs.Prelude.{◌≡◌, ◌≤◌, ℕ, List, length, Some};
    ghost use Rattle.std.specs.Option.{option_map};
    ghost use Rattle.entity_recs.specs.declared.effect.Effect.{Effect};
    ghost use Rattle.entity_recs.specs.Records.{IsRecord};
    ghost use Rattle.entity_recs.specs.Actions.{IsCommand, IsCall, HasPlayer};
    ghost use Rattle.core_steps.specs.Points as core_points;
    ghost use Rattle.core_steps.specs.Nodes.{Fixed};
    ghost use Rattle.core_steps.specs.Reads.{record_read, loaded_near, effect_loaded};
    ghost use Rattle.core_steps.specs.Steps.{first_yield};
    ghost use Rattle.core_steps.specs.Machine.{step_of, quitting, beginning, next_at};
    ghost use Rattle.core_machine.specs.Seats.{view_of, given_of, hand_of};
    ghost use Rattle.core_seats.specs.Shown.{fixed_of};
    ghost use Rattle.core_seats.specs.Nexts.{next_with, next_point, next_resolved};
    ghost use Rattle.core_seats.specs.Sound.{IsSound};
    ghost use Rattle.core_seats.specs.Ready.{IsReady, effect_due};

    /// The effect that the action gives on what was loaded, where all is read and the effect enters the view with the
    /// next step; else none. The list is emptied, and then holds the records that the action is given; it has room for
    /// all records of the start.
    pub fn resolved<A: Action>(&self, rules: &Rules<A>, near: &mut NearList) -> Option<Effect>
        requires sound { IsSound (fixed_of A.meaning rules.now) (view_of self.now) }
        requires room { length (fixed_of A.meaning rules.now).start.ids ≤ near.old.room }
        ensures effect { result ≡ effect_due (fixed_of A.meaning rules.now) (view_of self.now) }
        ensures room { near.new.room ≡ near.old.room }
    {
        match self.point {
            Point::Resolving => Some(self.effect_on_loaded(rules, near)),
            _ => None,
        }
    }

    /// The seat's next step, if it has one, under this number, where this effect is kept.
    pub fn next_step<A: Action>(
        &self,
        rules: &Rules<A>,
        number: u8,
        effect: &Option<Effect>,
    ) -> Option<Step>
        requires { IsReady (fixed_of A.meaning rules.now) (view_of self.now)
            (given_of self.now) self.now.quits effect.now }
        ensures { let F = fixed_of A.meaning rules.now in
            result ≡ option_map (step_of number (view_of self.now)) (next_with F (view_of self.now)
            (given_of self.now) self.now.quits effect.now) }
    {
        if self.quits {
            Some(self.quit_step(rules, number))
        } else {
            self.point_step(rules, number, effect)
        }
    }

    /// The step of a seat that is to give up.
    fn quit_step<A: Action>(&self, rules: &Rules<A>, number: u8) -> Step
        ensures { let F = fixed_of A.meaning rules.now in
            result ≡ step_of number (view_of self.now) (quitting (first_yield F (view_of self.now))) }
    {
        let inner = self.inner_held(rules);
        let leaves = self.leaves_held();
        match first_of_two(inner.as_slice(), leaves.as_slice()) {
            Some(node) => node_step(number, node, StepKind::GiveBack),
            None => count_step(number, StepKind::Count),
        }
    }

    /// The next step of a seat that isn't to give up.
    fn point_step<A: Action>(
        &self,
        rules: &Rules<A>,
        number: u8,
        effect: &Option<Effect>,
    ) -> Option<Step>
        requires { IsReady (fixed_of A.meaning rules.now) (view_of self.now)
            (given_of self.now) self.now.quits effect.now }
        ensures { let F = fixed_of A.meaning rules.now in
            result ≡ option_map (step_of number (view_of self.now)) (next_point F (view_of self.now)
            (given_of self.now) effect.now (view_of self.now).point) }
    {
        rules.is_ruled();
        rules.is_lawful();
        match self.point {
            Point::Idle => self.begin_step(number),
            Point::Owning => Some(load_step(number, self.hand().slot, self.own.len())),
            Point::Taking => take_step(number, self.queues.rest.as_slice()),
            Point::Checking => Some(load_step(number, self.hand().slot, self.again.len())),
            Point::Entering { node } => Some(node_step(number, node, StepKind::Take)),
            Point::Entered { node } => Some(list_step(number, node, StepKind::LoadList)),
            Point::Loading { .. } => player_step(
                number,
                self.queues.players.as_slice(),
                self.queues.part.len(),
            ),
            Point::Leaving { node } => Some(node_step(number, node, StepKind::GiveBack)),
            Point::Sensing => state_step(number, self.queues.things.ids()),
            Point::Resolving => self.resolved_step(rules, number, effect),
            Point::Claiming => self.claim_step(number, self.queues.rest.as_slice()),
            Point::Storing => next_store_step(number, self.queues.stores.as_slice()),
            Point::Releasing => give_step(
                number,
                self.queues.got.as_slice(),
                self.wanted.as_slice(),
            ),
            Point::Returning => give_step(number, &[], self.queues.rest.as_slice()),
            Point::Yielding => give_step(
                number,
                self.queues.got.as_slice(),
                self.queues.rest.as_slice(),
            ),
        }
    }

    /// The effect that the action gives on what was loaded, of which the records are put into the list.
    fn effect_on_loaded<A: Action>(&self, rules: &Rules<A>, near: &mut NearList) -> Effect
        requires call { IsCall ((A.meaning rules.now.action).takes) (record_read (view_of self.now).cmd.slot
            (view_of self.now).again)
            (loaded_near (fixed_of A.meaning rules.now) (view_of self.now))
            (view_of self.now).cmd }
        requires own { HasPlayer ((A.meaning rules.now.action).takes) (record_read (view_of self.now).cmd.slot
            (view_of self.now).own) (view_of self.now).cmd }
        requires room { length (fixed_of A.meaning rules.now).start.ids ≤ near.old.room }
        ensures effect { result ≡ effect_loaded (fixed_of A.meaning rules.now) (view_of self.now) }
        ensures room { near.new.room ≡ near.old.room }
    {
        let cmd = self.hand();
        let region = rules.region(&cmd, self.own.as_slice());
        near.clear();
        rules.near(
            &region,
            cmd.slot,
            self.others.as_slice(),
            self.queues.things.states(),
            near,
        );
        rules.act(&self.before(), near.as_slice(), &cmd)
    }

    /// The step that begins the command that was given, if any.
    fn begin_step(&self, number: u8) -> Option<Step>
        ensures { result ≡ option_map (step_of number (view_of self.now)) (beginning (given_of self.now)) }
    {
        match &self.given {
            Some(cmd) => Some(load_step(number, cmd.slot, 0)),
            None => None,
        }
    }

    /// The step once all is read: the first write node of the effect is taken, or the command is committed.
    fn resolved_step<A: Action>(
        &self,
        rules: &Rules<A>,
        number: u8,
        effect: &Option<Effect>,
    ) -> Option<Step>
        requires hand { IsCommand (hand_of self.now.cmd) }
        requires before { IsRecord (record_read (hand_of self.now.cmd).slot self.now.again.items) }
        requires after { (e : Effect) → effect.now ≡ Some e → IsRecord e.me }
        ensures { let F = fixed_of A.meaning rules.now in
            result ≡ option_map (step_of number (view_of self.now)) (next_resolved F (view_of self.now) effect.now) }
    {
        let Some(effect) = effect else {
            return None;
        };
        let nodes = rules.inner_of_two(rules.home(&self.before()), rules.home(&effect.me));
        Some(match nodes.as_slice() {
            &[node, ..] => node_step(number, node, StepKind::Take),
            [] => count_step(number, StepKind::Commit),
        })
    }

    /// The step that takes the first of these write nodes, or commits the effect in view where none is left.
    fn claim_step(&self, number: u8, rest: &[u8]) -> Option<Step>
        ensures { (F : Fixed) (got : List ℕ) → result ≡ option_map (step_of number (view_of self.now))
            (next_at F (view_of self.now) (given_of self.now) (core_points.Claiming got rest.now)) }
    {
        if let &[node, ..] = rest {
            return Some(node_step(number, node, StepKind::Take));
        }
        match &self.effect {
            Some(_) => Some(count_step(number, StepKind::Commit)),
            None => None,
        }
    }
}
