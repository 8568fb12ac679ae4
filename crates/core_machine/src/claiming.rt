ghost use Rattle.std.specs.Prelude.{◌≡◌};
ghost use Rattle.core_steps.specs.Steps.{first};

use crate::committing::same_effect;
use crate::lists::one;
use crate::point::Point;
use crate::seat::Seat;
use core_seats::{NodeQueue, Queue, Rules};
use entity_recs::{Action, Effect};

/// The first of these nodes, if any.
fn first_of(nodes: &NodeQueue) -> Option<u8>
    ensures { result ≡ first nodes.now.items }
{
    let &[node, ..] = nodes.as_slice() else {
        return None;
    };
    Some(node)
}

impl Seat {
    ghost use Rattle.std.specs.Prelude.{◌≡◌, ◌<◌, ◌+◌, ◌^◌, ◌==◌, ◌∷◌, ◌++◌, [], ℕ, List, Some, length, if◌then◌else◌};
    ghost use Rattle.areanode.specs.declared.sizes.TheConstants.{MOST_NODES};
    ghost use Rattle.entity_recs.specs.declared.effect.Effect.{Effect};
    ghost use Rattle.entity_recs.specs.Actions.{IsCommand};
    ghost use Rattle.entity_recs.specs.Records.{IsRecord};
    ghost use Rattle.core_steps.specs.Points as core_points;
    ghost use Rattle.core_steps.specs.Nodes.{write_nodes};
    ghost use Rattle.core_steps.specs.Reads.{record_read};
    ghost use Rattle.core_steps.specs.Steps as steps;
    ghost use Rattle.core_steps.specs.Machine.{resolving};
    ghost use Rattle.core_seats.specs.Going.{view_found};
    ghost use Rattle.core_machine.specs.Seats.{view_of, things_room, hand_of};
    ghost use Rattle.core_seats.specs.Shown.{fixed_of};

    /// The node that is taken next, where no effect enters the view.
    pub(crate) fn next_take(&self) -> Option<u8>
        ensures { result ≡ steps.next_take (view_of self.now).point }
    {
        match self.point {
            Point::Taking | Point::Claiming => first_of(&self.queues.rest),
            Point::Entering { node } => Some(node),
            Point::Idle
            | Point::Owning
            | Point::Checking
            | Point::Entered { .. }
            | Point::Loading { .. }
            | Point::Leaving { .. }
            | Point::Sensing
            | Point::Resolving
            | Point::Storing
            | Point::Releasing
            | Point::Returning
            | Point::Yielding => None,
        }
    }

    /// The node is got, and the first of the rest no longer to be taken.
    fn got_first(&mut self, node: u8)
        requires { length self.old.queues.got.items < MOST_NODES }
        ensures got { self.new.queues.got.items ≡ self.old.queues.got.items ++ node ∷ [] }
        ensures rest { self.new.queues.rest.items ≡ steps.rest_of self.old.queues.rest.items }
        ensures view { (point : core_points.Point) → record (view_of self.new) { point = point } ≡ record
            (view_of self.old) { point = point } }
        ensures point { self.new.point ≡ self.old.point }
        ensures things { things_room self.new ≡ things_room self.old }
    {
        self.queues.got.push(node);
        // It is the node that was taken now.
        let _ = self.queues.rest.pop_first();
    }

    /// The node that comes next, which was free, is taken.
    fn taken(&mut self, node: u8)
        requires leaves { (got rest : List ℕ) → (view_of self.old).point ≡ core_points.Taking got rest → length got < MOST_NODES }
        requires nodes { (got rest : List ℕ) → (view_of self.old).point ≡ core_points.Claiming got rest → length got < MOST_NODES }
        ensures view { view_of self.new ≡ steps.view_after_take node (view_of self.old) }
        ensures things { things_room self.new ≡ things_room self.old }
    {
        match self.point {
            Point::Taking => {
                self.got_first(node);
                self.taking();
            }
            Point::Entering { node } => self.point = Point::Entered { node },
            Point::Claiming => self.got_first(node),
            _ => {}
        }
    }

    /// The node that comes next is taken where its word was 0, and its take is refused where it wasn't.
    pub(crate) fn take_next(&mut self, found: u64)
        requires leaves { (got rest : List ℕ) → (view_of self.old).point ≡ core_points.Taking got rest → length got < MOST_NODES }
        requires nodes { (got rest : List ℕ) → (view_of self.old).point ≡ core_points.Claiming got rest → length got < MOST_NODES }
        ensures view { (node : ℕ) → steps.next_take (view_of self.old).point ≡ Some node → view_of self.new ≡ (if found == 0
            then steps.view_after_take node (view_of self.old)
            else steps.view_after_refusal node found (view_of self.old)) }
        ensures things { things_room self.new ≡ things_room self.old }
    {
        let Some(node) = self.next_take() else {
            return;
        };
        if found == 0 {
            self.taken(node);
        } else {
            self.refuse(node, found);
        }
    }

    /// The command is committed with the effect in view, where all its write nodes are held.
    pub(crate) fn commit_held<A: Action>(&mut self, rules: &Rules<A>, place: u64)
        requires command { IsCommand (hand_of self.old.cmd) }
        requires before { IsRecord (record_read (hand_of self.old.cmd).slot self.old.again.items) }
        requires after { (e : Effect) → self.old.effect ≡ Some e → IsRecord e.me }
        requires room { length self.old.log.items < self.old.log.room }
        requires place { place + 1 < 2 ^ 64 }
        ensures view { (e : Effect) (got rest : List ℕ) → self.old.effect ≡ Some e
            → (view_of self.old).point ≡ core_points.Claiming got rest
            → view_of self.new
            ≡ steps.view_after_commit (fixed_of A.meaning rules.now) place e got
            (view_of self.old) }
        ensures things { things_room self.new ≡ things_room self.old }
    {
        if matches!(self.point, Point::Claiming) {
            self.commit(rules, place);
        }
    }

    /// The write nodes of an effect on the own record as it was loaded again.
    fn write_nodes<A: Action>(&self, rules: &Rules<A>, effect: &Effect) -> NodeQueue
        requires command { IsCommand (hand_of self.now.cmd) }
        requires before { IsRecord (record_read (hand_of self.now.cmd).slot self.now.again.items) }
        requires after { IsRecord effect.now.me }
        ensures { result.items ≡ write_nodes (fixed_of A.meaning rules.now)
            (record_read (hand_of self.now.cmd).slot self.now.again.items) effect.now }
    {
        rules.inner_of_two(rules.home(&self.before()), rules.home(&effect.me))
    }

    /// The first write node of the effect that is kept, if any, is taken, with which the effect enters the view, or its
    /// take is refused; where it has no write node, the command is committed with it.
    pub(crate) fn resolve<A: Action>(
        &mut self,
        rules: &Rules<A>,
        effect: &Option<Effect>,
        found: u64,
    )
        requires command { IsCommand (hand_of self.old.cmd) }
        requires before { IsRecord (record_read (hand_of self.old.cmd).slot self.old.again.items) }
        requires after { (e : Effect) → effect.now ≡ Some e → IsRecord e.me }
        requires room { length self.old.log.items < self.old.log.room }
        requires count { (e : Effect) → effect.now ≡ Some e
            → write_nodes (fixed_of A.meaning rules.now)
            (record_read (hand_of self.old.cmd).slot self.old.again.items) e ≡ [] → found + 1 < 2 ^ 64 }
        ensures view { (e : Effect) → effect.now ≡ Some e → let F = fixed_of A.meaning rules.now in
            view_of self.new ≡ view_found F (view_of self.old)
            (resolving e (write_nodes F (record_read (hand_of self.old.cmd).slot self.old.again.items) e)) found }
        ensures things { things_room self.new ≡ things_room self.old }
    {
        let Some(effect) = effect else {
            return;
        };
        let mut nodes = self.write_nodes(rules, effect);
        match nodes.pop_first() {
            None => {
                self.effect = Some(same_effect(effect));
                self.queues.got = Queue::new();
                self.commit(rules, found);
            }
            Some(node) if found == 0 => {
                self.effect = Some(same_effect(effect));
                self.queues.got = one(node);
                self.queues.rest = nodes;
                self.point = Point::Claiming;
            }
            Some(node) => self.refuse(node, found),
        }
    }
}
