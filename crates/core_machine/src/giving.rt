ghost use Rattle.std.specs.Prelude.{◌≡◌};
ghost use Rattle.core_steps.specs.Held.{visited_node};
ghost use Rattle.core_seats.specs.Shown.{fixed_of};

use crate::lists::one;
use crate::point::Point;
use crate::seat::Seat;
use core_seats::{NodeQueue, Queue, Rules};
use entity_recs::Action;

/// The inner node of the present visit, where it is one.
fn visited_node<A: Action>(rules: &Rules<A>, node: u8) -> NodeQueue
    ensures { result.items ≡ visited_node (fixed_of A.meaning rules.now) node }
{
    if rules.is_leaf(node) {
        Queue::new()
    } else {
        one(node)
    }
}

impl Seat {
    ghost use Rattle.std.specs.Prelude.{◌≡◌, ◌≤◌, ℕ, List, length};
    ghost use Rattle.entity_recs.specs.Actions.{HasPlayer};
    ghost use Rattle.core_steps.specs.Steps as steps;
    ghost use Rattle.core_steps.specs.Points as core_points;
    ghost use Rattle.core_steps.specs.Held as core_held;
    ghost use Rattle.core_steps.specs.Reads.{record_read};
    ghost use Rattle.core_machine.specs.Seats.{view_of, things_room, hand_of};
    ghost use Rattle.core_seats.specs.Shown.{fixed_of};

    /// The leaves that are left are to be given back, or the command is done.
    fn returning(&mut self)
        ensures view { view_of self.new ≡ steps.returning (view_of self.old) self.old.queues.rest.items }
        ensures things { things_room self.new ≡ things_room self.old }
    {
        if self.queues.rest.is_empty() {
            self.forget();
        } else {
            self.point = Point::Returning;
        }
    }

    /// The inner nodes and then the leaves that are left are to be given back, or the command is given up.
    fn yielding(&mut self)
        ensures view { view_of self.new
            ≡ steps.yielding (view_of self.old) self.old.queues.got.items self.old.queues.rest.items }
        ensures things { things_room self.new ≡ things_room self.old }
    {
        if self.queues.got.is_empty() && self.queues.rest.is_empty() {
            self.forget();
        } else {
            self.point = Point::Yielding;
        }
    }

    /// The first of the write nodes, or of the leaves where none is left, was given back.
    fn released(&mut self)
        ensures view { view_of self.new ≡ steps.released (view_of self.old) self.old.queues.got.items }
        ensures things { things_room self.new ≡ things_room self.old }
    {
        if self.queues.got.pop_first().is_some() {
            self.point = Point::Releasing;
        } else {
            // The first leaf was given back now.
            self.queues.rest = self.wanted.copied();
            let _ = self.queues.rest.pop_first();
            self.returning();
        }
    }

    /// The first of the inner nodes, or of the leaves where none is left, was given back by a seat that gives up.
    fn yielded(&mut self)
        ensures view { view_of self.new
            ≡ steps.yielded (view_of self.old) self.old.queues.got.items self.old.queues.rest.items }
        ensures things { things_room self.new ≡ things_room self.old }
    {
        // Inner nodes are given back before leaves.
        if self.queues.got.pop_first().is_none() {
            let _ = self.queues.rest.pop_first();
        }
        self.yielding();
    }

    /// The seat begins to give up: the first of these inner nodes, or of these leaves where there is none, was given
    /// back.
    pub(crate) fn yield_from(&mut self, nodes: NodeQueue, leaves: NodeQueue)
        ensures view { view_of self.new ≡ steps.yielded (view_of self.old) nodes.items leaves.items }
        ensures things { things_room self.new ≡ things_room self.old }
    {
        self.queues.got = nodes;
        self.queues.rest = leaves;
        self.yielded();
    }

    /// The node that comes next was given back.
    pub(crate) fn give_next<A: Action>(&mut self, rules: &Rules<A>)
        requires player { (node : ℕ) (plan : List ℕ) → (view_of self.old).point ≡ core_points.Leaving node plan
            → HasPlayer ((A.meaning rules.now.action).takes)
            (record_read (hand_of self.old.cmd).slot self.old.own.items) (hand_of self.old.cmd) }
        requires things { length (fixed_of A.meaning rules.now).start.ids ≤ things_room self.old }
        ensures view { view_of self.new
            ≡ steps.view_after_give (fixed_of A.meaning rules.now) (view_of self.old)
            (view_of self.old).point }
        ensures things { things_room self.new ≡ things_room self.old }
    {
        match self.point {
            Point::Leaving { .. } => self.visit_next(rules),
            Point::Releasing => self.released(),
            Point::Returning => {
                // It is the leaf that was given back now.
                let _ = self.queues.rest.pop_first();
                self.returning();
            }
            Point::Yielding => self.yielded(),
            _ => {}
        }
    }

    /// The inner nodes that are held.
    pub fn inner_held<A: Action>(&self, rules: &Rules<A>) -> NodeQueue
        ensures { result.items
            ≡ core_held.inner_held (fixed_of A.meaning rules.now) (view_of self.now).point }
    {
        match self.point {
            Point::Entered { node } | Point::Loading { node } | Point::Leaving { node } => {
                visited_node(rules, node)
            }
            Point::Claiming | Point::Storing | Point::Releasing | Point::Yielding => {
                self.queues.got.copied()
            }
            Point::Idle
            | Point::Owning
            | Point::Taking
            | Point::Checking
            | Point::Entering { .. }
            | Point::Sensing
            | Point::Resolving
            | Point::Returning => Queue::new(),
        }
    }

    /// The leaves that are held, of those wanted.
    pub fn leaves_held(&self) -> NodeQueue
        ensures { result.items ≡ core_held.leaves_held (view_of self.now).point self.now.wanted.items }
    {
        match self.point {
            Point::Idle | Point::Owning => Queue::new(),
            Point::Taking => self.queues.got.copied(),
            Point::Returning | Point::Yielding => self.queues.rest.copied(),
            Point::Checking
            | Point::Entering { .. }
            | Point::Entered { .. }
            | Point::Loading { .. }
            | Point::Leaving { .. }
            | Point::Sensing
            | Point::Resolving
            | Point::Claiming
            | Point::Storing
            | Point::Releasing => self.wanted.copied(),
        }
    }
}
