use crate::point::Point;
use crate::seat::Seat;
use core_seats::Rules;
use entity_recs::{Action, Cmd};

impl Seat {
    ghost use Rattle.std.specs.Prelude.{◌≡◌, ◌≤◌, length, map};
    ghost use Rattle.entity_recs.specs.Actions.{HasPlayer, IsCommand};
    ghost use Rattle.core_steps.specs.Reads.{record_read, things_in, region_in};
    ghost use Rattle.core_steps.specs.Steps as steps;
    ghost use Rattle.core_machine.specs.Points.{store_of};
    ghost use Rattle.core_machine.specs.Seats.{view_of, things_room, hand_of};
    ghost use Rattle.core_seats.specs.Shown.{fixed_of};

    /// The command in hand.
    pub fn hand(&self) -> Cmd
        requires { IsCommand (hand_of self.now.cmd) }
        ensures { self.now.cmd ≡ Some result }
    {
        self.cmd.unwrap()
    }

    /// The things of the map that touch the region of the command in hand are those whose states are to be loaded.
    fn list_things<A: Action>(&mut self, rules: &Rules<A>)
        requires player { HasPlayer ((A.meaning rules.now.action).takes)
            (record_read (hand_of self.old.cmd).slot self.old.own.items) (hand_of self.old.cmd) }
        requires things { length (fixed_of A.meaning rules.now).start.ids ≤ things_room self.old }
        ensures { let F = fixed_of A.meaning rules.now in self.new ≡ record self.old {
          queues = record self.old.queues {
            things = record self.old.queues.things {
              ids = things_in F (region_in F (hand_of self.old.cmd) self.old.own.items);
            };
          };
        } }
    {
        let region = rules.region(&self.hand(), self.own.as_slice());
        self.queues.things.list_things(rules, &region);
    }

    /// The states of the things that are left are to be loaded, if any.
    pub(crate) fn sensing(&mut self)
        ensures view { view_of self.new ≡ record (view_of self.old) { point = steps.sensing self.old.queues.things.ids } }
        ensures things { things_room self.new ≡ things_room self.old }
    {
        self.point = if self.queues.things.ids().is_empty() {
            Point::Resolving
        } else {
            Point::Sensing
        };
    }

    /// The leaves that are left are to be taken, if any.
    pub(crate) fn taking(&mut self)
        ensures view { view_of self.new
            ≡ record (view_of self.old) { point = steps.taking self.old.queues.got.items self.old.queues.rest.items } }
        ensures things { things_room self.new ≡ things_room self.old }
    {
        self.point = if self.queues.rest.is_empty() {
            Point::Checking
        } else {
            Point::Taking
        };
    }

    /// The stores that are left are owed, if any; then the write nodes are given back.
    pub(crate) fn storing(&mut self)
        ensures view { view_of self.new ≡ record (view_of self.old)
            { point = steps.storing self.old.queues.got.items (map store_of self.old.queues.stores.items) } }
        ensures things { things_room self.new ≡ things_room self.old }
    {
        self.point = if self.queues.stores.is_empty() {
            Point::Releasing
        } else {
            Point::Storing
        };
    }

    /// The next node of the plan is visited, if any; else the things of the map come.
    pub(crate) fn visit_next<A: Action>(&mut self, rules: &Rules<A>)
        requires player { HasPlayer ((A.meaning rules.now.action).takes)
            (record_read (hand_of self.old.cmd).slot self.old.own.items) (hand_of self.old.cmd) }
        requires things { length (fixed_of A.meaning rules.now).start.ids ≤ things_room self.old }
        ensures view { view_of self.new ≡ record (view_of self.old) {
          point = steps.visiting
              (fixed_of A.meaning rules.now) (view_of self.old) self.old.queues.plan.items;
        } }
        ensures things { things_room self.new ≡ things_room self.old }
    {
        match self.queues.plan.pop_first() {
            None => {
                self.list_things(rules);
                self.sensing();
            }
            Some(node) if rules.is_leaf(node) => self.point = Point::Entered { node },
            Some(node) => self.point = Point::Entering { node },
        }
    }

    /// The players that are left are loaded under the node, if any; else it is left.
    pub(crate) fn load_under<A: Action>(&mut self, rules: &Rules<A>, node: u8)
        requires player { HasPlayer ((A.meaning rules.now.action).takes)
            (record_read (hand_of self.old.cmd).slot self.old.own.items) (hand_of self.old.cmd) }
        requires things { length (fixed_of A.meaning rules.now).start.ids ≤ things_room self.old }
        ensures view { view_of self.new ≡ record (view_of self.old) {
          point = steps.loading
              (fixed_of A.meaning rules.now) (view_of self.old) node self.old.queues.players.items
              self.old.queues.plan.items;
        } }
        ensures things { things_room self.new ≡ things_room self.old }
    {
        if !self.queues.players.is_empty() {
            self.queues.part.clear();
            self.point = Point::Loading { node };
        } else if rules.is_leaf(node) {
            self.visit_next(rules);
        } else {
            self.point = Point::Leaving { node };
        }
    }
}
