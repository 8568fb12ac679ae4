use crate::point::Point;
use crate::seat::Seat;
use core_seats::Rules;
use entity_recs::{Action, Effect};

impl Seat {
    ghost use Rattle.std.specs.Prelude.{◌≡◌, ◌<◌, ◌≤◌, ◌+◌, length, ◌^◌, true, false, None, is_some};
    ghost use Rattle.core_steps.specs.declared.step.StepKind.TheVariants.{Commit};
    ghost use Rattle.core_steps.specs.Machine.{kind_of, quitting};
    ghost use Rattle.core_steps.specs.Steps.{first_yield};
    ghost use Rattle.core_seats.specs.Going.{view_found};
    ghost use Rattle.core_seats.specs.Nexts.{next_point, next_with, the_next};
    ghost use Rattle.core_seats.specs.Ready.{IsReady};
    ghost use Rattle.core_machine.specs.Seats.{view_of, things_room, given_of};
    ghost use Rattle.core_seats.specs.Shown.{fixed_of};
    ghost use Rattle.core_seats.specs.Sound.{IsSound};

    /// The seat makes its next step, whichever it is, where this word was found. `effect` is the effect that is kept of
    /// its command; it is copied where it enters the view.
    pub fn go<A: Action>(&mut self, rules: &Rules<A>, effect: &Option<Effect>, found: u64)
        requires comes { let F = fixed_of A.meaning rules.now in
            is_some (next_with F (view_of self.old) (given_of self.old) self.old.quits effect.now) ≡ true }
        requires ready { let F = fixed_of A.meaning rules.now in
            IsReady F (view_of self.old) (given_of self.old) self.old.quits effect.now }
        requires after { let F = fixed_of A.meaning rules.now in
            IsSound F (view_found F (view_of self.old)
            (the_next (next_with F (view_of self.old) (given_of self.old) self.old.quits effect.now)) found) }
        requires count { let F = fixed_of A.meaning rules.now in
            kind_of (the_next (next_with F (view_of self.old) (given_of self.old) self.old.quits effect.now)) ≡ Commit
            → found + 1 < 2 ^ 64 }
        requires things { length (fixed_of A.meaning rules.now).start.ids ≤ things_room self.old }
        ensures view { let F = fixed_of A.meaning rules.now in
            view_of self.new ≡ view_found F (view_of self.old)
            (the_next (next_with F (view_of self.old) (given_of self.old) self.old.quits effect.now)) found }
        ensures given { self.new.given ≡ None }
        ensures quits { self.new.quits ≡ false }
        ensures things { things_room self.new ≡ things_room self.old }
    {
        if self.quits {
            self.give_up(rules, found);
        } else {
            self.go_on(rules, effect, found);
        }
        self.given = None;
        self.quits = false;
    }

    /// The first node that is held is given back by a seat that gives up; where none is held, the command is let go and
    /// the word found is the count.
    fn give_up<A: Action>(&mut self, rules: &Rules<A>, found: u64)
        ensures view { let F = fixed_of A.meaning rules.now in
            view_of self.new ≡ view_found F (view_of self.old) (quitting (first_yield F (view_of self.old))) found }
        ensures things { things_room self.new ≡ things_room self.old }
    {
        let nodes = self.inner_held(rules);
        let leaves = self.leaves_held();
        if nodes.is_empty() && leaves.is_empty() {
            self.forget();
            self.seen = found;
        } else {
            self.yield_from(nodes, leaves);
        }
    }

    /// The seat, which isn't to give up, makes its next step.
    fn go_on<A: Action>(&mut self, rules: &Rules<A>, effect: &Option<Effect>, found: u64)
        requires comes { let F = fixed_of A.meaning rules.now in
            is_some (next_point F (view_of self.old) (given_of self.old) effect.now (view_of self.old).point) ≡ true }
        requires ready { let F = fixed_of A.meaning rules.now in
            IsReady F (view_of self.old) (given_of self.old) self.old.quits effect.now }
        requires after { let F = fixed_of A.meaning rules.now in
            IsSound F (view_found F (view_of self.old)
            (the_next (next_point F (view_of self.old) (given_of self.old) effect.now (view_of self.old).point))
            found) }
        requires count { let F = fixed_of A.meaning rules.now in
            kind_of (the_next (next_point F (view_of self.old) (given_of self.old) effect.now (view_of self.old).point))
            ≡ Commit
            → found + 1 < 2 ^ 64 }
        requires things { length (fixed_of A.meaning rules.now).start.ids ≤ things_room self.old }
        ensures view { let F = fixed_of A.meaning rules.now in
            view_of self.new ≡ view_found F (view_of self.old)
            (the_next (next_point F (view_of self.old) (given_of self.old) effect.now (view_of self.old).point)) found }
        ensures things { things_room self.new ≡ things_room self.old }
    {
        match self.point {
            Point::Idle => self.begin_given(found),
            Point::Owning => self.load_own(rules, found),
            Point::Taking => self.take_next(found),
            Point::Checking => self.load_again(rules, found),
            Point::Entering { .. } => self.take_next(found),
            Point::Entered { .. } => self.read_list(rules, found),
            Point::Loading { .. } => self.read_player(rules, found),
            Point::Sensing => {
                rules.is_ruled();
                self.read_state(found);
            }
            Point::Resolving => self.resolve(rules, effect, found),
            Point::Claiming if self.queues.rest.is_empty() => self.commit_held(rules, found),
            Point::Claiming => self.take_next(found),
            Point::Storing => self.store_made(),
            Point::Leaving { .. } => self.give_next(rules),
            Point::Releasing => self.give_next(rules),
            Point::Returning => self.give_next(rules),
            Point::Yielding => self.give_next(rules),
        }
    }
}
