ghost use Rattle.std.specs.Prelude.{◌≡◌, ◌<◌, true};
ghost use Rattle.entity_recs.specs.Actions.{IsCommand};
ghost use Rattle.core_steps.specs.Cells.{with_bit, without_bit};
ghost use Rattle.core_steps.specs.Points.{stage_of, is_storing, stores_owed};
ghost use Rattle.core_seats.specs.Going as going;
ghost use Rattle.core_machine.specs.Points.{store_of};
ghost use Rattle.core_machine.specs.Seats.{view_of};
ghost use Rattle.core_seats.specs.Shown.{fixed_of};
ghost use Rattle.core_machine.specs.WordsLeft as left;
ghost use Rattle.core_machine.specs.WordsLeft.{MayTake, MayLeave, takes_to_write, first_stored, word_by_kind};

use crate::point::{Point, Store};
use crate::seat::Seat;
use core_seats::Rules;
use core_steps::{FIRST_NODE_WORD, Step, StepKind};
use entity_recs::Action;

/// The list word with the player's bit set.
pub fn list_with(found: u64, slot: u8) -> u64
    requires { slot < 64 }
    ensures { result ≡ with_bit found slot }
{
    found | 1 << slot
}

/// The list word with the player's bit cleared.
pub fn list_without(found: u64, slot: u8) -> u64
    requires { slot < 64 }
    ensures { result ≡ without_bit found slot }
{
    found & !(1 << slot)
}

/// The word after this store by the player in this slot, where this word was found.
fn word_stored(slot: u8, store: Store, found: u64) -> u64
    requires { slot < 64 }
    ensures { result ≡ going.word_stored slot (store_of store) found }
{
    match store {
        Store::Clear(_) => list_without(found, slot),
        Store::Put(_, word) => word,
        Store::Link(_) => list_with(found, slot),
    }
}

/// The word after the first of the stores that the seat owes, if any.
fn first_stored(seat: &Seat, found: u64) -> u64
    requires { is_storing (stage_of (view_of seat.now).point) ≡ true → IsCommand (view_of seat.now).cmd }
    ensures { result ≡ first_stored (view_of seat.now).cmd.slot (stores_owed (view_of seat.now).point) found }
{
    if !matches!(seat.point, Point::Storing) {
        return found;
    }
    match seat.queues.stores.as_slice() {
        [] => found,
        &[store, ..] => word_stored(seat.hand().slot, store, found),
    }
}

/// Whether a node that is taken next is taken to write.
fn takes_to_write(seat: &Seat) -> bool
    ensures { result ≡ takes_to_write (view_of seat.now).point }
{
    matches!(seat.point, Point::Resolving | Point::Claiming)
}

/// The word of a node that is taken by this step of the seat.
fn word_taken<A: Action>(rules: &Rules<A>, seat: &Seat, s: Step) -> u64
    requires { MayTake (fixed_of A.meaning rules.now) (view_of seat.now) s.word }
    ensures { let F = fixed_of A.meaning rules.now in result ≡ left.word_taken F s.seat (view_of seat.now) s.word }
{
    let node = (s.word - FIRST_NODE_WORD) as u8;
    rules.held_word(s.seat, takes_to_write(seat), seat.wanted.as_slice(), node)
}

/// The word that the seat's next step leaves, which is `s`, where this word was found.
pub fn word_left<A: Action>(rules: &Rules<A>, seat: &Seat, s: Step, found: u64) -> u64
    requires { MayLeave (fixed_of A.meaning rules.now) (view_of seat.now) s.kind s.word found }
    ensures { let F = fixed_of A.meaning rules.now in
        result ≡ word_by_kind F s.seat (view_of seat.now) s.kind s.word found }
{
    match s.kind {
        StepKind::Load | StepKind::LoadList | StepKind::Count => found,
        StepKind::Take if found == 0 => word_taken(rules, seat, s),
        StepKind::Take => found,
        StepKind::GiveBack => 0,
        StepKind::Commit => found + 1,
        StepKind::Bit | StepKind::Store => first_stored(seat, found),
    }
}
