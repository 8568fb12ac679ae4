ghost use Rattle.std.specs.Prelude.{◌≡◌, ◌≤◌, ◌⊎◌, length, true, false, is_some};
ghost use Rattle.core_steps.specs.Stands.{start_words};
ghost use Rattle.core_steps.specs.Machine.{step_of};
ghost use Rattle.core_machine.specs.Cores.{seat_of};
ghost use Rattle.core_seats.specs.Nexts.{next_with, the_next};
ghost use Rattle.core_seats.specs.Ready.{IsReady};
ghost use Rattle.core_machine.specs.Seats.{view_of, given_of, things_room};
ghost use Rattle.core_seats.specs.Shown.{fixed_of};
ghost use Rattle.core_machine.specs.Stepping as stepping;
ghost use Rattle.core_machine.specs.Stepping.{MayStep, IsOnWord, IsStepped, IsOther, IsMade};
ghost use Rattle.core_machine.specs.Tables.{words_in};

use crate::left::word_left;
use crate::seat::Seat;
use crate::words::Words;
use core_seats::Rules;
use core_steps::{Step, StepKind};
use entity_recs::{Action, Effect};
use world_tree::NearList;

/// Whether a step of this kind is done where this word was found: a take is done where the node is free.
fn is_done(kind: StepKind, found: u64) -> bool
    ensures { result ≡ stepping.is_done kind found }
{
    match kind {
        StepKind::Take => found == 0,
        StepKind::GiveBack
        | StepKind::LoadList
        | StepKind::Load
        | StepKind::Commit
        | StepKind::Bit
        | StepKind::Store
        | StepKind::Count => true,
    }
}

/// Whether a seat's next step, if it has one, is this.
fn is_next(next: Option<Step>, s: Step) -> bool
    ensures same { result ≡ true → next ≡ Some s }
    ensures other { result ≡ false → next ≡ Some s → ⊥ }
{
    next == Some(s)
}

/// Makes the next step of a seat, which is `s`, on these words. It is false where it is a take of a node that is held.
fn make_next<A: Action>(
    rules: &Rules<A>,
    words: &mut Words,
    seat: &mut Seat,
    effect: &Option<Effect>,
    s: Step,
) -> bool
    requires comes { let F = fixed_of A.meaning rules.now in
        is_some (next_with F (view_of seat.old) (given_of seat.old) seat.old.quits effect.now) ≡ true }
    requires ready { IsReady (fixed_of A.meaning rules.now) (view_of seat.old)
        (given_of seat.old) seat.old.quits effect.now }
    requires word { let F = fixed_of A.meaning rules.now in IsOnWord F (words_in words.old
        (start_words F))
        (view_of seat.old) (the_next (next_with F (view_of seat.old) (given_of seat.old) seat.old.quits effect.now)) }
    requires same { let F = fixed_of A.meaning rules.now in step_of s.seat (view_of seat.old)
        (the_next (next_with F (view_of seat.old) (given_of seat.old) seat.old.quits effect.now)) ≡ s }
    requires things { length (fixed_of A.meaning rules.now).start.ids ≤ things_room seat.old }
    ensures stepped { let F = fixed_of A.meaning rules.now in
        IsStepped F s.seat (words_in words.old (start_words F)) (words_in words.new (start_words F))
        (view_of seat.old) (seat_of seat.new)
        (the_next (next_with F (view_of seat.old) (given_of seat.old) seat.old.quits effect.now)) result }
    ensures things { things_room seat.new ≡ things_room seat.old }
{
    let index = usize::from(s.word);
    let found = words.get(index);
    words.set(index, word_left(rules, seat, s, found));
    seat.go(rules, effect, found);
    is_done(s.kind, found)
}

/// Makes a step of a seat on these words, where it is the seat's next one. It is false where it isn't, and then nothing
/// changes, and where it is a take of a node that is held. The near list is only room, for all records of the start.
pub fn make_step<A: Action>(
    rules: &Rules<A>,
    words: &mut Words,
    seat: &mut Seat,
    near: &mut NearList,
    s: Step,
) -> bool
    requires may { let F = fixed_of A.meaning rules.now in
        MayStep F (words_in words.old (start_words F)) (seat_of seat.old) }
    requires things { length (fixed_of A.meaning rules.now).start.ids ≤ things_room seat.old }
    requires near { length (fixed_of A.meaning rules.now).start.ids ≤ near.old.room }
    ensures made { let F = fixed_of A.meaning rules.now in
        IsOther F s words.old words.new seat.old seat.new result
        ⊎ IsMade F s (words_in words.old (start_words F)) (words_in words.new (start_words F)) (seat_of seat.old)
        (seat_of seat.new) result }
    ensures things { things_room seat.new ≡ things_room seat.old }
    ensures near { near.new.room ≡ near.old.room }
{
    let effect = seat.resolved(rules, near);
    is_next(seat.next_step(rules, s.seat, &effect), s) && make_next(rules, words, seat, &effect, s)
}
