ghost use Rattle.std.specs.Prelude.{◌≡◌, ◌≤◌, length, false, None};
ghost use Rattle.core_seats.specs.Going.{view_found};
ghost use Rattle.core_seats.specs.Nexts.{next_with, the_next};
ghost use Rattle.core_seats.specs.Ready as ready;
ghost use Rattle.core_machine.specs.Seats.{view_of, given_of, things_room};
ghost use Rattle.core_seats.specs.Shown.{fixed_of};
ghost use Rattle.ruled_words.specs.Passes.{effect_kept};
ghost use Rattle.region_locks.specs.Following.{CanFollow};

use core_machine::{Point, Seat};
use core_seats::Rules;
use entity_recs::{Action, Effect};

/// Whether all is read and no write node is taken.
pub(crate) fn is_resolving(seat: &Seat) -> bool
    ensures { result ≡ ready.is_resolving (view_of seat.now).point }
{
    matches!(seat.point, Point::Resolving)
}

/// The effect is let go, if there is one.
fn let_go(effect: &mut Option<Effect>)
    ensures { effect.new ≡ None }
{
    // An effect is large: where there is none, nothing is stored.
    if effect.is_some() {
        *effect = None;
    }
}

/// The seat in plain values makes the step that its place at the table has made. The effect is kept on until it enters
/// the view, and let go where the command is given up.
pub(crate) fn follow<A: Action>(
    rules: &Rules<A>,
    seat: &mut Seat,
    effect: &mut Option<Effect>,
    found: u64,
)
    requires ready { CanFollow (fixed_of A.meaning rules.now) (view_of seat.old)
        (given_of seat.old) seat.old.quits effect.old found }
    requires things { length (fixed_of A.meaning rules.now).start.ids ≤ things_room seat.old }
    ensures view { let F = fixed_of A.meaning rules.now in view_of seat.new
        ≡ view_found F (view_of seat.old) (the_next (next_with F (view_of seat.old) (given_of seat.old)
        seat.old.quits effect.old)) found }
    ensures given { seat.new.given ≡ None }
    ensures quits { seat.new.quits ≡ false }
    ensures effect { effect.new ≡ effect_kept (view_of seat.new) effect.old }
    ensures things { things_room seat.new ≡ things_room seat.old }
{
    seat.go(rules, effect, found);
    if !is_resolving(seat) {
        let_go(effect);
    }
}
