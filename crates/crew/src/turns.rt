use crate::task::Task;
use crate::view::View;
use atomic_table::{Play, Split, TableRule};

/// The rule of a post: the leader and the helper take turns at its slot.
pub struct Turns;

impl<T: Task> TableRule<T, View<T>, ()> for Turns {
    ghost use Rattle.crew.specs.Views.{alone};
    ghost use Rattle.crew.specs.Turns.{IsRuled};

    ghost holds = { λ _. IsRuled T.may_run T.changes };

    ghost first = { λ _. alone };
}

/// The helper gets a seat.
pub struct Hires;

impl<T> Split<View<T>> for Hires {
    ghost use Rattle.std.specs.Prelude.{None};
    ghost use Rattle.crew.specs.Views.{new, helping};

    ghost left = { λ v. new };

    ghost right = { λ v. helping None };
}

/// The leader takes the slot for the first time.
pub struct Opens;

impl<T> Play<T, View<T>> for Opens {
    ghost use Rattle.crew.specs.Plays.{opened};

    ghost then = { λ step. opened };
}

/// The leader hands its item over.
pub struct Offers;

impl<T> Play<T, View<T>> for Offers {
    ghost use Rattle.crew.specs.Plays.{offered};

    ghost then = { λ step. offered };
}

/// The leader takes back an item that the helper hasn't begun.
pub struct Reclaims;

impl<T> Play<T, View<T>> for Reclaims {
    ghost use Rattle.crew.specs.Plays.{reclaimed};

    ghost then = { λ step. reclaimed };
}

/// The leader takes back an item that the helper has changed.
pub struct Collects;

impl<T: Task> Play<T, View<T>> for Collects {
    ghost use Rattle.crew.specs.Plays.{collected};

    ghost then = { λ step. collected T.changes };
}

/// The leader ends the turns.
pub struct Stops;

impl<T> Play<T, View<T>> for Stops {
    ghost use Rattle.crew.specs.Plays.{stopped};

    ghost then = { λ step. stopped };
}

/// The helper takes an item that was handed over.
pub struct Begins;

impl<T: Task> Play<T, View<T>> for Begins {
    ghost use Rattle.crew.specs.Plays.{began};

    ghost then = { λ step. began T.may_run };
}

/// The helper hands the item back.
pub struct Ends;

impl<T> Play<T, View<T>> for Ends {
    ghost use Rattle.crew.specs.Plays.{ended};

    ghost then = { λ step. ended };
}
