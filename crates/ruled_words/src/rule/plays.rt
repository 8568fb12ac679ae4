use crate::rule::sight::Sight;
use atomic_table::{Join, Play, Split};
use std::marker::{Brand, PhantomData};

/// The step that a seat makes next, as clauses see it. Each call picks it.
pub trait Planned {
    ghost use Rattle.std.specs.Prelude.{ℕ, Bool, Option};
    ghost use Rattle.entity_recs.specs.Commands.{Command};
    ghost use Rattle.core_steps.specs.Nodes.{Fixed};
    ghost use Rattle.core_steps.specs.Machine.{Next};

    ghost fixed: { Fixed };

    ghost passes: { ℕ };

    ghost given: { Option Command };

    ghost quits: { Bool };

    ghost next: { Next };
}

impl Planned for Brand {
    ghost use Rattle.std.specs.Prelude.{None, false};
    ghost use Rattle.core_steps.specs.Machine.{YieldCount};
    ghost use Rattle.ruled_words.specs.Starts.{nothing_fixed};

    ghost fixed = { nothing_fixed };

    ghost passes = { 0 };

    ghost given = { None };

    ghost quits = { false };

    ghost next = { YieldCount };
}

/// A step of the core.
pub struct Goes<N> {
    of: PhantomData<N>,
}

impl<N: Planned> Play<(), Sight> for Goes<N> {
    ghost use Rattle.ruled_words.specs.Plays.{SeatStepped};

    ghost then = { λ step before found after. SeatStepped N.fixed N.passes N.next before found after };
}

/// A look at the count of commits.
pub struct Looks<N> {
    of: PhantomData<N>,
}

impl<N: Planned> Play<(), Sight> for Looks<N> {
    ghost use Rattle.ruled_words.specs.Plays.{SeatLooked};

    ghost then = { λ step before found after. SeatLooked N.fixed N.passes before found after };
}

/// How many entries a seat that is made has room for. Each call picks it.
pub trait Roomed {
    ghost use Rattle.std.specs.Prelude.{ℕ};

    ghost room: { ℕ };
}

impl Roomed for Brand {
    ghost room = { 0 };
}

/// A seat is made from seat 0.
pub struct Makes<N> {
    of: PhantomData<N>,
}

impl<N: Roomed> Split<Sight> for Makes<N> {
    ghost use Rattle.ruled_words.specs.Sights.{with_one_made, sight_made};

    ghost left = { with_one_made };

    ghost right = { sight_made N.room };
}

/// A seat is ended into seat 0.
pub struct Ends;

impl Join<Sight> for Ends {
    ghost use Rattle.ruled_words.specs.Sights.{with_one_ended, no_sight};

    ghost both = { with_one_ended };

    ghost spent = { no_sight };
}
