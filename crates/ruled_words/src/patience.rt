use std::sync::{Forever, Wait};

/// A take was refused: all that the hand held is given back, and the command is no longer in hand.
#[derive(Clone, Copy, Debug, PartialEq, Eq)]
pub struct GivenUp;

/// What a move does at a node that another pass holds.
pub trait Patience {
    ghost use Rattle.std.specs.Prelude.{◌≡◌, Bool, Option, is_some};
    ghost use Rattle.std.specs.Iterator.{IsFinite};

    /// The tries of a take after its first one.
    type Tries: Iterator<Item = ()>;

    /// Whether a refused take is tried again until it is served.
    ghost waits: { Bool };

    /// The tries of a take after its first one: without an end, or none.
    fn more_tries(&self) -> Self::Tries
        ensures can { Self.Tries.can_next result }
        ensures counted { IsFinite (Self.Tries.remaining result) };

    ghost all_or_none: { (s t : Self.Tries) (r : Option (Unit {0})) → Self.Tries.next_gives s r t → is_some r ≡ waits };
}

/// A refused take is tried again until it is served.
#[derive(Drop)]
pub struct Waiting<'r, R> {
    /// By which it waits.
    pub rt: &'r R,
}

impl<'r, R: Wait> Patience for Waiting<'r, R> {
    ghost use Rattle.std.specs.Prelude.{true};
    ghost use Rattle.std.proofs.Common.{rules};

    type Tries = Forever<'r, R>;

    ghost waits = { true };

    fn more_tries(&self) -> Forever<'r, R> {
        self.rt.forever()
    }

    ghost all_or_none = { Prim.search rules };
}

/// No tries. (Of an `iter::Empty` clauses don't know that it has none.)
#[derive(Drop)]
pub struct NoTries;

impl Iterator for NoTries {
    ghost use Rattle.std.specs.Prelude.{IsNone};
    ghost use Rattle.std.specs.Iterator.{at_most};

    type Item = ();

    ghost next_gives = { λ _ r _. IsNone r };

    ghost remaining = { λ _. at_most 0 };

    fn next(&mut self) -> Option<()> {
        None
    }
}

/// A take is tried once.
#[derive(Clone, Copy, Debug, PartialEq, Eq)]
pub struct AtOnce;

impl Patience for AtOnce {
    ghost use Rattle.std.specs.Prelude.{false};
    ghost use Rattle.std.proofs.Common.{rules};

    type Tries = NoTries;

    ghost waits = { false };

    fn more_tries(&self) -> NoTries {
        NoTries
    }

    ghost all_or_none = { Prim.search rules };
}
