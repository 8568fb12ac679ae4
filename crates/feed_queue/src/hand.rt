use crossbeam_queue::RuledArrayQueue;
use crossbeam_queue::protocol::{Join, Lesson, Outcome, Protocol, Split};
use std::alloc::Global;
use std::collections::LinkedList;
use std::marker::{Brand, PhantomData};

/// What a pass has done: the places that it has pushed as the one feeder and as the other, and those that it has popped;
/// `None` where it may not. No value of it is made.
pub struct Hand {
    /// What it has pushed as feeder 0, of even ports.
    pub evens: Option<LinkedList<u32>>,
    /// What it has pushed as feeder 1, of odd ports.
    pub odds: Option<LinkedList<u32>>,
    /// What it has popped.
    pub got: Option<LinkedList<u32>>,
}

/// The ports of a frame's packets, as clauses see them. Each call picks them.
pub trait Ported {
    ghost use Rattle.std.specs.Prelude.{ℕ, List};

    ghost ports: { List ℕ };
}

impl Ported for Brand {
    ghost use Rattle.std.specs.Prelude.{[]};

    ghost ports = { [] };
}

/// The rule on the queue: what each feeder has pushed is a front of its own places, in their order.
pub struct Fed<N> {
    of: PhantomData<N>,
}

impl<N: Ported> Protocol<u32, Hand> for Fed<N> {
    ghost use Rattle.feed_queue.specs.Hands.{nothing_done};
    ghost use Rattle.feed_queue.specs.Rule.{IsKept};

    ghost holds = { IsKept N.ports };

    ghost first = { nothing_done };
}

/// The queue of a frame. What it has room for is what `ruled` is given.
pub type Line<N> = RuledArrayQueue<u32, Hand, Fed<N>, Global>;

/// The pass of feeder 0 is made.
pub struct Evens;

impl Split<Hand> for Evens {
    ghost use Rattle.feed_queue.specs.Hands.{without_evens, evens_alone};

    ghost left = { without_evens };

    ghost right = { evens_alone };
}

impl Join<Hand> for Evens {
    ghost use Rattle.feed_queue.specs.Hands.{with_evens, empty_hand};

    ghost both = { with_evens };

    ghost spent = { empty_hand };
}

/// The pass of feeder 1 is made.
pub struct Odds;

impl Split<Hand> for Odds {
    ghost use Rattle.feed_queue.specs.Hands.{without_odds, odds_alone};

    ghost left = { without_odds };

    ghost right = { odds_alone };
}

impl Join<Hand> for Odds {
    ghost use Rattle.feed_queue.specs.Hands.{with_odds, empty_hand};

    ghost both = { with_odds };

    ghost spent = { empty_hand };
}

/// A feeder pushes a place, of a queue that is never full then.
pub struct Puts<N> {
    of: PhantomData<N>,
}

impl<N: Ported> Outcome<u32, Hand> for Puts<N> {
    ghost use Rattle.std.specs.Prelude.{◌≡◌};
    ghost use Rattle.feed_queue.specs.Hands.{hand_after_push};

    ghost then = { λ v place w. w ≡ hand_after_push v place };
}

impl<N: Ported> Lesson<u32, Hand> for Puts<N> {
    ghost use Rattle.feed_queue.specs.Rule.{HasRoomFor};

    ghost fact = { HasRoomFor N.ports };
}

/// A place is popped, of a queue that has what was pushed and isn't popped yet.
pub struct Gets<N> {
    of: PhantomData<N>,
}

impl<N: Ported> Outcome<u32, Hand> for Gets<N> {
    ghost use Rattle.std.specs.Prelude.{◌≡◌};
    ghost use Rattle.feed_queue.specs.Hands.{hand_after_pop};

    ghost then = { λ v place w. w ≡ hand_after_pop v place };
}

impl<N: Ported> Lesson<u32, Hand> for Gets<N> {
    ghost use Rattle.feed_queue.specs.Rule.{Holds};

    ghost fact = { Holds N.ports };
}
