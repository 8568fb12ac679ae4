ghost use Rattle.std.specs.Prelude.{List, Option};
ghost use Rattle.std.specs.Iterator.{YieldsFirstBy, IsFinite};
ghost use Rattle.demo_lines.specs.declared.event.Event.{Event};
ghost use Rattle.demo_make.specs.declared.generated_event.GeneratedEvent.{GeneratedEvent};
ghost use Rattle.demo_make.specs.Remaining.{event_of};

use crate::generated_event::GeneratedEvent;
use crate::generator::Generator;

/// An iterator over the events of a recording, of which it is known which it has still to give.
pub trait Events: Iterator<Item = GeneratedEvent> {
    // The events that are left.
    ghost left: { Self → List Event };

    // It can be asked at any time.
    ghost can: { (s : Self) → Self.can_next s };

    // It gives the first of what is left.
    ghost gives: { (s : Self) (event : Option GeneratedEvent) (t : Self) → Self.next_gives s event t
        → YieldsFirstBy event_of left s event t };

    // What is left comes to an end.
    ghost ends: { (s : Self) → IsFinite (Self.remaining s) };
}

impl Events for Generator {
    ghost use Rattle.demo_make.specs.Remaining.{remaining_events};

    ghost left = { remaining_events };

    ghost can = { λ s. tt };

    ghost gives = { λ s event t given. given };

    ghost ends = { λ s. tt };
}
