ghost use Rattle.std.specs.Prelude.{◌≡◌, []};

use packet_read::{Arrival, ArrivalBytes};

// A line and an event are two types: who plays the events gets the map once, and has no arm for its lines.
/// What a line of a recording gives the server. It is a type beside [`Line`](crate::Line), since a line of the map gives
/// no event: who plays the events has no arm for it, and gets the map once.
#[derive(Drop)]
pub enum Event {
    /// A frame begins, and the one before it is closed.
    Frame,
    /// A packet reached the server in the frame that is open.
    From(Arrival),
    /// The recording ends, and the frame that is open is closed.
    End,
}

// A packet is 272 bytes: who lends one to the reader is handed the kind alone, as the loop that plays a recording.
/// What an [`Event`] is, where its packet is lent beside it.
#[derive(Clone, Copy, Debug, PartialEq, Eq)]
pub enum EventKind {
    /// A frame begins, and the one before it is closed.
    Frame,
    /// The packet that is lent reached the server in the frame that is open.
    From,
    /// The recording ends, and the frame that is open is closed.
    End,
}

/// A packet without bytes, to be lent where one is put.
pub(crate) fn no_arrival() -> Arrival
    ensures { result ≡ record { port = 0; bytes = [] } }
{
    Arrival {
        port: 0,
        bytes: ArrivalBytes::new(),
    }
}

impl Event {
    ghost use Rattle.std.specs.Prelude.{◌≡◌};
    ghost use Rattle.demo_lines.specs.Kinds.{event_of_kind};

    /// Its kind, and its packet, or one without bytes where it has none.
    pub fn into_parts(self) -> (EventKind, Arrival)
        ensures { event_of_kind result.0 result.1 ≡ self }
    {
        match self {
            Event::Frame => (EventKind::Frame, no_arrival()),
            Event::From(arrival) => (EventKind::From, arrival),
            Event::End => (EventKind::End, no_arrival()),
        }
    }
}

impl EventKind {
    ghost use Rattle.std.specs.Prelude.{◌≡◌};
    ghost use Rattle.demo_lines.specs.Kinds.{event_of_kind};

    /// The event of this kind with this packet, which is let go where it has none.
    pub fn with_packet(self, arrival: Arrival) -> Event
        ensures { result ≡ event_of_kind self arrival }
    {
        match self {
            EventKind::Frame => Event::Frame,
            EventKind::From => Event::From(arrival),
            EventKind::End => Event::End,
        }
    }
}
