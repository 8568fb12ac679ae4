ghost use Rattle.std.specs.Prelude.{◌≡◌};

use demo_lines::Event;
use packet_read::{Arrival, ArrivalBytes, PacketBytes};

// 64 bytes for the packet: smaller to move than an arrival, and with room for several moves.
/// An event of a generated recording, with its packet as it is written: smaller than an [`Event`], which has room for
/// any packet of a line.
#[derive(Drop)]
pub enum GeneratedEvent {
    /// A frame begins, and the one before it is closed.
    Frame,
    /// A packet reaches the server in the frame that is open.
    From {
        /// The port that sends it.
        port: u16,
        /// Its bytes.
        bytes: PacketBytes,
    },
    /// The recording ends, and the frame that is open is closed.
    End,
}

/// The same packet as one that reached the server.
fn arrival(port: u16, bytes: &PacketBytes) -> Arrival
    ensures { result ≡ record { port = port; bytes = bytes.now } }
{
    let mut arrived = ArrivalBytes::new();
    arrived.extend(bytes.as_slice());
    Arrival {
        port,
        bytes: arrived,
    }
}

impl GeneratedEvent {
    ghost use Rattle.demo_make.specs.Remaining.{event_of};

    /// The event that a reader of the recording's text gives. It takes no memory.
    pub fn to_event(&self) -> Event
        ensures { result ≡ event_of self.now }
    {
        match self {
            GeneratedEvent::Frame => Event::Frame,
            GeneratedEvent::From { port, bytes } => Event::From(arrival(*port, bytes)),
            GeneratedEvent::End => Event::End,
        }
    }
}
