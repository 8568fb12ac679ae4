ghost use Rattle.std.specs.Prelude.{◌≤◌, length, IfOk};
ghost use Rattle.packet_read.specs.declared.arrival.TheConstants.{MOST_ARRIVALS};
ghost use Rattle.arena_engine.specs.Feedings.{AreSent};

use feed_queue::{ArrivalOrder, NoFeedHold, gather};
use packet_read::Arrival;
use playback::Host;
use std::alloc::AllocError;
use std::sync::Wait;
use std::thread::Threads;

// An enum and no trait: the bound `Sync` of a method's type parameter isn't known in an impl of the method, and `gather`
// asks for it.
/// How the packets of frames reach the server.
#[derive(Clone, Copy, Debug, PartialEq, Eq)]
pub enum Feeding {
    /// In the order of the recording.
    Recorded,
    /// As two client threads send them.
    Threaded,
}

/// The order in which two client threads send the packets of a frame.
fn order_from_threads<R: Threads + Wait + Sync>(
    host: &Host<R>,
    sent: &[Arrival],
) -> Result<ArrivalOrder, AllocError>
    requires { length sent.now ≤ MOST_ARRIVALS }
    ensures { IfOk result (AreSent sent.now) }
{
    gather(host.rt, host.alloc, sent, &NoFeedHold)
}

impl Feeding {
    ghost use Rattle.std.specs.Prelude.{◌≤◌, length, IfOk};
    ghost use Rattle.packet_read.specs.declared.arrival.TheConstants.{MOST_ARRIVALS};
    ghost use Rattle.arena_engine.specs.Feedings.{IsOrderOf};

    /// The order in which the packets of a frame arrive, as places in the order of the recording. Without one they arrive
    /// as the recording has them, and no lines of theirs are printed. The only error is that memory is refused.
    pub fn order_of<R: Threads + Wait + Sync>(
        self,
        host: &Host<R>,
        sent: &[Arrival],
    ) -> Result<Option<ArrivalOrder>, AllocError>
        requires { length sent.now ≤ MOST_ARRIVALS }
        ensures { IfOk result (IsOrderOf self sent.now) }
    {
        match self {
            Feeding::Recorded => Ok(None),
            Feeding::Threaded => {
                let order = order_from_threads(host, sent)?;
                Ok(Some(order))
            }
        }
    }
}
