ghost use Rattle.std.specs.Prelude.{length, IfSome, IsSomeAnd, IfOk, OnOk};
ghost use Rattle.packet_read.specs.Orders.{AreEachOnce};
ghost use Rattle.playback.specs.Playbacks.{MayClose};
ghost use Rattle.arena_engine.specs.Games.{IsArranged, IsReadyFor, PutsOpenInOrder, PutsInOrderFor};

use crate::feeding::Feeding;
use demo_lines::EventKind;
use feed_queue::ArrivalOrder;
use playback::{Host, Playback};
use std::alloc::AllocError;
use std::sync::Wait;
use std::thread::Threads;

/// Puts the packets of the frame that is open into this order, if there is one.
fn arrange(playback: &mut Playback, order: &Option<ArrivalOrder>) -> Result<(), AllocError>
    requires { IfSome order.now (λ places.
        IsSomeAnd playback.old.course.opened (λ sent. AreEachOnce (length sent) places)) }
    ensures { OnOk result (IsArranged order.now playback.old.course playback.new.course) }
{
    match order {
        Some(places) => playback.reorder(places.as_slice()),
        None => Ok(()),
    }
}

/// Puts the packets of the frame that is open, if one is, into the order in which they arrive, and gives this order.
fn arrange_open<R: Threads + Wait + Sync>(
    host: &Host<R>,
    feeding: Feeding,
    playback: &mut Playback,
) -> Result<Option<ArrivalOrder>, AllocError>
    requires { MayClose playback.old.course }
    ensures { IfOk result (PutsOpenInOrder feeding playback.old.course.opened playback.old.course playback.new.course) }
{
    let Some(sent) = playback.opened() else {
        return Ok(None);
    };
    let order = feeding.order_of(host, sent)?;
    arrange(playback, &order)?;
    Ok(order)
}

/// Puts the packets of the frame that an event of this kind closes, if it closes one, into the order in which they
/// arrive, and gives this order.
pub fn arrange_for<R: Threads + Wait + Sync>(
    host: &Host<R>,
    feeding: Feeding,
    kind: EventKind,
    playback: &mut Playback,
) -> Result<Option<ArrivalOrder>, AllocError>
    requires { IsReadyFor playback.old.course kind }
    ensures { IfOk result (PutsInOrderFor feeding kind playback.old.course playback.new.course) }
{
    match kind {
        EventKind::From => Ok(None),
        EventKind::Frame | EventKind::End => arrange_open(host, feeding, playback),
    }
}
