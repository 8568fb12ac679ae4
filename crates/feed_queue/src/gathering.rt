ghost use Rattle.std.specs.Prelude.{◌≡◌, ◌≤◌, Some, [], length, IfOk};
ghost use Rattle.packet_read.specs.declared.arrival.TheConstants.{MOST_ARRIVALS};
ghost use Rattle.crossbeam_queue.specs.Passes.{view, IsPassOf, IsSamePass, ruled_capacity};
ghost use Rattle.feed_queue.specs.Hands.{hand, nothing_done, feeder_hand};
ghost use Rattle.feed_queue.specs.Orders.{ports_of, places_below, Fit, IsOrder};
ghost use Rattle.feed_queue.specs.Popped.{HasPopped};

use crate::arrival_order::ArrivalOrder;
use crate::gate::FeedHold;
use crate::hand::{Evens, Gets, Hand, Line, Odds, Ported};
use crate::place_list::PlaceList;
use crate::sending::feed;
use crossbeam_queue::Pass;
use packet_read::Arrival;
use std::alloc::{AllocError, Global};
use std::marker::Brand;
use std::sync::Wait;
use std::thread;
use std::thread::Threads;

/// Reads a queue to its end, which has all places that the feeders have pushed. What it gives is what the pass has
/// popped, beside this pass.
fn read_all<N: Ported, R: Wait>(
    rt: &R,
    line: &Line<N>,
    mut pass: Pass<u32, Hand>,
    count: usize,
    mut order: PlaceList,
) -> (PlaceList, Pass<u32, Hand>)
    requires pass { IsPassOf line.now pass }
    requires fed { view pass ≡ hand (Some (places_below N.ports 0 (length N.ports)))
        (Some (places_below N.ports 1 (length N.ports))) (Some []) }
    requires count { count ≡ length N.ports }
    requires empty { order ≡ [] }
    requires few { count ≤ MOST_ARRIVALS }
    ensures order { IsOrder N.ports result.0 }
    ensures popped { HasPopped result.1 result.0 }
    ensures pass { IsSamePass pass result.1 }
{
    for _ in 0..count {
        let Some(place) = line.pop_as::<Gets<N>, R>(rt, &mut pass) else {
            unreachable!();
        };
        let _ = order.push(place);
    }
    line.learn_as::<Gets<N>>(&mut pass);
    (order, pass)
}

/// The order in which two feeders send these packets through this queue: what this pass of it has popped in the end,
/// beside the pass.
fn gather_through<N: Ported + Send + Sync, R: Threads + Wait + Sync, F: FeedHold>(
    rt: &R,
    line: &Line<N>,
    mut pass: Pass<u32, Hand>,
    arrivals: &[Arrival],
    gate: &F,
    order: PlaceList,
) -> (PlaceList, Pass<u32, Hand>)
    requires pass { IsPassOf line.now pass }
    requires unused { view pass ≡ nothing_done }
    requires fits { Fit N.ports (ruled_capacity line.now) arrivals.now }
    requires empty { order ≡ [] }
    ensures order { IsOrder N.ports result.0 }
    ensures popped { HasPopped result.1 result.0 }
    ensures pass { IsSamePass pass result.1 }
{
    let evens = line.another::<Evens>(&mut pass);
    let odds = line.another::<Odds>(&mut pass);
    let (evens, odds) = thread::join(
        rt,
        move ||
            requires { IsPassOf line.now evens × (view evens ≡ feeder_hand 0 [])
                × Fit N.ports (ruled_capacity line.now) arrivals.now }
            ensures { IsPassOf line.entry.now result
                × (view result ≡ feeder_hand 0 (places_below N.ports 0 (length N.ports))) }
        { feed::<N, R, F>(rt, line, evens, 0, arrivals, gate) },
        move ||
            requires { IsPassOf line.now odds × (view odds ≡ feeder_hand 1 [])
                × Fit N.ports (ruled_capacity line.now) arrivals.now }
            ensures { IsPassOf line.entry.now result
                × (view result ≡ feeder_hand 1 (places_below N.ports 1 (length N.ports))) }
        { feed::<N, R, F>(rt, line, odds, 1, arrivals, gate) },
    );
    line.absorb::<Evens>(&mut pass, evens);
    line.absorb::<Odds>(&mut pass, odds);
    read_all::<N, R>(rt, line, pass, arrivals.len(), order)
}

/// The order in which two feeders send these packets, with the ports picked.
fn gather_as<N: Ported + Send + Sync, R: Threads + Wait + Sync, F: FeedHold>(
    rt: &R,
    alloc: Global,
    arrivals: &[Arrival],
    gate: &F,
) -> Result<ArrivalOrder, AllocError>
    requires ports { N.ports ≡ ports_of arrivals.now }
    requires few { length arrivals.now ≤ MOST_ARRIVALS }
    ensures { IfOk result (IsOrder N.ports) }
{
    let (queue, pass) = Line::<N>::ruled(alloc, arrivals.len().max(1))?;
    let places = PlaceList::new(alloc)?;
    if arrivals.is_empty() {
        return Ok(ArrivalOrder::of_popped(places, pass));
    }
    let (places, reader) = gather_through::<N, R, F>(rt, &queue, pass, arrivals, gate, places);
    Ok(ArrivalOrder::of_popped(places, reader))
}

/// The order in which two client threads send these packets, as places in `arrivals`: feeder 0 sends those of even ports
/// and feeder 1 those of odd ports, each in their order. The gate is called after each packet by the feeder that has sent
/// it. Without packets no thread is started.
///
/// All memory is taken before a feeder starts: the queue has room for all packets, so none is refused. The only error is
/// that memory is refused.
pub fn gather<R: Threads + Wait + Sync, F: FeedHold>(
    rt: &R,
    alloc: Global,
    arrivals: &[Arrival],
    gate: &F,
) -> Result<ArrivalOrder, AllocError>
    requires { length arrivals.now ≤ MOST_ARRIVALS }
    ensures { IfOk result (IsOrder (ports_of arrivals.now)) }
{
    gather_as::<Brand, R, F>(rt, alloc, arrivals, gate)
}
