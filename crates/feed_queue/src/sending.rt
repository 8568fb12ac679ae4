ghost use Rattle.std.specs.Prelude.{◌≡◌, ◌+◌, ◌<◌, ◌≤◌, true, [], length};
ghost use Rattle.crossbeam_queue.specs.Passes.{view, IsPassOf, IsSamePass, ruled_capacity};
ghost use Rattle.feed_queue.specs.Hands.{feeder_hand};
ghost use Rattle.feed_queue.specs.Orders.{ports_of, is_of, places_below, Fit};

use crate::gate::FeedHold;
use crate::hand::{Hand, Line, Ported, Puts};
use crossbeam_queue::Pass;
use packet_read::Arrival;
use std::sync::Wait;

/// Whether the packet at this place is the feeder's.
fn is_own(arrivals: &[Arrival], feeder: u8, place: usize) -> bool
    requires { place < length arrivals.now }
    ensures { result ≡ is_of (ports_of arrivals.now) feeder place }
{
    arrivals[place].port % 2 == u16::from(feeder)
}

/// Sends the packet at this place, which is the feeder's next. The queue has room for all packets, so it isn't full.
fn send<N: Ported, R: Wait>(
    rt: &R,
    line: &Line<N>,
    pass: &mut Pass<u32, Hand>,
    feeder: u8,
    place: u32,
)
    requires pass { IsPassOf line.now pass.old }
    requires before { view pass.old ≡ feeder_hand feeder (places_below N.ports feeder place) }
    requires feeder { feeder < 2 }
    requires place { place < length N.ports }
    requires own { is_of N.ports feeder place ≡ true }
    requires room { length N.ports ≤ ruled_capacity line.now }
    ensures pass { IsSamePass pass.old pass.new }
    ensures after { view pass.new ≡ feeder_hand feeder (places_below N.ports feeder (place + 1)) }
{
    match line.push_as::<Puts<N>, R>(rt, pass, place) {
        Ok(()) => {}
        Err(_) => unreachable!(),
    }
}

/// Sends the packets of a feeder's ports in their order, and calls the gate after each with how many it has sent so far.
pub fn feed<N: Ported, R: Wait, F: FeedHold>(
    rt: &R,
    line: &Line<N>,
    mut pass: Pass<u32, Hand>,
    feeder: u8,
    arrivals: &[Arrival],
    gate: &F,
) -> Pass<u32, Hand>
    requires pass { IsPassOf line.now pass × (view pass ≡ feeder_hand feeder []) }
    requires feeder { feeder < 2 }
    requires fits { Fit N.ports (ruled_capacity line.now) arrivals.now }
    ensures pass { IsPassOf line.now result }
    ensures sent { view result ≡ feeder_hand feeder (places_below N.ports feeder (length N.ports)) }
{
    let mut sent: u32 = 0;
    for place in 0..arrivals.len() {
        if is_own(arrivals, feeder, place) {
            send::<N, R>(rt, line, &mut pass, feeder, place as u32);
            sent += 1;
            gate.at(feeder, sent);
        }
    }
    pass
}
