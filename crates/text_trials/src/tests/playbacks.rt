ghost use Rattle.arena_actions.specs.MapActions.{IsOfItsMap};
ghost use Rattle.playback.specs.Playbacks.{new_course};
ghost use Rattle.arena_actions.specs.MapActions.{map_in};
ghost use Rattle.std.specs.Prelude.{◌≡◌};

use arena_actions::MapAction;
use demo_lines::EventKind;
use match_play::match_action;
use move_phase::Runners;
use packet_read::{Arrival, ArrivalBytes};
use playback::{Host, Playback};
use shared_moves::NoGate;
use std::alloc::AllocGlobal;
use std::process::Abort;
use std::sync::Wait;
use std::test::Fail;
use std::thread::Threads;

/// The first packet has the byte 1 from port 7, the second the bytes 1 and 2 from port 8.
fn expect_packets(rt: &impl Abort, packets: &[Arrival]) {
    assert_eq!(rt; packets.len(), 2);
    for (place, packet) in packets.iter().enumerate() {
        let (port, bytes): (u16, &[u8]) = if place == 0 { (7, &[1]) } else { (8, &[1, 2]) };
        assert_eq!(rt; packet.port, port);
        assert!(rt; packet.bytes.as_slice() == bytes);
    }
}

/// Two packets are sent in a frame, each in the one packet that is lent.
fn expect_frame<'a, R: AllocGlobal + Abort + Threads + Wait + Sync>(
    host: &Host<R>,
    gate: &'a NoGate,
    playback: &mut Playback<'a>,
    action: &'a MapAction,
) -> Result<(), Fail>
    requires { playback.old.course ≡ new_course (map_in action.now) }
{
    let mut runners = Runners::alone(gate);
    let mut arrival = Arrival {
        port: 7,
        bytes: ArrivalBytes::new(),
    };
    arrival.bytes.push(1);
    let opening = playback.take_kind(host, &mut runners, EventKind::Frame, &arrival)?;
    assert!(host.rt; opening.is_none());
    let first = playback.take_kind(host, &mut runners, EventKind::From, &arrival)?;
    assert!(host.rt; first.is_none());
    arrival.port = 8;
    arrival.bytes.push(2);
    let second = playback.take_kind(host, &mut runners, EventKind::From, &arrival)?;
    assert!(host.rt; second.is_none());
    let closed = playback.take_kind(host, &mut runners, EventKind::End, &arrival)?;
    assert!(host.rt; closed.is_some());
    expect_packets(host.rt, playback.closed());
    Ok(())
}

fn expect_playback<'a>(
    rt: &(impl AllocGlobal + Abort + Threads + Wait + Sync),
    gate: &'a NoGate,
    action: &'a MapAction,
) -> Result<(), Fail>
    requires { IsOfItsMap action.now }
{
    let mut playback = Playback::new(rt.alloc(), action)?;
    let host = Host {
        rt,
        alloc: rt.alloc(),
        workers: 1,
    };
    expect_frame(&host, gate, &mut playback, action)
}

/// What is lent is copied: the second packet that is put there leaves the first as it was.
#[test]
fn a_packet_that_is_lent_is_copied(rt: HostRuntime) -> Result<(), Fail> {
    let action = match_action(rt.alloc())?;
    expect_playback(&rt, &NoGate, &action)
}
