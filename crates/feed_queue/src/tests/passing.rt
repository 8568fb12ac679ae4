use crate::{FeedHold, gather};
use packet_read::{Arrival, ArrivalBytes};
use std::alloc::AllocGlobal;
use std::process::Abort;
use std::sync::Wait;
use std::sync::atomic::{AtomicBool, Ordering};
use std::test::*;
use std::thread::{Threads, yield_now};

/// How many packets each feeder has.
const OWN_PACKETS: u32 = 2;

/// How often a feeder that is held looks whether the other one has sent all of its packets, before it gives up.
const MOST_LOOKS: u32 = 10_000_000;

/// A gate that holds one feeder after its first packet, until the other one has sent all of its packets.
#[derive(Drop)]
struct HoldingGate {
    held: u8,
    /// The held feeder has sent a packet, and the other one all of its packets.
    has_sent: AtomicBool,
    has_other_sent_all: AtomicBool,
    /// The held feeder has given up.
    has_failed: AtomicBool,
}

impl HoldingGate {
    fn new(held: u8) -> HoldingGate {
        HoldingGate {
            held,
            has_sent: AtomicBool::new(false),
            has_other_sent_all: AtomicBool::new(false),
            has_failed: AtomicBool::new(false),
        }
    }

    /// Waits until the other feeder has sent all of its packets, or until there were too many looks.
    fn wait(&self) {
        for _ in 0..MOST_LOOKS {
            if self.has_other_sent_all.load(Ordering::SeqCst) {
                return;
            }
            yield_now();
        }
        self.has_failed.store(true, Ordering::SeqCst);
    }
}

impl FeedHold for HoldingGate {
    fn at(&self, feeder: u8, sent: u32) {
        if feeder == self.held && sent == 1 {
            self.has_sent.store(true, Ordering::SeqCst);
            self.wait();
        }
        if feeder != self.held && sent == OWN_PACKETS {
            self.has_other_sent_all.store(true, Ordering::SeqCst);
        }
    }
}

fn arrival(port: u16) -> Arrival {
    Arrival {
        port,
        bytes: ArrivalBytes::new(),
    }
}

/// The same packets are sent whichever feeder is held: those at places 0 and 2 by feeder 0, those at 1 and 3 by feeder 1.
/// Both places of the other feeder come before the second one of the held feeder.
fn expect_passed(
    rt: &(impl AllocGlobal + Abort + Threads + Wait + Sync),
    held: u8,
) -> Result<(), Fail> {
    let gate = HoldingGate::new(held);
    let arrivals = [arrival(2), arrival(3), arrival(2), arrival(3)];
    let order = gather(rt, rt.alloc(), &arrivals, &gate)?;
    assert!(rt; !gate.has_failed.load(Ordering::SeqCst));
    assert!(rt; gate.has_sent.load(Ordering::SeqCst));
    assert!(rt; gate.has_other_sent_all.load(Ordering::SeqCst));
    let second = u32::from(held) + 2;
    let before = order
        .as_slice()
        .iter()
        .take_while(|place| **place != second);
    assert_eq!(rt; before.count(), 3);
    Ok(())
}

#[test]
fn second_feeder_passes_held_first(rt: HostRuntime) -> Result<(), Fail> {
    expect_passed(&rt, 0)?;
    expect_passed(&rt, 1)
}
