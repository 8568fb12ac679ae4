use arena_engine::{Report, serve};
use edge_io::{MemSink, MemSource};
use entity_recs::Entry;
use shared_moves::{Gate, GatePoint, Moment};
use std::alloc::{AllocError, AllocGlobal, Global};
use std::process::Abort;
use std::sync::Wait;
use std::sync::atomic::{AtomicBool, AtomicI32, AtomicU64, Ordering};
use std::test::Fail;
use std::thread::{Threads, yield_now};

/// An arena with 16 spawns, each in the middle of a leaf of its own.
const FAR_SPAWNS: &str =
    "arena -131072 -131072 0 131072 131072 65536\nspawn 98304 98304 6144\nspawn -98304 -98304 6144\nspawn 98304 -98304 6144\nspawn -98304 98304 6144\nspawn 32768 98304 6144\nspawn -32768 -98304 6144\nspawn 32768 -98304 6144\nspawn -32768 98304 6144\nspawn 98304 32768 6144\nspawn -98304 -32768 6144\nspawn 98304 -32768 6144\nspawn -98304 32768 6144\nspawn 32768 32768 6144\nspawn -32768 -32768 6144\nspawn 32768 -32768 6144\nspawn -32768 32768 6144\nframe\n";

/// How often a worker looks for what it waits for, before it gives up.
const MOST_LOOKS: u32 = 10_000_000;

/// What a gate has seen of one worker: at which points it was called with the worker's slot and the number 1, and where
/// the entry is that it was lent.
#[derive(Drop)]
struct Seen {
    leaves: AtomicBool,
    committed: AtomicBool,
    place: AtomicU64,
    x: AtomicI32,
    y: AtomicI32,
    z: AtomicI32,
}

impl Seen {
    fn nothing() -> Seen {
        Seen {
            leaves: AtomicBool::new(false),
            committed: AtomicBool::new(false),
            place: AtomicU64::new(u64::MAX),
            x: AtomicI32::new(0),
            y: AtomicI32::new(0),
            z: AtomicI32::new(0),
        }
    }

    /// Keeps where the entry is. The worker has committed from then on.
    fn keep(&self, entry: &Entry) {
        let origin = entry.reply.origin;
        self.place.store(entry.place, Ordering::SeqCst);
        self.x.store(origin.x, Ordering::SeqCst);
        self.y.store(origin.y, Ordering::SeqCst);
        self.z.store(origin.z, Ordering::SeqCst);
        self.committed.store(true, Ordering::SeqCst);
    }
}

/// Waits until this was seen, or a worker has failed. The answer is whether it was seen before the last look.
fn is_seen_soon(seen: &AtomicBool, has_failed: &AtomicBool) -> bool {
    for _ in 0..MOST_LOOKS {
        if seen.load(Ordering::SeqCst) {
            return true;
        }
        if has_failed.load(Ordering::SeqCst) {
            return false;
        }
        yield_now();
    }
    false
}

/// A gate that holds all workers but one where they have their leaves, until that one has committed, and that one until
/// all have their leaves. Who is held keeps its thread, so all get there only if each has a thread of its own.
#[derive(Drop)]
struct HoldingGate {
    free: u8,
    /// What was seen of each worker, by its number.
    seen: Vec<Seen>,
    /// A worker was called for another's move, or one that is held has given up.
    has_failed: AtomicBool,
}

impl HoldingGate {
    fn new(alloc: Global, workers: u8, free: u8) -> Result<HoldingGate, AllocError> {
        let mut seen = Vec::with_capacity(alloc, usize::from(workers))?;
        for _ in 0..workers {
            seen.push(Seen::nothing())?;
        }
        Ok(HoldingGate {
            free,
            seen,
            has_failed: AtomicBool::new(false),
        })
    }

    /// What is seen of this worker.
    fn seen_of(&self, worker: u8) -> Option<&Seen> {
        self.seen.get(usize::from(worker))
    }

    fn fail(&self) {
        self.has_failed.store(true, Ordering::SeqCst);
    }

    /// Holds a worker until the one that isn't held has committed.
    fn hold(&self) {
        let Some(free) = self.seen_of(self.free) else {
            return self.fail();
        };
        if !is_seen_soon(&free.committed, &self.has_failed) {
            self.fail();
        }
    }

    /// Holds the worker that commits first until all have their leaves.
    fn hold_free(&self) {
        for seen in &self.seen {
            if !is_seen_soon(&seen.leaves, &self.has_failed) {
                return self.fail();
            }
        }
    }
}

impl Gate for HoldingGate {
    fn at(&self, moment: &Moment) {
        let worker = moment.worker();
        let Some(seen) = self.seen_of(worker) else {
            return self.fail();
        };
        if moment.slot() != worker || moment.seq() != 1 {
            return self.fail();
        }
        match (moment.point(), moment.entry()) {
            (GatePoint::Leaves, _) => {
                seen.leaves.store(true, Ordering::SeqCst);
                if worker == self.free {
                    self.hold_free();
                } else {
                    self.hold();
                }
            }
            (GatePoint::Computed, _) => {}
            (GatePoint::Committed, Some(entry)) => seen.keep(entry),
            (GatePoint::Committed, None) => self.fail(),
        }
    }

    fn needs_threads(&self) -> bool {
        true
    }
}

/// The entry's origin is where the worker saw it.
fn expect_origin(rt: &impl Abort, seen: &Seen, entry: &Entry) {
    let origin = entry.reply.origin;
    assert_eq!(rt; origin.x, seen.x.load(Ordering::SeqCst));
    assert_eq!(rt; origin.y, seen.y.load(Ordering::SeqCst));
    assert_eq!(rt; origin.z, seen.z.load(Ordering::SeqCst));
}

/// Compares what was seen of the worker that serves this slot with the entries of the frame.
fn expect_seen(rt: &impl Abort, seen: &Seen, slot: u8, entries: &[Entry]) -> Result<(), Fail> {
    assert!(rt; seen.leaves.load(Ordering::SeqCst));
    assert!(rt; seen.committed.load(Ordering::SeqCst));
    let place = seen.place.load(Ordering::SeqCst);
    let entry = entries.get(place as usize).ok_or("an entry at its place")?;
    assert_eq!(rt; entry.place, place);
    assert_eq!(rt; entry.slot, slot);
    expect_origin(rt, seen, entry);
    Ok(())
}

/// Of the frame's entries, one of each worker, the first is that of the worker that wasn't held, and each was seen.
fn expect_entries(
    rt: &impl Abort,
    gate: &HoldingGate,
    workers: u8,
    entries: &[Entry],
) -> Result<(), Fail> {
    assert!(rt; !gate.has_failed.load(Ordering::SeqCst));
    assert_eq!(rt; entries.len(), usize::from(workers));
    let first = entries.first().ok_or("a first entry")?;
    assert_eq!(rt; first.slot, gate.free);
    for slot in 0..workers {
        let seen = gate.seen_of(slot).ok_or("a worker of the slot")?;
        expect_seen(rt, seen, slot, entries)?;
    }
    Ok(())
}

/// Puts the recording in which so many players join far from each other, and move once each, in order.
fn put_far_players(text: &mut String, players: u8) -> Result<(), AllocError> {
    let end = 7 + u16::from(players);
    text.push_str(FAR_SPAWNS)?;
    for port in 7..end {
        writeln!(text, "from {port} 0101")?;
    }
    for port in 7..end {
        writeln!(text, "from {port} 010201000000320000000000")?;
    }
    text.push_str("end\n")
}

/// Plays the recording with these words and this gate, and gives the report.
fn report_with(
    rt: &(impl AllocGlobal + Threads + Wait + Sync),
    words: &[&str],
    input: &[u8],
    gate: &HoldingGate,
) -> Result<Report, AllocError> {
    let mut source = MemSource::new(input, 1_000, &[]);
    let mut sink = MemSink::new(rt.alloc(), 20_000, 1_000)?;
    Ok(serve(rt, rt.alloc(), words, &mut source, &mut sink, gate))
}

/// Plays as many far players as there are workers, while all workers but this one are held: its move is the first.
fn expect_passed(
    rt: &(impl AllocGlobal + Abort + Threads + Wait + Sync),
    words: &[&str],
    input: &[u8],
    workers: u8,
    free: u8,
) -> Result<(), Fail> {
    let gate = HoldingGate::new(rt.alloc(), workers, free)?;
    let report = report_with(rt, words, input, &gate)?;
    assert_eq!(rt; report.status, 0);
    let last = report.last.as_ref().ok_or("a journal")?;
    expect_entries(rt, &gate, workers, last.as_slice())
}

/// On 2, 3 and 16 workers.
#[test]
fn far_move_passes_held_move(rt: HostRuntime) -> Result<(), Fail> {
    for (count, workers, last) in [("2", 2, 1), ("3", 3, 2), ("16", 16, 15)] {
        let mut text = String::new(rt.alloc());
        put_far_players(&mut text, workers)?;
        expect_passed(&rt, &["play", count], text.as_bytes(), workers, 0)?;
        expect_passed(&rt, &["play", count], text.as_bytes(), workers, last)?;
    }
    Ok(())
}
