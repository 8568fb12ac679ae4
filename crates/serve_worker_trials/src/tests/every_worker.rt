ghost use Rattle.std.specs.Prelude.{◌≤◌};

use arena_engine::{Report, serve};
use edge_io::{MemSink, MemSource};
use entity_recs::Entry;
use shared_moves::{Gate, GatePoint, Moment, NoGate};
use std::alloc::{AllocError, AllocGlobal};
use std::process::Abort;
use std::sync::Wait;
use std::sync::atomic::{AtomicBool, AtomicU32, Ordering};
use std::test::Fail;
use std::thread::Threads;

/// A gate that notes at which points each worker calls it. A worker is one bit of each word, by its number.
#[derive(Drop)]
struct NotingGate {
    workers: u8,
    leaves: AtomicU32,
    computed: AtomicU32,
    committed: AtomicU32,
    /// A worker called with the move of a player that another worker serves.
    has_failed: AtomicBool,
}

impl NotingGate {
    fn new(workers: u8) -> NotingGate {
        NotingGate {
            workers,
            leaves: AtomicU32::new(0),
            computed: AtomicU32::new(0),
            committed: AtomicU32::new(0),
            has_failed: AtomicBool::new(false),
        }
    }

    /// The workers that have called at this point.
    fn seen_at(&self, point: GatePoint) -> &AtomicU32 {
        match point {
            GatePoint::Leaves => &self.leaves,
            GatePoint::Computed => &self.computed,
            GatePoint::Committed => &self.committed,
        }
    }
}

impl Gate for NotingGate {
    fn at(&self, moment: &Moment) {
        let worker = moment.worker();
        if worker > 15 || worker >= self.workers || moment.slot() % self.workers != worker {
            self.has_failed.store(true, Ordering::SeqCst);
            return;
        }
        self.seen_at(moment.point())
            .fetch_or(1u32 << worker, Ordering::SeqCst);
    }
}

/// The workers that serve the players of these entries, each as one bit.
fn workers_of(entries: &[Entry], workers: u8) -> u32
    requires { (1 ≤ workers) × (workers ≤ 16) }
{
    let mut found = 0u32;
    for entry in entries {
        found |= 1u32 << (entry.slot % workers);
    }
    found
}

/// The entries are those of all workers, and each worker was seen at each of the three points.
fn expect_all(rt: &impl Abort, gate: &NotingGate, with_moves: u32, all: u32) {
    assert_eq!(rt; with_moves, all);
    assert_eq!(rt; gate.leaves.load(Ordering::SeqCst), all);
    assert_eq!(rt; gate.computed.load(Ordering::SeqCst), all);
    assert_eq!(rt; gate.committed.load(Ordering::SeqCst), all);
    assert!(rt; !gate.has_failed.load(Ordering::SeqCst));
}

/// What comes of these words over this input, with this gate.
fn report_with(
    rt: &(impl AllocGlobal + Threads + Wait + Sync),
    words: &[&str],
    input: &[u8],
    gate: &NotingGate,
) -> Result<Report, AllocError> {
    let mut source = MemSource::new(input, 1_000, &[]);
    let mut sink = MemSink::new(rt.alloc(), 20_000, 1_000)?;
    Ok(serve(rt, rt.alloc(), words, &mut source, &mut sink, gate))
}

/// Sixteen players join and move once each, and each is served by a worker of its own.
#[test]
fn each_of_sixteen_workers_calls_the_gate_at_each_point(rt: HostRuntime) -> Result<(), Fail> {
    let mut nothing = MemSource::new(&[], 1, &[]);
    let mut recording = MemSink::new(rt.alloc(), 20_000, 1_000)?;
    let made = serve(
        &rt,
        rt.alloc(),
        &["make", "7", "16", "1"],
        &mut nothing,
        &mut recording,
        &NoGate,
    );
    assert_eq!(rt; made.status, 0);
    let gate = NotingGate::new(16);
    let report = report_with(&rt, &["play", "16"], recording.bytes(), &gate)?;
    assert_eq!(rt; report.status, 0);
    let last = report.last.as_ref().ok_or("a journal")?;
    expect_all(&rt, &gate, workers_of(last.as_slice(), 16), 0xffff);
    Ok(())
}

/// The workers that serve the players of a match, over the journals of all its frames.
fn workers_of_match(report: &Report) -> u32 {
    let mut found = 0u32;
    for journal in report.all.as_slice() {
        found |= workers_of(journal.as_slice(), 4);
    }
    found
}

/// Four players of a match move once in each frame, and each is served by a worker of its own.
#[test]
fn each_of_four_workers_of_a_match_calls_the_gate_at_each_point(
    rt: HostRuntime,
) -> Result<(), Fail> {
    let gate = NotingGate::new(4);
    let report = report_with(&rt, &["match", "7", "4", "2", "4"], &[], &gate)?;
    assert_eq!(rt; report.status, 0);
    expect_all(&rt, &gate, workers_of_match(&report), 0xf);
    Ok(())
}
