use arena_engine::{Report, serve};
use edge_io::{MemSink, MemSource};
use shared_moves::NoGate;
use std::alloc::AllocGlobal;
use std::sync::Wait;
use std::thread::Threads;

mod explained;
mod feeders;
mod hostile;
mod hostile_frames;
mod logs;
mod made;
mod resent;
mod transcripts;
mod walk;
mod ways;

const ARENA: &str = "arena -131072 -131072 0 131072 131072 65536\n";

/// An arena with one spawn, and a frame in which a player joins.
const ONE_JOIN: &str =
    "arena -131072 -131072 0 131072 131072 65536\nspawn 0 0 6144\nframe\nfrom 7 0101\nend\n";

/// An arena with one spawn, and a frame in which two players would join.
const CROWDED: &str =
    "arena -131072 -131072 0 131072 131072 65536\nspawn 0 0 6144\nframe\nfrom 7 0101\nfrom 8 0101\nend\n";

/// What comes of these words, over memory and without a gate.
pub fn report_of(
    rt: &(impl AllocGlobal + Threads + Wait + Sync),
    words: &[&str],
    source: &mut MemSource,
    sink: &mut MemSink,
) -> Report {
    serve(rt, rt.alloc(), words, source, sink, &NoGate)
}
