ghost use Rattle.std.specs.Prelude.{◌≡◌, ◌<◌, ◌≤◌};

/// How many snapshots are worth a thread of their own: to start one takes longer than to write the snapshots of a full
/// arena.
const SNAPSHOTS_PER_THREAD: usize = 64;

/// The most threads that write.
const MOST_THREADS: usize = 4;

// To start and join a thread costs 20 to 40 microseconds, and the snapshots of a full frame some 24. By one thread
// for 16 snapshots light frames took a tenth longer.
/// How many threads write so many snapshots: one for those of a full arena.
pub fn threads_for(snapshots: usize) -> usize
    ensures some { 0 < result }
    ensures few { result ≤ 4 }
    ensures alone { snapshots ≤ 64 → result ≡ 1 }
{
    (snapshots / SNAPSHOTS_PER_THREAD).clamp(1, MOST_THREADS)
}
