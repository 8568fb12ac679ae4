ghost use Rattle.move_phase.specs.Serving.{AreWorkers};

use std::alloc::Global;
use std::sync::Wait;
use std::thread::Threads;

/// What frames are run with.
#[derive(Drop)]
pub struct Host<'a, R: Threads + Wait + Sync> {
    /// Starts threads, and waits for them.
    pub rt: &'a R,
    /// Where memory comes from.
    pub alloc: Global,
    /// How many workers run the moves of a frame, 1 to 16.
    pub workers: u8,
    ghost fit: { AreWorkers workers },
}
