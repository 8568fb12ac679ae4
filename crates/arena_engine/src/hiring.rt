use crew::Helpers;
use move_phase::{Runners, Turn};
use playback::Host;
use shared_moves::Gate;
use std::sync::Wait;
use std::thread;
use std::thread::Threads;

/// How many threads help the calling one: with it as many as workers, but no more than processors, unless the gate asks
/// for a thread for each.
fn helper_count<R: Threads + Wait + Sync, G: Gate>(host: &Host<R>, gate: &G) -> usize {
    let others = usize::from(host.workers) - 1;
    if others == 0 || gate.needs_threads() {
        return others;
    }
    match thread::available_parallelism(host.rt) {
        Ok(processors) => others.min(processors.get() - 1),
        Err(_) => others,
    }
}

/// What runs the moves of all frames, and the helpers that help it, none where memory for them is refused.
pub fn hire<'a, R: Threads + Wait + Sync, G: Gate>(
    host: &Host<R>,
    gate: &'a G,
) -> (Runners<'a, G>, Helpers<Turn<'a, G>>) {
    Runners::with_helpers(host.alloc, gate, helper_count(host, gate))
}
