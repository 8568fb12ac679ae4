ghost use Rattle.std.specs.Prelude.{◌≡◌, IfOk, None};
ghost use Rattle.demo_lines.specs.Bytes.{fault};
ghost use Rattle.arena_engine.specs.Output.{HasRoom};
ghost use Rattle.arena_engine.specs.Endings.{IsOrMemory};

use arena_engine::{Report, serve};
use edge_io::{MemSink, MemSource};
use shared_moves::NoGate;
use std::alloc::{AllocError, AllocGlobal};
use std::sync::Wait;
use std::thread::Threads;

/// Plays a recording with one worker from memory into memory, where the sink has room for so many bytes.
///
/// Where the recording has no fault and its output fits, the status is 0, or 5 where memory is short: what `serve`
/// promises is enough to know that. The only error is that memory for the sink is refused.
pub fn played(
    rt: &(impl AllocGlobal + Threads + Wait + Sync),
    recording: &[u8],
    room: usize,
) -> Result<Report, AllocError>
    requires whole { fault recording.now ≡ None }
    requires room { HasRoom 1 recording.now room }
    ensures { IfOk result (λ report. IsOrMemory report.status 0) }
{
    let mut source = MemSource::new(recording, 8, &[]);
    let mut sink = MemSink::new(rt.alloc(), room, 8)?;
    Ok(serve(
        rt,
        rt.alloc(),
        &["play", "1"],
        &mut source,
        &mut sink,
        &NoGate,
    ))
}
