ghost use Rattle.std.specs.Prelude.{IfOk};
ghost use Rattle.arena_engine.specs.Endings.{IsOrMemory};

use crate::from_memory::played;
use arena_engine::{Report, serve};
use demo_lines::{packets_have_room, recordings_read_back};
use demo_make::{generated_texts_are_bounded, resent_texts_are_bounded};
use edge_io::{MemSink, MemSource};
use out_text::outputs_are_bounded;
use shared_moves::NoGate;
use std::alloc::{AllocError, AllocGlobal};
use std::sync::Wait;
use std::thread::Threads;

/// The example `one-join`: an arena with one spawn, and a frame in which a player joins.
pub const ONE_JOIN: &str =
    "arena -131072 -131072 0 131072 131072 65536\nspawn 0 0 6144\nframe\nfrom 7 0101\nend\n";

/// Plays `ONE_JOIN` with one worker into memory, with the room that every output of one frame has.
///
/// The status is 0, or 5 where memory is short: the recording can be written and so has no fault, it has one frame, and
/// the output of one frame is bounded.
pub fn one_join_played(
    rt: &(impl AllocGlobal + Threads + Wait + Sync),
) -> Result<Report, AllocError>
    ensures { IfOk result (λ report. IsOrMemory report.status 0) }
{
    packets_have_room();
    recordings_read_back();
    outputs_are_bounded();
    played(rt, ONE_JOIN.as_bytes(), 1_120_016)
}

/// Writes the recording of the seed 7, with two players and one frame, into memory with the room that every such
/// recording has.
///
/// The status is 0, or 5 where memory is short, since the length of a generated recording is bounded.
pub fn two_players_made(
    rt: &(impl AllocGlobal + Threads + Wait + Sync),
) -> Result<Report, AllocError>
    ensures { IfOk result (λ report. IsOrMemory report.status 0) }
{
    generated_texts_are_bounded();
    let mut source = MemSource::new(&[], 1, &[]);
    let mut sink = MemSink::new(rt.alloc(), 8_402, 8)?;
    Ok(serve(
        rt,
        rt.alloc(),
        &["make", "7", "2", "1"],
        &mut source,
        &mut sink,
        &NoGate,
    ))
}

/// Writes the recording of the seed 7 in which commands are resent, with two players and one frame, into memory with the
/// room that every such recording has.
///
/// The status is 0, or 5 where memory is short, since the length of such a recording is bounded.
pub fn two_players_resent(
    rt: &(impl AllocGlobal + Threads + Wait + Sync),
) -> Result<Report, AllocError>
    ensures { IfOk result (λ report. IsOrMemory report.status 0) }
{
    resent_texts_are_bounded();
    let mut source = MemSource::new(&[], 1, &[]);
    let mut sink = MemSink::new(rt.alloc(), 8_454, 8)?;
    Ok(serve(
        rt,
        rt.alloc(),
        &["resend", "7", "2", "1"],
        &mut source,
        &mut sink,
        &NoGate,
    ))
}
