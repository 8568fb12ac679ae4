ghost use Rattle.std.specs.Prelude.{◌≡◌, ◌↔◌, IfSome, None};
ghost use Rattle.arena_engine.specs.Commands.{HasRanges};
ghost use Rattle.arena_engine.specs.Endings.{Ends};
ghost use Rattle.arena_engine.specs.Served.{IsServed, HasNoOrder, NeverLacksMemory};
ghost use Rattle.move_phase.specs.Serving.{AreWorkers};

use crate::command::Command;
use crate::commands::audit::audit_log;
use crate::commands::bots::plan_recording;
use crate::commands::check::check_transcript;
use crate::commands::explain::{HELP, VERSION, explain};
use crate::commands::make::{write_made, write_resent};
use crate::commands::match_seed::play_and_sum;
use crate::commands::play::{feed_recording, play_recording};
use crate::commands::walk::write_walk_on_map;
use crate::report::Report;
use crate::status::Status;
use edge_io::{Sink, Source};
use playback::Host;
use shared_moves::Gate;
use std::alloc::Global;
use std::sync::Wait;
use std::thread::Threads;

/// What the frames of a command are run with.
fn host_of<R: Threads + Wait + Sync>(rt: &R, alloc: Global, workers: u8) -> Host<'_, R>
    requires { AreWorkers workers }
    ensures { result.workers ≡ workers }
{
    Host { rt, alloc, workers }
}

/// Does what a command asks for, with status 2 where there is none.
pub fn perform<R: Threads + Wait + Sync, S: Source, K: Sink, G: Gate + Sync>(
    rt: &R,
    alloc: Global,
    command: Option<Command>,
    source: &mut S,
    sink: &mut K,
    gate: &G,
) -> Report
    requires { IfSome command HasRanges }
    ensures served { IfSome command (IsServed S.Source K.Sink source.old source.new sink.old sink.new result) }
    ensures orders { IfSome command (HasNoOrder result) }
    ensures memory { IfSome command (NeverLacksMemory result) }
    ensures no_order { result.status ≡ 2 → result.order ≡ None }
    ensures words { (result.status ≡ 2) ↔ (command ≡ None) }
    ensures ends { Ends S.Source K.Sink source.old source.new sink.old sink.new result }
{
    match command {
        None => Report::of_status_alone(alloc, Status::WordsRefused),
        Some(Command::Play { workers }) => {
            let host = host_of(rt, alloc, workers);
            play_recording(&host, gate, source, sink)
        }
        Some(Command::Feed { workers }) => {
            let host = host_of(rt, alloc, workers);
            feed_recording(&host, gate, source, sink)
        }
        Some(
            Command::Make {
                seed,
                players,
                frames,
            },
        ) => write_made(alloc, seed, players, frames, sink),
        Some(
            Command::Resend {
                seed,
                players,
                frames,
            },
        ) => write_resent(alloc, seed, players, frames, sink),
        Some(
            Command::Walk {
                seed,
                players,
                frames,
            },
        ) => write_walk_on_map(alloc, seed, players, frames, source, sink),
        Some(
            Command::Match {
                seed,
                players,
                frames,
                workers,
            },
        ) => {
            let host = host_of(rt, alloc, workers);
            play_and_sum(&host, gate, seed, players, frames, sink)
        }
        Some(Command::Check) => check_transcript(alloc, source, sink),
        Some(Command::Audit) => audit_log(alloc, source, sink),
        Some(Command::Bots { target }) => plan_recording(alloc, target, source, sink),
        Some(Command::Help) => explain(alloc, HELP, sink),
        Some(Command::Version) => explain(alloc, VERSION, sink),
    }
}
