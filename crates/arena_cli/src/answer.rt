ghost use Rattle.std.specs.Prelude.{◌≡◌, ◌⊎◌, IsErr, IsErrAnd, IfOk, OnErr, IsOkAnd, map, string_bytes};
ghost use Rattle.std.specs.IoError.{error_kind};
ghost use Rattle.arena_engine.specs.declared.command.Command.{Command};
ghost use Rattle.arena_engine.specs.Endings.{Ends};
ghost use Rattle.arena_engine.specs.Served.{IsServed};
ghost use Rattle.arena_cli.specs.declared.arguments.TheConstants.{NO_MEMORY};
ghost use Rattle.arena_cli.specs.Asked.{AsksFor, AskForNothing, texts_in};

use crate::arguments::{NoArguments, arguments_of, words_of};
use arena_engine::{Report, Status, serve};
use edge_io::{Sink, Source};
use shared_moves::Gate;
use std::alloc::{AllocError, Global};
use std::env::Args;
use std::io;
use std::sync::Wait;
use std::thread::Threads;

/// Serves what the arguments ask for.
fn serve_arguments<R: Threads + Wait + Sync, S: Source, K: Sink, G: Gate + Sync>(
    rt: &R,
    alloc: Global,
    arguments: &[String],
    source: &mut S,
    sink: &mut K,
    gate: &G,
) -> Result<Report, AllocError>
    ensures asked { IfOk result (λ report. AskForNothing (map string_bytes arguments.now) → report.status ≡ 2) }
    ensures refused { IfOk result (λ report. report.status ≡ 2 → AskForNothing (map string_bytes arguments.now)) }
    ensures served { IfOk result (λ report. (command : Command) → AsksFor (map string_bytes arguments.now) command
        → IsServed S.Source K.Sink source.old source.new sink.old sink.new report command) }
    ensures ends { IfOk result (λ report. Ends S.Source K.Sink source.old source.new sink.old sink.new report) }
    ensures memory { OnErr result (sink.new ≡ sink.old) }
    ensures unread { OnErr result (source.new ≡ source.old) }
{
    let words = words_of(alloc, arguments)?;
    Ok(serve(rt, alloc, &words, source, sink, gate))
}

/// Serves what the program's arguments ask for, and reports how that ended.
///
/// Where the system gives no arguments, nothing is read or written: the status is 5 where it had not enough memory for
/// them, and else 2, since one isn't UTF-8.
pub fn answer<R: Threads + Wait + Sync, S: Source, K: Sink, G: Gate + Sync>(
    rt: &R,
    alloc: Global,
    arguments: io::Result<Args>,
    source: &mut S,
    sink: &mut K,
    gate: &G,
) -> Report
    ensures asked { IfOk arguments (λ given. AskForNothing (texts_in given)) → (result.status ≡ 2)
        ⊎ (result.status ≡ 5) }
    ensures refused { result.status ≡ 2 → IfOk arguments (λ given. AskForNothing (texts_in given)) }
    ensures not_unicode { IsErrAnd arguments (λ error. error_kind error ≡ NO_MEMORY → ⊥) → result.status ≡ 2 }
    ensures no_arguments { IsErrAnd arguments (λ error. error_kind error ≡ NO_MEMORY) → result.status ≡ 5 }
    ensures unserved { IsErr arguments → (source.new ≡ source.old) × (sink.new ≡ sink.old) }
    ensures served { (command : Command) → IsOkAnd arguments (λ given. AsksFor (texts_in given) command)
        → IsServed S.Source K.Sink source.old source.new sink.old sink.new result command }
    ensures ends { Ends S.Source K.Sink source.old source.new sink.old sink.new result }
{
    match arguments_of(alloc, arguments) {
        Ok(all) => match serve_arguments(rt, alloc, all.as_slice(), source, sink, gate) {
            Ok(report) => report,
            Err(_) => Report::of_status_alone(alloc, Status::NoMemory),
        },
        Err(NoArguments::NotUnicode) => Report::of_status_alone(alloc, Status::WordsRefused),
        Err(NoArguments::NoMemory) => Report::of_status_alone(alloc, Status::NoMemory),
    }
}
