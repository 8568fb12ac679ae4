ghost use Rattle.std.specs.Prelude.{◌≡◌, ◌≤◌, None, [], IsOk, IsOkAnd};
ghost use Rattle.std.specs.Io.KnownBytes.{Appends};
ghost use Rattle.edge_io.specs.Writes.{AppendsPart};
ghost use Rattle.arena_actions.specs.MapActions.{IsActionOf};
ghost use Rattle.demo_make.specs.GeneratedMap.{generated_map};
ghost use Rattle.match_play.specs.Games.{new_game};
ghost use Rattle.match_play.specs.Matches.{IsMatch};
ghost use Rattle.arena_engine.specs.declared.summary.TheConstants.{MOST_SUMMARY_BYTES};
ghost use Rattle.arena_engine.specs.Endings.{Counts};
ghost use Rattle.arena_engine.specs.Making.{IsOfWriting, IsBare, IsMatched, PlaysMatch};
ghost use Rattle.arena_engine.specs.Summaries.{summary_text};

use crate::hiring::hire;
use crate::report::Report;
use crate::status::Status;
use crate::summary::push_summary;
use arena_actions::MapAction;
use crew::play_with;
use edge_io::{LineBuf, Sink, write_whole};
use match_play::{MatchGame, Totals, match_action, play_match};
use move_phase::Runners;
use playback::Host;
use shared_moves::Gate;
use std::alloc::AllocError;
use std::sync::Wait;
use std::thread::Threads;

/// Writes the line of the totals of a match, if it was played to its end. Whatever the status, the report has all
/// journals of the match.
fn sum_up<K: Sink>(
    ended: Result<Totals, AllocError>,
    game: MatchGame,
    line: &mut LineBuf,
    sink: &mut K,
) -> Report
    requires { line.old ≡ [] }
    ensures all { result.all ≡ game.entry.journals }
    ensures status { IsOfWriting result.status }
    ensures bare { IsBare result }
    ensures done { result.status ≡ 0 → IsOkAnd ended (λ totals. Appends (K.taken sink.old) (K.taken sink.new)
        (summary_text totals)) }
    ensures write_fault { result.status ≡ 4 → IsOkAnd ended (λ totals. AppendsPart (K.taken sink.old)
        (K.taken sink.new)
        (summary_text totals)) }
    ensures memory { result.status ≡ 5 → sink.new ≡ sink.old }
    ensures whole { (result.status ≡ 5 → ⊥) → IsOk ended }
    ensures counts { Counts 4 (K.faults sink.old) (K.faults sink.new) result.status }
    ensures orderless { result.order ≡ None }
    ensures sure { MOST_SUMMARY_BYTES ≤ K.room sink.old → result.status ≡ 4 → ⊥ }
{
    let all = game.into_journals();
    let Ok(totals) = ended else {
        return Report::of_status(Status::NoMemory, None, all);
    };
    push_summary(&totals, line);
    match write_whole(sink, line.as_slice()) {
        Ok(()) => Report::of_status(Status::Done, None, all),
        Err(_) => Report::of_status(Status::WriteFault, None, all),
    }
}

/// Plays the match of this seed, and then sends the helpers away.
fn play_and_stop<'a, R: Threads + Wait + Sync, G: Gate>(
    host: &Host<R>,
    runners: &mut Runners<'a, G>,
    seed: u64,
    players: u8,
    frames: u32,
    game: &mut MatchGame<'a>,
) -> Result<Totals, AllocError>
    requires range { IsMatch players frames }
    requires fresh { game.old ≡ new_game generated_map }
    ensures { PlaysMatch seed players frames host.now.workers game.new result }
{
    let ended = play_match(host, runners, seed, players, frames, game);
    runners.stop();
    ended
}

/// Plays the match of this seed, with helpers that are started once around all of its frames.
fn play_with_helpers<'a, R: Threads + Wait + Sync, G: Gate + Sync>(
    host: &Host<R>,
    gate: &'a G,
    seed: u64,
    players: u8,
    frames: u32,
    game: &mut MatchGame<'a>,
) -> Result<Totals, AllocError>
    requires range { IsMatch players frames }
    requires fresh { game.old ≡ new_game generated_map }
    ensures { PlaysMatch seed players frames host.now.workers game.new result }
{
    let (mut runners, helpers) = hire(host, gate);
    play_with(
        host.rt,
        helpers,
        &mut ||
            requires { IsMatch players frames × (game.now ≡ new_game generated_map) }
        { play_and_stop(host, &mut runners, seed, players, frames, game) },
    )
}

// The gate and the action have one lifetime: what runs the moves borrows both.
/// Plays the match of this seed in this action's arena, and writes the line of its totals.
fn play_in_arena<'a, R: Threads + Wait + Sync, K: Sink, G: Gate + Sync>(
    host: &Host<R>,
    gate: &'a G,
    action: &'a MapAction,
    seed: u64,
    players: u8,
    frames: u32,
    line: &mut LineBuf,
    sink: &mut K,
) -> Report
    requires range { IsMatch players frames }
    requires action { IsActionOf generated_map action.now }
    requires line { line.old ≡ [] }
    ensures matched { IsMatched K.Sink seed players frames host.now.workers sink.old sink.new result }
    ensures counts { Counts 4 (K.faults sink.old) (K.faults sink.new) result.status }
    ensures orderless { result.order ≡ None }
{
    let Ok(mut game) = MatchGame::new(host.alloc, action) else {
        return Report::of_status_alone(host.alloc, Status::NoMemory);
    };
    let ended = play_with_helpers(host, gate, seed, players, frames, &mut game);
    sum_up(ended, game, line, sink)
}

/// Plays the recording of this seed on these workers without writing it, and writes the line of its totals. The report
/// has the journals of the frames that were run.
pub fn play_and_sum<R: Threads + Wait + Sync, K: Sink, G: Gate + Sync>(
    host: &Host<R>,
    gate: &G,
    seed: u64,
    players: u8,
    frames: u32,
    sink: &mut K,
) -> Report
    requires { IsMatch players frames }
    ensures matched { IsMatched K.Sink seed players frames host.now.workers sink.old sink.new result }
    ensures counts { Counts 4 (K.faults sink.old) (K.faults sink.new) result.status }
    ensures orderless { result.order ≡ None }
{
    let Ok(mut line) = LineBuf::new(host.alloc) else {
        return Report::of_status_alone(host.alloc, Status::NoMemory);
    };
    let Ok(action) = match_action(host.alloc) else {
        return Report::of_status_alone(host.alloc, Status::NoMemory);
    };
    play_in_arena(host, gate, &action, seed, players, frames, &mut line, sink)
}
