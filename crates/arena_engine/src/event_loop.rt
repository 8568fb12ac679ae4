ghost use Rattle.arena_actions.specs.MapActions.{map_in, IsOfItsMap};
ghost use Rattle.arena_map.specs.Maps.{IsMap};
ghost use Rattle.arena_engine.specs.Games.{new_game};
ghost use Rattle.arena_engine.specs.Feedings.{MayHaveOrder};
ghost use Rattle.arena_engine.specs.PlayEnds.{PlaysTo};
ghost use Rattle.arena_engine.specs.Progress.{MayGoOn, PlaysOn, PlaysFrom};
ghost use Rattle.arena_engine.specs.Reports.{last_of};
ghost use Rattle.arena_engine.specs.Texts.{texts_of};

use crate::feeding::Feeding;
use crate::game::{Game, is_end};
use crate::hiring::hire;
use crate::played::Played;
use crate::stop::Stop;
use arena_actions::MapAction;
use crew::play_with;
use demo_lines::{DemoReader, Event};
use edge_io::{Sink, Source};
use move_phase::Runners;
use playback::Host;
use shared_moves::Gate;
use std::mem;
use std::sync::Wait;
use std::thread::Threads;

// The reader and the game are lent to the loop, under a contract that speaks of every start: a loop that borrows
// several things anew in each turn is the dearest form for the check of lifetimes. A packet is 272 bytes: the reader puts
// each one into the same place.
/// Plays the events of a recording from this one on, of which the reader gives the later ones.
fn play_events<'a, R: Threads + Wait + Sync, S: Source, K: Sink, G: Gate>(
    host: &Host<R>,
    runners: &mut Runners<'a, G>,
    feeding: Feeding,
    demo: &mut DemoReader,
    game: &mut Game<'a>,
    first: Event,
    source: &mut S,
    sink: &mut K,
) -> Result<(), Stop>
    requires { MayGoOn S.Source K.Sink feeding host.now.workers source.old sink.old demo.old game.old first }
    ensures plays { PlaysOn S.Source K.Sink feeding host.now.workers source.old source.new sink.old sink.new demo.old
        game.old first game.new.last result }
    ensures orders { MayHaveOrder feeding game.old.last.order → MayHaveOrder feeding game.new.last.order }
{
    let (mut kind, mut arrival) = first.into_parts();
    'events: loop {
        game.take(host, runners, feeding, kind, &arrival, sink)?;
        if is_end(kind) {
            return Ok(());
        }
        kind = demo.next_into(host.alloc, source, &mut arrival)?;
    }
}

/// Plays the events from this one on, and then sends the helpers away.
fn play_and_stop<'a, R: Threads + Wait + Sync, S: Source, K: Sink, G: Gate>(
    host: &Host<R>,
    runners: &mut Runners<'a, G>,
    feeding: Feeding,
    demo: &mut DemoReader,
    game: &mut Game<'a>,
    first: &mut Event,
    source: &mut S,
    sink: &mut K,
) -> Result<(), Stop>
    requires { MayGoOn S.Source K.Sink feeding host.now.workers source.old sink.old demo.old game.old first.old }
    ensures { PlaysFrom S.Source K.Sink feeding host.now.workers source.old source.new sink.old sink.new demo.old
        game.old first.old game.new.last result }
{
    let first = mem::replace(first, Event::End);
    let ended = play_events(host, runners, feeding, demo, game, first, source, sink);
    runners.stop();
    ended
}

/// Plays the events from this one on, with helpers that are started once around all of them.
fn play_with_helpers<'a, R: Threads + Wait + Sync, S: Source, K: Sink, G: Gate + Sync>(
    host: &Host<R>,
    gate: &'a G,
    feeding: Feeding,
    demo: &mut DemoReader,
    game: &mut Game<'a>,
    mut first: Event,
    source: &mut S,
    sink: &mut K,
) -> Result<(), Stop>
    requires { MayGoOn S.Source K.Sink feeding host.now.workers source.old sink.old demo.old game.old first }
    ensures { PlaysFrom S.Source K.Sink feeding host.now.workers source.old source.new sink.old sink.new demo.old
        game.old first game.new.last result }
{
    let (mut runners, helpers) = hire(host, gate);
    play_with(
        host.rt,
        helpers,
        &mut ||
            requires { MayGoOn S.Source K.Sink feeding host.now.workers source.now sink.now demo.now game.now first }
        {
            play_and_stop(
                host,
                &mut runners,
                feeding,
                demo,
                game,
                &mut first,
                source,
                sink,
            )
        },
    )
}

// The gate and the action have one lifetime: what runs the moves borrows both.
/// Plays the events from this one on, in this action's arena.
fn play_in_arena<'a, R: Threads + Wait + Sync, S: Source, K: Sink, G: Gate + Sync>(
    host: &Host<R>,
    gate: &'a G,
    action: &'a MapAction,
    feeding: Feeding,
    demo: &mut DemoReader,
    first: Event,
    source: &mut S,
    sink: &mut K,
) -> Played
    requires of_its_map { IsOfItsMap action.now }
    requires may { IsMap (map_in action.now) → MayGoOn S.Source K.Sink feeding host.now.workers source.old sink.old
        demo.old (new_game (map_in action.now)) first }
    ensures rules { IsMap (map_in action.now) }
    ensures plays { PlaysOn S.Source K.Sink feeding host.now.workers source.old source.new sink.old sink.new demo.old
        (new_game (map_in action.now)) first (last_of result) result.ended }
    ensures orders { MayHaveOrder feeding result.order }
{
    let mut game = match Game::new(host.alloc, action) {
        Ok(game) => game,
        Err(error) => return Played::before_frames(error.into()),
    };
    let ended = play_with_helpers(host, gate, feeding, demo, &mut game, first, source, sink);
    Played::with_game(game, ended)
}

/// Plays a recording from the source whose packets reach the server so, and writes its output to the sink, each frame
/// before the next line is read. Beside how that ended it gives the journal and the order of arrival of the last frame
/// that was run.
pub fn play<R: Threads + Wait + Sync, S: Source, K: Sink, G: Gate + Sync>(
    host: &Host<R>,
    gate: &G,
    feeding: Feeding,
    source: &mut S,
    sink: &mut K,
) -> Played
    ensures played { PlaysTo S.Source K.Sink (texts_of feeding host.now.workers) source.old source.new sink.old sink.new
        (last_of result) result.ended }
    ensures orders { MayHaveOrder feeding result.order }
{
    let mut demo = match DemoReader::new(host.alloc) {
        Ok(demo) => demo,
        Err(error) => return Played::before_frames(error.into()),
    };
    let first = match demo.next(host.alloc, source) {
        Ok(event) => event,
        Err(stop) => return Played::before_frames(stop.into()),
    };
    let map = demo.take_map().unwrap();
    let action = match MapAction::indexed(host.alloc, map) {
        Ok(action) => action,
        Err(error) => return Played::before_frames(error.into()),
    };
    play_in_arena(host, gate, &action, feeding, &mut demo, first, source, sink)
}
