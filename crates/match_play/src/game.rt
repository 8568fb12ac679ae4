ghost use Rattle.std.specs.Prelude.{IfOk};
ghost use Rattle.arena_actions.specs.MapActions.{IsActionOf};
ghost use Rattle.demo_make.specs.GeneratedMap.{generated_map};

use crate::totals::Totals;
use arena_actions::MapAction;
use demo_lines::Event;
use demo_make::generated_map;
use move_journal::{Journal, JournalList};
use move_phase::Runners;
use playback::{Host, Playback};
use shared_moves::Gate;
use std::alloc::{AllocError, Global};
use std::marker::Model;
use std::sync::Wait;
use std::thread::Threads;

/// The game of a match: its playback, and of the frames so far what they come to and the journals. There are as many
/// journals as the server has run frames.
#[derive(Drop)]
pub struct MatchGame<'a> {
    playback: Playback<'a>,
    totals: Totals,
    journals: Vec<Journal>,
}

impl<'a> Model for MatchGame<'a> {
    ghost use Rattle.std.specs.Prelude.{◌≡◌, length};
    ghost use Rattle.match_play.specs.Totals.{AreBounded};
    ghost use Rattle.match_play.specs.Games.{GameView};

    ghost Value = { GameView };

    ghost view = { λ g. record { course = g.playback.course; totals = g.totals; journals = g.journals.items } };

    ghost invariant = { λ g. (g.totals.frames ≡ g.playback.course.server.frames) × AreBounded g.totals
        × (length g.journals.items ≡ g.playback.course.server.frames) };
}

/// The action of the arena of all matches. The only error is that memory is refused.
pub fn match_action(alloc: Global) -> Result<MapAction, AllocError>
    ensures { IfOk result (IsActionOf generated_map) }
{
    MapAction::indexed(alloc, generated_map(alloc)?)
}

impl<'a> MatchGame<'a> {
    ghost use Rattle.std.specs.Prelude.{◌≡◌, length, IfOk, OnOk, OnErr};
    ghost use Rattle.arena_actions.specs.MapActions.{map_in, IsOfItsMap};
    ghost use Rattle.playback.specs.Playbacks.{IsReady};
    ghost use Rattle.match_play.specs.Games.{new_game, Plays};

    /// A game in this action's arena, before the first event. It takes all memory but that for the packets, the moves
    /// and the journals of frames. The only error is that memory is refused.
    pub fn new(alloc: Global, action: &'a MapAction) -> Result<MatchGame<'a>, AllocError>
        requires { IsOfItsMap action.now }
        ensures { IfOk result (λ game. game ≡ new_game (map_in action.now)) }
    {
        Ok(MatchGame {
            playback: Playback::new(alloc, action)?,
            totals: Totals::new(),
            journals: Vec::new(alloc),
        })
    }

    /// What the frames come to so far.
    pub(crate) fn totals(&self) -> Totals
        ensures { result ≡ self.now.totals }
    {
        self.totals
    }

    /// The journals of the frames that were run, in their order.
    pub fn into_journals(self) -> JournalList
        ensures all { result ≡ self.entry.journals }
        ensures each { length result ≡ self.entry.course.server.frames }
    {
        let MatchGame {
            playback: _playback,
            totals: _totals,
            journals,
        } = self;
        JournalList::from(journals)
    }

    /// Goes on by an event, and puts the journal of the frame that it closes last; the memory for its place is taken
    /// before the frame is run. Where memory is refused the game is as before: the server has run no frame, and the
    /// journals are the same.
    pub(crate) fn take<R: Threads + Wait + Sync, G: Gate>(
        &mut self,
        host: &Host<R>,
        runners: &mut Runners<'a, G>,
        event: Event,
    ) -> Result<(), AllocError>
        requires { IsReady self.old.course event }
        ensures next { OnOk result (Plays host.now.workers self.old self.new event) }
        ensures same { OnErr result (self.new ≡ self.old) }
    {
        self.journals.reserve(1)?;
        let Some(journal) = self.playback.take(host, runners, event)? else {
            return Ok(());
        };
        self.totals = self.totals.with_frame(
            &self.playback.out().received,
            journal.as_slice(),
            self.playback.score(),
        );
        self.journals.push_reserved(journal);
        Ok(())
    }
}
