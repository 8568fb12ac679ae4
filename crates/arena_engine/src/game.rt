ghost use Rattle.std.specs.Prelude.{◌≡◌};
ghost use Rattle.packet_read.specs.declared.arrival.Arrival as specs;
ghost use Rattle.demo_lines.specs.Kinds.{event_of_kind};
ghost use Rattle.playback.specs.Playbacks.{entries_if};
ghost use Rattle.arena_engine.specs.Games as games;

use crate::arranging::arrange_for;
use crate::feeding::Feeding;
use crate::printing::print_event;
use crate::stop::Stop;
use arena_actions::MapAction;
use demo_lines::EventKind;
use edge_io::Sink;
use feed_queue::ArrivalOrder;
use move_journal::Journal;
use move_phase::Runners;
use out_text::Printer;
use packet_read::Arrival;
use playback::{Host, Playback};
use shared_moves::Gate;
use std::alloc::{AllocError, Global};
use std::marker::Model;
use std::sync::Wait;
use std::thread::Threads;

// An event is taken, and then what it closed is printed: what runs a frame knows no sink, so few functions are
// generic in it, and the buffer is empty between two events.
/// The game of a recording: its playback, the journal and the order of arrival of the last frame that was run, and what
/// prints.
#[derive(Drop)]
pub struct Game<'a> {
    playback: Playback<'a>,
    last: Option<Journal>,
    order: Option<ArrivalOrder>,
    printer: Printer,
}

impl<'a> Model for Game<'a> {
    ghost use Rattle.std.specs.Prelude.{◌≡◌, []};
    ghost use Rattle.playback.specs.Playbacks.{entries_if};
    ghost use Rattle.arena_engine.specs.Games.{GameView};

    ghost Value = { GameView };

    ghost view = { λ g. record {
      course = g.playback.course;
      last = record { order = g.order; journal = entries_if g.last };
    } };

    ghost invariant = { λ g. g.printer ≡ [] };
}

/// Whether an event of this kind is the recording's end.
pub fn is_end(kind: EventKind) -> bool
    ensures { (a : specs.Arrival) → result ≡ games.is_end (event_of_kind kind a) }
{
    match kind {
        EventKind::End => true,
        EventKind::Frame | EventKind::From => false,
    }
}

/// The journal of the frame that was closed, if one was, and else the one before it.
fn newest_journal(closed: Option<Journal>, before: Option<Journal>) -> Option<Journal>
    ensures { entries_if result ≡ games.newest_journal (entries_if closed) (entries_if before) }
{
    match closed {
        Some(journal) => Some(journal),
        None => before,
    }
}

/// The order of arrival of the frame that was closed, if one was, and else that of the one before it.
fn newest_order(
    closed: &Option<Journal>,
    order: Option<ArrivalOrder>,
    before: Option<ArrivalOrder>,
) -> Option<ArrivalOrder>
    ensures { result ≡ games.newest_order (entries_if closed.now) order before }
{
    match closed {
        Some(_) => order,
        None => before,
    }
}

impl<'a> Game<'a> {
    ghost use Rattle.std.specs.Prelude.{◌≡◌, ◌≤◌, [], length, IfOk, OnOk, IfErr};
    ghost use Rattle.arena_map.specs.Maps.{IsMap};
    ghost use Rattle.arena_actions.specs.MapActions.{map_in, IsOfItsMap};
    ghost use Rattle.demo_lines.specs.Kinds.{event_of_kind};
    ghost use Rattle.out_text.specs.OutLines.{text_of};
    ghost use Rattle.out_text.specs.Printers.{Prints, FailsIn};
    ghost use Rattle.playback.specs.Playbacks.{entries_if, IsReady};
    ghost use Rattle.arena_engine.specs.Games.{new_game, Plays};
    ghost use Rattle.arena_engine.specs.Stops.{OnWriteFault, OnMemory, IsGameStop};

    /// A game in this action's arena, before the first event. It takes all memory but that for the packets, their order,
    /// the moves and the journals of frames.
    pub fn new(alloc: Global, action: &'a MapAction) -> Result<Game<'a>, AllocError>
        requires { IsOfItsMap action.now }
        ensures game { IfOk result (λ game. game ≡ new_game (map_in action.now)) }
        ensures rules { IsMap (map_in action.now) }
    {
        Ok(Game {
            playback: Playback::new(alloc, action)?,
            last: None,
            order: None,
            printer: Printer::new(alloc)?,
        })
    }

    /// Takes an event of this kind, whose packet, where it has one, is this one, and writes the lines that it closes. Memory
    /// is refused before anything is written only.
    pub fn take<R: Threads + Wait + Sync, K: Sink, G: Gate>(
        &mut self,
        host: &Host<R>,
        runners: &mut Runners<'a, G>,
        feeding: Feeding,
        kind: EventKind,
        arrival: &Arrival,
        sink: &mut K,
    ) -> Result<(), Stop>
        requires { IsReady self.old.course (event_of_kind kind arrival.now) }
        ensures next { OnOk result (Plays feeding host.now.workers self.old self.new (event_of_kind kind arrival.now) (λ lines.
            Prints K.taken K.faults K.room sink.old sink.new [] [] (text_of lines))) }
        ensures write_fault { IfErr result (λ stop. OnWriteFault stop
            (Plays feeding host.now.workers self.old self.new (event_of_kind kind arrival.now) (λ lines.
            FailsIn K.taken K.faults sink.old sink.new (text_of lines)))) }
        ensures sure { IfErr result (λ stop. OnWriteFault stop
            (Plays feeding host.now.workers self.old self.new (event_of_kind kind arrival.now) (λ lines. length (text_of lines) ≤ K.room sink.old → ⊥))) }
        ensures memory { IfErr result (λ stop. OnMemory stop (sink.new ≡ sink.old)) }
        ensures kept { IfErr result (λ stop. OnMemory stop (self.new.last ≡ self.old.last)) }
        ensures stops { IfErr result IsGameStop }
        ensures later { K.faults sink.old ≤ K.faults sink.new }
    {
        let ends = is_end(kind);
        let order = arrange_for(host, feeding, kind, &mut self.playback)?;
        let closed = self.playback.take_kind(host, runners, kind, arrival)?;
        let printed = print_event(
            &closed,
            &order,
            ends,
            &self.playback,
            &mut self.printer,
            sink,
        );
        self.order = newest_order(&closed, order, self.order.take());
        self.last = newest_journal(closed, self.last.take());
        printed?;
        Ok(())
    }

    /// The journal and the order of arrival of the last frame that was run, if one was.
    pub fn into_last(self) -> (Option<Journal>, Option<ArrivalOrder>)
        ensures { record { order = result.1; journal = entries_if result.0 } ≡ self.entry.last }
    {
        let Game {
            playback: _playback,
            last,
            order,
            printer: _printer,
        } = self;
        (last, order)
    }
}
