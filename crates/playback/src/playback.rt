ghost use Rattle.std.specs.Prelude.{◌≡◌, [], length, OnOk};
ghost use Rattle.packet_read.specs.Orders.{in_order, AreEachOnce};

use crate::host::Host;
use arena_actions::MapAction;
use demo_lines::{Event, EventKind};
use frame_phases::{FrameOut, Server, run_frame};
use move_journal::Journal;
use move_phase::Runners;
use packet_read::{Arrival, ArrivalBytes, MOST_ARRIVALS};
use shared_moves::Gate;
use std::alloc::{AllocError, Global};
use std::marker::Model;
use std::mem;
use std::sync::Wait;
use std::thread::Threads;

// An event goes to a server at one place, `take_kind`: a recording and a generator are two ways to get events, printing
// and totals two things done with a closed frame.
/// A server, what its last frame gave out but for the journal, the packets of the frame that is open, and those of the
/// last one that was closed.
#[derive(Drop)]
pub struct Playback<'a> {
    server: Server<'a>,
    out: FrameOut,
    is_open: bool,
    arrivals: Vec<Arrival>,
    closed: Vec<Arrival>,
}

impl<'a> Model for Playback<'a> {
    ghost use Rattle.std.specs.Prelude.{Some, None, if◌then◌else◌};
    ghost use Rattle.playback.specs.Playbacks.{PlaybackView, ArePrintable};

    ghost Value = { PlaybackView };

    ghost view = { λ p. record {
      course = record { server = p.server; opened = if p.is_open then Some p.arrivals.items else None };
      closed = p.closed.items;
      out = p.out;
    } };

    ghost invariant = { λ p. ArePrintable p.out };
}

/// Moves packets into an empty list, in this order.
fn move_in_order(
    arrivals: &mut [Arrival],
    order: &[u32],
    moved: &mut Vec<Arrival>,
) -> Result<(), AllocError>
    requires places { AreEachOnce (length arrivals.old) order.now }
    requires empty { moved.old.items ≡ [] }
    ensures { OnOk result (moved.new.items ≡ in_order order.now arrivals.old) }
{
    for place in order {
        let none = Arrival {
            port: 0,
            bytes: ArrivalBytes::new(),
        };
        let arrival = mem::replace(&mut arrivals[*place as usize], none);
        moved.push(arrival)?;
    }
    Ok(())
}

/// A copy of a packet: of its bytes, and not of its room.
fn copy_of(arrival: &Arrival) -> Arrival
    ensures { result ≡ arrival.now }
{
    let mut copy = Arrival {
        port: arrival.port,
        bytes: ArrivalBytes::new(),
    };
    copy.bytes.extend(arrival.bytes.as_slice());
    copy
}

impl<'a> Playback<'a> {
    ghost use Rattle.std.specs.Prelude.{◌≡◌, Some, None, length, option_map, IfSome, IsSomeAnd, IfOk, OnOk, OnErr};
    ghost use Rattle.arena_map.specs.Maps.{IsMap};
    ghost use Rattle.arena_actions.specs.MapActions.{map_in, IsOfItsMap};
    ghost use Rattle.demo_lines.specs.Kinds.{event_of_kind};
    ghost use Rattle.frame_phases.specs.Scores.{score_in};
    ghost use Rattle.playback.specs.Playbacks.{entries_if, ArePrintable, new_course};
    ghost use Rattle.packet_read.specs.Orders.{in_order, AreEachOnce};
    ghost use Rattle.playback.specs.Playbacks.{Closes, KeepsPacket, IsGivenIf, ArePacketsIf, GoesOn, MayClose, IsReady};

    /// A server in this action's arena, before the first event. It takes all memory but that for the packets, the moves
    /// and the journals of frames. The only error is that memory is refused.
    pub fn new(alloc: Global, action: &'a MapAction) -> Result<Playback<'a>, AllocError>
        requires { IsOfItsMap action.now }
        ensures server { IfOk result (λ playback. playback.course ≡ new_course (map_in action.now)) }
        ensures rules { IsMap (map_in action.now) }
    {
        Ok(Playback {
            server: Server::new(alloc, action)?,
            out: FrameOut::new(alloc)?,
            is_open: false,
            arrivals: Vec::new(alloc),
            closed: Vec::new(alloc),
        })
    }

    /// How many frames were run.
    pub fn frames(&self) -> u32
        ensures { result ≡ self.now.course.server.frames }
    {
        self.server.frames()
    }

    /// The sum of the scores of the live players.
    pub fn score(&self) -> u64
        ensures { result ≡ score_in self.now.course.server.state.records }
    {
        self.server.score()
    }

    /// What the last frame that was closed gave out, but for its journal, which `take` has given. There are as many
    /// replies as slots, and each has at least one byte.
    pub fn out(&self) -> &FrameOut
        ensures out { result.now ≡ self.now.out }
        ensures printable { ArePrintable result.now }
    {
        &self.out
    }

    /// The packets of the frame that is open, if one is.
    pub fn opened(&self) -> Option<&[Arrival]>
        ensures some { IfSome result (λ sent. self.now.course.opened ≡ Some sent.now) }
        ensures none { result ≡ None → self.now.course.opened ≡ None }
    {
        if self.is_open {
            return Some(self.arrivals.as_slice());
        }
        None
    }

    /// The packets of the last frame that was closed, in the order in which it was run.
    pub fn closed(&self) -> &[Arrival]
        ensures { result.now ≡ self.now.closed }
    {
        self.closed.as_slice()
    }

    /// Puts the packets of the frame that is open into this order, of their places. The only error is that memory is
    /// refused; what is left of the packets isn't said then.
    pub fn reorder(&mut self, order: &[u32]) -> Result<(), AllocError>
        requires { IsSomeAnd self.old.course.opened (λ sent. AreEachOnce (length sent) order.now) }
        ensures { OnOk result (self.new.course ≡ record {
          server = self.old.course.server;
          opened = option_map (in_order order.now) self.old.course.opened;
        }) }
    {
        self.closed.clear();
        move_in_order(self.arrivals.as_mut_slice(), order, &mut self.closed)?;
        mem::swap(&mut self.arrivals, &mut self.closed);
        Ok(())
    }

    /// Runs the frame that is open, and gives its journal. The memory for the next one is taken before it is run.
    fn close<R: Threads + Wait + Sync, G: Gate>(
        &mut self,
        host: &Host<R>,
        runners: &mut Runners<'a, G>,
    ) -> Result<Option<Journal>, AllocError>
        requires { MayClose self.old.course }
        ensures closed { IfOk result (λ journal.
            Closes host.now.workers self.old.course.server self.new.course.server self.old.course.opened
            (entries_if journal)) }
        ensures opened { OnOk result (self.new.course.opened ≡ None) }
        ensures given { IfOk result (λ journal.
            IsGivenIf self.old.course.server self.old.course.opened (entries_if journal) self.new.out) }
        ensures packets { IfOk result (λ journal.
            ArePacketsIf self.old.course.opened (entries_if journal) self.new.closed) }
        ensures same { OnErr result (self.new.course ≡ self.old.course) }
    {
        if !self.is_open {
            return Ok(None);
        }
        let next = Journal::new(host.alloc, MOST_ARRIVALS)?;
        run_frame(
            host.rt,
            host.alloc,
            &mut self.server,
            self.arrivals.as_slice(),
            host.workers,
            runners,
            &mut self.out,
        )?;
        self.is_open = false;
        mem::swap(&mut self.arrivals, &mut self.closed);
        let out = &mut self.out;
        Ok(Some(mem::replace(&mut out.journal, next)))
    }

    /// Opens a frame, after the one before it is closed.
    fn open<R: Threads + Wait + Sync, G: Gate>(
        &mut self,
        host: &Host<R>,
        runners: &mut Runners<'a, G>,
    ) -> Result<Option<Journal>, AllocError>
        requires { MayClose self.old.course }
        ensures next { IfOk result (λ journal.
            GoesOn host.now.workers self.old.course self.new.course Event.Frame (entries_if journal)) }
        ensures given { IfOk result (λ journal.
            IsGivenIf self.old.course.server self.old.course.opened (entries_if journal) self.new.out) }
        ensures packets { IfOk result (λ journal.
            ArePacketsIf self.old.course.opened (entries_if journal) self.new.closed) }
        ensures same { OnErr result (self.new.course ≡ self.old.course) }
    {
        let journal = self.close(host, runners)?;
        self.arrivals.clear();
        self.is_open = true;
        Ok(journal)
    }

    /// Keeps a copy of a packet of the frame that is open.
    fn keep(&mut self, arrival: &Arrival) -> Result<Option<Journal>, AllocError>
        ensures next { IfOk result (λ journal.
            KeepsPacket self.old.course self.new.course arrival.now (entries_if journal)) }
        ensures given { IfOk result (λ journal.
            IsGivenIf self.old.course.server self.old.course.opened (entries_if journal) self.new.out) }
        ensures packets { IfOk result (λ journal.
            ArePacketsIf self.old.course.opened (entries_if journal) self.new.closed) }
        ensures same { OnErr result (self.new.course ≡ self.old.course) }
    {
        if self.is_open {
            self.arrivals.push(copy_of(arrival))?;
        }
        Ok(None)
    }

    /// Takes an event. The answer is the journal of the frame that it closed, if it closed one: the rest of what that
    /// frame gave out is in `out`. A frame that is opened and the end close the one that is open.
    ///
    /// The only error is that memory is refused; no frame was run then.
    pub fn take<R: Threads + Wait + Sync, G: Gate>(
        &mut self,
        host: &Host<R>,
        runners: &mut Runners<'a, G>,
        event: Event,
    ) -> Result<Option<Journal>, AllocError>
        requires { IsReady self.old.course event }
        ensures next { IfOk result (λ journal.
            GoesOn host.now.workers self.old.course self.new.course event (entries_if journal)) }
        ensures given { IfOk result (λ journal.
            IsGivenIf self.old.course.server self.old.course.opened (entries_if journal) self.new.out) }
        ensures packets { IfOk result (λ journal.
            ArePacketsIf self.old.course.opened (entries_if journal) self.new.closed) }
        ensures same { OnErr result (self.new.course ≡ self.old.course) }
    {
        let (kind, arrival) = event.into_parts();
        self.take_kind(host, runners, kind, &arrival)
    }

    /// Takes an event of this kind, as [`take`](Self::take) does, whose packet, where it has one, is this one: so a packet
    /// isn't moved. It is copied where a frame is open.
    pub fn take_kind<R: Threads + Wait + Sync, G: Gate>(
        &mut self,
        host: &Host<R>,
        runners: &mut Runners<'a, G>,
        kind: EventKind,
        arrival: &Arrival,
    ) -> Result<Option<Journal>, AllocError>
        requires { IsReady self.old.course (event_of_kind kind arrival.now) }
        ensures next { IfOk result (λ journal.
            GoesOn host.now.workers self.old.course self.new.course (event_of_kind kind arrival.now)
            (entries_if journal)) }
        ensures given { IfOk result (λ journal.
            IsGivenIf self.old.course.server self.old.course.opened (entries_if journal) self.new.out) }
        ensures packets { IfOk result (λ journal.
            ArePacketsIf self.old.course.opened (entries_if journal) self.new.closed) }
        ensures same { OnErr result (self.new.course ≡ self.old.course) }
    {
        match kind {
            EventKind::Frame => self.open(host, runners),
            EventKind::From => self.keep(arrival),
            EventKind::End => self.close(host, runners),
        }
    }
}
