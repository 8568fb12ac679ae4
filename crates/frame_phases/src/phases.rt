ghost use Rattle.arena_actions.specs.MapActions.{map_in};
ghost use Rattle.std.specs.Prelude.{◌≡◌, ◌+◌, ◌<◌, ◌≤◌, [], length, IfOk};
ghost use Rattle.arena_map.specs.Maps.{IsMap};
ghost use Rattle.client_ports.specs.States.{state_of};
ghost use Rattle.client_ports.specs.Receiving.{receiving_of};
ghost use Rattle.plain_server.specs.RecordsById.{opening};
ghost use Rattle.plain_server.specs.Frames.{received_in};
ghost use Rattle.move_phase.specs.Serving.{AreWorkers};
ghost use Rattle.packet_read.specs.declared.arrival.TheConstants.{MOST_ARRIVALS};
ghost use Rattle.arena_map.specs.declared.limits.TheConstants.{MOST_FRAMES};
ghost use Rattle.frame_phases.specs.Beginnings.{AreStatesOf, MayReceive, IsStartedFor, KeepsState};
ghost use Rattle.frame_phases.specs.Finishes.{IsBegun, IsFinished};

use crate::frame_out::FrameOut;
use crate::shows::show_players;
use arena_actions::MapAction;
use arena_map::ArenaMap;
use client_ports::Received;
use move_phase::{Runners, StartedMoves};
use packet_read::Arrival;
use server_state::State;
use shared_moves::Gate;
use std::alloc::{AllocError, Global};
use std::mem;
use std::sync::Wait;
use std::thread::Threads;

/// The state of a server, what a frame works on, and how many frames were run.
#[derive(Drop)]
pub struct States {
    state: State,
    /// What a frame works on, before it becomes the state. Between two frames it has the state before the last one.
    next: State,
    frames: u32,
}

impl States {
    /// The states before the first frame.
    pub fn opening(alloc: Global, map: &ArenaMap) -> Result<States, AllocError>
        ensures state { IfOk result (λ s. state_of s.state.ports s.state.world.records ≡ opening map.now) }
        ensures tree { IfOk result (λ s. s.next.world.tree ≡ s.state.world.tree) }
        ensures frames { IfOk result (λ s. s.frames ≡ 0) }
        ensures rules { IsMap map.now }
    {
        Ok(States {
            state: State::opening(alloc, map)?,
            next: State::opening(alloc, map)?,
            frames: 0,
        })
    }

    /// The state after the last frame.
    pub fn state(&self) -> &State
        ensures { result.now ≡ self.now.state }
    {
        &self.state
    }

    /// How many frames were run.
    pub fn frames(&self) -> u32
        ensures { result ≡ self.now.frames }
    {
        self.frames
    }
}

/// Begins a frame with these packets: the tick, the receive pass, and all memory for the moves that it accepts. It runs
/// none of them. The only error is that memory is refused.
pub fn begin_frame<'a>(
    alloc: Global,
    action: &'a MapAction,
    states: &mut States,
    arrivals: &[Arrival],
    workers: u8,
    received: &mut Received,
) -> Result<StartedMoves<'a>, AllocError>
    requires few { length arrivals.now ≤ MOST_ARRIVALS }
    requires workers { AreWorkers workers }
    requires states { AreStatesOf action.now states.old }
    requires lists { MayReceive received.old }
    ensures begun { IfOk result (λ started. IsBegun started states.new.next.world
        (receiving_of (state_of states.new.next.ports states.new.next.world.records) received.new.lists)) }
    ensures received { receiving_of (state_of states.new.next.ports states.new.next.world.records) received.new.lists
        ≡ received_in (map_in action.now) states.old.frames
        (state_of states.old.state.ports states.old.state.world.records) arrivals.now }
    ensures started { IfOk result (IsStartedFor action.now workers) }
    ensures kept { KeepsState states.old states.new }
    ensures room { received.new.room ≡ received.old.room }
{
    states.next.copy_from(&states.state);
    states
        .next
        .receive(action.map(), states.frames, arrivals, received);
    StartedMoves::start(alloc, action, &states.next.world, received.moves(), workers)
}

/// Finishes a frame that is begun: its moves, the replies, and the leaves. It takes no memory, and nothing can refuse
/// it.
pub fn finish_frame<'a, R: Threads + Wait + Sync, G: Gate>(
    rt: &R,
    states: &mut States,
    started: StartedMoves<'a>,
    runners: &mut Runners<'a, G>,
    out: &mut FrameOut,
)
    requires begun { IsBegun started states.old.next.world
        (receiving_of (state_of states.old.next.ports states.old.next.world.records) out.old.received.lists) }
    requires frames { states.old.frames < MOST_FRAMES }
    requires tree { states.old.next.world.tree ≡ states.old.state.world.tree }
    requires no_entry { out.old.journal.entries ≡ [] }
    requires no_slot { out.old.slots ≡ [] }
    requires no_reply { out.old.replies ≡ [] }
    ensures frame { out.new.frame ≡ states.old.frames }
    ensures received { out.new.received ≡ out.old.received }
    ensures finished { IsFinished (map_in started.entry.action) states.old.frames started.entry.workers
        (receiving_of (state_of states.old.next.ports states.old.next.world.records) out.old.received.lists)
        (state_of states.new.state.ports states.new.state.world.records) out.new.journal.entries out.new.slots
        out.new.replies }
    ensures frames { states.new.frames ≡ states.old.frames + 1 }
    ensures tree { states.new.next.world.tree ≡ states.new.state.world.tree }
{
    started.run(
        rt,
        &mut states.next.world,
        out.received.moves(),
        runners,
        &mut out.journal,
    );
    show_players(
        rt,
        &states.next.world,
        states.frames,
        &mut out.slots,
        &mut out.replies,
    );
    states.next.finish();
    mem::swap(&mut states.state, &mut states.next);
    out.frame = states.frames;
    states.frames += 1;
}
