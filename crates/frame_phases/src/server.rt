ghost use Rattle.std.specs.Prelude.{◌≡◌, ◌<◌, ◌≤◌, length, OnOk, OnErr};
ghost use Rattle.packet_read.specs.declared.arrival.TheConstants.{MOST_ARRIVALS};
ghost use Rattle.arena_map.specs.declared.limits.TheConstants.{MOST_FRAMES};
ghost use Rattle.move_phase.specs.Serving.{AreWorkers};
ghost use Rattle.frame_phases.specs.FramesRun.{RunsFrame, IsGiven, HasItemsTaken};
ghost use Rattle.frame_phases.specs.FrameOuts.{IsEmpty};

use crate::frame_out::FrameOut;
use crate::phases::{States, begin_frame, finish_frame};
use crate::scores::score_of;
use arena_actions::MapAction;
use move_phase::Runners;
use packet_read::Arrival;
use shared_moves::Gate;
use std::alloc::{AllocError, Global};
use std::marker::Model;
use std::sync::Wait;
use std::thread::Threads;

/// The server between two frames: the action of its map's arena, which is borrowed, its state, and how many frames were run.
#[derive(Drop)]
pub struct Server<'a> {
    action: &'a MapAction,
    states: States,
}

// Clauses see the map, the clients by slot beside the records by id, and the number of frames.
impl<'a> Model for Server<'a> {
    ghost use Rattle.arena_actions.specs.MapActions.{map_in};
    ghost use Rattle.client_ports.specs.States.{state_of};
    ghost use Rattle.frame_phases.specs.Servers.{ServerView, server_view};
    ghost use Rattle.frame_phases.specs.Beginnings.{AreStatesOf};

    ghost Value = { ServerView };

    ghost view = { λ s. server_view (map_in s.action.now) (state_of s.states.state.ports s.states.state.world.records)
        s.states.frames };

    ghost invariant = { λ s. AreStatesOf s.action.now s.states };
}

impl<'a> Server<'a> {
    ghost use Rattle.std.specs.Prelude.{◌≡◌, IfOk};
    ghost use Rattle.arena_map.specs.Maps.{IsMap};
    ghost use Rattle.arena_actions.specs.MapActions.{map_in, IsOfItsMap};
    ghost use Rattle.frame_phases.specs.Servers.{new_server};
    ghost use Rattle.frame_phases.specs.Scores.{score_in};

    /// A server of this action's map before the first frame. The only error is that memory is refused.
    pub fn new(alloc: Global, action: &'a MapAction) -> Result<Server<'a>, AllocError>
        requires { IsOfItsMap action.now }
        ensures server { IfOk result (λ server. server ≡ new_server (map_in action.now)) }
        ensures rules { IsMap (map_in action.now) }
    {
        let states = States::opening(alloc, action.map())?;
        Ok(Server { action, states })
    }

    /// How many frames were run.
    pub fn frames(&self) -> u32
        ensures { result ≡ self.now.frames }
    {
        self.states.frames()
    }

    /// The sum of the scores of the live players.
    pub fn score(&self) -> u64
        ensures { result ≡ score_in self.now.state.records }
    {
        score_of(&self.states.state().world)
    }
}

/// Runs a frame with these packets: the tick, the receive pass, the moves on so many workers, the replies, and the
/// leaves. Slot p is served by worker p mod `workers`, which runs its moves in the order of arrival. `out` is written
/// anew.
///
/// The only error is that memory is refused. What a frame takes is taken after the receive pass and before the first
/// move; no move was run then, the server is as before, and the lists of `out` are empty.
pub fn run_frame<'a, R: Threads + Wait + Sync, G: Gate>(
    rt: &R,
    alloc: Global,
    server: &mut Server<'a>,
    arrivals: &[Arrival],
    workers: u8,
    runners: &mut Runners<'a, G>,
    out: &mut FrameOut,
) -> Result<(), AllocError>
    requires few { length arrivals.now ≤ MOST_ARRIVALS }
    requires frames { server.old.frames < MOST_FRAMES }
    requires workers { AreWorkers workers }
    ensures runs { OnOk result (RunsFrame workers server.old server.new arrivals.now out.new.journal.entries) }
    ensures given { OnOk result (IsGiven server.old arrivals.now out.new.journal.entries out.new) }
    ensures items { OnOk result (HasItemsTaken server.old server.new out.new.journal.entries) }
    ensures unchanged { OnErr result (server.new ≡ server.old) }
    ensures emptied { OnErr result (IsEmpty out.new) }
{
    out.clear();
    match begin_frame(
        alloc,
        server.action,
        &mut server.states,
        arrivals,
        workers,
        &mut out.received,
    ) {
        Ok(started) => {
            finish_frame(rt, &mut server.states, started, runners, out);
            Ok(())
        }
        Err(error) => {
            out.clear();
            Err(error)
        }
    }
}
