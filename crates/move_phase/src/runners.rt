ghost use Rattle.std.specs.Prelude.{◌≡◌, ◌<◌, ◌≤◌, true, [], length, map, All, Some, IsSome, None, IfSome, vec_capacity};
ghost use Rattle.std.specs.Arc.{arc_value};
ghost use Rattle.client_ports.specs.declared.received.TheConstants.{MOST_FRAME_MOVES};
ghost use Rattle.entity_recs.specs.Commands.{command_of};
ghost use Rattle.move_phase.specs.declared.rooms.TheConstants.{MOST_WORKERS};
ghost use Rattle.crew.specs.Rounds.{ChangesEach};
ghost use Rattle.move_phase.specs.Turns.{MayServeOn, HasServedOn, AreReversed, HasPass, HasSomePass, IsTurnOf};

use crate::frame_moves::FrameMoves;
use crate::rooms::MOST_WORKERS;
use crate::serve::run_in_turn;
use crate::turn::Turn;
use arena_actions::MapAction;
use client_ports::MOST_FRAME_MOVES;
use crew::{Crew, Helpers};
use entity_recs::Cmd;
use shared_moves::{Gate, PassList, Shared};
use std::alloc::{AllocError, Global};
use std::sync::{Arc, Wait};

/// A frame of fewer moves is run without helpers: to wake them takes about as long as to run these.
const MOVES_WORTH_HELPERS: usize = 96;

/// The most frames for which the helpers rest where moves waited too much for one another.
const MOST_REST: u8 = 127;

/// Who runs the moves of frames: the thread that calls, and the helpers of a crew, which are kept over frames. Each move
/// calls the gate.
#[derive(Drop)]
pub struct Runners<'a, G: Gate> {
    gate: &'a G,
    team: Option<Team<'a, G>>,
}

/// A crew, and the memory that it needs for the moves of a frame. Between two frames it has no turn.
#[derive(Drop)]
struct Team<'a, G: Gate> {
    crew: Crew<Turn<'a, G>>,
    /// For how many frames the crew rests yet.
    rest: u8,
    /// For how many it rested last, 0 where it has run a frame since in which moves waited little.
    last_rest: u8,
    frame: Arc<FrameMoves<'a>, Global>,
    turns: Vec<Turn<'a, G>>,
    ghost move_room: { MOST_FRAME_MOVES ≤ vec_capacity (arc_value frame).moves },
    ghost turn_room: { MOST_WORKERS ≤ vec_capacity turns },
    ghost no_turn: { turns.items ≡ [] },
}

impl<'a, G: Gate> Runners<'a, G> {
    /// The calling thread alone.
    pub fn alone(gate: &'a G) -> Runners<'a, G> {
        Runners { gate, team: None }
    }

    /// The calling thread and so many helpers, or the calling thread alone, where memory for them is refused. The helpers
    /// run in the threads that `crew::play_with` starts.
    pub fn with_helpers(
        alloc: Global,
        gate: &'a G,
        helpers: usize,
    ) -> (Runners<'a, G>, Helpers<Turn<'a, G>>) {
        if helpers == 0 {
            return (Runners::alone(gate), Helpers::none(alloc));
        }
        match Team::new(alloc, gate, helpers) {
            Ok((team, helpers)) => {
                let team = Some(team);
                (Runners { gate, team }, helpers)
            }
            Err(_) => (Runners::alone(gate), Helpers::none(alloc)),
        }
    }

    /// Sends the helpers away. Later moves are run by the calling thread alone.
    pub fn stop(&mut self) {
        self.team = None;
    }

    /// Runs the moves by all passes, and gives the shared world back. It takes no memory.
    pub(crate) fn run_passes<R: Wait>(
        &mut self,
        rt: &R,
        shared: Shared<'a, MapAction>,
        passes: &mut PassList<MapAction>,
        moves: &[Cmd],
        workers: u8,
    ) -> Shared<'a, MapAction>
        requires few { length passes.old.items ≤ MOST_WORKERS }
        requires may { All (MayServeOn workers (map command_of moves.now) shared) passes.old.items }
        ensures same { result ≡ shared.entry }
        ensures served { ChangesEach (HasServedOn (map command_of moves.now) shared.entry) passes.old.items passes.new.items }
    {
        match &mut self.team {
            Some(team) if is_worth_helpers(self.gate, moves, workers) => {
                team.run_passes(rt, shared, passes, moves, workers, self.gate)
            }
            _ => {
                run_in_turn(rt, &shared, passes, moves, workers, self.gate);
                shared
            }
        }
    }
}

/// Whether the moves are given to helpers: there are several passes, and many moves or a gate that wants threads.
fn is_worth_helpers<G: Gate>(gate: &G, moves: &[Cmd], workers: u8) -> bool
    ensures { result ≡ true → length moves.now ≤ MOST_FRAME_MOVES }
{
    workers > 1
        && moves.len() <= MOST_FRAME_MOVES
        && (moves.len() >= MOVES_WORTH_HELPERS || gate.needs_threads())
}

impl<'a, G: Gate> Team<'a, G> {
    /// A crew with so many helpers. The only error is that memory is refused.
    fn new(
        alloc: Global,
        gate: &'a G,
        helpers: usize,
    ) -> Result<(Team<'a, G>, Helpers<Turn<'a, G>>), AllocError> {
        let mut spares = Vec::with_capacity(alloc, helpers)?;
        for _ in 0..helpers {
            spares.push(Turn::spare(gate))?;
        }
        let (crew, helpers) = Crew::new(alloc, spares)?;
        let team = Team {
            crew,
            rest: 0,
            last_rest: 0,
            frame: Arc::new(alloc, FrameMoves::none(alloc)?)?,
            turns: Vec::with_capacity(alloc, MOST_WORKERS)?,
        };
        Ok((team, helpers))
    }

    /// Runs the moves by all passes, some of them in the threads of the helpers where these don't rest, and gives the
    /// shared world back.
    fn run_passes<R: Wait>(
        &mut self,
        rt: &R,
        shared: Shared<'a, MapAction>,
        passes: &mut PassList<MapAction>,
        moves: &[Cmd],
        workers: u8,
        gate: &'a G,
    ) -> Shared<'a, MapAction>
        requires few { length passes.old.items ≤ MOST_WORKERS }
        requires moves { length moves.now ≤ MOST_FRAME_MOVES }
        requires may { All (MayServeOn workers (map command_of moves.now) shared) passes.old.items }
        ensures same { result ≡ shared.entry }
        ensures served { ChangesEach (HasServedOn (map command_of moves.now) shared.entry) passes.old.items passes.new.items }
    {
        if self.rest > 0 {
            self.rest -= 1;
            run_in_turn(rt, &shared, passes, moves, workers, gate);
            return shared;
        }
        let Some(frame) = Arc::get_mut(&mut self.frame) else {
            // The frame before has another owner still. Its turns are dropped by then, so it hasn't in truth.
            run_in_turn(rt, &shared, passes, moves, workers, gate);
            return shared;
        };
        frame.put(shared, moves, workers);
        give_out(rt, &self.frame, gate, passes, &mut self.turns);
        self.crew.run_each(rt, self.turns.as_mut_slice());
        take_back(&mut self.turns, passes);
        self.last_rest = frames_of_rest(self.last_rest, gate, passes, moves);
        self.rest = self.last_rest;
        take_shared(rt, &mut self.frame)
    }
}

/// For how many frames the helpers rest after the passes ran these moves, where they rested for so many before. Where a
/// move was refused more takes than there are passes, on average, the players are side by side, or a thread was held up:
/// one thread runs such moves sooner.
fn frames_of_rest<G: Gate>(
    before: u8,
    gate: &G,
    passes: &PassList<MapAction>,
    moves: &[Cmd],
) -> u8 {
    let mut refused: u64 = 0;
    for pass in passes {
        refused = refused.saturating_add(pass.refused_takes());
    }
    let most = (moves.len() as u64).saturating_mul(passes.len() as u64);
    if refused > most && !gate.needs_threads() {
        before.saturating_mul(2).saturating_add(1).min(MOST_REST)
    } else {
        0
    }
}

/// Makes a turn of each pass, of the last one first.
fn give_out<'a, R: Wait, G: Gate>(
    rt: &R,
    frame: &Arc<FrameMoves<'a>, Global>,
    gate: &'a G,
    passes: &mut PassList<MapAction>,
    turns: &mut Vec<Turn<'a, G>>,
)
    requires none { turns.old.items ≡ [] }
    requires room { length passes.old.items ≤ vec_capacity turns.old }
    ensures turns { AreReversed (IsTurnOf (arc_value frame.now)) passes.old.items turns.new.items }
    ensures none { passes.new.items ≡ [] }
    ensures passes_room { vec_capacity passes.new ≡ vec_capacity passes.old }
    ensures turns_room { vec_capacity turns.new ≡ vec_capacity turns.old }
{
    while let Some(pass) = passes.pop() {
        turns.push_reserved(Turn::of(rt, frame, pass, gate));
    }
}

/// Takes the passes back out of their turns, the last turn's first.
fn take_back<'a, G: Gate>(turns: &mut Vec<Turn<'a, G>>, passes: &mut PassList<MapAction>)
    requires each { All HasSomePass turns.old.items }
    requires none { passes.old.items ≡ [] }
    requires room { length turns.old.items ≤ vec_capacity passes.old }
    ensures passes { AreReversed HasPass turns.old.items passes.new.items }
    ensures none { turns.new.items ≡ [] }
    ensures turns_room { vec_capacity turns.new ≡ vec_capacity turns.old }
{
    while let Some(turn) = turns.pop() {
        passes.push_reserved(turn.into_pass());
    }
}

/// Takes the shared world back out of the frame, whose other owners are gone.
fn take_shared<'a, R: Wait>(
    rt: &R,
    frame: &mut Arc<FrameMoves<'a>, Global>,
) -> Shared<'a, MapAction>
    requires { IsSome (arc_value frame.old).shared }
    ensures shared { (arc_value frame.old).shared ≡ Some result }
    ensures room { vec_capacity (arc_value frame.new).moves ≡ vec_capacity (arc_value frame.old).moves }
{
    for _ in rt.forever() {
        if let Some(shared) = take_if_sole(frame) {
            return shared;
        }
    }
    unreachable!()
}

/// Takes the shared world out of the frame, if this is its sole owner.
fn take_if_sole<'a>(frame: &mut Arc<FrameMoves<'a>, Global>) -> Option<Shared<'a, MapAction>>
    ensures some { IfSome result (λ shared. (arc_value frame.old).shared ≡ Some shared) }
    ensures none { result ≡ None → (arc_value frame.new).shared ≡ (arc_value frame.old).shared }
    ensures room { vec_capacity (arc_value frame.new).moves ≡ vec_capacity (arc_value frame.old).moves }
{
    Arc::get_mut(frame)?.shared.take()
}
