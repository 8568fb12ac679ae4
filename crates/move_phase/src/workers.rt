ghost use Rattle.std.specs.Prelude.{◌≡◌, ◌<◌, ◌≤◌, ◌^◌, true, [], map, length, All, IfOk, OnOk};
ghost use Rattle.entity_recs.specs.Commands.{command_of};
ghost use Rattle.world_tree.specs.Live.{live_in};
ghost use Rattle.world_tree.specs.Worlds.{IsLinked};
ghost use Rattle.ruled_words.specs.Numbers.{HasSmallNumbers};
ghost use Rattle.ruled_words.specs.Passes.{fixed_in};
ghost use Rattle.ruled_words.specs.Starts.{fixed_by};
ghost use Rattle.move_phase.specs.declared.rooms.TheConstants.{MOST_WORKERS};
ghost use Rattle.move_phase.specs.Running.{AreOfLive, HaveRun};
ghost use Rattle.move_phase.specs.Serving.{AreWorkers};
ghost use Rattle.move_phase.specs.Starting.{fixed_of_arena};
ghost use Rattle.move_phase.specs.Sharing.{IsReadyFor};

use crate::rooms::rooms;
use crate::runners::Runners;
use arena_actions::MapAction;
use entity_recs::{Action, Cmd};
use move_journal::LogList;
use shared_moves::{Gate, PassList, Shared};
use std::alloc::{AllocError, Global};
use std::sync::Wait;
use world_tree::World;

/// Shares the world among so many workers, each with a pass that has room for just the moves that it serves. The only
/// error is that memory is refused.
pub(crate) fn share<'a, A: Action>(
    alloc: Global,
    action: &'a A,
    world: &World,
    moves: &[Cmd],
    workers: u8,
) -> Result<(Shared<'a, A>, PassList<A>), AllocError>
    requires workers { (0 < workers) × (workers ≤ MOST_WORKERS) }
    requires few { length moves.now < 2 ^ 32 }
    requires taken { All (λ r. HasSmallNumbers r → (A.meaning action.now).takes r ≡ true) (live_in world.now.records) }
    requires live { AreOfLive (fixed_by A.meaning action.now world.now)
        (map command_of moves.now) }
    ensures shared { IfOk result (λ s. (s.0.action ≡ action.now) × (s.0.world ≡ world.now)) }
    ensures ready { IfOk result (λ s. IsReadyFor (fixed_in A.meaning s.0) workers
        (map command_of moves.now) s.0.table s.0.rooms s.1.items) }
    ensures linked { OnOk result (IsLinked world.now) }
{
    let room = rooms(moves, workers);
    Shared::start(alloc, action, world, &room[..usize::from(workers)])
}

/// Runs the moves on a world that was shared for them, and gives what was done to the world and to the empty list of
/// logs. It takes no memory.
pub(crate) fn run_on_workers<'a, R: Wait, G: Gate>(
    rt: &R,
    shared: Shared<'a, MapAction>,
    mut passes: PassList<MapAction>,
    world: &mut World,
    moves: &[Cmd],
    workers: u8,
    runners: &mut Runners<'a, G>,
    logs: &mut LogList,
)
    requires workers { AreWorkers workers }
    requires ready { IsReadyFor (fixed_of_arena shared.action shared.world) workers (map command_of moves.now)
        shared.table shared.rooms passes.items }
    requires world { world.old ≡ shared.world }
    requires logs { logs.old ≡ [] }
    ensures ran { HaveRun (fixed_of_arena shared.entry.action shared.entry.world) workers (map command_of moves.now)
        logs.new world.new }
    ensures tree { world.new.tree ≡ world.old.tree }
    ensures linked { IsLinked world.new }
{
    let shared = runners.run_passes(rt, shared, &mut passes, moves, workers);
    shared.close(passes, world, logs);
}
