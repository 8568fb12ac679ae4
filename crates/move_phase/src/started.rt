ghost use Rattle.arena_actions.specs.MapActions.{map_in, IsOfItsMap};
ghost use Rattle.std.specs.Prelude.{◌≡◌, ◌<◌, ◌≤◌, ◌^◌, length, map as map_list, All, IfOk};
ghost use Rattle.entity_recs.specs.Commands.{command_of};
ghost use Rattle.arena_map.specs.Validity.{IsValidWorld};
ghost use Rattle.plain_server.specs.Moving.{HasLivePlayer};
ghost use Rattle.move_phase.specs.Serving.{AreWorkers};
ghost use Rattle.move_phase.specs.Starting.{IsSharedForAny};

use crate::runners::Runners;
use crate::workers::{run_on_workers, share};
use arena_actions::MapAction;
use entity_recs::Cmd;
use move_journal::{Journal, LogList, merge};
use shared_moves::{Gate, PassList, Shared};
use std::alloc::{AllocError, Global};
use std::marker::Model;
use std::sync::Wait;
use world_tree::World;

/// A world that is shared, and the passes of the workers that run moves on it.
type SharedWorld<'a> = (Shared<'a, MapAction>, PassList<MapAction>);

/// Shares the world among the workers, where there are moves. A frame without moves takes no memory.
fn share_for_any<'a>(
    alloc: Global,
    action: &'a MapAction,
    world: &World,
    moves: &[Cmd],
    workers: u8,
) -> Result<Option<SharedWorld<'a>>, AllocError>
    requires workers { AreWorkers workers }
    requires of_its_map { IsOfItsMap action.now }
    requires valid { IsValidWorld (map_in action.now) world.now.records }
    requires live { All (HasLivePlayer world.now.records) (map_list command_of moves.now) }
    requires few { length moves.now < 2 ^ 32 }
    ensures { IfOk result (IsSharedForAny action.now workers world.now (map_list command_of moves.now)) }
{
    if moves.is_empty() {
        return Ok(None);
    }
    Ok(Some(share(alloc, action, world, moves, workers)?))
}

/// Moves that are started, and that nothing can refuse any more: all memory for them is taken, and none was run.
#[derive(Drop)]
pub struct StartedMoves<'a> {
    action: &'a MapAction,
    workers: u8,
    /// No log, in the place of those that the moves will give.
    logs: LogList,
    /// None where there are no moves.
    shared: Option<SharedWorld<'a>>,
}

impl<'a> Model for StartedMoves<'a> {
    ghost use Rattle.std.specs.Prelude.{◌≡◌, []};
    ghost use Rattle.move_phase.specs.Starting.{StartedView};

    ghost Value = { StartedView };

    ghost use Rattle.arena_actions.specs.contracts.map_action.MapAction as arena;
    ghost use Rattle.std.specs.Coded.{codes};

    ghost coded = { Prim.hlevel (codes, arena.the_row.coded) };

    ghost view = { λ s. record { action = s.action.now; workers = s.workers; shared = s.shared } };

    ghost invariant = { λ s. s.logs ≡ [] };
}

impl<'a> StartedMoves<'a> {
    ghost use Rattle.arena_actions.specs.MapActions.{map_in, IsOfItsMap};
    ghost use Rattle.std.specs.Prelude.{◌≡◌, ◌<◌, ◌≤◌, ◌^◌, [], length, map as map_list, All, IfOk};
    ghost use Rattle.entity_recs.specs.Commands.{command_of};
    ghost use Rattle.entity_recs.specs.Histories.{run};
    ghost use Rattle.move_journal.specs.Merges.{HasNumbersApart, IsRight, IsInOrder, history_of};
    ghost use Rattle.arena_map.specs.Validity.{IsValidWorld};
    ghost use Rattle.arena_outcomes.specs.Outcomes.{outcome_on};
    ghost use Rattle.plain_server.specs.RecordsById.{world_of, records_in};
    ghost use Rattle.plain_server.specs.Moving.{HasLivePlayer};
    ghost use Rattle.move_phase.specs.Serving.{AreWorkers};
    ghost use Rattle.move_phase.specs.Starting.{AreStarted};

    /// Takes all memory that the moves of live players need on so many workers. It runs none of them: the world is only
    /// read. The only error is that memory is refused.
    pub fn start(
        alloc: Global,
        action: &'a MapAction,
        world: &World,
        moves: &[Cmd],
        workers: u8,
    ) -> Result<StartedMoves<'a>, AllocError>
        requires workers { AreWorkers workers }
        requires of_its_map { IsOfItsMap action.now }
        requires valid { IsValidWorld (map_in action.now) world.now.records }
        requires live { All (HasLivePlayer world.now.records) (map_list command_of moves.now) }
        requires few { length moves.now < 2 ^ 32 }
        ensures action { IfOk result (λ s. s.action ≡ action.now) }
        ensures workers { IfOk result (λ s. s.workers ≡ workers) }
        ensures started { IfOk result (AreStarted world.now (map_list command_of moves.now)) }
    {
        let shared = share_for_any(alloc, action, world, moves, workers)?;
        Ok(StartedMoves {
            action,
            workers,
            logs: LogList::new(alloc),
            shared,
        })
    }

    /// Runs the moves, and puts what was done into the journal, by place. Slot p is served by worker p mod the number of
    /// workers, which runs its moves in the order of arrival. It takes no memory, and can't be refused.
    pub fn run<R: Wait, G: Gate>(
        self,
        rt: &R,
        world: &mut World,
        moves: &[Cmd],
        runners: &mut Runners<'a, G>,
        journal: &mut Journal,
    )
        requires started { AreStarted world.old (map_list command_of moves.now) self }
        requires apart { HasNumbersApart (map_list command_of moves.now) }
        requires empty { journal.old.entries ≡ [] }
        requires room { length moves.now ≤ journal.old.room }
        ensures right { IsRight (outcome_on (map_in self.entry.action)) (world_of world.old.records)
            (map_list command_of moves.now) journal.new.entries }
        ensures order { self.entry.workers ≡ 1 → IsInOrder journal.new.entries (map_list command_of moves.now) }
        ensures moved { world.new.records ≡ records_in (run (outcome_on (map_in self.entry.action))
            (world_of world.old.records)
            (history_of (map_list command_of moves.now) journal.new.entries)) world.old.records }
        ensures room { journal.new.room ≡ journal.old.room }
        ensures tree { world.new.tree ≡ world.old.tree }
    {
        let StartedMoves {
            action: _action,
            workers,
            mut logs,
            shared,
        } = self;
        let Some((shared, passes)) = shared else {
            return;
        };
        run_on_workers(
            rt, shared, passes, world, moves, workers, runners, &mut logs,
        );
        merge(logs.as_slice(), journal);
    }
}
