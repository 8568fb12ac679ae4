ghost use Rattle.std.specs.Prelude.{◌≡◌, ◌≤◌, length, map as map_list, true, All, IfOk};
ghost use Rattle.entity_recs.specs.Commands.{command_of};
ghost use Rattle.arena_map.specs.MapLines.{IsWithinLimits, is_added};
ghost use Rattle.arena_map.specs.Maps.{IsMap};
ghost use Rattle.arena_map.specs.Validity.{IsOpeningWorld, IsValidWorld};
ghost use Rattle.client_ports.specs.Lists.{no_lists, IsRoomFor};
ghost use Rattle.move_journal.specs.Merges.{HasNumbersApart};
ghost use Rattle.plain_server.specs.Moving.{HasLivePlayer};
ghost use Rattle.world_tree.specs.Worlds.{IsLinked};
ghost use Rattle.move_phase.specs.Serving.{AreWorkers};

use super::{arena, arrival, at};
use arena_actions::MapAction;
use arena_map::{ArenaMap, MapLine, MapRefusal};
use client_ports::{Ports, Received};
use entity_recs::{Cmd, Entry, Kind};
use move_journal::Journal;
use move_phase::{Runners, StartedMoves};
use packet_read::Arrival;
use shared_moves::NoGate;
use std::alloc::{AllocError, AllocGlobal, Global};
use std::process::Abort;
use std::sync::Wait;
use std::test::Fail;
use std::thread::Threads;
use world_tree::World;

mod shooters;

/// The spawn on one side of the item.
fn spawn() -> MapLine
    ensures added { is_added result ≡ true }
    ensures limits { IsWithinLimits result }
{
    MapLine::Spawn {
        at: at(24_096, 14_000, 6_144),
    }
}

/// The spawn on the other side.
fn other_spawn() -> MapLine
    ensures added { is_added result ≡ true }
    ensures limits { IsWithinLimits result }
{
    MapLine::Spawn {
        at: at(24_096, -14_000, 6_144),
    }
}

/// The item between the spawns.
fn item() -> MapLine
    ensures added { is_added result ≡ true }
    ensures limits { IsWithinLimits result }
{
    MapLine::Item {
        at: at(20_000, -4_096, 0),
        kind: Kind::Ammo,
        delay: 100,
    }
}

/// The map with the item between two spawns.
fn item_map(alloc: Global) -> Result<ArenaMap, MapRefusal> {
    let mut map = ArenaMap::new(alloc, &arena())?;
    map.add(&spawn())?;
    map.add(&other_spawn())?;
    map.add(&item())?;
    Ok(map)
}

/// The things of the map, each at its id.
fn opening(alloc: Global, map: &ArenaMap) -> Result<World, AllocError>
    ensures opening { IfOk result (λ w. IsOpeningWorld map.now w.records) }
    ensures linked { IfOk result (λ w. IsLinked w) }
    ensures rules { IsMap map.now }
{
    World::new(alloc, map.bounds(), map.depth(), map.entities())
}

/// A move of 50 milliseconds with the number 1 and this wish on y.
fn step(port: u16, wish_y: i16) -> Arrival {
    let [low, high] = wish_y.to_le_bytes();
    arrival(port, &[1, 2, 1, 0, 0, 0, 50, 0, 0, low, high, 0])
}

/// Two players join and go towards the item.
fn receive(map: &ArenaMap, world: &mut World, out: &mut Received)
    requires opening { IsOpeningWorld map.now world.old.records }
    requires linked { IsLinked world.old }
    requires rules { IsMap map.now }
    requires empty { out.old.lists ≡ no_lists }
    requires room { IsRoomFor 4 out.old.room }
    ensures valid { IsValidWorld map.now world.new.records }
    ensures live { All (HasLivePlayer world.new.records) out.new.lists.moves }
    ensures apart { HasNumbersApart out.new.lists.moves }
    ensures few { length out.new.lists.moves ≤ 512 }
{
    let arrivals = [
        arrival(7, &[1, 1]),
        arrival(8, &[1, 1]),
        step(7, -320),
        step(8, 320),
    ];
    let mut ports = Ports::new();
    ports.receive(map, world, 0, &arrivals, out);
}

/// Runs these moves on so many workers, and gives the journal.
fn journal_of(
    rt: &(impl AllocGlobal + Abort + Threads + Wait + Sync),
    map: ArenaMap,
    world: &mut World,
    moves: &[Cmd],
    workers: u8,
) -> Result<Journal, Fail>
    requires workers { AreWorkers workers }
    requires valid { IsValidWorld map world.old.records }
    requires live { All (HasLivePlayer world.old.records) (map_list command_of moves.now) }
    requires apart { HasNumbersApart (map_list command_of moves.now) }
    requires few { length moves.now ≤ 512 }
{
    let mut journal = Journal::new(rt.alloc(), 512)?;
    let action = MapAction::new(map);
    let started = StartedMoves::start(rt.alloc(), &action, world, moves, workers)?;
    let mut runners = Runners::alone(&NoGate);
    started.run(rt, world, moves, &mut runners, &mut journal);
    Ok(journal)
}

/// Runs the two moves on so many workers in one thread, and gives the journal.
#[tactic(auto, using(client_ports::proofs::Rooms::room_enough))]
fn reach(
    rt: &(impl AllocGlobal + Abort + Threads + Wait + Sync),
    workers: u8,
) -> Result<Journal, Fail>
    requires { AreWorkers workers }
{
    let map = item_map(rt.alloc()).map_err(|_| "a map")?;
    let mut world = opening(rt.alloc(), &map)?;
    let mut received = Received::new(rt.alloc(), 4)?;
    receive(&map, &mut world, &mut received);
    journal_of(rt, map, &mut world, received.moves(), workers)
}

/// Compares an entry of the player that joined first or second, which has come nearer to the item.
fn expect(rt: &impl Abort, entry: &Entry, place: u64, got: &[u16]) {
    assert_eq!(rt; (entry.place, entry.seq), (place, 1));
    let y = if entry.slot == 0 { 11_952 } else { -11_952 };
    assert_eq!(rt; entry.reply.origin, at(24_096, y, 6_144));
    assert_eq!(rt; entry.reply.got.as_slice(), got);
}

/// The first of the two entries got the item.
fn expect_one_taker(rt: &impl Abort, journal: &Journal) -> Result<(), Fail> {
    let [first, second] = journal.as_slice() else {
        return Err("two entries".into());
    };
    expect(rt, first, 0, &[64]);
    expect(rt, second, 1, &[]);
    assert_eq!(rt;
        (first.slot.min(second.slot), first.slot.max(second.slot)),
        (0, 1)
    );
    Ok(())
}

#[test]
fn one_worker_runs_moves_in_their_order(rt: HostRuntime) -> Result<(), Fail> {
    let journal = reach(&rt, 1)?;
    expect_one_taker(&rt, &journal)?;
    let first = journal.as_slice().first().ok_or("an entry")?;
    assert_eq!(&rt; first.slot, 0);
    Ok(())
}

#[test]
fn two_workers_in_one_thread_have_one_taker(rt: HostRuntime) -> Result<(), Fail> {
    expect_one_taker(&rt, &reach(&rt, 2)?)
}
