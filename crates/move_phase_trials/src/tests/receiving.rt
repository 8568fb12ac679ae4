ghost use Rattle.std.specs.Prelude.{◌≡◌, ◌<◌, ◌≤◌, IfOk, true, length, vec_len};
ghost use Rattle.arena_map.specs.MapLines.{IsWithinLimits, is_added};
ghost use Rattle.client_ports.specs.Clients.{no_clients};
ghost use Rattle.client_ports.specs.States.{state_of, IsState};

use super::{arena, arrival};
use arena_geo::Vec3;
use arena_map::{ArenaMap, MapLine, MapRefusal};
use client_ports::{Joined, Ports, Received, Refusal, Refused};
use packet_read::Arrival;
use std::alloc::{AllocError, Global};
use std::process::Abort;
use std::test::Fail;
use world_tree::World;

/// What a port sends.
#[derive(Clone, Copy)]
enum Sent {
    Join,
    Leave,
    /// A move with this number.
    Move(u8),
    /// Commands of which the newest has this number: so many, in a packet of version 2.
    Steps(u8, u8),
}

/// The packet of what a port sends.
fn packet(port: u16, sent: Sent) -> Arrival {
    match sent {
        Sent::Join => arrival(port, &[1, 1]),
        Sent::Leave => arrival(port, &[1, 3]),
        Sent::Move(number) => arrival(port, &[1, 2, number, 0, 0, 0, 16, 0, 0, 0, 0, 0]),
        Sent::Steps(number, count) => steps(port, number, count),
    }
}

/// A packet of version 2 with so many commands of 50 milliseconds, the newest of which has this number. The wish on x of
/// each is 1 more than that of the one before it.
fn steps(port: u16, number: u8, count: u8) -> Arrival {
    let mut a = arrival(port, &[2, 2, number, 0, 0, 0, count]);
    for wish in 0..count {
        for byte in [50, wish, 0, 0, 0, 0] {
            let _fits = a.bytes.push(byte);
        }
    }
    a
}

/// The i-th of 64 spawns in rows of 8.
fn spawn(i: u8) -> MapLine
    requires { i < 64 }
    ensures added { is_added result ≡ true }
    ensures limits { IsWithinLimits result }
{
    MapLine::Spawn {
        at: Vec3 {
            x: i32::from(i % 8) * 10_240 - 35_840,
            y: i32::from(i / 8) * 10_240 - 35_840,
            z: 6_144,
        },
    }
}

/// The map of the arena with the first so many spawns.
fn map_with(alloc: Global, spawns: u8) -> Result<ArenaMap, MapRefusal>
    requires { spawns ≤ 64 }
{
    let mut map = ArenaMap::new(alloc, &arena())?;
    for i in 0..spawns {
        map.add(&spawn(i))?;
    }
    Ok(map)
}

/// The world of a map, before anybody has joined.
fn opening(alloc: Global, map: &ArenaMap) -> Result<World, AllocError>
    ensures { IfOk result (λ w. IsState map.now (state_of no_clients w.records)) }
{
    World::new(alloc, map.bounds(), map.depth(), map.entities())
}

/// The joins of ports 1 to 65.
fn joins(alloc: Global) -> Result<Vec<Arrival>, AllocError>
    ensures { IfOk result (λ v. vec_len v ≡ 65) }
{
    (1..66).map(|port| packet(port, Sent::Join)).collect(alloc)
}

/// What the joins of ports 1 to 65 come to in the first frame of a map.
#[tactic(auto, using(client_ports::proofs::Rooms::room_enough))]
fn first_frame(alloc: Global, map: &ArenaMap) -> Result<Received, AllocError> {
    let joins = joins(alloc)?;
    let mut world = opening(alloc, map)?;
    let mut ports = Ports::new();
    let mut out = Received::new(alloc, 65)?;
    ports.receive(map, &mut world, 0, &joins, &mut out);
    Ok(out)
}

/// Expects that ports 1 to 64 have joined, in the order of the slots.
fn expect_all_slots(rt: &impl Abort, joins: &[Joined]) {
    assert_eq!(rt; joins.len(), 64);
    for (slot, joined) in (0..64).zip(joins) {
        let port = u16::from(slot) + 1;
        assert_eq!(rt; *joined, Joined { port, slot });
    }
}

#[test]
fn the_65th_join_is_full(rt: HostRuntime) -> Result<(), Fail> {
    let map = map_with(rt.alloc(), 64).map_err(|_| "a map")?;
    let out = first_frame(rt.alloc(), &map)?;
    let (place, why) = (64, Refusal::Full);
    assert_eq!(rt; out.refused(), [Refused { place, why }].as_slice());
    expect_all_slots(&rt, out.joined());
    Ok(())
}

/// A frame: what is sent, the numbers of the moves that are accepted, and the places and reasons of the refusals.
#[derive(Clone, Copy)]
struct Row {
    sent: &'static [(u16, Sent)],
    numbers: &'static [u32],
    refused: &'static [(u32, Refusal)],
}

/// Frames in a row, with one spawn.
const ROWS: [Row; 7] = [
    Row {
        sent: &[
            (7, Sent::Leave),
            (7, Sent::Move(1)),
            (7, Sent::Join),
            (8, Sent::Join),
            (7, Sent::Join),
            (7, Sent::Move(5)),
            (7, Sent::Move(5)),
            (7, Sent::Move(4)),
            (7, Sent::Move(6)),
        ],
        numbers: &[5, 6],
        refused: &[
            (0, Refusal::NotJoined),
            (1, Refusal::NotJoined),
            (3, Refusal::Crowded),
            (4, Refusal::Already),
            (6, Refusal::Old),
            (7, Refusal::Old),
        ],
    },
    Row {
        sent: &[
            (7, Sent::Move(7)),
            (7, Sent::Leave),
            (7, Sent::Move(8)),
            (7, Sent::Move(1)),
            (7, Sent::Leave),
            (7, Sent::Join),
            (8, Sent::Join),
        ],
        numbers: &[7],
        refused: &[
            (2, Refusal::Leaving),
            (3, Refusal::Leaving),
            (4, Refusal::Leaving),
            (5, Refusal::Already),
            (6, Refusal::Crowded),
        ],
    },
    Row {
        sent: &[
            (7, Sent::Join),
            (7, Sent::Move(1)),
            (7, Sent::Move(2)),
            (7, Sent::Move(3)),
            (7, Sent::Move(4)),
            (7, Sent::Move(5)),
            (7, Sent::Move(6)),
            (7, Sent::Move(7)),
            (7, Sent::Move(8)),
            (7, Sent::Move(9)),
        ],
        numbers: &[1, 2, 3, 4, 5, 6, 7, 8],
        refused: &[(9, Refusal::Many)],
    },
    Row {
        sent: &[(7, Sent::Move(9))],
        numbers: &[9],
        refused: &[],
    },
    // Commands that come again are left out, and a packet without a new one is old.
    Row {
        sent: &[
            (8, Sent::Steps(3, 3)),
            (7, Sent::Steps(11, 3)),
            (7, Sent::Steps(12, 3)),
            (7, Sent::Steps(12, 3)),
            (7, Sent::Steps(11, 1)),
            (7, Sent::Steps(15, 1)),
            (7, Sent::Steps(15, 2)),
            (7, Sent::Move(14)),
        ],
        numbers: &[10, 11, 12, 15],
        refused: &[
            (0, Refusal::NotJoined),
            (3, Refusal::Old),
            (4, Refusal::Old),
            (6, Refusal::Old),
            (7, Refusal::Old),
        ],
    },
    // Too many refuses the whole packet, and the last number stays.
    Row {
        sent: &[
            (7, Sent::Steps(18, 3)),
            (7, Sent::Steps(21, 3)),
            (7, Sent::Steps(24, 3)),
            (7, Sent::Steps(23, 2)),
            (7, Sent::Steps(24, 3)),
            (7, Sent::Steps(24, 1)),
            (7, Sent::Steps(23, 3)),
        ],
        numbers: &[16, 17, 18, 19, 20, 21, 22, 23],
        refused: &[
            (2, Refusal::Many),
            (4, Refusal::Many),
            (5, Refusal::Many),
            (6, Refusal::Old),
        ],
    },
    // A leave comes before all that the commands say.
    Row {
        sent: &[
            (7, Sent::Steps(24, 3)),
            (7, Sent::Leave),
            (7, Sent::Steps(27, 3)),
            (7, Sent::Steps(24, 1)),
        ],
        numbers: &[24],
        refused: &[(2, Refusal::Leaving), (3, Refusal::Leaving)],
    },
];

/// What these packets come to in a frame of their own.
#[tactic(auto, using(client_ports::proofs::Rooms::room_enough))]
fn play(
    rt: &impl Abort,
    alloc: Global,
    map: &ArenaMap,
    world: &mut World,
    ports: &mut Ports,
    sent: &[(u16, Sent)],
) -> Result<Received, AllocError>
    requires { IsState map.now (state_of ports.old world.old.records) }
    ensures { IsState map.now (state_of ports.new world.new.records) }
{
    assert!(rt; sent.len() <= 16);
    let packets: Vec<Arrival> = sent.iter().map(|s| packet(s.0, s.1)).collect(alloc)?;
    let mut out = Received::new(alloc, 16)?;
    ports.receive(map, world, 3, &packets, &mut out);
    ports.finish(world);
    Ok(out)
}

/// Whether these are the numbers of the accepted moves, and these the refusals.
fn is_row(alloc: Global, out: &Received, row: &Row) -> Result<bool, AllocError> {
    let numbers: Vec<u32> = out.moves().iter().map(|m| m.seq).collect(alloc)?;
    let refused: Vec<(u32, Refusal)> = out
        .refused()
        .iter()
        .map(|r| (r.place, r.why))
        .collect(alloc)?;
    Ok(numbers.as_slice() == row.numbers && refused.as_slice() == row.refused)
}

/// How many frames are as their rows say, up to the first that isn't.
fn right_rows(
    rt: &impl Abort,
    alloc: Global,
    map: &ArenaMap,
    rows: &[Row],
) -> Result<usize, AllocError> {
    let mut world = opening(alloc, map)?;
    let mut ports = Ports::new();
    for (i, row) in rows.iter().enumerate() {
        let out = play(rt, alloc, map, &mut world, &mut ports, row.sent)?;
        if !is_row(alloc, &out, row)? {
            return Ok(i);
        }
    }
    Ok(rows.len())
}

#[test]
fn a_player_joins_moves_leaves_and_joins_again(rt: HostRuntime) -> Result<(), Fail> {
    let map = map_with(rt.alloc(), 1).map_err(|_| "a map")?;
    assert_eq!(rt; right_rows(&rt, rt.alloc(), &map, &ROWS)?, ROWS.len());
    Ok(())
}

/// What these packets come to in the first frame of the map with one spawn.
#[tactic(auto, using(client_ports::proofs::Rooms::room_enough))]
fn in_first_frame(alloc: Global, packets: &[Arrival]) -> Result<Received, Fail>
    requires { length packets.now ≤ 16 }
{
    let map = map_with(alloc, 1).map_err(|_| "a map")?;
    let mut world = opening(alloc, &map)?;
    let mut ports = Ports::new();
    let mut out = Received::new(alloc, 16)?;
    ports.receive(&map, &mut world, 0, packets, &mut out);
    Ok(out)
}

#[test]
fn lost_commands_come_with_the_next_packet(rt: HostRuntime) -> Result<(), Fail> {
    let packets = [
        packet(7, Sent::Join),
        arrival(7, b"\x02\x02\x02\0\0\0\x02\x32\0\0\0\0\0\x32\0\0\0\0\0"),
        steps(7, 3, 3),
        steps(7, 3, 3),
    ];
    let out = in_first_frame(rt.alloc(), &packets)?;
    let (place, why) = (3, Refusal::Old);
    assert_eq!(rt; out.refused(), [Refused { place, why }].as_slice());
    assert_eq!(rt; out.joined(), [Joined { port: 7, slot: 0 }].as_slice());
    let numbers: Vec<u32> = out.moves().iter().map(|m| m.seq).collect(rt.alloc())?;
    assert_eq!(rt; numbers.as_slice(), [1, 2, 3].as_slice());
    Ok(())
}

#[test]
fn a_command_keeps_its_own_fields(rt: HostRuntime) -> Result<(), Fail> {
    let packets = [
        packet(7, Sent::Join),
        packet(7, Sent::Move(5)),
        steps(7, 7, 3),
    ];
    let out = in_first_frame(rt.alloc(), &packets)?;
    let moves: Vec<(u32, u8, i16)> = out
        .moves()
        .iter()
        .map(|m| (m.seq, m.ms, m.wish_x))
        .collect(rt.alloc())?;
    assert_eq!(rt;
        moves.as_slice(),
        [(5, 16, 0), (6, 50, 1), (7, 50, 2)].as_slice()
    );
    Ok(())
}
