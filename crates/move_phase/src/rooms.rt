ghost use Rattle.std.specs.Prelude.{◌≡◌, ◌<◌, ◌≤◌, ◌^◌, map, length};
ghost use Rattle.entity_recs.specs.Commands.{command_of};
ghost use Rattle.move_phase.specs.Running.{HaveRoom};

use core_steps::MOST_SEATS;
use entity_recs::Cmd;

/// The most workers that run moves, each of which has a seat.
pub const MOST_WORKERS: usize = MOST_SEATS;

/// For each worker, how many of the moves are of the slots that it serves.
pub(crate) fn rooms(moves: &[Cmd], workers: u8) -> [u32; MOST_WORKERS]
    requires workers { (0 < workers) × (workers ≤ MOST_WORKERS) }
    requires few { length moves.now < 2 ^ 32 }
    ensures count { length result ≡ MOST_WORKERS }
    ensures room { HaveRoom workers (map command_of moves.now) result }
{
    let mut room = [0; MOST_WORKERS];
    for cmd in moves {
        let worker = usize::from(cmd.slot % workers);
        room[worker] += 1;
    }
    room
}
