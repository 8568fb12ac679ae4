ghost use Rattle.std.specs.Prelude.{◌≡◌, ◌<◌, ◌≤◌, ◌^◌};
ghost use Rattle.world_tree.specs.Worlds.{record_of, IsLinked};
ghost use Rattle.frame_phases.specs.Scores.{score_at, score_in};

use entity_recs::SLOTS;
use world_tree::World;

/// The score of the player in this slot, and 0 where none is live.
fn score_in_slot(world: &World, slot: usize) -> u64
    requires { slot ≤ 64 }
    ensures score { result ≡ score_at (record_of world.now slot) }
    ensures bound { result < 2 ^ 32 }
    ensures linked { IsLinked world.now }
{
    world
        .get(slot as u16)
        .map_or(0, |player| u64::from(player.score))
}

/// The sum of the scores of the live players.
pub fn score_of(world: &World) -> u64
    ensures { result ≡ score_in world.now.records }
{
    let mut score = 0;
    for slot in 0..SLOTS {
        score += score_in_slot(world, slot);
    }
    score
}
