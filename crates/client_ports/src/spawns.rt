ghost use Rattle.std.specs.Prelude.{◌≡◌, IfSome};
ghost use Rattle.arena_map.specs.Maps.{solids_of, IsSpawn};
ghost use Rattle.client_ports.specs.FirstRefusals as answers;

use arena_geo::Vec3;
use arena_map::ArenaMap;
use entity_recs::player_box;
use world_tree::World;

/// Where a join goes.
#[derive(Clone, Copy, Debug, PartialEq, Eq)]
pub struct JoinPoint {
    /// The slot, 0 to 63.
    pub slot: u8,
    /// The origin of the player.
    pub at: Vec3,
}

/// The first spawn in line order at which a player's body overlaps no solid of the map and no body of a live solid.
pub fn free_spawn(map: &ArenaMap, world: &World, slot: u8) -> Option<Vec3>
    ensures value { result ≡ answers.free_spawn (solids_of map.now) world.now.records slot map.now.spawns }
    ensures spawn { IfSome result (IsSpawn map.now.bounds) }
{
    let spawns = map.spawns();
    let solids = map.solids();
    for at in spawns {
        if world.free(&player_box(*at), solids, u16::from(slot)) {
            return Some(*at);
        }
    }
    None
}
