ghost use Rattle.std.specs.Prelude.{◌≡◌, ◌<◌, ◌∷◌, [], IfOk};
ghost use Rattle.areanode.specs.Trees.{IsTreeDepth};
ghost use Rattle.core_trials.specs.declared.players.TheConstants.{FIRST, NEAR};
ghost use Rattle.world_tree.specs.Live.{live_in};

use areanode::MOST_DEPTH;
use arena_geo::{Aabb, Vec3};
use core_trials::{FIRST, NEAR};
use entity_recs::{Cmd, Rec};
use std::alloc::{AllocError, Global};
use world_tree::World;

/// A player at rest in another leaf than `FIRST`, in slot 1.
pub const FAR: Rec = Rec {
    id: 1,
    origin: Vec3 {
        x: -98_304,
        y: -98_304,
        z: 6_144,
    },
    ..FIRST
};

/// A player at rest in the last two leaves of a tree of depth 5, in slot 0.
pub const LAST: Rec = Rec { id: 0, ..FAR };

/// A player at rest in the same leaves, in slot 1.
pub const BY_LAST: Rec = Rec {
    origin: Vec3 {
        x: -85_504,
        y: -98_304,
        z: 6_144,
    },
    ..FAR
};

/// A command of 50 ms without a wish.
pub fn plain(slot: u8) -> Cmd
    requires { slot < 64 }
    ensures { result.slot ≡ slot }
{
    Cmd {
        slot,
        seq: 1,
        frame: 0,
        ms: 50,
        wish_x: 0,
        wish_y: 0,
        buttons: 0,
    }
}

/// The bounds of the arena.
fn arena() -> Aabb {
    let lo = Vec3 {
        x: -131_072,
        y: -131_072,
        z: 0,
    };
    let hi = Vec3 {
        x: 131_072,
        y: 131_072,
        z: 65_536,
    };
    Aabb::from_corners(lo, hi)
}

/// The world of two players in the same leaves of a tree of this depth.
pub fn near_world(alloc: Global, depth: u8) -> Result<World, AllocError>
    requires { IsTreeDepth depth }
    ensures { IfOk result (λ w. live_in w.records ≡ FIRST ∷ NEAR ∷ []) }
{
    World::new(alloc, &arena(), depth, &[FIRST, NEAR])
}

/// The world of two players that have no leaf in common.
pub fn far_world(alloc: Global, depth: u8) -> Result<World, AllocError>
    requires { IsTreeDepth depth }
    ensures { IfOk result (λ w. live_in w.records ≡ FIRST ∷ FAR ∷ []) }
{
    World::new(alloc, &arena(), depth, &[FIRST, FAR])
}

/// The world of two players in the last two leaves of a tree of depth 5.
pub fn last_world(alloc: Global) -> Result<World, AllocError>
    ensures { IfOk result (λ w. live_in w.records ≡ LAST ∷ BY_LAST ∷ []) }
{
    World::new(alloc, &arena(), MOST_DEPTH, &[LAST, BY_LAST])
}
