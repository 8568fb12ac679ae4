ghost use Rattle.std.specs.Prelude.{◌≡◌, ◌≤◌};
ghost use Rattle.entity_recs.specs.Records.{IsRecord};
ghost use Rattle.player_move.specs.Laws as moves;

use crate::reaching::{amount, reach_on};
use arena_geo::Aabb;
use entity_recs::{Rec, body_box};
use player_move::STAIR_HEIGHT;

/// How far a move looks up and down beyond its reach: the height of a stair, and 1 more for the ground test.
const STAIR_LOOK: u32 = STAIR_HEIGHT + 1;

/// Where a move of so many milliseconds looks: the body, larger on each axis by the reach, and on z by [`STAIR_LOOK`].
pub fn looked_at(me: &Rec, ms: u8) -> Aabb
    requires record { IsRecord me.now }
    requires short { ms ≤ 50 }
    ensures { result ≡ moves.looked_at me.now ms }
{
    let by = amount(
        reach_on(me.vel.x, ms),
        reach_on(me.vel.y, ms),
        reach_on(me.vel.z, ms) + STAIR_LOOK,
    );
    body_box(me).grown(by)
}
