ghost use Rattle.std.specs.Prelude.{◌≡◌, ◌+◌, ◌≤◌, ◌++◌, length};
ghost use Rattle.arena_geo.specs.Vectors.{IsNear};
ghost use Rattle.arena_geo.specs.Bounds.{IsBox};
ghost use Rattle.entity_recs.specs.Records.{IsRecord};
ghost use Rattle.speed_rules.specs.Measures.{greatest_velocity};
ghost use Rattle.player_move.specs.Intents.{intent_of};
ghost use Rattle.player_move.specs.Moves.{move_of, body_after};

use crate::ground::on_ground;
use crate::limits::FARTHEST_ORIGIN;
use crate::moved::Moved;
use crate::velocity::{velocity_after, walks};
use crate::walk::walk;
use arena_geo::Aabb;
use box_trace::MOST_SOLIDS;
use entity_recs::{Cmd, Rec, body_box};

/// The whole move of a record for one command, as Quake's `SV_WalkMove`. The solids are the two slices, read as one
/// list, `fixed` first; the record's own body is none of them.
///
/// The velocity follows the rules of speed: a jump, friction on the ground, acceleration, gravity in the air and the
/// clamp. A move is on the ground where it begins there and doesn't jump. The body slides at that velocity. Where the
/// move is on the ground and the slide ran into a solid on x or y, the stairs are tried: up by [`STAIR_HEIGHT`], a
/// slide at the velocity over the ground, and down by as many steps as the trace up made. They are taken where they
/// lead strictly farther on x and y together and the body is on the ground there.
///
/// The record is within its bounds, and there are at most 65,535 solids. It may be of any kind. The origin is then at
/// most 1,074,176 from 0 and the velocity at most 512,000, so that the body is still a box and the velocity a record's.
/// No memory is taken, and the work grows with the number of solids alone.
///
/// [`STAIR_HEIGHT`]: crate::STAIR_HEIGHT
pub fn move_player(me: &Rec, cmd: &Cmd, fixed: &[Aabb], moving: &[Aabb]) -> Moved
    requires record { IsRecord me.now }
    requires few { length fixed.now + length moving.now ≤ MOST_SOLIDS }
    ensures value { result ≡ move_of me.now (intent_of cmd.now) (fixed.now ++ moving.now) }
    ensures origin { IsNear FARTHEST_ORIGIN result.origin }
    ensures vel { IsNear greatest_velocity result.vel }
    ensures is_box { IsBox (body_after me.now result) }
{
    let body = body_box(me);
    let ground = on_ground(&body, fixed, moving);
    let vel = velocity_after(ground, me, cmd);
    let walk = walk(walks(ground, cmd), &body, vel, cmd.ms, fixed, moving);
    Moved {
        origin: me.origin + walk.shift,
        vel: walk.vel,
        ground,
    }
}
