ghost use Rattle.std.specs.Prelude.{◌≡◌};
ghost use Rattle.arena_geo.specs.Vectors.{IsNear};
ghost use Rattle.speed_rules.specs.Measures.{greatest_velocity};
ghost use Rattle.speed_rules.specs.Rules.{velocity_after_jump};
ghost use Rattle.player_move.specs.Intents.{intent_of};
ghost use Rattle.player_move.specs.Velocities.{IsTakeOff, jumps, walks, velocity_when_walking, velocity_when_flying};
ghost use Rattle.player_move.specs.Velocities.{unclamped_after, velocity_after};

use arena_geo::Vec3;
use entity_recs::{Cmd, Rec};
use speed_rules::{JUMP_SPEED, accelerate, clamp, friction, gravity};

/// The button of a jump.
const JUMP: u8 = 1;

/// Whether the jump button is pressed.
fn jumps(cmd: &Cmd) -> bool
    ensures { result ≡ jumps (intent_of cmd.now) }
{
    cmd.buttons & JUMP != 0
}

/// Whether the player walks: it is on the ground and doesn't jump. Else it is in the air.
pub fn walks(ground: bool, cmd: &Cmd) -> bool
    ensures { result ≡ walks ground (intent_of cmd.now) }
{
    ground && !jumps(cmd)
}

/// The velocity of a player that jumps, as in Quake's `PlayerJump`.
fn velocity_after_jump(vel: Vec3) -> Vec3
    requires { IsNear greatest_velocity vel }
    ensures value { result ≡ velocity_after_jump vel }
    ensures take_off { IsTakeOff result }
{
    Vec3 {
        z: vel.z + JUMP_SPEED,
        ..vel
    }
}

/// The velocity of a player that walks, before the clamp.
fn velocity_when_walking(vel: Vec3, cmd: &Cmd) -> Vec3
    requires { IsNear greatest_velocity vel }
    ensures { result ≡ velocity_when_walking vel (intent_of cmd.now) }
{
    let slower = friction(vel, cmd.ms);
    accelerate(slower, cmd.wish_x, cmd.wish_y, cmd.ms, true)
}

/// The velocity of a player in the air, before the clamp.
fn velocity_when_flying(vel: Vec3, cmd: &Cmd) -> Vec3
    requires { IsTakeOff vel }
    ensures { result ≡ velocity_when_flying vel (intent_of cmd.now) }
{
    let faster = accelerate(vel, cmd.wish_x, cmd.wish_y, cmd.ms, false);
    gravity(faster, cmd.ms)
}

/// The velocity that enters the clamp: a jump, on the ground alone, after which the player is in the air; friction on
/// the ground; acceleration; gravity in the air.
fn velocity_before_clamp(ground: bool, me: &Rec, cmd: &Cmd) -> Vec3
    requires { IsNear greatest_velocity me.now.vel }
    ensures { result ≡ unclamped_after ground me.now (intent_of cmd.now) }
{
    match (ground, jumps(cmd)) {
        (true, false) => velocity_when_walking(me.vel, cmd),
        (true, true) => velocity_when_flying(velocity_after_jump(me.vel), cmd),
        (false, _) => velocity_when_flying(me.vel, cmd),
    }
}

/// The velocity with which a move slides that begins on the ground or not, by the rules of speed in their order. A
/// button that is held jumps again at each landing.
pub fn velocity_after(ground: bool, me: &Rec, cmd: &Cmd) -> Vec3
    requires { IsNear greatest_velocity me.now.vel }
    ensures value { result ≡ velocity_after ground me.now (intent_of cmd.now) }
    ensures near { IsNear greatest_velocity result }
{
    clamp(velocity_before_clamp(ground, me, cmd))
}
