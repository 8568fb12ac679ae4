ghost use Rattle.std.specs.Prelude.{◌≡◌, ◌*◌, ◌≤◌, pos, ◌*ℤ◌, unsigned_abs, int_div};
ghost use Rattle.bot_ways.specs.Moves as moves;
ghost use Rattle.bot_ways.specs.Walking.{IsStride};

use crate::edges::distance;
use arena_geo::Vec3;
use packet_read::MovePacket;

/// How many milliseconds a move lasts.
const MS: u8 = 50;

/// How many units of Quake per second a bot wishes along the longer axis of an edge.
const WISH: i64 = 320;

/// How much of an edge there is for each move, in sub-units.
const STRETCH: u32 = 4_096;

/// The quotient, cut toward 0.
fn quotient(dividend: i64, divisor: u32) -> i64
    requires { 1 ≤ divisor }
    ensures { result ≡ int_div dividend (pos divisor) }
{
    dividend / i64::from(divisor)
}

/// The wish for the whole of an edge times its part along an axis.
fn product(part: i32) -> i64
    ensures { result ≡ part *ℤ WISH }
{
    i64::from(part) * WISH
}

/// The wish along an axis: its share of 320 units per second.
fn wish(part: i32, whole: u32) -> i16
    requires part { unsigned_abs part ≤ whole }
    requires some { 1 ≤ whole }
    ensures { result ≡ moves.wish_along part whole }
{
    quotient(product(part), whole) as i16
}

/// The move with this number from one place towards another.
pub fn move_towards(seq: u32, from: Vec3, to: Vec3) -> MovePacket
    requires { IsStride from to }
    ensures { result ≡ moves.move_towards seq from to }
{
    let whole = distance(from, to);
    let step = to - from;
    MovePacket {
        seq,
        ms: MS,
        wish_x: wish(step.x, whole),
        wish_y: wish(step.y, whole),
        buttons: 0,
    }
}

/// How many moves there are from one place to another.
pub fn moves_between(from: Vec3, to: Vec3) -> u32
    requires { IsStride from to }
    ensures value { result ≡ moves.moves_between from to }
    ensures few { result ≤ 16 }
{
    distance(from, to).div_ceil(STRETCH)
}
