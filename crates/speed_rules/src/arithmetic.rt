ghost use Rattle.std.specs.Prelude.{◌≡◌, ◌+◌, ◌*◌, ◌^◌, ◌<◌, ◌≤◌, pos, ◌*ℤ◌, ◌≤ℤ◌, unsigned_abs, int_div};
ghost use Rattle.speed_rules.specs.Measures.{length_of, scaled_part};

use arena_geo::isqrt;

/// The square of a part.
fn square(part: i32) -> u64
    ensures value { result ≡ unsigned_abs part * unsigned_abs part }
    ensures bound { result ≤ 2 ^ 62 }
{
    let size = u64::from(part.unsigned_abs());
    size * size
}

/// The length of (x, y), rounded down.
pub fn length(x: i32, y: i32) -> u32
    ensures value { result ≡ length_of x y }
    ensures reaches_x { unsigned_abs x ≤ result }
    ensures reaches_y { unsigned_abs y ≤ result }
    ensures bound { result ≤ unsigned_abs x + unsigned_abs y }
{
    isqrt(square(x) + square(y))
}

/// The product.
pub fn product(a: i32, b: i32) -> i64
    ensures { result ≡ a *ℤ b }
{
    i64::from(a) * i64::from(b)
}

/// The quotient, cut toward 0.
pub fn quotient(dividend: i64, divisor: u32) -> i64
    requires { 0 < divisor }
    ensures value { result ≡ int_div dividend (pos divisor) }
    ensures bound { unsigned_abs result ≤ unsigned_abs dividend }
{
    dividend / i64::from(divisor)
}

/// `part * by / whole`, cut toward 0.
pub fn scale(part: i32, by: i32, whole: u32) -> i32
    requires some { 0 < whole }
    requires is_part { unsigned_abs part ≤ whole }
    requires positive { pos 0 ≤ℤ by }
    ensures value { result ≡ scaled_part part by whole }
    ensures bound { unsigned_abs result ≤ unsigned_abs by }
{
    quotient(product(part, by), whole) as i32
}
