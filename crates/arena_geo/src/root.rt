ghost use Rattle.std.specs.Prelude.{◌≡◌, ◌*◌, ◌^◌, ◌<◌, ◌≤◌};
ghost use Rattle.arena_geo.specs.Roots.{IsRoot, root_of};

/// The root of `n`, rounded down, which is at least `low` and less than `high`.
fn root_between(n: u64, low: u64, high: u64) -> u32
    requires from { low * low ≤ n }
    requires to { n < high * high }
    requires fits { high ≤ 2 ^ 32 }
    ensures { IsRoot n result }
{
    let mut low = low;
    let mut high = high;
    while low + 1 < high {
        let middle = (low + high) / 2;
        if middle * middle <= n {
            low = middle;
        } else {
            high = middle;
        }
    }
    low as u32
}

// std's `isqrt` halves the way from 0 to 2^32 for any number, in 32 steps. The numbers here are small, and a move takes
// two roots, which were a twentieth of its time.
/// The root of `n`, rounded down: the greatest number whose square is at most `n`.
pub fn isqrt(n: u64) -> u32
    ensures root { IsRoot n result }
    ensures value { result ≡ root_of n }
{
    if n == 0 {
        return 0;
    }
    // The root has half as many binary digits.
    let digits = n.ilog2() / 2;
    root_between(n, 1 << digits, 2 << digits)
}
