ghost use Rattle.std.specs.Prelude.{◌≡◌, ◌≤◌, Some, option_map, IfSome};
ghost use Rattle.out_text.specs.Journals as journals;
ghost use Rattle.out_text.specs.Reading as reading;

use edge_io::{field_at, integer, natural};

/// The greatest number of 32 bits.
pub const MOST: u64 = 4_294_967_295;

/// As far as a coordinate is from 0 at most.
const FARTHEST: u32 = 2_147_483_648;

/// The number, if it is one of 32 bits with a sign.
fn coordinate(z: i64) -> Option<i32>
    ensures { result ≡ reading.within (Some z) }
{
    i32::try_from(z).ok()
}

/// A number of at most `limit`, and the rest.
pub fn number_at(rest: &[u8], limit: u64) -> Option<(u64, &[u8])>
    ensures value { option_map (λ n. (n.0, n.1.now)) result ≡ journals.number_at limit rest.now }
    ensures bound { IfSome result (λ n. n.0 ≤ limit) }
{
    let (field, rest) = field_at(rest)?;
    Some((natural(field, limit)?, rest))
}

/// A coordinate, and the rest.
pub fn coordinate_at(rest: &[u8]) -> Option<(i32, &[u8])>
    ensures { option_map (λ z. (z.0, z.1.now)) result ≡ reading.coordinate_at rest.now }
{
    let (field, rest) = field_at(rest)?;
    Some((coordinate(integer(field, FARTHEST)?)?, rest))
}
