ghost use Rattle.std.specs.Prelude.{◌≡◌, ◌<◌, ◌≤◌, ◌*◌, ◌^◌, ℕ, true, length, MatchOption};
ghost use Rattle.box_strips.specs.Places.{has_bit, NoBitFrom, IsNextBit};
ghost use Rattle.box_strips.specs.Places.{has_place, KeepsPlaces, NoPlaceIn, IsNextPlace};

/// The word with one more bit.
pub fn with_bit(word: u64, bit: usize) -> u64
    requires { bit < 64 }
    ensures set { has_bit result bit ≡ true }
    ensures kept { (i : ℕ) → has_bit word i ≡ true → has_bit result i ≡ true }
{
    word | 1 << bit
}

/// Sets the bits that four rows have in common, of as many words each.
pub fn add_common(bits: &mut [u64], a: &[u64], b: &[u64], c: &[u64], d: &[u64])
    requires a { length a.now ≤ length bits.old }
    requires b { length b.now ≡ length a.now }
    requires c { length c.now ≡ length a.now }
    requires d { length d.now ≡ length a.now }
    ensures kept { KeepsPlaces bits.old bits.new }
    ensures added { (place : ℕ) → has_place a.now place ≡ true → has_place b.now place ≡ true
        → has_place c.now place ≡ true → has_place d.now place ≡ true → has_place bits.new place ≡ true }
    ensures length { length bits.new ≡ length bits.old }
{
    for word in 0..a.len() {
        bits[word] |= a[word] & b[word] & c[word] & d[word];
    }
}

/// The first bit of a word from this one on that is set.
fn next_bit(word: u64, from: u8) -> Option<u8>
    requires { from < 64 }
    ensures { MatchOption result (NoBitFrom word from) (IsNextBit word from) }
{
    let rest = word >> from;
    if rest == 0 {
        return None;
    }
    Some(from + rest.trailing_zeros() as u8)
}

/// The first place from one on and before another whose bit is set.
pub fn next_place(bits: &[u64], from: usize, to: usize) -> Option<usize>
    requires places { to ≤ 64 * length bits.now }
    requires end { to < 2 ^ 63 }
    ensures { MatchOption result (NoPlaceIn bits.now from to) (IsNextPlace bits.now from to) }
{
    let mut at = from;
    while at < to {
        if let Some(bit) = next_bit(bits[at / 64], (at % 64) as u8) {
            let place = at / 64 * 64 + usize::from(bit);
            return if place < to { Some(place) } else { None };
        }
        at = (at / 64 + 1) * 64;
    }
    None
}
