ghost use Rattle.std.specs.Prelude.{◌≡◌, ◌<◌, ◌^◌, ℕ, Some, IfSome, decimal};
ghost use Rattle.arena_engine.specs.Numbers.{SpellsUpTo};

use edge_io::natural;

/// The number of 64 bits that a word spells in decimal digits, without a sign and without a leading zero, 0 itself
/// excepted: as it is printed.
pub fn number(word: &str) -> Option<u64>
    ensures some { IfSome result (λ n. word.now ≡ decimal n) }
    ensures only { (n : ℕ) → n < 2 ^ 64 → word.now ≡ decimal n → result ≡ Some n }
{
    natural(word.as_bytes(), u64::MAX)
}

/// The number from 1 to `most` that a word spells.
pub fn number_up_to(word: &str, most: u32) -> Option<u32>
    ensures some { IfSome result (SpellsUpTo most word.now) }
    ensures only { (n : ℕ) → SpellsUpTo most word.now n → result ≡ Some n }
{
    let value = natural(word.as_bytes(), u64::from(most))?;
    if value == 0 { None } else { Some(value as u32) }
}
