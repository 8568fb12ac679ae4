ghost use Rattle.std.specs.Prelude.{◌≡◌};
ghost use Rattle.core_steps.specs.Encoding.{nth_word};
ghost use Rattle.core_steps.specs.Reads.{record_read};

use core_steps::decode;
use entity_recs::Rec;

/// The `k`-th of these words, and 0 beyond their end.
fn word_at(words: &[u64], k: usize) -> u64
    ensures { result ≡ nth_word words.now k }
{
    words.get(k).copied().unwrap_or(0)
}

/// The record that six words make, the state word last.
pub fn read_record(slot: u8, words: &[u64]) -> Rec
    ensures { result ≡ record_read slot words.now }
{
    let body = [
        word_at(words, 0),
        word_at(words, 1),
        word_at(words, 2),
        word_at(words, 3),
        word_at(words, 4),
    ];
    decode(u16::from(slot), &body, word_at(words, 5))
}
