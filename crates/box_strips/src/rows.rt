ghost use Rattle.std.specs.Prelude.{◌≡◌, ◌<◌, ◌≤◌, ◌+◌, ◌*◌, ℕ, length};
ghost use Rattle.box_strips.specs.Places.{KeepsPlaces};
ghost use Rattle.box_strips.specs.Strips as strips;
ghost use Rattle.box_strips.specs.Strips.{IsInRow, SpreadsRows};

use crate::bits::with_bit;

/// A row of bits, of those that lie one after another, each of so many words.
pub fn row_of(rows: &[u64], words: usize, row: usize) -> &[u64]
    requires { row * words + words ≤ length rows.now }
    ensures value { result.now ≡ strips.row_of words rows.now row }
    ensures length { length result.now ≡ words }
{
    let first = row * words;
    &rows[first..first + words]
}

/// Puts a place into a row.
pub fn put_in(rows: &mut [u64], words: usize, row: usize, place: usize)
    requires row { row * words + words ≤ length rows.old }
    requires place { place < 64 * words }
    ensures put { IsInRow words rows.new row place }
    ensures kept { KeepsPlaces rows.old rows.new }
    ensures length { length rows.new ≡ length rows.old }
{
    let word = row * words + place / 64;
    rows[word] = with_bit(rows[word], place % 64);
}

/// Puts the places of each row into all rows after it.
pub fn spread(rows: &mut [u64], words: usize)
    ensures spread { (count : ℕ) → length rows.old ≡ count * words → SpreadsRows count words rows.old rows.new }
    ensures length { length rows.new ≡ length rows.old }
{
    for word in words..rows.len() {
        rows[word] |= rows[word - words];
    }
}
