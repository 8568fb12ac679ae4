use crate::rows::{put_in, row_of, spread};
use std::alloc::{AllocError, Global};
use std::marker::Model;

/// How many binary digits a length has.
const DIGITS: u32 = 32;

/// Boxes along one axis of an area that is cut into strips: for each strip a row of bits, which of them begin in it or
/// before it, and another, which end in it or after it. What lies before the first strip counts as in it, and what lies
/// after the last one as in that.
#[derive(Drop)]
pub struct Axis<const S: usize> {
    from: i32,
    shift: u32,
    /// How many words a row has.
    words: usize,
    begun: Vec<u64>,
    /// Counted from the last strip.
    ended: Vec<u64>,
}

impl<const S: usize> Model for Axis<S> {
    ghost use Rattle.std.specs.Prelude.{◌≡◌, ◌<◌, ◌*◌, length};
    ghost use Rattle.box_strips.specs.Strips.{AxisView};

    ghost Value = { AxisView };

    ghost view = { λ a. record {
      strips = S;
      from = a.from;
      shift = a.shift;
      words = a.words;
      begun = a.begun.items;
      ended = a.ended.items;
    } };

    ghost invariant = { λ a. (0 < S) × (a.shift < 32) × (length a.begun.items ≡ S * a.words)
        × (length a.ended.items ≡ S * a.words) };
}

impl<const S: usize> Axis<S> {
    ghost use Rattle.std.specs.Prelude.{◌≡◌, ℕ, ◌<◌, ◌*◌, true, ℤ, ◌≤ℤ◌, length, IfOk};
    ghost use Rattle.box_strips.specs.Places.{has_place};
    ghost use Rattle.box_strips.specs.Strips as strips;
    ghost use Rattle.box_strips.specs.Strips.{HasEnds, HasInterval, KeepsAxis};

    /// The strips from one end to another, without a box: at most `S` of them, of a width that is a power of 2. Their rows
    /// have so many words.
    pub fn between(alloc: Global, from: i32, to: i32, words: usize) -> Result<Self, AllocError>
        requires { 0 < S }
        ensures { IfOk result (λ axis. axis.words ≡ words) }
    {
        let digits = DIGITS - to.abs_diff(from).leading_zeros();
        let size = S.checked_mul(words).ok_or(AllocError)?;
        Ok(Axis {
            from,
            shift: digits.saturating_sub(S.trailing_zeros()).min(DIGITS - 1),
            words,
            begun: vec![in alloc; 0; size]?,
            ended: vec![in alloc; 0; size]?,
        })
    }

    /// The strip in which a place on the axis lies.
    fn strip_of(&self, at: i32) -> usize
        ensures value { result ≡ strips.strip_of self.now at }
        ensures strip { result < S }
    {
        let past = at.max(self.from).abs_diff(self.from);
        ((past >> self.shift) as usize).min(S - 1)
    }

    /// Puts a box in, which goes from `lo` to `hi` on the axis.
    pub fn put(&mut self, place: usize, lo: i32, hi: i32)
        requires { place < 64 * self.old.words }
        ensures put { HasEnds self.new place lo hi }
        ensures kept { KeepsAxis self.old self.new }
    {
        let first = self.strip_of(lo);
        let last = self.strip_of(hi);
        put_in(&mut self.begun, self.words, first, place);
        put_in(&mut self.ended, self.words, S - 1 - last, place);
    }

    /// Puts each box from the row of its end into those after it, once all boxes are in.
    pub fn spread(&mut self)
        ensures interval { (place : ℕ) (lo hi : ℤ) → HasEnds self.old place lo hi → HasInterval self.new place lo hi }
        ensures words { self.new.words ≡ self.old.words }
    {
        spread(&mut self.begun, self.words);
        spread(&mut self.ended, self.words);
    }

    /// The boxes that begin in the strip of a place or before it, among them all that begin at the place or before it.
    pub fn begun_by(&self, at: i32) -> &[u64]
        ensures found { (place : ℕ) (lo hi : ℤ) → HasInterval self.now place lo hi → lo ≤ℤ at
            → has_place result.now place ≡ true }
        ensures length { length result.now ≡ self.now.words }
    {
        let strip = self.strip_of(at);
        row_of(&self.begun, self.words, strip)
    }

    /// The boxes that end in the strip of a place or after it, among them all that end at the place or after it.
    pub fn ended_from(&self, at: i32) -> &[u64]
        ensures found { (place : ℕ) (lo hi : ℤ) → HasInterval self.now place lo hi → at ≤ℤ hi
            → has_place result.now place ≡ true }
        ensures length { length result.now ≡ self.now.words }
    {
        let strip = self.strip_of(at);
        row_of(&self.ended, self.words, S - 1 - strip)
    }
}
