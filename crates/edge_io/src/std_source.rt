ghost use Rattle.std.specs.Prelude.{◌≡◌, ◌-◌, ◌^◌, ◌≤◌, ◌||◌, true, false, None, Ok, IfOk, OnOk, OnErr};
ghost use Rattle.std.specs.Prelude.{length};
ghost use Rattle.std.specs.Io.{ReadsAtMost};
ghost use Rattle.std.specs.Io.KnownBytes.{ReadConsumes};
ghost use Rattle.edge_io.specs.Counts.{CountsFaults, one_more};
ghost use Rattle.edge_io.specs.Ends.{is_end_of_input};
ghost use Rattle.edge_io.specs.Adapters.{after_end_read};

use crate::failed::Failed;
use crate::source::Source;
use std::io::Read;
use std::marker::Model;

// It doesn't know its bytes. What it asks of its reader is tested, not proved: std's `Read` says nothing of errors.
/// A source over a reader of the standard library. It doesn't know the bytes that are left, and counts each error of
/// the reader as a fault, an interrupted read as well. Once the reader has given the end of input it isn't asked
/// again, even if it would give more, as a terminal or a growing file may.
#[derive(Drop)]
pub struct StdSource<R> {
    inner: R,
    errors: u64,
    last: usize,
    has_ended: bool,
}

impl<R> Model for StdSource<R> {
    ghost use Rattle.std.specs.Prelude.{◌-◌, ◌^◌, ◌≤◌};
    ghost use Rattle.edge_io.specs.Adapters.{StdSourceView};

    ghost Value = { StdSourceView R };

    ghost view = { λ s. record { inner = s.inner; errors = s.errors; last = s.last; ended = s.has_ended } };

    ghost invariant = { λ s. s.errors ≤ 2 ^ 64 - 1 };
}

impl<R: Read> StdSource<R> {
    /// The reader as a source, with no fault so far.
    pub fn new(inner: R) -> StdSource<R>
        ensures inner { result.inner ≡ inner }
        ensures errors { result.errors ≡ 0 }
        ensures last { result.last ≡ 0 }
        ensures ended { result.ended ≡ false }
    {
        StdSource {
            inner,
            errors: 0,
            last: 0,
            has_ended: false,
        }
    }
}

impl<R: Read> Source for StdSource<R> {
    ghost left = { λ _. None };

    ghost faults = { λ s. s.errors };

    ghost last = { λ s. s.last };

    ghost ended = { λ s. s.ended };

    ghost never_fails = { λ _. ⊥ };

    fn read(&mut self, buf: &mut [u8]) -> Result<usize, Failed>
        // What every source says, of one that doesn't know its bytes and may always fail.
        ensures bound { ReadsAtMost result buf.new }
        ensures last { IfOk result (λ n. self.new.last ≡ n) }
        ensures last_kept { OnErr result (self.new.last ≡ self.old.last) }
        ensures end { self.new.ended ≡ (self.old.ended || is_end_of_input result (length buf.old)) }
        ensures after_end { self.old.ended ≡ true → IfOk result (λ n. n ≡ 0) }
        ensures faults { CountsFaults self.old.errors self.new.errors result }
        ensures limit { self.new.errors ≤ 2 ^ 64 - 1 }

        // What the reader gave is passed on, where the reader knows its bytes.
        ensures passed { self.old.ended ≡ false →
            ReadConsumes (R.remaining self.old.inner) (R.remaining self.new.inner) result buf.new }

        // After its end the reader isn't asked.
        ensures unasked { self.old.ended ≡ true → (result ≡ Ok 0) × (self.new ≡ after_end_read self.old) }

        // Each `Failed` is counted once.
        ensures counted { OnErr result (self.new.errors ≡ one_more self.old.errors) }
    {
        if self.has_ended {
            self.last = 0;
            return Ok(0);
        }
        match self.inner.read(buf) {
            Ok(count) => {
                self.last = count;
                self.has_ended = count == 0 && !buf.is_empty();
                Ok(count)
            }
            Err(_) => {
                self.errors = self.errors.saturating_add(1);
                Err(Failed)
            }
        }
    }
}
