ghost use Rattle.std.specs.Prelude.{◌≡◌, ℕ, ◌-◌, ◌^◌, ◌≤◌, Bool, true, ◌||◌, List, Option, IsOk, IfOk, OnOk, OnErr};
ghost use Rattle.std.specs.Prelude.{length};
ghost use Rattle.std.specs.Io.{ReadsAtMost};
ghost use Rattle.std.specs.Io.KnownBytes.{ReadConsumes};
ghost use Rattle.edge_io.specs.Counts.{CountsFaults};
ghost use Rattle.edge_io.specs.Ends.{is_end_of_input};

use crate::failed::Failed;

// A source has its last read and its end as ghost members. With the first, 'nothing is read ahead' is a clause; with
// the second an input that has ended stays so, though a terminal may give more. `never_fails` is a fact, since no
// caller knows how many reads its input takes.
/// Where bytes come from.
pub trait Source {
    // The bytes that reads will give from here on, where the source knows them.
    ghost left: { Self → Option (List ℕ) };

    // How many faults there were so far. The count never falls, and stops at 2^64 - 1.
    ghost faults: { Self → ℕ };

    // How many bytes the last read that succeeded gave.
    ghost last: { Self → ℕ };

    // Whether the end of input was given: a read with a buffer that isn't empty has answered `Ok(0)`.
    ghost ended: { Self → Bool };

    // No read fails from here on.
    ghost never_fails: { Self → Type 0 };

    /// Reads into the front of `buf`, and answers how many bytes it gave, at most as many as `buf` has places.
    ///
    /// Those bytes are the first that were left, and the rest is left. `Ok(0)` for a `buf` that isn't empty comes
    /// exactly where nothing is left: it is the end of input. After it each read gives `Ok(0)` or fails.
    ///
    /// [`Failed`] comes only where the count of faults rose in this call, and what is left is then unchanged. A read
    /// that succeeds leaves the count as it was.
    fn read(&mut self, buf: &mut [u8]) -> Result<usize, Failed>
        ensures bound { ReadsAtMost result buf.new }
        ensures bytes { ReadConsumes (left self.old) (left self.new) result buf.new }
        ensures last { IfOk result (λ n. last self.new ≡ n) }
        ensures last_kept { OnErr result (last self.new ≡ last self.old) }

        ensures end { ended self.new ≡ (ended self.old || is_end_of_input result (length buf.old)) }
        ensures after_end { ended self.old ≡ true → IfOk result (λ n. n ≡ 0) }

        ensures faults { CountsFaults (faults self.old) (faults self.new) result }
        ensures limit { faults self.new ≤ 2 ^ 64 - 1 }
        ensures sure { never_fails self.old → IsOk result }
        ensures keeps { never_fails self.old → never_fails self.new };
}
