ghost use Rattle.std.specs.Prelude.{◌≡◌, ◌-◌, ◌^◌, ◌≤◌, ◌↔◌, ◌||◌, true, false, Some, IsOk, IsErr, IfOk, OnOk};
ghost use Rattle.std.specs.Prelude.{OnErr, Contains, length, take, min};
ghost use Rattle.std.specs.Io.{ReadsAtMost};
ghost use Rattle.std.specs.Io.KnownBytes.{ReadConsumes};
ghost use Rattle.edge_io.specs.Counts.{CountsFaults};
ghost use Rattle.edge_io.specs.Ends.{is_end_of_input};
ghost use Rattle.edge_io.specs.Memory.{IsReadOf, HasNoFailingCall};

use crate::failed::Failed;
use crate::source::Source;
use std::marker::Model;

/// A source over bytes in memory, which gives them in reads of a bounded size and fails at chosen calls.
#[derive(Drop)]
pub struct MemSource<'a> {
    rest: &'a [u8],
    most: usize,
    fails: &'a [u64],
    calls: u64,
    faults: u64,
    last: usize,
    has_ended: bool,
}

impl<'a> Model for MemSource<'a> {
    ghost use Rattle.std.specs.Prelude.{◌≡◌, ◌≤◌, true, []};
    ghost use Rattle.edge_io.specs.Memory.{MemSourceView};

    ghost Value = { MemSourceView };

    ghost view = { λ s. record {
      left = s.rest.now;
      most = s.most;
      fails = s.fails.now;
      calls = s.calls;
      faults = s.faults;
      last = s.last;
      ended = s.has_ended;
    } };

    ghost invariant = { λ s. (1 ≤ s.most) × (s.has_ended ≡ true → s.rest.now ≡ []) };
}

impl<'a> MemSource<'a> {
    /// A source that has `bytes` left and gives at most `most` of them in a read. The calls of `read` whose numbers,
    /// counted from 0, are in `fails` fail; after 2^64 - 1 calls the number stays.
    pub fn new(bytes: &'a [u8], most: usize, fails: &'a [u64]) -> MemSource<'a>
        requires { 1 ≤ most }
        ensures left { result.left ≡ bytes.now }
        ensures most { result.most ≡ most }
        ensures fails { result.fails ≡ fails.now }
        ensures calls { result.calls ≡ 0 }
        ensures faults { result.faults ≡ 0 }
        ensures last { result.last ≡ 0 }
        ensures ended { result.ended ≡ false }
    {
        MemSource {
            rest: bytes,
            most,
            fails,
            calls: 0,
            faults: 0,
            last: 0,
            has_ended: false,
        }
    }
}

impl Source for MemSource<'_> {
    ghost left = { λ s. Some s.left };

    ghost faults = { λ s. s.faults };

    ghost last = { λ s. s.last };

    ghost ended = { λ s. s.ended };

    ghost never_fails = { HasNoFailingCall };

    fn read(&mut self, buf: &mut [u8]) -> Result<usize, Failed>
        // What every source says.
        ensures bound { ReadsAtMost result buf.new }
        ensures bytes { ReadConsumes (Some self.old.left) (Some self.new.left) result buf.new }
        ensures last { IfOk result (λ n. self.new.last ≡ n) }
        ensures last_kept { OnErr result (self.new.last ≡ self.old.last) }
        ensures end { self.new.ended ≡ (self.old.ended || is_end_of_input result (length buf.old)) }
        ensures after_end { self.old.ended ≡ true → IfOk result (λ n. n ≡ 0) }
        ensures faults { CountsFaults self.old.faults self.new.faults result }
        ensures limit { self.new.faults ≤ 2 ^ 64 - 1 }
        ensures sure { HasNoFailingCall self.old → IsOk result }
        ensures keeps { HasNoFailingCall self.old → HasNoFailingCall self.new }

        // Which calls fail, and what each call gives and leaves.
        ensures read { IsReadOf self.old self.new (length buf.old) result }
    {
        let call = self.calls;
        self.calls = call.saturating_add(1);
        if self.fails.contains(&call) {
            self.faults = self.faults.saturating_add(1);
            return Err(Failed);
        }
        let count = copy_front(self.rest, self.most, buf);
        self.rest = &self.rest[count..];
        self.last = count;
        self.has_ended = self.has_ended || (count == 0 && !buf.is_empty());
        Ok(count)
    }
}

/// Copies at most `most` bytes from the front of `from` to the front of `to`, and answers how many.
fn copy_front(from: &[u8], most: usize, to: &mut [u8]) -> usize
    ensures count { result ≡ min most (min (length to.old) (length from.now)) }
    ensures copied { take result to.new ≡ take result from.now }
    ensures whole { result ≡ length (take result to.new) }
{
    let count = most.min(to.len().min(from.len()));
    to[..count].copy_from_slice(&from[..count]);
    count
}
