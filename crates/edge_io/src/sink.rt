ghost use Rattle.std.specs.Prelude.{◌≡◌, ℕ, ◌+◌, ◌-◌, ◌^◌, ◌<◌, ◌≤◌, List, Option, Ok, IsOk, IfOk, OnOk, OnErr, length};
ghost use Rattle.std.specs.Io.{WritesAtMost};
ghost use Rattle.std.specs.Io.KnownBytes.{WriteAppends};
ghost use Rattle.edge_io.specs.Counts.{CountsFaults};

use crate::failed::Failed;

// `room` is a number, since a caller knows how many bytes it will write. A count of faults that rises at `Ok` is
// excluded, so a body that hides a fault breaks a clause.
/// Where bytes go.
pub trait Sink {
    // The bytes that the sink has taken, where it knows them.
    ghost taken: { Self → Option (List ℕ) };

    // How many faults there were so far. The count never falls, and stops at 2^64 - 1.
    ghost faults: { Self → ℕ };

    // At least so many more bytes are taken without a fault.
    ghost room: { Self → ℕ };

    /// Takes bytes from the front of `piece`, and answers how many: at least one of a `piece` that isn't empty. An
    /// empty `piece` gives `Ok(0)` and no fault.
    ///
    /// [`Failed`] comes only where the count of faults rose in this call, and then nothing was taken. A write that
    /// succeeds leaves the count as it was.
    fn write(&mut self, piece: &[u8]) -> Result<usize, Failed>
        ensures bound { WritesAtMost result piece.now }
        ensures progress { IfOk result (λ n. 0 < length piece.now → 1 ≤ n) }
        ensures empty { length piece.now ≡ 0 → result ≡ Ok 0 }
        ensures bytes { WriteAppends (taken self.old) (taken self.new) result piece.now }

        ensures faults { CountsFaults (faults self.old) (faults self.new) result }
        ensures limit { faults self.new ≤ 2 ^ 64 - 1 }
        ensures sure { 0 < room self.old → IsOk result }
        ensures room { IfOk result (λ n. room self.old ≤ room self.new + n) };
}
