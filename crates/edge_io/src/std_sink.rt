ghost use Rattle.std.specs.Prelude.{◌≡◌, ◌<◌, ◌-◌, ◌^◌, ◌≤◌, None, Ok, IfOk, OnOk, OnErr, length};
ghost use Rattle.std.specs.Io.{WritesAtMost};
ghost use Rattle.std.specs.Io.KnownBytes.{WriteAppends};
ghost use Rattle.edge_io.specs.Counts.{CountsFaults, one_more};

use crate::failed::Failed;
use crate::sink::Sink;
use std::io::Write;
use std::marker::Model;

// It answers an empty piece itself, and has no flush: what is pending is in the printer above it, so wrap no writer
// that buffers.
/// A sink over a writer of the standard library. It doesn't know the bytes that were taken, and counts as a fault each
/// error of the writer, and each write that takes none of a piece that isn't empty.
#[derive(Drop)]
pub struct StdSink<W> {
    inner: W,
    errors: u64,
}

impl<W> Model for StdSink<W> {
    ghost use Rattle.std.specs.Prelude.{◌-◌, ◌^◌, ◌≤◌};
    ghost use Rattle.edge_io.specs.Adapters.{StdSinkView};

    ghost Value = { StdSinkView W };

    ghost view = { λ s. record { inner = s.inner; errors = s.errors } };

    ghost invariant = { λ s. s.errors ≤ 2 ^ 64 - 1 };
}

impl<W: Write> StdSink<W> {
    /// The writer as a sink, with no fault so far.
    pub fn new(inner: W) -> StdSink<W>
        ensures inner { result.inner ≡ inner }
        ensures errors { result.errors ≡ 0 }
    {
        StdSink { inner, errors: 0 }
    }
}

impl<W: Write> Sink for StdSink<W> {
    ghost taken = { λ _. None };

    ghost faults = { λ s. s.errors };

    ghost room = { λ _. 0 };

    fn write(&mut self, piece: &[u8]) -> Result<usize, Failed>
        // What every sink says, of one that doesn't know its bytes and may always fail.
        ensures bound { WritesAtMost result piece.now }
        ensures progress { IfOk result (λ n. 0 < length piece.now → 1 ≤ n) }
        ensures empty { length piece.now ≡ 0 → result ≡ Ok 0 }
        ensures bytes { WriteAppends None None result piece.now }
        ensures faults { CountsFaults self.old.errors self.new.errors result }
        ensures limit { self.new.errors ≤ 2 ^ 64 - 1 }

        // The writer took what is answered, where the writer knows its bytes.
        ensures passed { WriteAppends (W.contents self.old.inner) (W.contents self.new.inner) result piece.now }

        // Each `Failed` is counted once.
        ensures counted { OnErr result (self.new.errors ≡ one_more self.old.errors) }
    {
        let StdSink { inner, errors } = self;
        if piece.is_empty() {
            return Ok(0);
        }
        match inner.write(piece) {
            Ok(count) if count > 0 => Ok(count),
            _ => {
                *errors = errors.saturating_add(1);
                Err(Failed)
            }
        }
    }
}
