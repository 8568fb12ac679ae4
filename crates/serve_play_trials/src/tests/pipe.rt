ghost use Rattle.std.specs.Prelude.{None};

use arena_engine::serve;
use edge_io::{Failed, Sink, Source};
use shared_moves::NoGate;
use std::alloc::AllocGlobal;
use std::cell::Cell;
use std::process::Abort;
use std::sync::Wait;
use std::thread::Threads;

/// A pipe that stays open. It gives a block at each read, and notes where it is read too early or too often.
#[derive(Drop)]
struct Pipe<'a> {
    /// Each block, and how many bytes are written when it is asked for.
    blocks: &'a [(&'a str, usize)],
    next: usize,
    written: &'a Cell<usize>,
    /// A block was asked for before the text of the frames so far was written, or not right after it.
    is_early: bool,
    /// More was asked for than there is, so a pipe would keep the program waiting.
    is_overread: bool,
    last: usize,
    has_ended: bool,
}

impl Source for Pipe<'_> {
    ghost left = { λ _. None };

    ghost faults = { λ _. 0 };

    ghost last = { λ p. p.last };

    ghost ended = { λ p. p.has_ended };

    ghost never_fails = { λ _. ⊥ };

    fn read(&mut self, buf: &mut [u8]) -> Result<usize, Failed> {
        if self.has_ended {
            self.last = 0;
            return Ok(0);
        }
        let (block, due) = match self.blocks.get(self.next) {
            Some(row) => *row,
            None => ("", self.written.get()),
        };
        self.is_overread = self.is_overread || block.is_empty();
        self.is_early = self.is_early || self.written.get() != due;
        self.next = self.next.saturating_add(1);
        let count = block.len().min(buf.len());
        buf[..count].copy_from_slice(&block.as_bytes()[..count]);
        self.last = count;
        self.has_ended = count == 0 && !buf.is_empty();
        Ok(count)
    }
}

/// Takes all, and counts it.
#[derive(Drop)]
struct Meter<'a> {
    written: &'a Cell<usize>,
}

impl Sink for Meter<'_> {
    ghost taken = { λ _. None };

    ghost faults = { λ _. 0 };

    ghost room = { λ _. 0 };

    fn write(&mut self, piece: &[u8]) -> Result<usize, Failed> {
        self.written
            .set(self.written.get().wrapping_add(piece.len()));
        Ok(piece.len())
    }
}

const HEAD: &str =
    "arena -131072 -131072 0 131072 131072 65536\nspawn 0 0 6144\nframe\nfrom 7 0101\n";

/// The first frame's text has 111 bytes, that of each later one 100.
const TO_THE_END: [(&str, usize); 5] = [
    (HEAD, 0),
    ("frame\n", 0),
    ("fra", 111),
    ("me\n", 111),
    ("end\n", 211),
];

const TO_A_REFUSAL: [(&str, usize); 3] = [(HEAD, 0), ("frame\n", 0), ("frob\n", 111)];

/// Plays what comes through a pipe of these blocks: it is read in time, and so many bytes are written.
fn expect_in_time(
    rt: &(impl AllocGlobal + Abort + Threads + Wait + Sync),
    blocks: &[(&str, usize)],
    status: u8,
    total: usize,
) {
    let written = Cell::new(0);
    let mut pipe = Pipe {
        blocks,
        next: 0,
        written: &written,
        is_early: false,
        is_overread: false,
        last: 0,
        has_ended: false,
    };
    let mut meter = Meter { written: &written };
    let words = ["play", "1"];
    let report = serve(rt, rt.alloc(), &words, &mut pipe, &mut meter, &NoGate);
    assert_eq!(rt; report.status, status);
    assert!(rt; !pipe.is_early);
    assert!(rt; !pipe.is_overread);
    assert_eq!(rt; written.get(), total);
}

#[test]
fn each_frame_is_written_before_more_is_read(rt: HostRuntime) {
    expect_in_time(&rt, &TO_THE_END, 0, 317);
    expect_in_time(&rt, &TO_A_REFUSAL, 1, 111);
}
