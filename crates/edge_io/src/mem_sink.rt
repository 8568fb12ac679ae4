ghost use Rattle.std.specs.Prelude.{◌≡◌, ◌<◌, ◌+◌, ◌-◌, ◌^◌, ◌≤◌, ◌↔◌, [], Some, Ok, IsOk, IsErr, IfOk, OnOk};
ghost use Rattle.std.specs.Prelude.{OnErr, length, take};
ghost use Rattle.std.specs.Io.{WritesAtMost};
ghost use Rattle.std.specs.Io.KnownBytes.{WriteAppends};
ghost use Rattle.edge_io.specs.Counts.{CountsFaults};
ghost use Rattle.edge_io.specs.Memory.{room_left, IsWriteOf};

use crate::failed::Failed;
use crate::sink::Sink;
use std::alloc::{AllocError, Global};
use std::marker::Model;

/// A sink that keeps in memory what it takes, in writes of a bounded size, until its room is used up.
#[derive(Drop)]
pub struct MemSink {
    bytes: Vec<u8>,
    room: usize,
    most: usize,
    faults: u64,
}

impl Model for MemSink {
    ghost use Rattle.std.specs.Prelude.{◌≤◌, vec_len, vec_capacity};
    ghost use Rattle.edge_io.specs.Memory.{MemSinkView};

    ghost Value = { MemSinkView };

    ghost view = { λ s. record { taken = s.bytes.items; room = s.room; most = s.most; faults = s.faults } };

    ghost invariant = { λ s. (1 ≤ s.most) × (vec_len s.bytes ≤ s.room) × (s.room ≤ vec_capacity s.bytes) };
}

impl MemSink {
    /// A sink that has taken nothing, has room for `room` bytes and takes at most `most` of them in a write.
    pub fn new(alloc: Global, room: usize, most: usize) -> Result<MemSink, AllocError>
        requires { 1 ≤ most }
        ensures taken { IfOk result (λ sink. sink.taken ≡ []) }
        ensures room { IfOk result (λ sink. sink.room ≡ room) }
        ensures most { IfOk result (λ sink. sink.most ≡ most) }
        ensures faults { IfOk result (λ sink. sink.faults ≡ 0) }
    {
        Ok(MemSink {
            bytes: Vec::with_capacity(alloc, room)?,
            room,
            most,
            faults: 0,
        })
    }

    /// What was taken.
    pub fn bytes(&self) -> &[u8]
        ensures bytes { result.now ≡ self.now.taken }
        ensures within { length self.now.taken ≤ self.now.room }
    {
        self.bytes.as_slice()
    }
}

impl Sink for MemSink {
    ghost taken = { λ s. Some s.taken };

    ghost faults = { λ s. s.faults };

    ghost room = { room_left };

    fn write(&mut self, piece: &[u8]) -> Result<usize, Failed>
        // What every sink says.
        ensures bound { WritesAtMost result piece.now }
        ensures progress { IfOk result (λ n. 0 < length piece.now → 1 ≤ n) }
        ensures empty { length piece.now ≡ 0 → result ≡ Ok 0 }
        ensures bytes { WriteAppends (Some self.old.taken) (Some self.new.taken) result piece.now }
        ensures faults { CountsFaults self.old.faults self.new.faults result }
        ensures limit { self.new.faults ≤ 2 ^ 64 - 1 }
        ensures sure { 0 < room_left self.old → IsOk result }
        ensures room { IfOk result (λ n. room_left self.old ≤ room_left self.new + n) }

        // Where a write fails, and what each takes and leaves.
        ensures write { IsWriteOf self.old self.new piece.now result }
    {
        let free = self.room - self.bytes.len();
        if free == 0 && !piece.is_empty() {
            self.faults = self.faults.saturating_add(1);
            return Err(Failed);
        }
        let count = self.most.min(free.min(piece.len()));
        // The room was reserved, so this takes no memory and cannot fail.
        let _ = self.bytes.extend_from_slice(&piece[..count]);
        Ok(count)
    }
}
