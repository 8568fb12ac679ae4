ghost use Rattle.std.specs.Prelude.{◌≡◌, ◌+◌, ◌*◌, ◌≤◌, [], ◌∷◌, ◌++◌, length, IfOk, OnOk, OnErr, IsOk};
ghost use Rattle.edge_io.specs.declared.line_buf.TheConstants.{ROOM};
ghost use Rattle.out_text.specs.Printers.{Prints, FailsIn};
ghost use Rattle.snapshot_write.specs.declared.reply_buf.TheConstants.{REPLY_ROOM};
ghost use Rattle.out_text.specs.OutLines.{ToLine, printed_line};
ghost use Rattle.out_text.specs.declared.pending.TheConstants.{MOST_PENDING};

use crate::printing::print_to;
use byte_lists::ByteBuf;
use edge_io::{Failed, Sink, write_whole};
use std::alloc::{AllocError, Global};
use std::marker::Model;

/// How many bytes wait to be written at most.
pub const MOST_PENDING: usize = 65_536;

/// Bytes that wait to be written: at most [`MOST_PENDING`], whose room is reserved from the start.
#[derive(Drop)]
pub struct Pending {
    bytes: ByteBuf<MOST_PENDING>,
}

impl Model for Pending {
    ghost use Rattle.std.specs.Prelude.{ℕ, List};

    ghost Value = { List ℕ };

    ghost view = { λ p. p.bytes };
}

impl Pending {
    /// No byte. The only error is that memory is refused.
    pub fn new(alloc: Global) -> Result<Pending, AllocError>
        ensures { IfOk result (λ pending. pending ≡ []) }
    {
        Ok(Pending {
            bytes: ByteBuf::new(alloc)?,
        })
    }

    /// Writes all bytes, and empties the buffer. At a fault they are gone.
    pub fn flush<K: Sink>(&mut self, sink: &mut K) -> Result<(), Failed>
        ensures ok { OnOk result (Prints K.taken K.faults K.room sink.old sink.new self.old [] []) }
        ensures err { OnErr result (FailsIn K.taken K.faults sink.old sink.new self.old) }
        ensures sure { length self.old ≤ K.room sink.old → IsOk result }
        ensures emptied { self.new ≡ [] }
    {
        let written = write_whole(sink, self.bytes.as_slice());
        self.bytes.clear();
        written
    }

    /// Makes room for so many bytes more: where they don't fit, what is pending is written out.
    fn make_room<K: Sink>(&mut self, count: usize, sink: &mut K) -> Result<(), Failed>
        requires { count ≤ MOST_PENDING }
        ensures ok { OnOk result (Prints K.taken K.faults K.room sink.old sink.new self.old self.new []) }
        ensures fits { OnOk result (length self.new + count ≤ MOST_PENDING) }
        ensures err { OnErr result (FailsIn K.taken K.faults sink.old sink.new self.old) }
        ensures sure { length self.old ≤ K.room sink.old → IsOk result }
        ensures emptied { OnErr result (self.new ≡ []) }
    {
        if self.bytes.len() + count <= MOST_PENDING {
            return Ok(());
        }
        self.flush(sink)
    }

    /// Puts a line and its line feed last, which fit.
    fn keep(&mut self, line: &[u8])
        requires { length self.old + (length line.now + 1) ≤ MOST_PENDING }
        ensures { self.new ≡ self.old ++ (line.now ++ 10 ∷ []) }
    {
        self.bytes.extend(line);
        let _fits = self.bytes.push(b'\n');
    }

    /// Puts a line and its line feed last. Where they don't fit, what is pending is written out first. It takes no
    /// memory.
    pub fn push_line<K: Sink>(&mut self, line: &[u8], sink: &mut K) -> Result<(), Failed>
        requires { length line.now ≤ ROOM }
        ensures ok { OnOk result
            (Prints K.taken K.faults K.room sink.old sink.new self.old self.new (line.now ++ 10 ∷ [])) }
        ensures err { OnErr result (FailsIn K.taken K.faults sink.old sink.new (self.old ++ (line.now ++ 10 ∷ []))) }
        ensures sure { length self.old + length (line.now ++ 10 ∷ []) ≤ K.room sink.old → IsOk result }
        ensures emptied { OnErr result (self.new ≡ []) }
    {
        self.make_room(line.len() + 1, sink)?;
        self.keep(line);
        Ok(())
    }

    /// Puts the line of a snapshot and its line feed last, which fit.
    fn keep_reply(&mut self, slot: u8, bytes: &[u8])
        requires { length self.old + (2 * length bytes.now + 15) ≤ MOST_PENDING }
        ensures { self.new ≡ self.old ++ printed_line (ToLine slot bytes.now) }
    {
        print_to(slot, bytes, &mut self.bytes);
        let _fits = self.bytes.push(b'\n');
    }

    // Most of the output is snapshots, so their lines are made where they are written from. Their length is known but for
    // the digits of the slot, for which there is room as for those of any number, 10.
    /// Puts the line of a snapshot and its line feed last. Where they might not fit, what is pending is written out first.
    /// It takes no memory.
    pub fn push_reply<K: Sink>(
        &mut self,
        slot: u8,
        bytes: &[u8],
        sink: &mut K,
    ) -> Result<(), Failed>
        requires { length bytes.now ≤ REPLY_ROOM }
        ensures ok { OnOk result
            (Prints K.taken K.faults K.room sink.old sink.new self.old self.new (printed_line (ToLine slot bytes.now))) }
        ensures err { OnErr result
            (FailsIn K.taken K.faults sink.old sink.new (self.old ++ printed_line (ToLine slot bytes.now))) }
        ensures sure { length self.old + length (printed_line (ToLine slot bytes.now)) ≤ K.room sink.old → IsOk result }
        ensures emptied { OnErr result (self.new ≡ []) }
    {
        self.make_room(2 * bytes.len() + 15, sink)?;
        self.keep_reply(slot, bytes);
        Ok(())
    }
}
