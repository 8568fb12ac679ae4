ghost use Rattle.std.specs.Prelude.{◌≡◌, ◌+◌, ◌≤◌, [], ◌++◌, length, map, All, IfOk, OnOk, OnErr, IsOk};
ghost use Rattle.out_text.specs.OutLines.{ToLine, printed_line, text_of};
ghost use Rattle.snapshot_write.specs.declared.reply_buf.TheConstants.{REPLY_ROOM};
ghost use Rattle.out_text.specs.FrameLines.{reply_lines, answer_lines, given_lines};
ghost use Rattle.out_text.specs.Feeds.{with_froms};
ghost use Rattle.out_text.specs.Printing.{line_of};
ghost use Rattle.out_text.specs.Printers.{Prints, FailsIn};
ghost use Rattle.out_text.specs.Ranges.{HasRoom};

use crate::out_line::{OutLine, Printed};
use crate::pending::Pending;
use crate::printing::print_line;
use client_ports::Received;
use edge_io::{Failed, LineBuf, Sink};
use entity_recs::Entry;
use packet_read::Arrival;
use snapshot_write::ReplyBuf;
use std::alloc::{AllocError, Global};
use std::marker::Model;

/// Prints lines to a sink through a buffer, which is written out where the next line doesn't fit. It has its memory
/// from the start, and takes none for a line.
#[derive(Drop)]
pub struct Printer {
    line: LineBuf,
    pending: Pending,
}

// Clauses see the bytes that are pending.
impl Model for Printer {
    ghost use Rattle.std.specs.Prelude.{ℕ, List};

    ghost Value = { List ℕ };

    ghost view = { λ p. p.pending };
}

impl Printer {
    /// Nothing is pending. The only error is that memory is refused.
    pub fn new(alloc: Global) -> Result<Printer, AllocError>
        ensures { IfOk result (λ printer. printer ≡ []) }
    {
        Ok(Printer {
            line: LineBuf::new(alloc)?,
            pending: Pending::new(alloc)?,
        })
    }

    /// Writes all that is pending. At a fault what wasn't written is gone.
    pub fn flush<K: Sink>(&mut self, sink: &mut K) -> Result<(), Failed>
        ensures ok { OnOk result (Prints K.taken K.faults K.room sink.old sink.new self.old [] []) }
        ensures err { OnErr result (FailsIn K.taken K.faults sink.old sink.new self.old) }
        ensures sure { length self.old ≤ K.room sink.old → IsOk result }
        ensures emptied { self.new ≡ [] }
    {
        self.pending.flush(sink)
    }

    /// Prints a line and its line feed. The snapshot of a `to` line has at least one byte, and fits a reply. At a fault
    /// what wasn't written is gone.
    pub fn print<K: Sink>(&mut self, line: &OutLine, sink: &mut K) -> Result<(), Failed>
        requires { HasRoom (line_of line.now) }
        ensures ok { OnOk result
            (Prints K.taken K.faults K.room sink.old sink.new self.old self.new (printed_line (line_of line.now))) }
        ensures err { OnErr result
            (FailsIn K.taken K.faults sink.old sink.new (self.old ++ printed_line (line_of line.now))) }
        ensures sure { length self.old + length (printed_line (line_of line.now)) ≤ K.room sink.old → IsOk result }
        ensures emptied { OnErr result (self.new ≡ []) }
    {
        self.line.clear();
        print_line(line, &mut self.line);
        self.pending.push_line(self.line.as_slice(), sink)
    }

    /// Prints the lines of these, one each.
    fn print_each<T: Printed, K: Sink>(&mut self, items: &[T], sink: &mut K) -> Result<(), Failed>
        ensures ok { OnOk result
            (Prints K.taken K.faults K.room sink.old sink.new self.old self.new (text_of (map T.line items.now))) }
        ensures err { OnErr result
            (FailsIn K.taken K.faults sink.old sink.new (self.old ++ text_of (map T.line items.now))) }
        ensures sure { length self.old + length (text_of (map T.line items.now)) ≤ K.room sink.old → IsOk result }
        ensures emptied { OnErr result (self.new ≡ []) }
    {
        for item in items {
            self.print(&item.line(), sink)?;
        }
        Ok(())
    }

    /// Prints the line of the reply to this slot.
    fn print_reply<K: Sink>(&mut self, slot: u8, bytes: &[u8], sink: &mut K) -> Result<(), Failed>
        requires { length bytes.now ≤ REPLY_ROOM }
        ensures ok { OnOk result
            (Prints K.taken K.faults K.room sink.old sink.new self.old self.new (printed_line (ToLine slot bytes.now))) }
        ensures err { OnErr result
            (FailsIn K.taken K.faults sink.old sink.new (self.old ++ printed_line (ToLine slot bytes.now))) }
        ensures sure { length self.old + length (printed_line (ToLine slot bytes.now)) ≤ K.room sink.old → IsOk result }
        ensures emptied { OnErr result (self.new ≡ []) }
    {
        self.pending.push_reply(slot, bytes, sink)
    }

    /// Prints the line of the reply to each of these slots.
    fn print_replies<K: Sink>(
        &mut self,
        slots: &[u8],
        replies: &[ReplyBuf],
        sink: &mut K,
    ) -> Result<(), Failed>
        requires one_each { length slots.now ≡ length replies.now }
        requires some { All (λ bytes. 1 ≤ length bytes) replies.now }
        ensures ok { OnOk result (Prints K.taken K.faults K.room sink.old sink.new self.old self.new
            (text_of (reply_lines slots.now replies.now))) }
        ensures err { OnErr result (FailsIn K.taken K.faults sink.old sink.new
            (self.old ++ text_of (reply_lines slots.now replies.now))) }
        ensures sure { length self.old + length (text_of (reply_lines slots.now replies.now)) ≤ K.room sink.old
            → IsOk result }
        ensures emptied { OnErr result (self.new ≡ []) }
    {
        for (i, slot) in slots.iter().enumerate() {
            let bytes = replies[i].as_slice();
            self.print_reply(*slot, bytes, sink)?;
        }
        Ok(())
    }

    /// Prints the lines of a frame after the first, from what it gave out: its refusals, its joins, its journal, and the
    /// reply to each live slot.
    fn print_answers<K: Sink>(
        &mut self,
        received: &Received,
        journal: &[Entry],
        slots: &[u8],
        replies: &[ReplyBuf],
        sink: &mut K,
    ) -> Result<(), Failed>
        requires one_each { length slots.now ≡ length replies.now }
        requires some { All (λ bytes. 1 ≤ length bytes) replies.now }
        ensures ok { OnOk result (Prints K.taken K.faults K.room sink.old sink.new self.old self.new
            (text_of (answer_lines received.now.lists journal.now slots.now replies.now))) }
        ensures err { OnErr result (FailsIn K.taken K.faults sink.old sink.new
            (self.old ++ text_of (answer_lines received.now.lists journal.now slots.now replies.now))) }
        ensures sure { length self.old
            + length (text_of (answer_lines received.now.lists journal.now slots.now replies.now)) ≤ K.room sink.old
            → IsOk result }
        ensures emptied { OnErr result (self.new ≡ []) }
    {
        self.print_each(received.refused(), sink)?;
        self.print_each(received.joined(), sink)?;
        self.print_each(journal, sink)?;
        self.print_replies(slots, replies, sink)
    }

    /// Prints the lines of a frame, from what it gave out: its refusals, its joins, its journal, and the reply to each
    /// live slot. There are as many replies as slots, and each has at least one byte. At a fault what wasn't written is
    /// gone.
    pub fn print_frame<K: Sink>(
        &mut self,
        frame: u32,
        received: &Received,
        journal: &[Entry],
        slots: &[u8],
        replies: &[ReplyBuf],
        sink: &mut K,
    ) -> Result<(), Failed>
        requires one_each { length slots.now ≡ length replies.now }
        requires some { All (λ bytes. 1 ≤ length bytes) replies.now }
        ensures ok { OnOk result (Prints K.taken K.faults K.room sink.old sink.new self.old self.new
            (text_of (given_lines frame received.now.lists journal.now slots.now replies.now))) }
        ensures err { OnErr result (FailsIn K.taken K.faults sink.old sink.new
            (self.old ++ text_of (given_lines frame received.now.lists journal.now slots.now replies.now))) }
        ensures sure { length self.old
            + length (text_of (given_lines frame received.now.lists journal.now slots.now replies.now)) ≤ K.room
            sink.old
            → IsOk result }
        ensures emptied { OnErr result (self.new ≡ []) }
    {
        self.print_fed_frame(frame, &[], received, journal, slots, replies, sink)
    }

    /// Prints the lines of a frame as [`Printer::print_frame`] does, with those of its packets after the first, in this
    /// order.
    pub fn print_fed_frame<K: Sink>(
        &mut self,
        frame: u32,
        arrivals: &[Arrival],
        received: &Received,
        journal: &[Entry],
        slots: &[u8],
        replies: &[ReplyBuf],
        sink: &mut K,
    ) -> Result<(), Failed>
        requires one_each { length slots.now ≡ length replies.now }
        requires some { All (λ bytes. 1 ≤ length bytes) replies.now }
        ensures ok { OnOk result (Prints K.taken K.faults K.room sink.old sink.new self.old self.new
            (text_of (with_froms arrivals.now
            (given_lines frame received.now.lists journal.now slots.now replies.now)))) }
        ensures err { OnErr result (FailsIn K.taken K.faults sink.old sink.new
            (self.old ++ text_of (with_froms arrivals.now
            (given_lines frame received.now.lists journal.now slots.now replies.now)))) }
        ensures sure { length self.old
            + length (text_of (with_froms arrivals.now
            (given_lines frame received.now.lists journal.now slots.now replies.now))) ≤ K.room sink.old
            → IsOk result }
        ensures emptied { OnErr result (self.new ≡ []) }
    {
        self.print(&OutLine::Frame(frame), sink)?;
        self.print_each(arrivals, sink)?;
        self.print_answers(received, journal, slots, replies, sink)
    }
}
