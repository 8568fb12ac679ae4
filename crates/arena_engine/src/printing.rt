ghost use Rattle.std.specs.Prelude.{◌≡◌, ◌+◌, ◌≤◌, [], ◌∷◌, ◌++◌, length, OnOk, OnErr, IsOk};
ghost use Rattle.out_text.specs.OutLines.{EndLine, text_of};
ghost use Rattle.out_text.specs.Printers.{Prints, FailsIn};
ghost use Rattle.playback.specs.Playbacks.{entries_if, ArePrintable};
ghost use Rattle.arena_engine.specs.Games.{closed_lines, lines_if, due_lines};

use edge_io::{Failed, Sink};
use feed_queue::ArrivalOrder;
use frame_phases::FrameOut;
use move_journal::Journal;
use out_text::{OutLine, Printer};
use packet_read::Arrival;
use playback::Playback;

/// Prints the lines of the frame that was closed with this journal, if one was, and those of its packets where these
/// have an order of arrival.
fn print_closed<K: Sink>(
    closed: &Option<Journal>,
    order: &Option<ArrivalOrder>,
    packets: &[Arrival],
    out: &FrameOut,
    printer: &mut Printer,
    sink: &mut K,
) -> Result<(), Failed>
    requires { ArePrintable out.now }
    ensures ok { OnOk result (Prints K.taken K.faults K.room sink.old sink.new printer.old printer.new
        (text_of (closed_lines order.now (entries_if closed.now) packets.now out.now))) }
    ensures err { OnErr result (FailsIn K.taken K.faults sink.old sink.new
        (printer.old ++ text_of (closed_lines order.now (entries_if closed.now) packets.now out.now))) }
    ensures sure { length printer.old
        + length (text_of (closed_lines order.now (entries_if closed.now) packets.now out.now)) ≤ K.room sink.old
        → IsOk result }
    ensures emptied { OnErr result (printer.new ≡ []) }
{
    let Some(journal) = closed else {
        return Ok(());
    };
    let slots = out.slots.as_slice();
    let replies = out.replies.as_slice();
    let entries = journal.as_slice();
    match order {
        None => printer.print_frame(out.frame, &out.received, entries, slots, replies, sink),
        Some(_) => printer.print_fed_frame(
            out.frame,
            packets,
            &out.received,
            entries,
            slots,
            replies,
            sink,
        ),
    }
}

/// Prints the last line, after so many frames, where it is due.
fn print_end<K: Sink>(
    is_due: bool,
    frames: u32,
    printer: &mut Printer,
    sink: &mut K,
) -> Result<(), Failed>
    ensures ok { OnOk result (Prints K.taken K.faults K.room sink.old sink.new printer.old printer.new
        (text_of (lines_if is_due (EndLine frames ∷ [])))) }
    ensures err { OnErr result (FailsIn K.taken K.faults sink.old sink.new
        (printer.old ++ text_of (lines_if is_due (EndLine frames ∷ [])))) }
    ensures sure { length printer.old + length (text_of (lines_if is_due (EndLine frames ∷ []))) ≤ K.room sink.old
        → IsOk result }
    ensures emptied { OnErr result (printer.new ≡ []) }
{
    if is_due {
        return printer.print(&OutLine::End(frames), sink);
    }
    Ok(())
}

/// Prints the lines of the frame that was closed with this journal, if one was, with those of its packets where these
/// have an order of arrival, and the last line at the end, and writes all of them. It takes no memory.
pub fn print_event<K: Sink>(
    closed: &Option<Journal>,
    order: &Option<ArrivalOrder>,
    is_end: bool,
    playback: &Playback,
    printer: &mut Printer,
    sink: &mut K,
) -> Result<(), Failed>
    ensures ok { OnOk result (Prints K.taken K.faults K.room sink.old sink.new printer.old []
        (text_of (due_lines is_end order.now (entries_if closed.now) playback.now))) }
    ensures err { OnErr result (FailsIn K.taken K.faults sink.old sink.new
        (printer.old ++ text_of (due_lines is_end order.now (entries_if closed.now) playback.now))) }
    ensures sure { length printer.old
        + length (text_of (due_lines is_end order.now (entries_if closed.now) playback.now)) ≤ K.room sink.old
        → IsOk result }
    ensures emptied { printer.new ≡ [] }
{
    print_closed(
        closed,
        order,
        playback.closed(),
        playback.out(),
        printer,
        sink,
    )?;
    print_end(is_end, playback.frames(), printer, sink)?;
    printer.flush(sink)
}
