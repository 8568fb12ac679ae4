ghost use Rattle.std.specs.Prelude.{◌≡◌, true, false, IfOk, IfErr};
ghost use Rattle.demo_lines.specs.Reads.{fresh_within};
ghost use Rattle.transcript_check.specs.Recorded.{ReadsRecording, is_last};
ghost use Rattle.transcript_check.specs.Verdicts.{StopsChecking};

use demo_lines::{DemoReader, DemoStop, Event};
use edge_io::Source;
use packet_read::Arrival;
use std::alloc::{AllocError, Global};
use std::marker::Model;
use std::mem;

/// The frames that events close, each with its packets, and the packets of the frame that is open.
#[derive(Drop)]
pub struct Recorded {
    closed: Vec<Vec<Arrival>>,
    opened: Vec<Arrival>,
    is_open: bool,
}

impl Model for Recorded {
    ghost use Rattle.std.specs.Prelude.{Some, None, map, if◌then◌else◌};
    ghost use Rattle.out_text.specs.Collecting.{Frames};

    ghost Value = { Frames };

    ghost view = { λ r. record {
      closed = map (λ arrivals. arrivals.items) r.closed.items;
      opened = if r.is_open then Some r.opened.items else None;
    } };
}

impl Recorded {
    ghost use Rattle.std.specs.Prelude.{◌≡◌, ◌++◌, None, map, OnOk};
    ghost use Rattle.out_text.specs.Collecting.{no_frames, closed_frames, collect};

    /// Before the first event. It takes no memory.
    fn new(alloc: Global) -> Recorded
        ensures { result ≡ no_frames }
    {
        Recorded {
            closed: Vec::new(alloc),
            opened: Vec::new(alloc),
            is_open: false,
        }
    }

    /// Closes the frame that is open, if one is.
    fn close(&mut self, alloc: Global) -> Result<(), AllocError>
        ensures { OnOk result
            (self.new ≡ record { closed = self.old.closed ++ closed_frames self.old.opened; opened = None }) }
    {
        if self.is_open {
            let arrivals = mem::replace(&mut self.opened, Vec::new(alloc));
            self.closed.push(arrivals)?;
            self.is_open = false;
        }
        Ok(())
    }

    /// Opens a frame, after the one before it is closed.
    fn open(&mut self, alloc: Global) -> Result<(), AllocError>
        ensures { OnOk result (self.new ≡ collect self.old Event.Frame) }
    {
        self.close(alloc)?;
        self.opened.clear();
        self.is_open = true;
        Ok(())
    }

    /// Keeps a packet of the frame that is open.
    fn keep(&mut self, arrival: Arrival) -> Result<(), AllocError>
        ensures { OnOk result (self.new ≡ collect self.old (Event.From arrival)) }
    {
        if self.is_open {
            self.opened.push(arrival)?;
        }
        Ok(())
    }

    /// Takes an event. The only error is that memory is refused.
    fn take(&mut self, alloc: Global, event: Event) -> Result<(), AllocError>
        ensures { OnOk result (self.new ≡ collect self.old event) }
    {
        match event {
            Event::Frame => self.open(alloc),
            Event::From(arrival) => self.keep(arrival),
            Event::End => self.close(alloc),
        }
    }

    /// The frames that are closed, each with its packets.
    pub fn frames(&self) -> &[Vec<Arrival>]
        ensures { map (λ arrivals. arrivals.items) result.now ≡ self.now.closed }
    {
        self.closed.as_slice()
    }
}

/// Whether the event is the recording's end.
fn is_end(event: &Event) -> bool
    ensures { result ≡ is_last event.now }
{
    match event {
        Event::End => true,
        Event::Frame | Event::From(_) => false,
    }
}

/// Reads a recording to its line `end`, and keeps its frames.
pub fn read_recording<S: Source>(
    alloc: Global,
    reader: &mut DemoReader,
    source: &mut S,
) -> Result<Recorded, DemoStop>
    requires { reader.old ≡ fresh_within reader.old.reading.limit }
    ensures ok { IfOk result (λ recorded. ReadsRecording S.Source reader.old.reading.limit source.old source.new
        reader.new recorded) }
    ensures err { IfErr result (StopsChecking S.Source reader.old.reading.limit source.old source.new) }
{
    let mut recorded = Recorded::new(alloc);
    'events: loop {
        let event = reader.next(alloc, source)?;
        let is_last = is_end(&event);
        recorded.take(alloc, event)?;
        if is_last {
            return Ok(recorded);
        }
    }
}
