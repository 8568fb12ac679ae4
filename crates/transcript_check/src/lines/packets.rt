ghost use Rattle.std.specs.Prelude.{◌≡◌, ◌≤◌, true, [], length, Some, IfOk, IfErr, IfSome};
ghost use Rattle.std.specs.Bool.{OnTrue, OnFalse};
ghost use Rattle.std.specs.Option.{option_map};
ghost use Rattle.packet_read.specs.declared.arrival.Arrival as specs;
ghost use Rattle.packet_read.specs.declared.arrival.TheConstants.{MOST_BYTES};
ghost use Rattle.out_text.specs.Feeds.{from_line};
ghost use Rattle.out_text.specs.Printing.{line_of};
ghost use Rattle.out_text.specs.Ranges.{HasRoom};
ghost use Rattle.transcript_check.specs.Reading.{MayRead, without_held, IsRestLine, Misses, ReadFails, ReadsBeginning};
ghost use Rattle.transcript_check.specs.Packets.{IsPacketLine, TakesPacket, HasNoPacket, ArePackets, HasNoPackets, ReadsPackets};

use super::Lines;
use crate::packets::Packets;
use demo_lines::DemoStop;
use edge_io::{LONGEST, Source};
use out_text::{OutLine, read_line};
use packet_read::{Arrival, ArrivalBytes};
use snapshot_write::ReplyBuf;

/// A packet with these bytes.
fn arrival_of(port: u16, bytes: &[u8]) -> Arrival
    requires { length bytes.now ≤ MOST_BYTES }
    ensures { result ≡ record { port = port; bytes = bytes.now } }
{
    let mut own = ArrivalBytes::new();
    own.extend(bytes);
    Arrival { port, bytes: own }
}

/// The packet of a line of the output, if it is that of one.
fn packet_of(line: Option<OutLine>) -> Option<Arrival>
    requires { IfSome (option_map line_of line) HasRoom }
    ensures some { IfSome result (λ a. option_map line_of line.entry ≡ Some (from_line a)) }
    ensures only { (a : specs.Arrival) → option_map line_of line.entry ≡ Some (from_line a) → result ≡ Some a }
{
    match line {
        Some(OutLine::From { port, bytes }) => Some(arrival_of(port, bytes)),
        _ => None,
    }
}

/// The packet that a line has, if it has one and a line of a recording has room for it.
fn packet_in(line: &[u8], bytes: &mut ReplyBuf) -> Option<Arrival>
    requires { bytes.old ≡ [] }
    ensures some { IfSome result (IsPacketLine line.now) }
    ensures only { (a : specs.Arrival) → IsPacketLine line.now a → result ≡ Some a }
{
    if line.len() > LONGEST {
        return None;
    }
    packet_of(read_line(line, bytes))
}

impl Lines {
    /// Takes the line that is held, and puts its packet last. It is false where the line has none, or there are as many as
    /// a frame may have.
    fn take_packet(&mut self, packets: &mut Packets) -> bool
        requires { self.old.input.held ≡ true }
        ensures taken { OnTrue result (TakesPacket self.old.input.given packets.old packets.new) }
        ensures none { OnFalse result (HasNoPacket self.old.input.given packets.old) }
        ensures input { self.new.input ≡ without_held self.old.input }
        ensures line { IsRestLine self.old.input.given }
    {
        self.input.accept();
        self.bytes.clear();
        match packet_in(self.input.line(), &mut self.bytes) {
            Some(packet) => packets.push(packet),
            None => false,
        }
    }

    /// Reads the packets of a frame, up to the first line that doesn't begin with `from `, which is held. It is false where
    /// a line that does has no packet, or there are more than a frame may have, or no line follows.
    pub fn read_packets<S: Source>(
        &mut self,
        packets: &mut Packets,
        source: &mut S,
    ) -> Result<bool, DemoStop>
        requires may { MayRead S.Source self.old.input source.old }
        ensures ok { IfOk result (λ is. OnTrue is
            (ReadsPackets S.Source source.old source.new self.old.input self.new.input packets.new)) }
        ensures missed { IfOk result (λ is. OnFalse is
            (Misses S.Source source.old source.new self.old.input HasNoPackets)) }
        ensures looked { IfOk result (λ is. OnFalse is
            (ReadsBeginning S.Source ArePackets source.old source.new self.old.input self.new.input)) }
        ensures err { IfErr result (ReadFails S.Source source.old source.new self.old.input) }
    {
        packets.clear();
        'packets: loop {
            if !self.input.look(source)? {
                return Ok(false);
            }
            if !self.input.is_from() {
                return Ok(true);
            }
            if !self.take_packet(packets) {
                return Ok(false);
            }
        }
    }
}
