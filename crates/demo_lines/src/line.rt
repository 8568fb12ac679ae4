ghost use Rattle.std.specs.Prelude.{◌≡◌, ◌+◌, ◌≤◌, Some, Err, Ok, false, length, option_map, IfOk, IfSome, ok_or};
ghost use Rattle.edge_io.specs.Fields as fields;
ghost use Rattle.edge_io.specs.Numbers.{natural_up_to};
ghost use Rattle.arena_map.specs.MapLines.{IsWithinLimits};
ghost use Rattle.arena_map.specs.Words.{map_word};
ghost use Rattle.arena_map.specs.Reading.{is_word_of_play};
ghost use Rattle.demo_lines.specs.Lines as lines;
ghost use Rattle.demo_lines.specs.Words as words;
ghost use Rattle.packet_read.specs.declared.arrival.Arrival as specs;
ghost use Rattle.demo_lines.specs.Kinds.{line_of_kind, said_with};
ghost use Rattle.demo_lines.specs.Said as said;
ghost use Rattle.demo_lines.specs.Readings.{IsAllowedAt, IsOfMap};

use crate::line_fault::LineFault;
use crate::packet::put_packet;
use crate::stage::Stage;
use crate::word::Word;
use arena_map::{MapLine, MapWord, NO_FORM, read_map_line};
use edge_io::{LONGEST, cut, field_at, is_integer, natural};
use packet_read::Arrival;

// Contracts alone speak of it: in the code the packet is lent, and a line is a `LineKind`.
/// What one line of a recording says. It is a type beside [`Event`](crate::Event), since it has the lines of the map too,
/// which the reader keeps for itself: it tests them against the map so far, and adds them to it.
#[derive(Drop)]
pub enum Line {
    /// A line of the map.
    OfMap(MapLine),
    /// A frame begins.
    Frame,
    /// A packet reached the server in this frame.
    From(Arrival),
    /// The recording ends.
    End,
}

/// What one line says, where its packet is lent beside it.
#[derive(Drop)]
pub enum LineKind {
    /// A line of the map.
    OfMap(MapLine),
    /// A frame begins.
    Frame,
    /// The packet that is lent reached the server in this frame.
    From,
    /// The recording ends.
    End,
}

/// The text of a line: all of it, but for a carriage return that is its last byte.
fn text_of(raw: &[u8]) -> &[u8]
    ensures value { result.now ≡ lines.text_of raw.now }
    ensures short { length result.now ≤ length raw.now }
{
    raw.strip_suffix(b"\r".as_slice()).unwrap_or(raw)
}

/// Whether the line says that the recording ends.
pub fn is_end(raw: &[u8]) -> bool
    ensures { result ≡ lines.is_end raw.now }
{
    text_of(raw) == b"end".as_slice()
}

/// Whether each byte is one of ASCII that is printed, or a space.
fn are_printable(text: &[u8]) -> bool
    ensures { result ≡ lines.are_printable text.now }
{
    text.iter().all(|b| 32 <= *b && *b <= 126)
}

/// The answer of [`read_map_line`], where the line is allowed here or not: that comes after its form and before its
/// limits.
fn in_order(read: Result<MapLine, u8>, is_here: bool) -> Result<MapLine, LineFault>
    requires { IfOk read IsWithinLimits }
    ensures value { result ≡ said.in_order is_here read }
    ensures limits { IfOk result IsWithinLimits }
{
    match read {
        Err(NO_FORM) => Err(LineFault::Form),
        _ if !is_here => Err(LineFault::NotAllowed),
        // The first word is one of a map, so that its fault is `OUT_OF_LIMIT`: no other one is left.
        Err(_) => Err(LineFault::Limit),
        Ok(line) => Ok(line),
    }
}

/// The line of the map that begins with this word.
fn map_line_of(stage: Stage, word: MapWord, text: &[u8]) -> Result<MapLine, LineFault>
    requires word { map_word (fields.cut text.now).0 ≡ Some word }
    requires no_play { is_word_of_play (fields.cut text.now).0 ≡ false }
    ensures value { result ≡ said.map_line_said stage word (fields.cut text.now).1 }
    ensures limits { IfOk result IsWithinLimits }
    ensures here { IfOk result (IsOfMap stage) }
{
    in_order(read_map_line(text), Word::OfMap(word).is_allowed(stage))
}

/// The line of a word alone.
fn bare(stage: Stage, word: Word, line: LineKind, rest: &[u8]) -> Result<LineKind, LineFault>
    ensures { (a : specs.Arrival) → said_with a result ≡ said.bare_said stage word (line_of_kind line a) rest.now }
{
    if !rest.is_empty() {
        return Err(LineFault::Form);
    }
    if !word.is_allowed(stage) {
        return Err(LineFault::NotAllowed);
    }
    Ok(line)
}

/// The texts of a port and of a packet, where the first is a number of any size and nothing more is on the line.
fn from_fields(rest: &[u8]) -> Option<(&[u8], &[u8])>
    ensures value { option_map (λ f. (f.0.now, f.1.now)) result ≡ words.from_fields rest.now }
    ensures short { IfSome result (λ f. length f.1.now + 3 ≤ length rest.now) }
{
    let (port, rest) = field_at(rest)?;
    let (packet, rest) = field_at(rest)?;
    if is_integer(port) && rest.is_empty() {
        Some((port, packet))
    } else {
        None
    }
}

/// A port is 0 to 65,535.
fn port_of(text: &[u8]) -> Option<u16>
    ensures { result ≡ natural_up_to u16.MAX text.now }
{
    Some(natural(text, u64::from(u16::MAX))? as u16)
}

/// A packet with its port, which it puts into `arrival`.
fn from_of(stage: Stage, rest: &[u8], arrival: &mut Arrival) -> Result<LineKind, LineFault>
    requires { length rest.now + 4 ≤ LONGEST }
    ensures value { said_with arrival.new result ≡ said.from_said stage (words.from_fields rest.now) }
    ensures placed { (a : specs.Arrival) → IfOk (said_with a result) (IsAllowedAt stage) }
{
    let Some((port, packet)) = from_fields(rest) else {
        return Err(LineFault::Form);
    };
    if !Word::From.is_allowed(stage) {
        return Err(LineFault::NotAllowed);
    }
    arrival.port = port_of(port).ok_or(LineFault::Limit)?;
    if !put_packet(packet, &mut arrival.bytes) {
        return Err(LineFault::Packet);
    }
    Ok(LineKind::From)
}

/// What a line of at most [`LONGEST`] bytes says at this stage, without its line feed, or the first of its faults that
/// neither the map nor a count decides. Its packet, where it has one, is put into `arrival`.
pub fn line_at(stage: Stage, raw: &[u8], arrival: &mut Arrival) -> Result<LineKind, LineFault>
    requires { length raw.now ≤ LONGEST }
    ensures value { said_with arrival.new result ≡ said.line_said stage raw.now }
    ensures placed { (a : specs.Arrival) → IfOk (said_with a result) (IsAllowedAt stage) }
{
    let text = text_of(raw);
    if !are_printable(text) {
        return Err(LineFault::Byte);
    }
    let (word, rest) = cut(text);
    match Word::read(word).ok_or(LineFault::Word)? {
        Word::OfMap(word) => Ok(LineKind::OfMap(map_line_of(stage, word, text)?)),
        Word::Frame => bare(stage, Word::Frame, LineKind::Frame, rest),
        Word::From => from_of(stage, rest, arrival),
        Word::End => bare(stage, Word::End, LineKind::End, rest),
    }
}
