ghost use Rattle.std.specs.Prelude.{◌≡◌, ◌<◌, ◌==◌, [], ◌∷◌, find, position, length, bytes_eq, option_map, None, Some};
ghost use Rattle.std.specs.Prelude.{IfSome, if◌then◌else◌};
ghost use Rattle.std.specs.List.{list_all};
ghost use Rattle.out_text.specs.OutLines as lines;
ghost use Rattle.out_text.specs.OutLines.{name_of};
ghost use Rattle.out_text.specs.Ranges.{IsPrinted};
ghost use Rattle.out_text.specs.Journals as journals;
ghost use Rattle.out_text.specs.Reading as reading;
ghost use Rattle.out_text.specs.Printing.{line_of};

use crate::names::refusal_name;
use crate::number::{MOST, coordinate_at, number_at};
use crate::out_line::OutLine;
use arena_geo::Vec3;
use client_ports::Refusal;
use edge_io::{cut, field_at, natural};
use entity_recs::IdList;
use packet_read::{MOST_BYTES, PacketFault};
use snapshot_write::{REPLY_ROOM, ReplyBuf};

/// How many digits the longest snapshot takes.
const MOST_DIGITS: usize = 2 * REPLY_ROOM;

/// The refusals, each once.
const REFUSALS: [Refusal; 15] = [
    Refusal::Packet(PacketFault::Empty),
    Refusal::Packet(PacketFault::Version),
    Refusal::Packet(PacketFault::Kind),
    Refusal::Packet(PacketFault::Short),
    Refusal::Packet(PacketFault::Long),
    Refusal::Packet(PacketFault::Time),
    Refusal::Packet(PacketFault::Buttons),
    Refusal::Packet(PacketFault::Count),
    Refusal::Already,
    Refusal::Full,
    Refusal::Crowded,
    Refusal::NotJoined,
    Refusal::Leaving,
    Refusal::Old,
    Refusal::Many,
];

/// The one of these with this name.
fn refusal_named(refusals: &[Refusal], name: &[u8]) -> Option<Refusal>
    ensures { result ≡ find (λ why. bytes_eq (name_of why) name.now) refusals.now }
{
    for why in refusals {
        if refusal_name(*why).as_bytes() == name {
            return Some(*why);
        }
    }
    None
}

/// The refusal with this name.
fn refusal_of(name: &[u8]) -> Option<Refusal>
    ensures { result ≡ reading.refusal_of name.now }
{
    refusal_named(&REFUSALS, name)
}

/// The line, where nothing more is on it.
fn line_at_end<'a>(line: OutLine<'a>, rest: &[u8]) -> Option<OutLine<'a>>
    ensures { option_map line_of result ≡ journals.value_at_end (line_of line.entry) rest.now }
{
    if rest.is_empty() { Some(line) } else { None }
}

/// The line that opens a frame.
fn frame_in(rest: &[u8]) -> Option<OutLine<'static>>
    ensures { option_map line_of result ≡ reading.frame_in rest.now }
{
    let (frame, rest) = number_at(rest, MOST)?;
    line_at_end(OutLine::Frame(frame as u32), rest)
}

/// The line of a refused packet.
fn no_in(rest: &[u8]) -> Option<OutLine<'static>>
    ensures { option_map line_of result ≡ reading.no_in rest.now }
{
    let (place, rest) = number_at(rest, MOST)?;
    let (name, rest) = field_at(rest)?;
    let why = refusal_of(name)?;
    line_at_end(
        OutLine::No {
            place: place as u32,
            why,
        },
        rest,
    )
}

/// The line of a player that joined.
fn joined_in(rest: &[u8]) -> Option<OutLine<'static>>
    ensures { option_map line_of result ≡ reading.joined_in rest.now }
{
    let (port, rest) = number_at(rest, 65_535)?;
    let (slot, rest) = number_at(rest, 255)?;
    line_at_end(
        OutLine::Joined {
            port: port as u16,
            slot: slot as u8,
        },
        rest,
    )
}

/// The place of the first comma.
fn first_comma(text: &[u8]) -> Option<usize>
    ensures { result ≡ position (λ b. b == 44) text.now }
{
    text.iter().position(|b| *b == b',')
}

/// What is before the first comma and what is after it, if there is one.
fn at_comma(text: &[u8]) -> Option<(&[u8], &[u8])>
    ensures some { IfSome result (λ p. reading.parts_of text.now ≡ p.0.now ∷ reading.parts_of p.1.now) }
    ensures shorter { IfSome result (λ p. length p.1.now < length text.now) }
    ensures none { result ≡ None → reading.parts_of text.now ≡ text.now ∷ [] }
{
    let comma = first_comma(text)?;
    Some((&text[..comma], &text[comma + 1..]))
}

/// Numbers with a comma between any two, if there are at most 8.
fn listed_in(text: &[u8]) -> Option<IdList>
    ensures { result ≡ reading.few_ids (reading.listed_in text.now) }
{
    let mut ids = IdList::new();
    let mut rest = text;
    while let Some((part, after)) = at_comma(rest) {
        let id = natural(part, 65_535)?;
        if !ids.push(id as u16) {
            return None;
        }
        rest = after;
    }
    let last = natural(rest, 65_535)?;
    if !ids.push(last as u16) {
        return None;
    }
    Some(ids)
}

/// The ids of a field, if there are at most 8: a dash for none, or numbers with a comma between any two.
fn ids_in(field: &[u8]) -> Option<IdList>
    ensures { result ≡ reading.few_ids (journals.ids_in field.now) }
{
    if field == b"-".as_slice() {
        Some(IdList::new())
    } else {
        listed_in(field)
    }
}

/// Three coordinates, and the rest.
fn origin_at(rest: &[u8]) -> Option<(Vec3, &[u8])>
    ensures { option_map (λ o. (o.0, o.1.now)) result ≡ reading.origin_at rest.now }
{
    let (x, rest) = coordinate_at(rest)?;
    let (y, rest) = coordinate_at(rest)?;
    let (z, rest) = coordinate_at(rest)?;
    Some((Vec3 { x, y, z }, rest))
}

/// The line of a move that was done.
fn did_in(rest: &[u8]) -> Option<OutLine<'static>>
    ensures { option_map line_of result ≡ reading.did_line_in rest.now }
{
    let (slot, rest) = number_at(rest, 255)?;
    let (seq, rest) = number_at(rest, MOST)?;
    let (origin, rest) = origin_at(rest)?;
    let (field, rest) = field_at(rest)?;
    let got = ids_in(field)?;
    line_at_end(
        OutLine::Did {
            slot: slot as u8,
            seq: seq as u32,
            origin,
            got,
        },
        rest,
    )
}

/// Whether a byte is a hexadecimal digit in lower case.
fn is_lower_digit(b: u8) -> bool
    ensures { result ≡ reading.is_lower_digit b }
{
    matches!(b, b'0'..=b'9' | b'a'..=b'f')
}

/// Whether each byte is one.
fn are_lower_digits(text: &[u8]) -> bool
    ensures { result ≡ list_all reading.is_lower_digit text.now }
{
    text.iter().all(|b| is_lower_digit(*b))
}

/// Whether a text is the digits of 1 to [`REPLY_ROOM`] bytes, in lower case.
fn is_hex_text(text: &[u8]) -> bool
    ensures { result ≡ reading.is_hex_text text.now }
{
    if text.len() < 2 || text.len() > MOST_DIGITS {
        return false;
    }
    are_lower_digits(text)
}

/// Puts the bytes that such a text spells into `bytes`, which is empty, or answers false.
fn read_bytes(text: &[u8], bytes: &mut ReplyBuf) -> bool
    requires { bytes.old ≡ [] }
    ensures { reading.bytes_in text.now ≡ (if result then Some bytes.new else None) }
{
    if !is_hex_text(text) {
        return false;
    }
    let mut room = [0u8; REPLY_ROOM];
    let read = &mut room[..text.len() / 2];
    if hex::decode_to_slice(text, read).is_err() {
        return false;
    }
    bytes.extend(read);
    true
}

/// Puts the bytes of a packet into `bytes`, which is empty, or answers false: a dash is none, and else the text is the
/// digits of at most 252.
fn read_packet_bytes(text: &[u8], bytes: &mut ReplyBuf) -> bool
    requires { bytes.old ≡ [] }
    ensures { reading.packet_in text.now ≡ (if result then Some bytes.new else None) }
{
    if text == b"-".as_slice() {
        return true;
    }
    read_bytes(text, bytes) && bytes.as_slice().len() <= MOST_BYTES
}

/// The line of a packet, whose bytes are put into `bytes`.
fn from_in<'a>(rest: &[u8], bytes: &'a mut ReplyBuf) -> Option<OutLine<'a>>
    requires { bytes.old ≡ [] }
    ensures { option_map line_of result ≡ reading.from_in rest.now }
{
    let (port, rest) = number_at(rest, 65_535)?;
    let (text, rest) = field_at(rest)?;
    if !read_packet_bytes(text, bytes) {
        return None;
    }
    line_at_end(
        OutLine::From {
            port: port as u16,
            bytes: bytes.as_slice(),
        },
        rest,
    )
}

/// The line of a snapshot, whose bytes are put into `bytes`.
fn to_in<'a>(rest: &[u8], bytes: &'a mut ReplyBuf) -> Option<OutLine<'a>>
    requires { bytes.old ≡ [] }
    ensures { option_map line_of result ≡ reading.to_in rest.now }
{
    let (slot, rest) = number_at(rest, 255)?;
    let (text, rest) = field_at(rest)?;
    if !read_bytes(text, bytes) {
        return None;
    }
    line_at_end(
        OutLine::To {
            slot: slot as u8,
            bytes: bytes.as_slice(),
        },
        rest,
    )
}

/// The output's last line.
fn end_in(rest: &[u8]) -> Option<OutLine<'static>>
    ensures { option_map line_of result ≡ reading.end_in rest.now }
{
    let (frames, rest) = number_at(rest, MOST)?;
    line_at_end(OutLine::End(frames as u32), rest)
}

/// The line, as a function of its bytes.
fn line_in<'a>(line: &[u8], bytes: &'a mut ReplyBuf) -> Option<OutLine<'a>>
    requires { bytes.old ≡ [] }
    ensures { option_map line_of result ≡ reading.line_in line.now }
{
    let (word, rest) = cut(line);
    if word == b"frame".as_slice() {
        frame_in(rest)
    } else if word == b"from".as_slice() {
        from_in(rest, bytes)
    } else if word == b"no".as_slice() {
        no_in(rest)
    } else if word == b"joined".as_slice() {
        joined_in(rest)
    } else if word == b"did".as_slice() {
        did_in(rest)
    } else if word == b"to".as_slice() {
        to_in(rest, bytes)
    } else if word == b"end".as_slice() {
        end_in(rest)
    } else {
        None
    }
}

// It parses strictly, in arrays on the stack. To print the line again and compare would need room for 8 KB of text.
/// The line of the output that is printed so, without its line feed. The bytes of a packet or a snapshot are put into
/// `bytes`, which is empty.
///
/// There is none exactly where no line in range is printed so: numbers in decimal digits without a leading zero, single
/// spaces, at most 8 ids, and 1 to 8,219 bytes of a snapshot or at most 252 of a packet in lower-case digits. It takes no
/// memory.
pub fn read_line<'a>(line: &[u8], bytes: &'a mut ReplyBuf) -> Option<OutLine<'a>>
    requires { bytes.old ≡ [] }
    // What is read is printed so, and is in range.
    ensures found { IfSome result (λ l. IsPrinted line.now (line_of l)) }
    // What is in range and printed so is read.
    ensures only { (l : lines.OutLine) → IsPrinted line.now l → option_map line_of result ≡ Some l }
    // The same as a function of the bytes.
    ensures answer { option_map line_of result ≡ reading.line_in line.now }
{
    line_in(line, bytes)
}
