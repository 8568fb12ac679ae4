ghost use Rattle.std.specs.Prelude.{◌≡◌, ◌+◌, ◌*◌, ◌/◌, ◌%◌, ◌<◌, ◌≤◌, [], ◌++◌, codes, decimal, length, slice_index, take};
ghost use Rattle.std.specs.Fmt.{signed_decimal};
ghost use Rattle.snapshot_write.specs.declared.reply_buf.TheConstants.{REPLY_ROOM};
ghost use Rattle.hex.specs.Hex.{encode_lower, lower_digits};
ghost use Rattle.demo_lines.specs.Spelling.{packet_text};
ghost use Rattle.out_text.specs.OutLines as lines;
ghost use Rattle.out_text.specs.OutLines.{FrameLine, FromLine, NoLine, JoinedLine, DidLine, ToLine, EndLine};
ghost use Rattle.out_text.specs.Ranges.{HasRoom};
ghost use Rattle.out_text.specs.Printing.{line_of};

use crate::names::refusal_name;
use crate::out_line::OutLine;
use arena_geo::Vec3;
use byte_lists::ByteBuf;
use client_ports::Refusal;
use edge_io::{LineBuf, ROOM};
use itoa::Buffer;

/// Puts a number last.
fn push_number<const MOST: usize>(out: &mut ByteBuf<MOST>, n: u32)
    requires { length out.old + 10 ≤ MOST }
    ensures text { out.new ≡ out.old ++ decimal n }
    ensures short { length out.new ≤ length out.old + 10 }
{
    let mut buffer = Buffer::new();
    out.extend(buffer.format(n).as_bytes());
}

/// Puts a space and a number last.
fn push_field(out: &mut LineBuf, n: u32)
    requires { length out.old + 11 ≤ ROOM }
    ensures text { out.new ≡ out.old ++ codes " " ++ decimal n }
    ensures short { length out.new ≤ length out.old + 11 }
{
    out.extend(b" ");
    push_number(out, n);
}

/// Puts a space and a coordinate last.
fn push_coordinate(out: &mut LineBuf, z: i32)
    requires { length out.old + 12 ≤ ROOM }
    ensures text { out.new ≡ out.old ++ codes " " ++ signed_decimal z }
    ensures short { length out.new ≤ length out.old + 12 }
{
    let mut buffer = Buffer::new();
    out.extend(b" ");
    out.extend(buffer.format(z).as_bytes());
}

/// Puts ids last, in their order and with a comma between any two, or a dash where there are none.
fn push_ids(out: &mut LineBuf, ids: &[u16])
    requires few { length ids.now ≤ 8 }
    requires room { length out.old + 100 ≤ ROOM }
    ensures { out.new ≡ out.old ++ lines.ids_text ids.now }
{
    let Some((first, rest)) = ids.split_first() else {
        out.extend(b"-");
        return;
    };
    push_number(out, u32::from(*first));
    for id in rest {
        out.extend(b",");
        push_number(out, u32::from(*id));
    }
}

/// The digit of a number below 16.
fn digit(n: u8) -> u8
    requires { n < 16 }
    ensures { result ≡ slice_index lower_digits n }
{
    let before = if n < 10 { b'0' } else { b'a' - 10 };
    before + n
}

/// The first digit of a byte.
fn high(b: u8) -> u8
    ensures { result ≡ slice_index lower_digits (b / 16) }
{
    digit(b / 16)
}

/// The second digit of a byte.
fn low(b: u8) -> u8
    ensures { result ≡ slice_index lower_digits (b % 16) }
{
    digit(b % 16)
}

/// The digits of the first eight bytes.
fn digits_of(bytes: &[u8]) -> [u8; 16]
    requires { 8 ≤ length bytes.now }
    ensures { result ≡ encode_lower (take 8 bytes.now) }
{
    [
        high(bytes[0]),
        low(bytes[0]),
        high(bytes[1]),
        low(bytes[1]),
        high(bytes[2]),
        low(bytes[2]),
        high(bytes[3]),
        low(bytes[3]),
        high(bytes[4]),
        low(bytes[4]),
        high(bytes[5]),
        low(bytes[5]),
        high(bytes[6]),
        low(bytes[6]),
        high(bytes[7]),
        low(bytes[7]),
    ]
}

/// The digits of the first 32 bytes.
fn many_digits_of(bytes: &[u8]) -> [u8; 64]
    requires { 32 ≤ length bytes.now }
    ensures { result ≡ encode_lower (take 32 bytes.now) }
{
    let mut digits = [0; 64];
    for i in 0..32 {
        digits[2 * i] = high(bytes[i]);
        digits[2 * i + 1] = low(bytes[i]);
    }
    digits
}

/// Puts the digits of a few bytes last, one byte after another.
fn push_each<const MOST: usize>(out: &mut ByteBuf<MOST>, bytes: &[u8])
    requires { length out.old + 2 * length bytes.now ≤ MOST }
    ensures { out.new ≡ out.old ++ encode_lower bytes.now }
{
    for b in bytes {
        out.extend(&[high(*b), low(*b)]);
    }
}

/// Puts the digits of bytes last, those of eight bytes at a time.
fn push_few<const MOST: usize>(out: &mut ByteBuf<MOST>, bytes: &[u8])
    requires { length out.old + 2 * length bytes.now ≤ MOST }
    ensures { out.new ≡ out.old ++ encode_lower bytes.now }
{
    let mut rest = bytes;
    while rest.len() >= 8 {
        out.extend(&digits_of(rest));
        rest = &rest[8..];
    }
    push_each(out, rest);
}

// So many at once, since to add a few to the list takes as long as to make their digits.
/// Puts the digits of a text of bytes last, those of 32 bytes at a time.
fn push_digits<const MOST: usize>(out: &mut ByteBuf<MOST>, bytes: &[u8])
    requires { length out.old + 2 * length bytes.now ≤ MOST }
    ensures { out.new ≡ out.old ++ encode_lower bytes.now }
{
    let mut rest = bytes;
    while rest.len() >= 32 {
        out.extend(&many_digits_of(rest));
        rest = &rest[32..];
    }
    push_few(out, rest);
}

/// Prints the line that opens a frame.
fn print_frame(frame: u32, out: &mut LineBuf)
    requires { out.old ≡ [] }
    ensures { out.new ≡ lines.line_spelling (FrameLine frame) }
{
    out.extend(b"frame ");
    push_number(out, frame);
}

/// Puts the digits of a packet last, or a dash where it has no bytes.
fn push_packet(out: &mut LineBuf, bytes: &[u8])
    requires { length out.old + 1 + 2 * length bytes.now ≤ ROOM }
    ensures { out.new ≡ out.old ++ packet_text bytes.now }
{
    if bytes.is_empty() {
        out.extend(b"-");
    } else {
        push_digits(out, bytes);
    }
}

/// Prints the line of a packet that arrived.
fn print_from(port: u16, bytes: &[u8], out: &mut LineBuf)
    requires empty { out.old ≡ [] }
    requires short { length bytes.now ≤ 252 }
    ensures { out.new ≡ lines.line_spelling (FromLine port bytes.now) }
{
    out.extend(b"from ");
    push_number(out, u32::from(port));
    out.extend(b" ");
    push_packet(out, bytes);
}

/// Prints the line of a refused packet.
fn print_no(place: u32, why: Refusal, out: &mut LineBuf)
    requires { out.old ≡ [] }
    ensures { out.new ≡ lines.line_spelling (NoLine place why) }
{
    out.extend(b"no ");
    push_number(out, place);
    out.extend(b" ");
    out.extend(refusal_name(why).as_bytes());
}

/// Prints the line of a player that joined.
fn print_joined(port: u16, slot: u8, out: &mut LineBuf)
    requires { out.old ≡ [] }
    ensures { out.new ≡ lines.line_spelling (JoinedLine port slot) }
{
    out.extend(b"joined ");
    push_number(out, u32::from(port));
    push_field(out, u32::from(slot));
}

/// Prints the line of a move that was done.
fn print_did(slot: u8, seq: u32, origin: Vec3, got: &[u16], out: &mut LineBuf)
    requires empty { out.old ≡ [] }
    requires few { length got.now ≤ 8 }
    ensures { out.new ≡ lines.line_spelling (DidLine (record { slot = slot; seq = seq; origin = origin; got = got.now })) }
{
    out.extend(b"did ");
    push_number(out, u32::from(slot));
    push_field(out, seq);
    push_coordinate(out, origin.x);
    push_coordinate(out, origin.y);
    push_coordinate(out, origin.z);
    out.extend(b" ");
    push_ids(out, got);
}

/// Prints the line of a snapshot, without its line feed, at the end of a list.
pub(crate) fn print_to<const MOST: usize>(slot: u8, bytes: &[u8], out: &mut ByteBuf<MOST>)
    requires { length out.old + 14 + 2 * length bytes.now ≤ MOST }
    ensures line { out.new ≡ out.old ++ lines.line_spelling (ToLine slot bytes.now) }
    ensures short { length out.new ≤ length out.old + 14 + 2 * length bytes.now }
{
    out.extend(b"to ");
    push_number(out, u32::from(slot));
    out.extend(b" ");
    push_digits(out, bytes);
}

/// Prints the output's last line.
fn print_end(frames: u32, out: &mut LineBuf)
    requires { out.old ≡ [] }
    ensures { out.new ≡ lines.line_spelling (EndLine frames) }
{
    out.extend(b"end ");
    push_number(out, frames);
}

/// Prints a line, without its line feed, into `out`, which is empty. The packet of a `from` line has at most 252 bytes;
/// the snapshot of a `to` line has at least one byte, and fits a reply. It takes no memory.
pub fn print_line(l: &OutLine, out: &mut LineBuf)
    requires empty { out.old ≡ [] }
    requires room { HasRoom (line_of l.now) }
    ensures { out.new ≡ lines.line_spelling (line_of l.now) }
{
    match l {
        OutLine::Frame(frame) => print_frame(*frame, out),
        OutLine::From { port, bytes } => print_from(*port, bytes, out),
        OutLine::No { place, why } => print_no(*place, *why, out),
        OutLine::Joined { port, slot } => print_joined(*port, *slot, out),
        OutLine::Did {
            slot,
            seq,
            origin,
            got,
        } => print_did(*slot, *seq, *origin, got.as_slice(), out),
        OutLine::To { slot, bytes } => print_to(*slot, bytes, out),
        OutLine::End(frames) => print_end(*frames, out),
    }
}
