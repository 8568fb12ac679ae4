ghost use Rattle.std.specs.Prelude.{◌≡◌, ◌≤◌, [], IfOk, IsOk, length};

use edge_io::{
    Failed, LineBuf, LineReader, MemSink, MemSource, NextLine, Sink, Source, StdSink, StdSource,
    cut, field_at, integer, is_integer, is_natural, natural, write_whole,
};
use std::alloc::AllocGlobal;
use std::io;
use std::io::{Cursor, ErrorKind, Read, Write};
use std::process::Abort;
use std::test::Fail;

/// A reader and a writer that counts its calls and answers them by a script: so many bytes at most, or an error. After
/// the script each call gives or takes all.
#[derive(Drop)]
struct Scripted<'a> {
    script: &'a [Option<usize>],
    calls: usize,
}

impl<'a> Scripted<'a> {
    fn new(script: &'a [Option<usize>]) -> Scripted<'a> {
        Scripted { script, calls: 0 }
    }

    fn answer(&mut self, len: usize) -> io::Result<usize>
        ensures { IfOk result (λ n. n ≤ len) }
    {
        let call = self.calls;
        self.calls = call.saturating_add(1);
        match self.script.get(call) {
            Some(Some(most)) => Ok(len.min(*most)),
            Some(None) => Err(io::Error::from(ErrorKind::Interrupted)),
            None => Ok(len),
        }
    }
}

impl Read for Scripted<'_> {
    fn read(&mut self, buf: &mut [u8]) -> io::Result<usize> {
        let count = self.answer(buf.len())?;
        buf[..count].fill(b'x');
        Ok(count)
    }
}

impl Write for Scripted<'_> {
    fn write(&mut self, piece: &[u8]) -> io::Result<usize> {
        self.answer(piece.len())
    }

    fn flush(&mut self) -> io::Result<()> {
        Ok(())
    }
}

/// Reads with buffers of 64 bytes from a source over a reader with this script, and compares the answers and how often
/// the reader was asked.
fn expect_reads(
    rt: &impl Abort,
    script: &[Option<usize>],
    want: &[Result<usize, Failed>],
    calls: usize,
) {
    let mut reader = Scripted::new(script);
    let mut source = StdSource::new(&mut reader);
    for answer in want {
        let given = source.read(&mut [0; 64]);
        assert_eq!(rt; given, *answer);
    }
    assert_eq!(rt; reader.calls, calls);
}

/// Writes pieces of 64 bytes to a sink over a writer with this script, and compares the answers and how often the
/// writer was asked.
fn expect_writes(
    rt: &impl Abort,
    script: &[Option<usize>],
    want: &[Result<usize, Failed>],
    calls: usize,
) {
    let mut writer = Scripted::new(script);
    let mut sink = StdSink::new(&mut writer);
    for answer in want {
        let taken = sink.write(&[b'x'; 64]);
        assert_eq!(rt; taken, *answer);
    }
    assert_eq!(rt; writer.calls, calls);
}

/// Reads `source` line by line, and compares each answer and its bytes.
fn expect_answers(
    rt: &impl Abort,
    reader: &mut LineReader,
    line: &mut LineBuf,
    source: &mut MemSource<'_>,
    want: &[(Result<NextLine, Failed>, &[u8])],
) {
    for &(answer, bytes) in want {
        let next = reader.next_line(source, line);
        assert_eq!(rt; next, answer);
        assert_eq!(rt; line.as_slice(), bytes);
    }
}

/// Reads these bytes line by line, at most so many of them in a call, where some calls fail.
fn expect_lines(
    rt: &(impl AllocGlobal + Abort),
    bytes: &[u8],
    most: usize,
    fails: &[u64],
    want: &[(Result<NextLine, Failed>, &[u8])],
) -> Result<(), Fail>
    requires { 1 ≤ most }
{
    let mut line = LineBuf::new(rt.alloc())?;
    let mut reader = LineReader::new(rt.alloc())?;
    let mut source = MemSource::new(bytes, most, fails);
    expect_answers(rt, &mut reader, &mut line, &mut source, want);
    Ok(())
}

/// The lines of `ab\ncd\r\n\nxyz`.
const FOUR_LINES: &[(Result<NextLine, Failed>, &[u8])] = &[
    (Ok(NextLine::Whole), b"ab"),
    (Ok(NextLine::Whole), b"cd\r"),
    (Ok(NextLine::Whole), b""),
    (Ok(NextLine::Ended), b"xyz"),
    (Ok(NextLine::Ended), b""),
];

#[test]
fn lines_come_whole_whatever_the_reads_give(rt: HostRuntime) -> Result<(), Fail> {
    for most in [1, 2, 3, 100] {
        expect_lines(&rt, b"ab\ncd\r\n\nxyz", most, &[], FOUR_LINES)?;
    }
    Ok(())
}

#[test]
fn a_line_of_512_bytes_is_whole_and_one_of_513_is_long(rt: HostRuntime) -> Result<(), Fail> {
    let longest = [b'a'; 512];
    let long = [b'a'; 513];
    let mut text = [b'a'; 1_539];
    text[512] = b'\n';
    text[1_026] = b'\n';
    let want: [(Result<NextLine, Failed>, &[u8]); 4] = [
        (Ok(NextLine::Whole), &longest),
        (Ok(NextLine::Long), &long),
        (Ok(NextLine::Whole), b""),
        (Ok(NextLine::Ended), &longest),
    ];
    expect_lines(&rt, &text, 300, &[], &want)
}

/// The answers for `abcdef\ngh` where the calls 1, 2 and 7 fail.
const AMONG_FAULTS: &[(Result<NextLine, Failed>, &[u8])] = &[
    (Err(Failed), b"ab"),
    (Err(Failed), b""),
    (Ok(NextLine::Whole), b"cdef"),
    (Err(Failed), b"gh"),
    (Ok(NextLine::Ended), b""),
];

#[test]
fn a_fault_gives_the_front_of_the_line_and_is_no_end(rt: HostRuntime) -> Result<(), Fail> {
    expect_lines(&rt, b"abcdef\ngh", 2, &[1, 2, 7], AMONG_FAULTS)
}

/// Reads a line from a source in memory that has no failing call.
fn next_line_of(
    reader: &mut LineReader,
    line: &mut LineBuf,
    bytes: &[u8],
) -> Result<NextLine, Failed>
    ensures { IsOk result }
{
    let mut source = MemSource::new(bytes, 8, &[]);
    reader.next_line(&mut source, line)
}

/// Writes a text to a sink in memory that has taken nothing and has room for it.
fn write_to_room(sink: &mut MemSink, text: &[u8]) -> Result<(), Failed>
    requires taken { sink.old.taken ≡ [] }
    requires room { length text.now ≤ sink.old.room }
    ensures { IsOk result }
{
    write_whole(sink, text)
}

#[test]
fn where_no_read_fails_a_line_is_read(rt: HostRuntime) -> Result<(), Fail> {
    let mut line = LineBuf::new(rt.alloc())?;
    let mut reader = LineReader::new(rt.alloc())?;
    let next = next_line_of(&mut reader, &mut line, b"abc\n");
    assert_eq!(rt; next, Ok(NextLine::Whole));
    Ok(())
}

#[test]
fn where_no_write_fails_a_text_is_written(rt: HostRuntime) -> Result<(), Fail> {
    let mut sink = MemSink::new(rt.alloc(), 3, 2)?;
    let written = write_to_room(&mut sink, b"abc");
    assert_eq!(rt; written, Ok(()));
    Ok(())
}

#[test]
fn readers_of_std_serve(rt: HostRuntime) {
    let mut source = StdSource::new(b"abc".as_slice());
    let mut buf = [0; 2];
    for (count, bytes) in [(2, b"ab"), (1, b"cb"), (0, b"cb"), (0, b"cb")] {
        let answer = source.read(&mut buf);
        assert_eq!(rt; answer, Ok(count));
        assert_eq!(rt; buf, *bytes);
    }
}

#[test]
fn writers_of_std_serve(rt: HostRuntime) {
    // The cursor takes nothing once its slice is full, which is a fault.
    let mut room = [0; 4];
    let mut sink = StdSink::new(Cursor::new(room.as_mut_slice()));
    let whole = write_whole(&mut sink, b"abcd");
    assert_eq!(rt; whole, Ok(()));
    let more = write_whole(&mut sink, b"e");
    assert_eq!(rt; more, Err(Failed));
    assert_eq!(rt; room, *b"abcd");
}

#[test]
fn a_read_asks_the_reader_once_for_the_whole_buffer(rt: HostRuntime) {
    let want = [Ok(64), Ok(3), Ok(64)];
    expect_reads(&rt, &[Some(64), Some(3)], &want, 3);
}

#[test]
fn a_read_that_failed_is_not_tried_again(rt: HostRuntime) {
    let want = [Err(Failed), Ok(5), Err(Failed), Err(Failed)];
    expect_reads(&rt, &[None, Some(5), None, None], &want, 4);
}

#[test]
fn a_reader_is_not_asked_after_its_end(rt: HostRuntime) {
    let want = [Ok(2), Ok(0), Ok(0), Ok(0)];
    expect_reads(&rt, &[Some(2), Some(0), Some(2)], &want, 2);
}

#[test]
fn an_empty_buffer_is_no_end(rt: HostRuntime) {
    let mut source = StdSource::new(b"a".as_slice());
    let mut buf = [0; 1];
    let nothing = source.read(&mut []);
    let byte = source.read(&mut buf);
    assert_eq!(rt; (nothing, byte), (Ok(0), Ok(1)));
}

#[test]
fn a_write_hands_the_writer_the_whole_piece_once(rt: HostRuntime) {
    let want = [Ok(64), Ok(3), Ok(64)];
    expect_writes(&rt, &[Some(64), Some(3)], &want, 3);
}

#[test]
fn a_write_that_failed_is_not_tried_again(rt: HostRuntime) {
    let want = [Err(Failed), Ok(5), Err(Failed), Err(Failed)];
    expect_writes(&rt, &[None, Some(5), None, Some(0)], &want, 4);
}

/// Writes a text to a sink in memory, and compares the answer.
fn expect_written(rt: &impl Abort, sink: &mut MemSink, text: &[u8], want: Result<(), Failed>) {
    let answer = write_whole(sink, text);
    assert_eq!(rt; answer, want);
}

#[test]
fn a_text_is_written_whole_or_in_part(rt: HostRuntime) -> Result<(), Fail> {
    let text = vec![in rt.alloc(); b'x'; 1_000_000]?;
    let mut sink = MemSink::new(rt.alloc(), 1_000_000, 300_000)?;
    expect_written(&rt, &mut sink, &text[2..], Ok(()));
    expect_written(&rt, &mut sink, b"xxx", Err(Failed));
    expect_written(&rt, &mut sink, b"", Ok(()));
    assert_eq!(rt; sink.bytes(), text.as_slice());
    Ok(())
}

/// Expects that a buffer which isn't empty takes one byte more, has then 16,500, takes no other, and can be cleared.
fn expect_room_for_one(rt: &impl Abort, line: &mut LineBuf) {
    assert!(rt; !line.is_empty());
    let last = line.push(b'b');
    let over = line.push(b'c');
    assert_eq!(rt; (last, over), (true, false));
    assert_eq!(rt; line.len(), 16_500);
    line.clear();
    assert_eq!(rt; line.as_slice(), b"".as_slice());
}

#[test]
fn a_line_buffer_is_full_at_its_room(rt: HostRuntime) -> Result<(), Fail> {
    let mut line = LineBuf::new(rt.alloc())?;
    line.extend(&[b'a'; 16_499]);
    expect_room_for_one(&rt, &mut line);
    Ok(())
}

/// A field, the number of at most 512 from 0 that it spells, and whether it has the form of a number.
const NUMBERS: &[(&[u8], Option<i64>, bool)] = &[
    (b"0", Some(0), true),
    (b"512", Some(512), true),
    (b"-512", Some(-512), true),
    (b"513", None, true),
    (b"-340282366920938463463374607431768211456", None, true),
    (b"-0", None, false),
    (b"01", None, false),
    (b"+1", None, false),
    (b"", None, false),
];

#[test]
fn a_number_out_of_its_limit_has_the_form_of_one(rt: HostRuntime) {
    for (field, number, form) in NUMBERS {
        assert_eq!(rt; integer(field, 512), *number);
        assert_eq!(rt; is_integer(field), *form);
    }
}

#[test]
fn a_natural_number_has_no_sign(rt: HostRuntime) {
    assert_eq!(rt; natural(b"-1", 512), None);
    assert!(rt; !is_natural(b"-1"));
}

#[test]
fn one_space_separates_fields(rt: HostRuntime) {
    let (word, rest) = cut(b"a bc ");
    assert_eq!(rt; (word, rest), (b"a".as_slice(), b" bc ".as_slice()));
    assert_eq!(rt; field_at(rest), Some((b"bc".as_slice(), b" ".as_slice())));
    assert_eq!(rt; field_at(b" "), Some((b"".as_slice(), b"".as_slice())));
    assert_eq!(rt; field_at(b""), None);
}
