ghost use Rattle.std.specs.Prelude.{◌≡◌, ◌≤◌, [], All, length, IfOk};
ghost use Rattle.out_text.specs.Printing.{line_of};
ghost use Rattle.snapshot_write.specs.declared.reply_buf.TheConstants.{REPLY_ROOM};
ghost use Rattle.out_text.specs.Ranges.{HasRoom};

use arena_geo::Vec3;
use client_ports::{Joined, Received, Refusal, Refused};
use edge_io::MemSink;
use entity_recs::{Entry, IdList, Reply};
use out_text::{LineBuf, OutLine, Printed, Printer, print_line, read_line};
use packet_read::PacketFault;
use snapshot_write::ReplyBuf;
use std::alloc::{AllocError, AllocGlobal, Global};
use std::process::Abort;
use std::test::Fail;

/// A frame of three moves, the second of which took an item, and two replies.
const FRAME: &str =
    "frame 1\ndid 0 1 2048 0 6144 -\ndid 0 2 5734 0 6144 64\ndid 0 3 9830 0 6144 -\nto 0 01ab\nto 63 ff\n";

fn at(x: i32, y: i32, z: i32) -> Vec3 {
    Vec3 { x, y, z }
}

/// A reply of these bytes.
fn reply(alloc: Global, bytes: &[u8]) -> Result<ReplyBuf, AllocError>
    requires { length bytes.now ≤ REPLY_ROOM }
    ensures { IfOk result (λ reply. reply ≡ bytes.now) }
{
    let mut reply = ReplyBuf::new(alloc)?;
    reply.extend(bytes);
    Ok(reply)
}

/// A list of these ids.
fn ids(from: &[u16]) -> IdList {
    let mut ids = IdList::new();
    for id in from {
        let _fits = ids.push(*id);
    }
    ids
}

/// The entry of slot 0 at this place, whose move ends here and takes these items.
fn entry(place: u8, x: i32, got: &[u16]) -> Entry {
    Entry {
        place: u64::from(place),
        slot: 0,
        seq: u32::from(place) + 1,
        reply: Reply {
            origin: at(x, 0, 6_144),
            got: ids(got),
        },
    }
}

/// Prints a line into an empty sink, which gets nothing before the flush.
fn print(rt: &(impl AllocGlobal + Abort), line: &OutLine, sink: &mut MemSink) -> Result<(), Fail>
    requires { HasRoom (line_of line.now) }
{
    let mut printer = Printer::new(rt.alloc())?;
    printer.print(line, sink)?;
    assert!(rt; sink.bytes().is_empty());
    printer.flush(sink)?;
    Ok(())
}

/// Compares what is printed of a line.
fn expect(rt: &(impl AllocGlobal + Abort), line: &OutLine, printed: &str) -> Result<(), Fail>
    requires { HasRoom (line_of line.now) }
{
    let mut sink = MemSink::new(rt.alloc(), 100, 100)?;
    print(rt, line, &mut sink)?;
    assert_eq!(rt; sink.bytes(), printed.as_bytes());
    Ok(())
}

#[test]
fn lines_of_a_refusal_and_a_join_are_printed(rt: HostRuntime) -> Result<(), Fail> {
    let refused = Refused {
        place: 3,
        why: Refusal::Leaving,
    };
    let joined = Joined { port: 7, slot: 0 };
    expect(&rt, &refused.line(), "no 3 Leaving\n")?;
    expect(&rt, &joined.line(), "joined 7 0\n")
}

/// The entry of a move that took three items.
fn did() -> Entry {
    Entry {
        place: 1,
        slot: 1,
        seq: 1,
        reply: Reply {
            origin: at(24_096, -11_952, 6_144),
            got: ids(&[64, 200, 7]),
        },
    }
}

#[test]
fn lines_of_a_frame_and_the_end_are_printed(rt: HostRuntime) -> Result<(), Fail> {
    expect(&rt, &OutLine::Frame(0), "frame 0\n")?;
    expect(&rt, &did().line(), "did 1 1 24096 -11952 6144 64,200,7\n")?;
    expect(
        &rt,
        &OutLine::To {
            slot: 9,
            bytes: &[0x01, 0xab],
        },
        "to 9 01ab\n",
    )?;
    expect(&rt, &OutLine::End(2), "end 2\n")
}

/// The refusals, and how the line of each is printed.
const REFUSALS: [(Refusal, &str); 15] = [
    (Refusal::Packet(PacketFault::Empty), "no 0 Empty\n"),
    (Refusal::Packet(PacketFault::Version), "no 0 Version\n"),
    (Refusal::Packet(PacketFault::Kind), "no 0 Kind\n"),
    (Refusal::Packet(PacketFault::Short), "no 0 Short\n"),
    (Refusal::Packet(PacketFault::Long), "no 0 Long\n"),
    (Refusal::Packet(PacketFault::Time), "no 0 Time\n"),
    (Refusal::Packet(PacketFault::Buttons), "no 0 Buttons\n"),
    (Refusal::Packet(PacketFault::Count), "no 0 Count\n"),
    (Refusal::Already, "no 0 Already\n"),
    (Refusal::Full, "no 0 Full\n"),
    (Refusal::Crowded, "no 0 Crowded\n"),
    (Refusal::NotJoined, "no 0 NotJoined\n"),
    (Refusal::Leaving, "no 0 Leaving\n"),
    (Refusal::Old, "no 0 Old\n"),
    (Refusal::Many, "no 0 Many\n"),
];

#[test]
fn each_refusal_has_its_name(rt: HostRuntime) -> Result<(), Fail> {
    for (why, printed) in REFUSALS {
        expect(&rt, &OutLine::No { place: 0, why }, printed)?;
    }
    Ok(())
}

/// Prints frame 1 with what was received, this journal and these replies.
fn print_frame(
    alloc: Global,
    received: &Received,
    journal: &[Entry],
    slots: &[u8],
    replies: &[ReplyBuf],
    sink: &mut MemSink,
) -> Result<(), Fail>
    requires one_each { length slots.now ≡ length replies.now }
    requires some { All (λ bytes. 1 ≤ length bytes) replies.now }
{
    let mut printer = Printer::new(alloc)?;
    printer.print_frame(1, received, journal, slots, replies, sink)?;
    printer.flush(sink)?;
    Ok(())
}

/// Compares what is printed of frame 1 with this journal and these replies.
fn expect_frame(
    rt: &(impl AllocGlobal + Abort),
    journal: &[Entry],
    slots: &[u8],
    replies: &[ReplyBuf],
    printed: &str,
) -> Result<(), Fail>
    requires one_each { length slots.now ≡ length replies.now }
    requires some { All (λ bytes. 1 ≤ length bytes) replies.now }
{
    let received = Received::new(rt.alloc(), 0)?;
    let mut sink = MemSink::new(rt.alloc(), 200, 100)?;
    print_frame(rt.alloc(), &received, journal, slots, replies, &mut sink)?;
    assert_eq!(rt; sink.bytes(), printed.as_bytes());
    Ok(())
}

/// Three moves of slot 0, the second of which took an item.
fn moves() -> [Entry; 3] {
    [
        entry(0, 2_048, &[]),
        entry(1, 5_734, &[64]),
        entry(2, 9_830, &[]),
    ]
}

#[test]
fn a_frame_has_its_journal_and_a_reply_for_each_slot(rt: HostRuntime) -> Result<(), Fail> {
    let first = reply(rt.alloc(), &[0x01, 0xab])?;
    let second = reply(rt.alloc(), &[0xff])?;
    expect_frame(&rt, &moves(), &[0, 63], &[first, second], FRAME)
}

/// Lines that are printed so.
const LINES: [&str; 9] = [
    "frame 0",
    "no 3 Leaving",
    "no 4294967295 Empty",
    "joined 65535 63",
    "did 1 1 24096 -11952 6144 64,200,7",
    "did 0 4294967295 2147483647 -2147483648 0 65535,0,1,2,3,4,5,6",
    "did 0 2 0 0 6144 -",
    "to 9 01ab",
    "end 2",
];

/// Lines that no line is printed as.
const OTHERS: [&str; 20] = [
    "",
    "frame",
    "frame ",
    "frame  1",
    "frame 01",
    "frame 1 ",
    "frame 4294967296",
    "no 0 leaving",
    "no 0",
    "joined 65536 0",
    "joined 7 256",
    // Nine ids, a comma more, an id too large, and a coordinate too far.
    "did 0 1 0 0 6144 1,2,3,4,5,6,7,8,9",
    "did 0 1 0 0 6144 64,",
    "did 0 1 0 0 6144 65536",
    "did 0 1 2147483648 0 6144 -",
    "did 0 1 -0 0 6144 -",
    // Upper case, half a byte, and no byte.
    "to 9 01AB",
    "to 9 01a",
    "to 9 ",
    "END 2",
];

/// Expects that a line is read, and that what is read is printed as this line.
fn expect_read(
    rt: &impl Abort,
    line: &str,
    bytes: &mut ReplyBuf,
    printed: &mut LineBuf,
) -> Result<(), Fail> {
    bytes.clear();
    printed.clear();
    let read = read_line(line.as_bytes(), bytes).ok_or("a line")?;
    print_line(&read, printed);
    assert_eq!(rt; printed.as_slice(), line.as_bytes());
    Ok(())
}

#[test]
fn lines_are_read_and_printed_again(rt: HostRuntime) -> Result<(), Fail> {
    let mut bytes = ReplyBuf::new(rt.alloc())?;
    let mut printed = LineBuf::new(rt.alloc())?;
    for line in LINES {
        expect_read(&rt, line, &mut bytes, &mut printed)?;
    }
    Ok(())
}

/// The line of a snapshot of these bytes, printed.
fn print_to(out: &mut LineBuf, bytes: &[u8])
    requires empty { out.old ≡ [] }
    requires some { 1 ≤ length bytes.now }
    requires most { length bytes.now ≤ REPLY_ROOM }
{
    print_line(&OutLine::To { slot: 63, bytes }, out);
}

#[test]
fn the_longest_snapshot_is_printed_and_read(rt: HostRuntime) -> Result<(), Fail> {
    let mut bytes = ReplyBuf::new(rt.alloc())?;
    let mut printed = LineBuf::new(rt.alloc())?;
    print_to(&mut printed, &[0xab; 8_219]);
    assert_eq!(rt; printed.len(), 16_444);
    assert!(rt; read_line(printed.as_slice(), &mut bytes).is_some());
    assert_eq!(rt; bytes.as_slice(), [0xab; 8_219].as_slice());
    // The digits of a byte more.
    assert!(rt; printed.push(b'a') && printed.push(b'b'));
    bytes.clear();
    assert!(rt; read_line(printed.as_slice(), &mut bytes).is_none());
    Ok(())
}

#[test]
fn other_lines_are_not_read(rt: HostRuntime) -> Result<(), Fail> {
    let mut bytes = ReplyBuf::new(rt.alloc())?;
    for line in OTHERS {
        bytes.clear();
        assert!(rt; read_line(line.as_bytes(), &mut bytes).is_none(), "{line}");
    }
    Ok(())
}
