use super::feeders::ONE_JOIN_FED;
use super::transcripts::RIGHT;
use super::ways::{FAR, FREE, FREE_TO_2};
use super::{ONE_JOIN, report_of};
use edge_io::{MemSink, MemSource};
use std::alloc::{AllocError, AllocGlobal};
use std::process::Abort;
use std::sync::Wait;
use std::test::Fail;
use std::thread::Threads;

/// What a read gives at the most.
const MOST: usize = 8;

/// What `check` writes of a recording of one frame and its output.
const CALLED_RIGHT: &str = "right frames 1 moves 0\n";

/// What `bots 2` writes where no walk leads to spawn 2.
const NO_WALK: &str = "least 0 40000 -\n";

/// Reads an input by these words, over a source whose read of this number fails: nothing is written.
fn expect_read_fault(
    rt: &(impl AllocGlobal + Abort + Threads + Wait + Sync),
    words: &[&str],
    input: &str,
    read: u64,
) -> Result<(), AllocError> {
    let fails = [read];
    let mut source = MemSource::new(input.as_bytes(), MOST, &fails);
    let mut sink = MemSink::new(rt.alloc(), 10_000, 100)?;
    let report = report_of(rt, words, &mut source, &mut sink);
    assert_eq!(rt; report.status, 3, "at read {read}");
    assert_eq!(rt; (report.line, report.fault, report.rule), (0, 0, 0));
    assert!(rt; sink.bytes().is_empty(), "at read {read}");
    Ok(())
}

/// Each of these inputs ends with the line feed by which the last line is whole, so no read of it can be missed.
#[test]
fn each_read_of_each_command_fails_in_turn(rt: HostRuntime) -> Result<(), Fail> {
    let rows: [(&[&str], &str); 3] = [
        (&["feed", "2"], ONE_JOIN),
        (&["check"], RIGHT),
        (&["bots", "2"], FREE),
    ];
    for (words, input) in rows {
        for (read, _) in input.as_bytes().chunks(MOST).enumerate() {
            expect_read_fault(&rt, words, input, read as u64)?;
        }
    }
    Ok(())
}

/// Writes what comes of these words into a sink with room for this front of it: exactly the front is written.
fn expect_front(
    rt: &(impl AllocGlobal + Abort + Threads + Wait + Sync),
    words: &[&str],
    input: &str,
    front: &[u8],
) -> Result<(), AllocError> {
    let mut source = MemSource::new(input.as_bytes(), 100, &[]);
    let mut sink = MemSink::new(rt.alloc(), front.len(), 64)?;
    let report = report_of(rt, words, &mut source, &mut sink);
    assert_eq!(rt; report.status, 4, "in {} bytes", front.len());
    assert_eq!(rt; (report.line, report.fault, report.rule), (0, 0, 0));
    assert_eq!(rt; sink.bytes(), front);
    Ok(())
}

#[test]
fn each_room_of_each_command_is_used_up(rt: HostRuntime) -> Result<(), Fail> {
    let rows: [(&[&str], &str, &str); 4] = [
        (&["feed", "2"], ONE_JOIN, ONE_JOIN_FED),
        (&["check"], RIGHT, CALLED_RIGHT),
        (&["bots", "2"], FREE, FREE_TO_2),
        (&["bots", "2"], FAR, NO_WALK),
    ];
    for (words, input, output) in rows {
        for room in 0..output.len() {
            expect_front(&rt, words, input, &output.as_bytes()[..room])?;
        }
    }
    Ok(())
}

/// The status of these words over the front of an input, the line, the fault, and what is written.
fn expect_cut(
    rt: &(impl AllocGlobal + Abort + Threads + Wait + Sync),
    words: &[&str],
    front: &[u8],
    wanted: (u8, u64, u8),
    written: &str,
) -> Result<(), AllocError> {
    let mut source = MemSource::new(front, 100, &[]);
    let mut sink = MemSink::new(rt.alloc(), 10_000, 100)?;
    let report = report_of(rt, words, &mut source, &mut sink);
    let bytes = front.len();
    assert_eq!(rt;
        (report.status, report.line, report.fault),
        wanted,
        "of {bytes} bytes"
    );
    assert_eq!(rt; sink.bytes(), written.as_bytes(), "of {bytes} bytes");
    Ok(())
}

/// The number, from 1, of the line in which a front of a text ends.
fn line_at_end(front: &[u8]) -> u64 {
    1 + front.iter().filter(|byte| **byte == b'\n').count() as u64
}

/// Without its last line feed a recording is whole; a shorter front of one is refused at the line in which it ends.
#[test]
fn cut_recordings_are_refused(rt: HostRuntime) -> Result<(), Fail> {
    let rows: [(&[&str], &str, &str); 2] = [
        (&["feed", "2"], ONE_JOIN, ONE_JOIN_FED),
        (&["bots", "2"], FREE, FREE_TO_2),
    ];
    for (words, input, output) in rows {
        let input = input.as_bytes();
        for bytes in 0..input.len() - 1 {
            let front = &input[..bytes];
            expect_cut(&rt, words, front, (1, line_at_end(front), 10), "")?;
        }
        let front = &input[..input.len() - 1];
        expect_cut(&rt, words, front, (0, 0, 0), output)?;
    }
    Ok(())
}

/// The frame's lines are 6 to 8, and the last line is 9. A line that no line feed ends is none.
#[test]
fn cut_transcripts_are_wrong(rt: HostRuntime) -> Result<(), Fail> {
    let input = RIGHT.as_bytes();
    let recording = ONE_JOIN.len();
    let frame = RIGHT.len() - "end 1\n".len();
    assert!(rt; RIGHT.starts_with(ONE_JOIN));
    for bytes in 0..recording - 1 {
        let front = &input[..bytes];
        expect_cut(&rt, &["check"], front, (1, line_at_end(front), 10), "")?;
    }
    for bytes in recording - 1..frame {
        expect_cut(&rt, &["check"], &input[..bytes], (6, 6, 0), "")?;
    }
    for bytes in frame..input.len() {
        expect_cut(&rt, &["check"], &input[..bytes], (6, 9, 0), "")?;
    }
    Ok(())
}

/// The recording, a frame whose second line has so many bytes, and so many lines after the transcript.
fn long_transcript(
    rt: &impl AllocGlobal,
    letters: usize,
    after: usize,
) -> Result<Vec<u8>, AllocError> {
    let mut text = Vec::new(rt.alloc());
    text.extend_from_slice(ONE_JOIN.as_bytes())?;
    text.extend_from_slice(b"frame 0\n")?;
    for _ in 0..letters {
        text.push(b'a')?;
    }
    text.extend_from_slice(b"\nend 1\n")?;
    for _ in 0..after {
        text.extend_from_slice(b"a\n")?;
    }
    Ok(text)
}

/// A line of 16,500 bytes is a line, one byte more ends the transcript; both are wrong here.
#[test]
fn a_long_line_of_a_transcript_is_wrong(rt: HostRuntime) -> Result<(), Fail> {
    for letters in [0, 1, 16_500, 16_501, 40_000] {
        let text = long_transcript(&rt, letters, 0)?;
        expect_cut(&rt, &["check"], text.as_slice(), (6, 6, 0), "")?;
    }
    Ok(())
}

/// What follows a right transcript isn't looked at: a million lines, or one that never ends.
#[test]
fn a_million_lines_after_the_end_are_not_looked_at(rt: HostRuntime) -> Result<(), Fail> {
    let mut text = Vec::new(rt.alloc());
    text.extend_from_slice(RIGHT.as_bytes())?;
    for _ in 0..1_000_000 {
        text.extend_from_slice(b"a\n")?;
    }
    expect_cut(&rt, &["check"], text.as_slice(), (0, 0, 0), CALLED_RIGHT)?;
    Ok(())
}
