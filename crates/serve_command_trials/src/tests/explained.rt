use super::{ONE_JOIN, report_of};
use edge_io::{MemSink, MemSource};
use std::alloc::{AllocError, AllocGlobal};
use std::process::Abort;
use std::sync::Wait;
use std::test::Fail;
use std::thread::Threads;

/// What `version` writes.
const VERSION: &[u8] = b"arena_cli 1.0.0, proved with a rattle-kit of logic dac8208d650f15bf\n";

/// Serves one word, into a sink with so much room, over a source whose first read would fail.
fn serve_word(
    rt: &(impl AllocGlobal + Abort + Threads + Wait + Sync),
    word: &str,
    status: u8,
    room: usize,
) -> Result<MemSink, AllocError> {
    let mut source = MemSource::new(ONE_JOIN.as_bytes(), 100, &[0]);
    let mut sink = MemSink::new(rt.alloc(), room, 100)?;
    let report = report_of(rt, &[word], &mut source, &mut sink);
    assert_eq!(rt; report.status, status);
    assert_eq!(rt; (report.line, report.fault, report.rule), (0, 0, 0));
    Ok(sink)
}

#[test]
fn the_version_is_one_line(rt: HostRuntime) -> Result<(), Fail> {
    for word in ["version", "--version"] {
        let sink = serve_word(&rt, word, 0, 1_000)?;
        assert_eq!(rt; sink.bytes(), VERSION);
    }
    Ok(())
}

#[test]
fn help_is_the_same_by_either_word(rt: HostRuntime) -> Result<(), Fail> {
    let help = serve_word(&rt, "help", 0, 10_000)?;
    assert!(rt; help.bytes().starts_with(b"arena_cli: an arena server"));
    assert!(rt; help.bytes().ends_with(b"faults.\n"));
    let other = serve_word(&rt, "--help", 0, 10_000)?;
    assert_eq!(rt; other.bytes(), help.bytes());
    Ok(())
}

#[test]
fn a_front_of_the_version_is_written_where_there_is_no_room(rt: HostRuntime) -> Result<(), Fail> {
    for room in 0..VERSION.len() {
        let sink = serve_word(&rt, "version", 4, room)?;
        assert_eq!(rt; sink.bytes(), &VERSION[..room]);
    }
    Ok(())
}

#[test]
fn other_words_for_help_are_refused(rt: HostRuntime) -> Result<(), Fail> {
    for word in ["-h", "-help", "Help", "help ", "--versio", "-v", ""] {
        let sink = serve_word(&rt, word, 2, 10_000)?;
        assert!(rt; sink.bytes().is_empty());
    }
    let rows = [
        ["help", "help"],
        ["--help", "play"],
        ["play", "--help"],
        ["version", ""],
    ];
    for words in rows {
        let mut source = MemSource::new(ONE_JOIN.as_bytes(), 100, &[0]);
        let mut sink = MemSink::new(rt.alloc(), 10_000, 100)?;
        let report = report_of(&rt, &words, &mut source, &mut sink);
        assert_eq!(rt; report.status, 2);
        assert!(rt; sink.bytes().is_empty());
    }
    Ok(())
}
