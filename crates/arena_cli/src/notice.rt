ghost use Rattle.std.specs.Prelude.{◌≡◌};
ghost use Rattle.arena_cli.specs.Notices.{notice_for};

use arena_engine::{Report, Status};
use std::fmt;
use std::fmt::{Display, Formatter};

/// Why a call of `serve` ended with another status than 0: what the program prints on standard error.
#[derive(Clone, Copy)]
pub enum Notice {
    /// A line of the recording was refused, for this fault.
    RecordingRefused {
        /// Its number, from 1.
        line: u64,
        /// The fault, 1 to 10.
        fault: u8,
    },
    /// The words ask for nothing.
    WordsRefused,
    /// A read failed.
    ReadFault,
    /// A write failed.
    WriteFault,
    /// There was not enough memory.
    NoMemory,
    /// The output that was checked is wrong.
    TranscriptRefused {
        /// The first line of its first wrong piece.
        line: u64,
    },
    /// There is no way to the spawn.
    NoWay {
        /// 1 where there is no such spawn, 2 where no walk leads to it.
        fault: u8,
    },
}

impl Display for Notice {
    ghost use Rattle.std.specs.Prelude.{Some};
    ghost use Rattle.arena_cli.specs.Notices.{line_of};

    ghost output = { λ notice. Some (line_of notice) };

    fn fmt<W: fmt::Write>(&self, f: &mut Formatter<W>) -> fmt::Result {
        match self {
            Notice::RecordingRefused { line, fault } => write!(
                f,
                "recording refused: line {line}, fault {fault}"
            ),
            Notice::WordsRefused => write!(f, "words refused"),
            Notice::ReadFault => write!(f, "read fault"),
            Notice::WriteFault => write!(f, "write fault"),
            Notice::NoMemory => write!(f, "out of memory"),
            Notice::TranscriptRefused { line } => write!(f, "transcript refused: line {line}"),
            Notice::NoWay { fault } => write!(f, "no way: fault {fault}"),
        }
    }
}

/// The notice for a report. `None` where what was asked for was done.
pub fn notice_of(report: &Report) -> Option<Notice>
    ensures { result ≡ notice_for report.now }
{
    match Status::of_number(report.status)? {
        Status::Done => None,
        Status::RecordingRefused => Some(Notice::RecordingRefused {
            line: report.line,
            fault: report.fault,
        }),
        Status::WordsRefused => Some(Notice::WordsRefused),
        Status::ReadFault => Some(Notice::ReadFault),
        Status::WriteFault => Some(Notice::WriteFault),
        Status::NoMemory => Some(Notice::NoMemory),
        Status::TranscriptRefused => Some(Notice::TranscriptRefused { line: report.line }),
        Status::NoWay => Some(Notice::NoWay {
            fault: report.fault,
        }),
    }
}
