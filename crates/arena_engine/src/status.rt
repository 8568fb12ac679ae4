/// How a call of `serve` ended: the program's exit status.
#[derive(Clone, Copy, Debug, PartialEq, Eq)]
pub enum Status {
    /// What was asked for was done.
    Done,
    /// A line of the recording was refused.
    RecordingRefused,
    /// The words ask for nothing.
    WordsRefused,
    /// A read failed.
    ReadFault,
    /// A write failed.
    WriteFault,
    /// There was not enough memory.
    NoMemory,
    /// The output or the log that was judged is wrong.
    TranscriptRefused,
    /// There is no way to the spawn.
    NoWay,
}

impl Status {
    ghost use Rattle.std.specs.Prelude.{◌≡◌, ◌<◌, None, IfSome};
    ghost use Rattle.arena_engine.specs.Statuses.{number_of};

    /// Its number, 0 to 7.
    pub fn number(self) -> u8
        ensures { result ≡ number_of self }
    {
        match self {
            Status::Done => 0,
            Status::RecordingRefused => 1,
            Status::WordsRefused => 2,
            Status::ReadFault => 3,
            Status::WriteFault => 4,
            Status::NoMemory => 5,
            Status::TranscriptRefused => 6,
            Status::NoWay => 7,
        }
    }

    /// The status with this number, if there is one.
    pub fn of_number(number: u8) -> Option<Status>
        ensures some { IfSome result (λ status. number_of status ≡ number) }
        ensures none { result ≡ None → 7 < number }
    {
        match number {
            0 => Some(Status::Done),
            1 => Some(Status::RecordingRefused),
            2 => Some(Status::WordsRefused),
            3 => Some(Status::ReadFault),
            4 => Some(Status::WriteFault),
            5 => Some(Status::NoMemory),
            6 => Some(Status::TranscriptRefused),
            7 => Some(Status::NoWay),
            _ => None,
        }
    }
}
