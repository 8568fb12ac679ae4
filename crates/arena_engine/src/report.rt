use crate::status::Status;
use crate::stop::Stop;
use demo_lines::LineRefusal;
use feed_queue::ArrivalOrder;
use move_journal::{Journal, JournalList};
use std::alloc::Global;

/// How a call of `serve` ended.
#[derive(Drop)]
pub struct Report {
    /// The status, which the program ends with: 0 done, 1 recording refused, 2 words refused, 3 read fault, 4 write
    /// fault, 5 lack of memory, 6 transcript refused, 7 no way.
    pub status: u8,
    /// The number of the refused line, from 1; of a transcript or log that is wrong, that of the first line of its first
    /// wrong piece, in the whole input; 0 for every other status.
    pub line: u64,
    /// The refused line's fault, 1 to 10; where there is no way 1 if the map has no such spawn, and 2 if no walk leads to
    /// it; 0 for every other status.
    pub fault: u8,
    /// The rule of the map that the refused line breaks, 1 to 8; 0 where it breaks none, and for every other status.
    pub rule: u8,
    /// The journal of the last frame that was run, where a recording was played and a frame was run.
    pub last: Option<Journal>,
    /// The order of arrival of the packets of the last frame that was run, as places in the order of the recording, where
    /// client threads sent them and a frame was run.
    pub order: Option<ArrivalOrder>,
    /// The journals of all frames that were run, for `match`; none for the other commands.
    pub all: JournalList,
}

impl Report {
    ghost use Rattle.std.specs.Prelude.{◌≡◌, [], None, Err};
    ghost use Rattle.arena_engine.specs.Reports.{place_of, refusal_of, status_of};
    ghost use Rattle.arena_engine.specs.Statuses.{number_of};

    /// A report of a status alone, without journals.
    pub fn of_status_alone(alloc: Global, status: Status) -> Report
        ensures status { result.status ≡ number_of status }
        ensures place { (result.line ≡ 0) × (result.fault ≡ 0) × (result.rule ≡ 0) }
        ensures last { result.last ≡ None }
        ensures order { result.order ≡ None }
        ensures all { result.all ≡ [] }
    {
        Report::of_status(status, None, JournalList::new(alloc))
    }

    /// A report of a status other than that of a refused recording, with these journals.
    pub(crate) fn of_status(status: Status, last: Option<Journal>, all: JournalList) -> Report
        ensures status { result.status ≡ number_of status }
        ensures place { (result.line ≡ 0) × (result.fault ≡ 0) × (result.rule ≡ 0) }
        ensures last { result.last ≡ last }
        ensures order { result.order ≡ None }
        ensures all { result.all ≡ all }
    {
        Report {
            status: status.number(),
            line: 0,
            fault: 0,
            rule: 0,
            last,
            order: None,
            all,
        }
    }

    /// A report that there is no way: no such spawn, fault 1, or no walk to it, fault 2.
    pub(crate) fn of_no_way(alloc: Global, fault: u8) -> Report
        ensures status { result.status ≡ 7 }
        ensures place { (result.line ≡ 0) × (result.fault ≡ fault) × (result.rule ≡ 0) }
        ensures last { result.last ≡ None }
        ensures order { result.order ≡ None }
        ensures all { result.all ≡ [] }
    {
        Report {
            status: Status::NoWay.number(),
            line: 0,
            fault,
            rule: 0,
            last: None,
            order: None,
            all: JournalList::new(alloc),
        }
    }

    /// A report that this line of a transcript is wrong.
    pub(crate) fn of_wrong_line(alloc: Global, line: u64) -> Report
        ensures status { result.status ≡ 6 }
        ensures line { result.line ≡ line }
        ensures place { (result.fault ≡ 0) × (result.rule ≡ 0) }
        ensures last { result.last ≡ None }
        ensures order { result.order ≡ None }
        ensures all { result.all ≡ [] }
    {
        Report {
            status: Status::TranscriptRefused.number(),
            line,
            fault: 0,
            rule: 0,
            last: None,
            order: None,
            all: JournalList::new(alloc),
        }
    }

    /// A report that this line was refused for this fault, with the journal of the last frame before it.
    fn of_refusal(refusal: LineRefusal, last: Option<Journal>, all: JournalList) -> Report
        ensures status { result.status ≡ 1 }
        ensures place { refusal_of result ≡ refusal }
        ensures last { result.last ≡ last }
        ensures order { result.order ≡ None }
        ensures all { result.all ≡ all }
    {
        let LineRefusal { line, fault, rule } = refusal;
        Report {
            status: Status::RecordingRefused.number(),
            line,
            fault,
            rule,
            last,
            order: None,
            all,
        }
    }

    /// A report that a recording isn't read or played on, with the journal of the last frame before that.
    pub(crate) fn of_stop(stop: Stop, last: Option<Journal>, all: JournalList) -> Report
        ensures status { result.status ≡ status_of (Err stop) }
        ensures place { refusal_of result ≡ place_of (Err stop) }
        ensures last { result.last ≡ last }
        ensures order { result.order ≡ None }
        ensures all { result.all ≡ all }
        ensures served { result.status ≡ 2 → ⊥ }
    {
        match stop {
            Stop::Refused(refusal) => Report::of_refusal(refusal, last, all),
            Stop::ReadFault => Report::of_status(Status::ReadFault, last, all),
            Stop::WriteFault => Report::of_status(Status::WriteFault, last, all),
            Stop::NoMemory => Report::of_status(Status::NoMemory, last, all),
        }
    }

    /// The same report, with this order of arrival.
    pub(crate) fn with_order(self, order: Option<ArrivalOrder>) -> Report
        ensures status { result.status ≡ self.status }
        ensures place { (result.line ≡ self.line) × (result.fault ≡ self.fault) × (result.rule ≡ self.rule) }
        ensures last { result.last ≡ self.last }
        ensures order { result.order ≡ order }
        ensures all { result.all ≡ self.all }
    {
        let Report {
            status,
            line,
            fault,
            rule,
            last,
            order: _order,
            all,
        } = self;
        Report {
            status,
            line,
            fault,
            rule,
            last,
            order,
            all,
        }
    }
}
