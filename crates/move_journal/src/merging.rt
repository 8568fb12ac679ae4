ghost use Rattle.std.specs.Prelude.{◌≡◌, ◌+◌, ◌≤◌, [], ◌++◌, length};
ghost use Rattle.move_journal.specs.Logs.{journal_view};
ghost use Rattle.move_journal.specs.ByPlace.{HaveNumberedPlaces, IsByPlace, entries_in};

use crate::copies::same_entry;
use crate::journal::{Journal, Log};

/// Puts the entries of a log last.
fn append(log: &Log, out: &mut Journal)
    requires room { length out.old.entries + length log.now.entries ≤ out.old.room }
    ensures { out.new ≡ journal_view (out.old.entries ++ log.now.entries) out.old.room }
{
    for entry in log.as_slice() {
        out.push(same_entry(entry));
    }
}

/// Puts the entries of all logs last, one log after another.
fn append_all(logs: &[Log], out: &mut Journal)
    requires room { length out.old.entries + length (entries_in logs.now) ≤ out.old.room }
    ensures { out.new ≡ journal_view (out.old.entries ++ entries_in logs.now) out.old.room }
{
    for log in logs {
        append(log, out);
    }
}

// All entries are put in a row and sorted by place, by std's sort, which takes no memory; it asks only that the
// places are the numbers from 0 up, each once.
/// Lists all entries of logs by place, where the places over all logs are the numbers from 0 up, each once: those of
/// workers that share their places, or no log at all. It takes no memory.
pub fn merge(logs: &[Log], out: &mut Journal)
    requires numbered { HaveNumberedPlaces logs.now }
    requires empty { out.old.entries ≡ [] }
    requires room { length (entries_in logs.now) ≤ out.old.room }
    ensures by_place { IsByPlace out.new.entries logs.now }
    ensures room { out.new.room ≡ out.old.room }
{
    append_all(logs, out);
    out.sort_by_place();
}
