use crate::journal::{Journal, Log};
use arrayvec::ArrayVec;
use std::alloc::{AllocError, Global};
use std::marker::Model;

/// How many logs a list holds at most: one for each worker.
pub const MOST_LOGS: usize = 16;

/// A list of at most [`MOST_LOGS`] logs, which lie in the value itself.
#[derive(Drop)]
pub struct LogList {
    logs: ArrayVec<Log, MOST_LOGS, Global>,
}

impl Model for LogList {
    ghost use Rattle.std.specs.Prelude.{List};
    ghost use Rattle.move_journal.specs.Logs.{JournalView};

    ghost Value = { List JournalView };

    ghost view = { λ l. l.logs.items };
}

impl LogList {
    ghost use Rattle.std.specs.Prelude.{◌≡◌, ◌<◌, ◌≤◌, ◌↔◌, [], ◌∷◌, ◌++◌, length, IsTrue};
    ghost use Rattle.std.specs.Bool.{OnTrue, OnFalse};

    /// No log. It takes no memory: the allocator is for the logs in the places that aren't used, which have no room.
    pub fn new(alloc: Global) -> LogList
        ensures { result ≡ [] }
    {
        LogList {
            logs: ArrayVec::new_in(alloc),
        }
    }

    /// The logs in order.
    pub fn as_slice(&self) -> &[Log]
        ensures value { result.now ≡ self.now }
        ensures bound { length result.now ≤ 16 }
    {
        self.logs.as_slice()
    }

    /// Puts a log last. `false` exactly where there are [`MOST_LOGS`] already; the list is then unchanged.
    pub fn push(&mut self, log: Log) -> bool
        ensures room { IsTrue result ↔ (length self.old < 16) }
        ensures pushed { OnTrue result (self.new ≡ self.old ++ log ∷ []) }
        ensures unchanged { OnFalse result (self.new ≡ self.old) }
    {
        self.logs.try_push(log).is_ok()
    }
}

/// A list of journals.
#[derive(Drop)]
pub struct JournalList {
    journals: Vec<Journal>,
}

impl Model for JournalList {
    ghost use Rattle.std.specs.Prelude.{List};
    ghost use Rattle.move_journal.specs.Logs.{JournalView};

    ghost Value = { List JournalView };

    ghost view = { λ l. l.journals.items };
}

impl JournalList {
    ghost use Rattle.std.specs.Prelude.{◌≡◌, [], ◌∷◌, ◌++◌, OnOk, OnErr};

    /// No journal. It takes no memory.
    pub fn new(alloc: Global) -> JournalList
        ensures { result ≡ [] }
    {
        JournalList {
            journals: Vec::new(alloc),
        }
    }

    /// The journals in order.
    pub fn as_slice(&self) -> &[Journal]
        ensures { result.now ≡ self.now }
    {
        self.journals.as_slice()
    }

    /// Puts a journal last. The only error is that memory is refused; the list is then unchanged, and the journal is
    /// gone.
    pub fn push(&mut self, journal: Journal) -> Result<(), AllocError>
        ensures pushed { OnOk result (self.new ≡ self.old ++ journal ∷ []) }
        ensures unchanged { OnErr result (self.new ≡ self.old) }
    {
        self.journals.push(journal)?;
        Ok(())
    }
}

impl From<Vec<Journal>> for JournalList {
    ghost use Rattle.std.specs.Prelude.{◌≡◌};

    ghost from_gives = { λ journals list. list ≡ journals.items };

    /// The journals of a vector, in its order. It takes no memory.
    fn from(journals: Vec<Journal>) -> JournalList {
        JournalList { journals }
    }
}
