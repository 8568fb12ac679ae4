use entity_recs::Entry;
use std::alloc::{AllocError, Global};
use std::default::MadeWith;
use std::marker::Model;

/// The entries of moves, in the order in which they ran, with room for a number that was given when it was made: the
/// moves of a frame, or those of one worker.
#[derive(Drop)]
pub struct Journal {
    entries: Vec<Entry>,
    most: u32,
}

/// The journal of the moves that one worker ran.
pub type Log = Journal;

// Clauses see the entries, and for how many there is room.
impl Model for Journal {
    ghost use Rattle.std.specs.Prelude.{◌≤◌, vec_capacity};
    ghost use Rattle.move_journal.specs.Logs.{JournalView, journal_view};

    ghost Value = { JournalView };

    ghost view = { λ j. journal_view j.entries.items j.most };

    ghost invariant = { λ j. j.most ≤ vec_capacity j.entries };
}

impl Journal {
    ghost use Rattle.std.specs.Prelude.{◌≡◌, [], IfOk};
    ghost use Rattle.std.specs.List.Sorted.{IsPermutation, IsNonDecreasingBy};
    ghost use Rattle.move_journal.specs.Logs.{journal_view, JournalHasRoom, journal_with};

    /// No entry, with room for `most`. The only error is that memory is refused.
    pub fn new(alloc: Global, most: u32) -> Result<Journal, AllocError>
        ensures { IfOk result (λ journal. journal ≡ journal_view [] most) }
    {
        Ok(Journal {
            entries: Vec::with_capacity(alloc, most as usize)?,
            most,
        })
    }

    /// The entries in the order in which the moves ran.
    pub fn as_slice(&self) -> &[Entry]
        ensures { result.now ≡ self.now.entries }
    {
        self.entries.as_slice()
    }

    /// For how many entries there is room in all.
    pub fn room(&self) -> u32
        ensures { result ≡ self.now.room }
    {
        self.most
    }

    /// Empties the journal, and keeps its room.
    pub fn clear(&mut self)
        ensures { self.new ≡ journal_view [] self.old.room }
    {
        self.entries.clear();
    }

    /// Puts the entries in the order of their places.
    pub(crate) fn sort_by_place(&mut self)
        ensures entries { IsPermutation self.old.entries self.new.entries }
        ensures sorted { IsNonDecreasingBy (λ e. e.place) self.new.entries }
        ensures room { self.new.room ≡ self.old.room }
    {
        self.entries.sort_unstable_by_key(|e| e.place);
    }

    /// Puts an entry last. It takes no memory.
    pub fn push(&mut self, entry: Entry)
        requires { JournalHasRoom self.old }
        ensures { self.new ≡ journal_with self.old entry }
    {
        self.entries.push_reserved(entry);
    }
}

// What a list of logs has in the places that aren't used: a log without room, which takes no memory.
impl MadeWith<Global> for Journal {
    fn made_with(alloc: Global) -> Journal {
        Journal {
            entries: Vec::new(alloc),
            most: 0,
        }
    }
}
