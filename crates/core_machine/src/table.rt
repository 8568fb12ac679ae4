use crate::point::Cell;
use crate::words::Words;
use core_steps::{FIRST_LIST_WORD, FIRST_RECORD_WORD, FIRST_STATE_WORD, TABLE_WORDS};

/// Where each part of the table begins.
const LISTS: usize = FIRST_LIST_WORD as usize;

const RECORDS: usize = FIRST_RECORD_WORD as usize;

const STATES: usize = FIRST_STATE_WORD as usize;

impl Words {
    ghost use Rattle.std.specs.Prelude.{◌≡◌, ◌<◌};
    ghost use Rattle.core_steps.specs.Cells as cells;
    ghost use Rattle.core_machine.specs.Tables.{words_in, with_word_at};

    /// The word at an index of the table: the count of commits, then each node's word, each node's list word, each
    /// player's five words, and each entity's state word.
    pub fn get(&self, index: usize) -> u64
        requires { index < TABLE_WORDS }
        ensures { (beyond : cells.Words) → result ≡ cells.word_at (words_in self.now beyond) index }
    {
        if index == 0 {
            self.commits
        } else if index < LISTS {
            self.node[index - 1]
        } else if index < RECORDS {
            self.links[index - LISTS]
        } else if index < STATES {
            self.body[(index - RECORDS) / 5][(index - RECORDS) % 5]
        } else {
            self.state[index - STATES]
        }
    }

    /// Stores a word at an index of the table.
    pub fn set(&mut self, index: usize, word: u64)
        requires { index < TABLE_WORDS }
        ensures { (beyond : cells.Words) → words_in self.new beyond
            ≡ with_word_at (words_in self.old beyond) index word }
    {
        if index == 0 {
            self.commits = word;
        } else if index < LISTS {
            self.node[index - 1] = word;
        } else if index < RECORDS {
            self.links[index - LISTS] = word;
        } else if index < STATES {
            self.set_cell(
                Cell::Body(((index - RECORDS) / 5) as u8, ((index - RECORDS) % 5) as u8),
                word,
            );
        } else {
            self.set_cell(Cell::State((index - STATES) as u16), word);
        }
    }
}
