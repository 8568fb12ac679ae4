ghost use Rattle.std.specs.Prelude.{◌≡◌, ◌<◌, length, slice_set};
ghost use Rattle.core_steps.specs.Cells as cells;
ghost use Rattle.core_steps.specs.Cells.{put, word_in, with_word, cell_of, with_bit, without_bit};
ghost use Rattle.core_steps.specs.Steps.{words_after_store};
ghost use Rattle.core_machine.specs.Points.{cell_in, store_of};
ghost use Rattle.core_machine.specs.Tables.{words_in, IsCellOf, IsStoreOf};

use crate::left::{list_with, list_without};
use crate::point::{Cell, Store};
use core_steps::{PlayerWords, TABLE_NODES, TABLE_STATES};
use entity_recs::SLOTS;

/// The shared words: the count of commits, each node's word, each node's list word, each player's five words, and each
/// entity's state word.
#[derive(Drop)]
pub struct Words {
    /// The count of commits.
    pub commits: u64,
    /// Who holds each node, 0 where nobody does.
    pub node: [u64; TABLE_NODES],
    /// Which players are linked at each node: bit p is player p.
    pub links: [u64; TABLE_NODES],
    /// The words of each player's record but its state.
    pub body: [PlayerWords; SLOTS],
    /// The state word of each id.
    pub state: [u64; TABLE_STATES],
}

/// A player's five words with another word at one place.
fn with_word_at(mut row: PlayerWords, k: u8, word: u64) -> PlayerWords
    requires { k < 5 }
    ensures value { result ≡ slice_set row k word }
    ensures five { length row ≡ 5 }
{
    row[usize::from(k)] = word;
    row
}

impl Words {
    /// The `k`-th of the six words of the player in this slot: its five words, and after them its state word.
    pub fn of_player(&self, slot: u8, k: usize) -> u64
        requires { slot < 64 }
        ensures { (beyond : cells.Words) → result ≡ word_in (words_in self.now beyond) (cell_of slot k) }
    {
        if k < 5 {
            self.body[usize::from(slot)][k]
        } else {
            self.state[usize::from(slot)]
        }
    }

    /// Stores a word of a record.
    pub fn set_cell(&mut self, cell: Cell, word: u64)
        requires { IsCellOf cell }
        ensures { (beyond : cells.Words) → words_in self.new beyond ≡ with_word (words_in self.old beyond)
            (cell_in cell) word }
    {
        match cell {
            Cell::Body(slot, k) => {
                let player = usize::from(slot);
                self.body[player] = with_word_at(self.body[player], k, word);
            }
            Cell::State(id) => self.state[usize::from(id)] = word,
        }
    }

    /// Sets the player's bit in the list word of a node.
    pub fn link(&mut self, node: u8, slot: u8)
        requires node { node < TABLE_NODES }
        requires slot { slot < 64 }
        ensures { (beyond : cells.Words) → words_in self.new beyond ≡ record (words_in self.old beyond) {
          links = put node (with_bit ((words_in self.old beyond).links node) slot) (words_in self.old beyond).links;
        } }
    {
        let word = self.links[usize::from(node)];
        self.links[usize::from(node)] = list_with(word, slot);
    }

    /// Clears the player's bit in the list word of a node.
    pub fn unlink(&mut self, node: u8, slot: u8)
        requires node { node < TABLE_NODES }
        requires slot { slot < 64 }
        ensures { (beyond : cells.Words) → words_in self.new beyond ≡ record (words_in self.old beyond) {
          links = put node (without_bit ((words_in self.old beyond).links node) slot)
              (words_in self.old beyond).links;
        } }
    {
        let word = self.links[usize::from(node)];
        self.links[usize::from(node)] = list_without(word, slot);
    }

    /// Makes a store that the player in this slot owes.
    pub fn make_store(&mut self, store: Store, slot: u8)
        requires store { IsStoreOf store }
        requires slot { slot < 64 }
        ensures { (beyond : cells.Words) → words_in self.new beyond ≡ words_after_store slot (store_of store)
            (words_in self.old beyond) }
    {
        match store {
            Store::Clear(node) => self.unlink(node, slot),
            Store::Put(cell, word) => self.set_cell(cell, word),
            Store::Link(node) => self.link(node, slot),
        }
    }
}
