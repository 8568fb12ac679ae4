ghost use Rattle.std.specs.Prelude.{◌≡◌, map};
ghost use Rattle.core_steps.specs.Points.{stores_owed};
ghost use Rattle.core_steps.specs.Cells.{cell_index};
ghost use Rattle.core_machine.specs.Points.{cell_in, store_of};
ghost use Rattle.core_machine.specs.Seats.{view_of, hand_of};
ghost use Rattle.region_locks.specs.NextCalls as passes;

use crate::pass::Pass;
use core_machine::{Cell, Point, Seat, Store};
use core_steps::{FIRST_STATE_WORD, record_word};

/// The node at which the own bit is cleared or set by the first of these stores, and 0 where it is none of the bit.
fn bit_of_first(stores: &[Store]) -> u8
    ensures { result ≡ passes.bit_owed (map store_of stores.now) }
{
    match stores {
        [Store::Clear(node), ..] | [Store::Link(node), ..] => *node,
        [Store::Put(..), ..] | [] => 0,
    }
}

/// The node at which the own bit is cleared or set next, and 0 where that isn't the next step.
pub(crate) fn bit_owed(seat: &Seat) -> u8
    ensures { result ≡ passes.bit_owed (stores_owed (view_of seat.now).point) }
{
    match seat.point {
        Point::Storing => bit_of_first(seat.queues.stores.as_slice()),
        _ => 0,
    }
}

/// Whether the first of these stores clears the own bit.
fn clears_bit(stores: &[Store]) -> bool
    ensures { result ≡ passes.clears_first (map store_of stores.now) }
{
    matches!(stores, [Store::Clear(_), ..])
}

/// The index of a word of a record in the table.
fn index_of_cell(cell: Cell) -> usize
    ensures { result ≡ cell_index (cell_in cell) }
{
    match cell {
        Cell::Body(slot, k) => usize::from(record_word(slot)) + usize::from(k),
        Cell::State(id) => usize::from(FIRST_STATE_WORD) + usize::from(id),
    }
}

/// The index and the word of the first of these stores, and 0 where it puts no word.
fn put_of_first(stores: &[Store]) -> (usize, u64)
    ensures { result ≡ (passes.index_owed (map store_of stores.now), passes.word_owed (map store_of stores.now)) }
{
    match stores {
        [Store::Put(cell, word), ..] => (index_of_cell(*cell), *word),
        [Store::Clear(_), ..] | [Store::Link(_), ..] | [] => (0, 0),
    }
}

/// The index and the word of the store that is made next, and 0 where it puts no word of a record.
pub(crate) fn put_owed(seat: &Seat) -> (usize, u64)
    ensures { result ≡ (
      passes.index_owed (stores_owed (view_of seat.now).point),
      passes.word_owed (stores_owed (view_of seat.now).point),
    ) }
{
    match seat.point {
        Point::Storing => put_of_first(seat.queues.stores.as_slice()),
        _ => (0, 0),
    }
}

impl<A> Pass<A> {
    /// Whether the store that is made next, if one is, clears the own bit: it is `unlink` that is called.
    pub fn unlinks_next(&self) -> bool
        ensures { result ≡ passes.clears_first (stores_owed self.now.view.point) }
    {
        match self.seat.point {
            Point::Storing => clears_bit(self.seat.queues.stores.as_slice()),
            _ => false,
        }
    }
}

/// The slot and the player's own number of the command in hand.
pub(crate) fn slot_and_seq(seat: &Seat) -> (u8, u32)
    ensures { result ≡ ((hand_of seat.now.cmd).slot, (hand_of seat.now.cmd).seq) }
{
    match &seat.cmd {
        Some(c) => (c.slot, c.seq),
        None => (0, 0),
    }
}
