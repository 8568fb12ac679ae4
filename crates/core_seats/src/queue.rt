ghost use Rattle.std.specs.Prelude.{◌≡◌, ◌≤◌, ◌<◌, ◌+◌, ◌∷◌, ◌++◌, ◌==◌, [], length, MatchOption};

use areanode::MOST_NODES;
use arrayvec::ArrayVec;
use std::marker::Model;

/// A list of nodes, each at most once.
pub type NodeQueue = Queue<u8, MOST_NODES>;

/// The words of a record that were loaded: a player's five, then the state word.
pub type WordList = ArrayVec<u64, 6>;

/// A list of at most `N` elements in the value itself, whose first is taken out without moving the others.
#[derive(Drop)]
pub struct Queue<T, const N: usize> {
    places: [T; N],
    from: usize,
    to: usize,
}

impl<T, const N: usize> Model for Queue<T, N> {
    ghost use Rattle.std.specs.Prelude.{◌≡◌, ◌≤◌, length, take, drop};
    ghost use Rattle.arrayvec.specs.ArrayVec.{ArrayVec as Items};

    ghost Value = { Items T };

    ghost view = { λ q. record { items = drop q.from (take q.to q.places) } };

    ghost invariant = { λ q. (q.from ≤ q.to) × (q.to ≤ N) × (length q.places ≡ N) };
}

impl<T: Copy + Default, const N: usize> Queue<T, N> {
    /// An empty list.
    pub fn new() -> Queue<T, N>
        ensures { result.items ≡ [] }
    {
        Queue {
            places: Default::default(),
            from: 0,
            to: 0,
        }
    }

    /// The list once more.
    pub fn copied(&self) -> Queue<T, N>
        ensures { result.items ≡ self.now.items }
    {
        Queue {
            places: self.places,
            from: self.from,
            to: self.to,
        }
    }

    /// The elements, the first in front.
    pub fn as_slice(&self) -> &[T]
        ensures value { result.now ≡ self.now.items }
        ensures fits { length result.now ≤ N }
    {
        let filled = &self.places[..self.to];
        &filled[self.from..]
    }

    /// Whether there is no element.
    pub fn is_empty(&self) -> bool
        ensures { result ≡ (length self.now.items == 0) }
    {
        self.from == self.to
    }

    /// Moves the elements to the front of the places, and appends one. There must be room.
    fn push_moved(&mut self, element: T)
        requires { length self.old.items < N }
        ensures { self.new.items ≡ self.old.items ++ element ∷ [] }
    {
        let len = self.to - self.from;
        self.places.copy_within(self.from..self.to, 0);
        self.places[len] = element;
        self.from = 0;
        self.to = len + 1;
    }

    /// Appends an element. There must be room.
    pub fn push(&mut self, element: T)
        requires { length self.old.items < N }
        ensures items { self.new.items ≡ self.old.items ++ element ∷ [] }
        ensures len { length self.new.items ≡ length self.old.items + 1 }
    {
        if self.to < N {
            self.places[self.to] = element;
            self.to += 1;
        } else {
            self.push_moved(element);
        }
    }

    /// Takes the first element out, if there is one.
    pub fn pop_first(&mut self) -> Option<T>
        ensures { MatchOption result ((self.old.items ≡ []) × (self.new.items ≡ []))
            (λ first. self.old.items ≡ first ∷ self.new.items) }
    {
        if self.from == self.to {
            return None;
        }
        let first = self.places[self.from];
        self.from += 1;
        Some(first)
    }
}
