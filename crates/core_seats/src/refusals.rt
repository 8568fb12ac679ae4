use crate::lists::same_words;
use crate::queue::{NodeQueue, WordList};

/// The last refused take: its node, the word that was found, the own record as loaded, and the leaves wanted.
#[derive(Drop)]
pub struct Refused {
    /// The node that was held.
    pub node: u8,
    /// The node's word, which names the holder.
    pub word: u64,
    /// The words of the own record, as they were loaded at that step.
    pub own: WordList,
    /// The leaves that the command wanted at that step.
    pub wanted: NodeQueue,
}

/// The takes of a seat that were refused.
#[derive(Drop)]
pub struct Refusals {
    /// How many there were, at most 2^64 - 1.
    pub count: u64,
    /// The last one.
    pub last: Option<Refused>,
}

impl Refusals {
    ghost use Rattle.std.specs.Prelude.{◌≡◌, ◌≤◌, ◌+◌, ◌-◌, ◌^◌, length, min, Some, None};
    ghost use Rattle.core_seats.specs.Refusals.{last_of};

    /// No take was refused.
    pub fn new() -> Refusals
        ensures count { result.count ≡ 0 }
        ensures last { result.last ≡ None }
    {
        Refusals {
            count: 0,
            last: None,
        }
    }

    /// Counts a refused take of this node, where this word was found, and keeps it as the last one, with the words of
    /// the own record and the leaves wanted.
    pub fn note(&mut self, node: u8, word: u64, own: &[u64], wanted: &NodeQueue)
        requires { length own.now ≤ 6 }
        ensures count { self.new.count ≡ min (self.old.count + 1) (2 ^ 64 - 1) }
        ensures last { last_of self.new ≡ Some (record {
          node = node;
          word = word;
          own = own.now;
          wanted = wanted.now.items;
        }) }
    {
        self.count = self.count.saturating_add(1);
        self.last = Some(Refused {
            node,
            word,
            own: same_words(own),
            wanted: wanted.copied(),
        });
    }
}
