ghost use Rattle.std.specs.Prelude.{◌≡◌, ◌<◌};
ghost use Rattle.areanode.specs.declared.sizes.TheConstants.{MOST_LEAVES};
ghost use Rattle.core_steps.specs.Nodes.{inner_nodes};
ghost use Rattle.ruled_words.specs.Passes.{fixed_in};
ghost use Rattle.ruled_words.specs.Starts.{rules_of};

use crate::rule::key::{Key, Locks};
use crate::rule::sight::Sight;
use atomic_table::Table;
use core_seats::Rules;
use entity_recs::Action;
use std::alloc::Global;
use std::marker::Model;

/// The shared words with their memory.
pub(crate) type WordTable<A> = Table<(), Sight, Key<A>, Locks<A>, Global>;

/// The words that threads share, under their rule, with the rules of the action by which they are read and written.
#[derive(Drop)]
pub struct SharedWords<'a, A: Action> {
    pub(crate) rules: Rules<'a, A>,
    pub(crate) table: WordTable<A>,
}

impl<'a, A: Action> Model for SharedWords<'a, A> {
    ghost use Rattle.std.specs.Prelude.{◌≡◌};
    ghost use Rattle.core_steps.specs.declared.sizes.TheConstants.{TABLE_WORDS};
    ghost use Rattle.ruled_words.specs.Passes.{TableView};
    ghost use Rattle.ruled_words.specs.Rule.{HasSomeRooms};
    ghost use Rattle.ruled_words.specs.Starts.{rules_of};

    ghost Value = { TableView A };

    ghost view = { λ t. record {
      table = t.table.shared.table_id;
      action = t.table.shared.key.action.value;
      world
          = t.table.shared.key.world.value;
      rooms = t.table.shared.key.rooms.items;
    } };

    ghost invariant = { λ t. (t.table.shared.table_id.words ≡ TABLE_WORDS)
        × (t.rules ≡ rules_of t.table.shared.key.action.value t.table.shared.key.world.value)
        × (t.table.shared.table_id.slots ≡ 0) × HasSomeRooms t.table.shared.key.rooms.items };
}

impl<'a, A: Action> SharedWords<'a, A> {
    /// The rules of the action in the world at the start.
    pub fn rules(&self) -> &Rules<'a, A>
        ensures { result.now ≡ rules_of self.now.action self.now.world }
    {
        &self.rules
    }

    /// The first leaf's node, which is also the number of inner nodes.
    pub fn first_leaf(&self) -> u8
        ensures value { result ≡ inner_nodes (fixed_in A.meaning self.now) }
        ensures few { result < MOST_LEAVES }
    {
        self.rules.first_leaf()
    }
}
