use crate::rule::sight::Sight;
use arrayvec::ArrayVec;
use atomic_table::{Seat, Shared, TableRule};
use core_steps::MOST_SEATS;
use entity_recs::Action;
use std::marker::PhantomData;
use std::snapshot::Snapshot;
use world_tree::World;

/// What the table is given once, when it is made: the action, the world at the start, and the room of each pass.
#[derive(Drop)]
pub struct Key<A> {
    /// The action, which only clauses read.
    pub action: Snapshot<A>,
    /// The world at the start, which only clauses read.
    pub world: Snapshot<World>,
    /// How many entries each pass has room for.
    pub rooms: ArrayVec<u32, MOST_SEATS>,
}

/// The rule of the table, whole: that of every word and every seat, of which the words that lock nodes are a part. It
/// holds between any two steps of any threads.
pub struct Locks<A> {
    of: PhantomData<A>,
}

impl<A: Action> TableRule<(), Sight, Key<A>> for Locks<A> {
    ghost use Rattle.std.specs.Prelude.{slice_index};
    ghost use Rattle.ruled_words.specs.Starts.{fixed_by};
    ghost use Rattle.ruled_words.specs.Rule.{IsRuled, first_sight};

    ghost holds = { λ key s. IsRuled (fixed_by A.meaning key.action.value key.world.value)
        key.rooms.items s };

    ghost first = { λ key. first_sight (slice_index key.rooms.items 0) };
}

/// The words that threads share.
pub(crate) type Words<A> = Shared<(), Sight, Key<A>, Locks<A>>;

/// A seat at the table.
pub(crate) type TableSeat = Seat<(), Sight>;
