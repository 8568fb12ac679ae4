use crate::thing_reads::ThingReads;
use arrayvec::ArrayVec;
use core_seats::{NodeQueue, Queue, WordList};
use std::alloc::{AllocError, Global};

/// A list of players' slots, each at most once.
pub type SlotQueue = Queue<u8, 64>;

/// The most stores of a command: the own bit is cleared and set, and between them come the own record's six words and
/// the state words of the things that the effect lists, at most eight.
pub const MOST_STORES: usize = 16;

/// A list of stores that are owed.
pub type StoreQueue = Queue<Store, MOST_STORES>;

/// The word of a record that is stored.
#[derive(Clone, Copy, Debug, PartialEq, Eq)]
pub enum Cell {
    /// One of the five words of the player in this slot.
    Body(u8, u8),
    /// The state word of this id.
    State(u16),
}

/// A store that is owed after a commit.
#[derive(Clone, Copy, Debug, PartialEq, Eq)]
pub enum Store {
    /// The own bit is cleared in the list word of the old node.
    Clear(u8),
    /// A word is stored.
    Put(Cell, u64),
    /// The own bit is set in the list word of the new node.
    Link(u8),
}

impl Default for Store {
    /// What is in the places of a list that aren't used.
    fn default() -> Store {
        Store::Clear(0)
    }
}

// The lists that a seat's point speaks of are beside it: with the lists in the point each step built and moved some
// 600 bytes twice, half the time of a move.
/// The lists that a seat's point speaks of, and the states of things that are loaded. In each list the first comes next.
/// Where the point doesn't speak of a list, it holds whatever was left in it.
#[derive(Drop)]
pub struct Queues {
    /// The nodes that are held: leaves while leaves are taken, and else inner nodes.
    pub got: NodeQueue,
    /// The nodes that are to be taken, or the leaves that are to be given back.
    pub rest: NodeQueue,
    /// The nodes that are visited after the present one.
    pub plan: NodeQueue,
    /// The words that were loaded of the first of the players.
    pub part: WordList,
    /// The players that are loaded under the present node.
    pub players: SlotQueue,
    /// The states of things of the map that are loaded, and the things whose states are to be loaded.
    pub things: ThingReads,
    /// The stores that are owed.
    pub stores: StoreQueue,
}

impl Queues {
    ghost use Rattle.std.specs.Prelude.{IfOk};
    ghost use Rattle.core_machine.specs.Points.{AreEmpty};

    /// Empty lists, with room for the states of `things` things. The only error is that memory is refused.
    pub fn new(alloc: Global, things: usize) -> Result<Queues, AllocError>
        ensures { IfOk result (AreEmpty things) }
    {
        Ok(Queues {
            got: Queue::new(),
            rest: Queue::new(),
            plan: Queue::new(),
            part: ArrayVec::new(),
            players: Queue::new(),
            things: ThingReads::new(alloc, things)?,
            stores: Queue::new(),
        })
    }
}

/// What a seat has left to do. The lists of it are beside it in the seat, so that a step changes them in place.
#[derive(Clone, Copy, Debug, PartialEq, Eq)]
pub enum Point {
    /// No command is in hand.
    Idle,
    /// The rest of the own record is to be loaded.
    Owning,
    /// The leaves `got` are taken, and `rest` are to be taken.
    Taking,
    /// The rest of the own record is to be loaded again.
    Checking,
    /// This inner node is to be taken and visited, then the nodes of `plan`.
    Entering { node: u8 },
    /// The list word of this node is to be loaded.
    Entered { node: u8 },
    /// Under this node the first of `players` is loaded, of which the words `part` are loaded.
    Loading { node: u8 },
    /// This inner node is to be given back.
    Leaving { node: u8 },
    /// The states of the things `things.ids` of the map are to be loaded.
    Sensing,
    /// All is read: the effect enters the view with the next step.
    Resolving,
    /// The write nodes `got` are taken, and `rest` are to be taken; then comes the commit.
    Claiming,
    /// The write nodes `got` are held, and `stores` are owed.
    Storing,
    /// The write nodes `got` are to be given back, then the leaves.
    Releasing,
    /// The leaves `rest` are to be given back.
    Returning,
    /// The command is given up: the inner nodes `got` and the leaves `rest` are to be given back.
    Yielding,
}

impl Point {
    ghost use Rattle.std.specs.Prelude.{◌≡◌};
    ghost use Rattle.core_machine.specs.declared.point.Queues.{Queues};
    ghost use Rattle.core_steps.specs.Steps as steps;
    ghost use Rattle.core_machine.specs.Points.{point_of};

    /// Whether a node is to be taken next, or the command is to be committed: the command may be given up.
    pub fn is_taking(&self) -> bool
        ensures { (queues : Queues) → result ≡ steps.is_taking (point_of queues self.now) }
    {
        match self {
            Point::Taking | Point::Entering { .. } | Point::Resolving | Point::Claiming => true,
            Point::Idle
            | Point::Owning
            | Point::Checking
            | Point::Entered { .. }
            | Point::Loading { .. }
            | Point::Leaving { .. }
            | Point::Sensing
            | Point::Storing
            | Point::Releasing
            | Point::Returning
            | Point::Yielding => false,
        }
    }
}
