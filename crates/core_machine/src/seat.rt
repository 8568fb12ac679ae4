use crate::log::SeatLog;
use crate::point::{Point, Queues};
use areanode::MOST_NODES;
use arrayvec::ArrayVec;
use core_seats::{NodeQueue, PlayerRead, Queue, Refusals, WordList};
use entity_recs::{Cmd, Effect, Entry};
use std::alloc::{AllocError, Global};

/// The word of a node's list that was loaded.
#[derive(Clone, Copy, Debug, Default, PartialEq, Eq)]
pub struct ListRead {
    /// The node.
    pub node: u8,
    /// Its list word: bit p is set where player p is linked at the node.
    pub word: u64,
}

/// What a seat has in view, with what no view has yet: the command that was given and isn't begun, and whether the seat
/// is to give up. In the lists of what was read the newest comes first.
#[derive(Drop)]
pub struct Seat {
    /// The count of commits that was seen last.
    pub seen: u64,
    /// What the seat has committed.
    pub log: SeatLog,
    /// The takes that were refused.
    pub refusals: Refusals,
    /// How many seats were made from this one, itself among them.
    pub made: u8,
    /// The command that is begun.
    pub cmd: Option<Cmd>,
    /// How far the command is.
    pub point: Point,
    /// The lists that the point speaks of.
    pub queues: Queues,
    /// The words of the own record that are loaded.
    pub own: WordList,
    /// The leaves that the command wants.
    pub wanted: NodeQueue,
    /// The words of the own record that are loaded again, once all leaves are held.
    pub again: WordList,
    /// The list words that are loaded.
    pub lists: ArrayVec<ListRead, MOST_NODES>,
    /// The words of other players that are loaded.
    pub others: ArrayVec<PlayerRead, 64>,
    /// The effect of the command, once it is in view.
    pub effect: Option<Effect>,
    /// The command that was given and isn't begun.
    pub given: Option<Cmd>,
    /// Whether the seat is to give up its command.
    pub quits: bool,
}

impl Seat {
    ghost use Rattle.std.specs.Prelude.{◌≡◌, ◌<◌, ◌-◌, ◌^◌, suc, [], ◌∷◌, ◌++◌, length, IfOk};
    ghost use Rattle.core_steps.specs.Reads.{without_command};
    ghost use Rattle.entity_recs.specs.Commands.{command_of};
    ghost use Rattle.core_machine.specs.Seats.{view_of, things_room, IsFresh};

    /// A seat without a command and with room for `room` entries and for the states of `things` things of the map. `made`
    /// is how many seats are made from it: with itself, all for the first seat, and 0 for the others. The only error is
    /// that memory is refused.
    pub fn new(alloc: Global, room: u32, made: u8, things: usize) -> Result<Seat, AllocError>
        ensures { IfOk result (IsFresh room made things) }
    {
        Ok(Seat {
            seen: 0,
            log: SeatLog::new(alloc, room)?,
            refusals: Refusals::new(),
            made,
            cmd: None,
            point: Point::Idle,
            queues: Queues::new(alloc, things)?,
            own: ArrayVec::new(),
            wanted: Queue::new(),
            again: ArrayVec::new(),
            lists: ArrayVec::new(),
            others: ArrayVec::new(),
            effect: None,
            given: None,
            quits: false,
        })
    }

    /// Lets the command go, with all that was read for it.
    pub fn forget(&mut self)
        ensures view { view_of self.new ≡ without_command (view_of self.old) }
        ensures given { self.new.given ≡ self.old.given }
        ensures quits { self.new.quits ≡ self.old.quits }
        ensures things { things_room self.new ≡ things_room self.old }
    {
        self.cmd = None;
        self.point = Point::Idle;
        self.own.clear();
        self.wanted = Queue::new();
        self.again.clear();
        self.lists.clear();
        self.others.clear();
        self.queues.things.forget_states();
        self.effect = None;
    }

    /// Puts a command that was committed with this entry last in the log; the count after it is then seen.
    pub fn keep(&mut self, cmd: Cmd, entry: Entry)
        requires room { length self.old.log.items < self.old.log.room }
        requires place { entry.place < 2 ^ 64 - 1 }
        ensures view { view_of self.new ≡ record (view_of self.old) {
          log = (view_of self.old).log ++ record { command = command_of cmd; entry = entry } ∷ [];
          seen = suc entry.place;
        } }
        ensures given { self.new.given ≡ self.old.given }
        ensures quits { self.new.quits ≡ self.old.quits }
        ensures things { things_room self.new ≡ things_room self.old }
    {
        self.seen = entry.place + 1;
        self.log.push(cmd, entry);
    }
}
