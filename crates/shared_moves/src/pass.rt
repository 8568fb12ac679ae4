ghost use Rattle.std.specs.Prelude.{◌≡◌, ◌<◌, List, [], ◌∷◌, ◌++◌, length, IfOk};
ghost use Rattle.entity_recs.specs.Commands.{Command};
ghost use Rattle.entity_recs.specs.Histories.{Item};
ghost use Rattle.ruled_words.specs.Passes.{sight_of};
ghost use Rattle.shared_moves.specs.PassParts.{IsFresh};
ghost use Rattle.shared_moves.specs.Closing.{log_from};
ghost use Rattle.shared_moves.specs.InHand.{item_of};

use crate::move_room::MoveRoom;
use core_seats::Refusals;
use entity_recs::Entry;
use move_journal::{Log, same_entry};
use ruled_words::Hand;
use std::alloc::{AllocError, Global};
use std::marker::{Model, PhantomData};

/// The passes of a shared world, in rising number.
pub type PassList<A> = Vec<Pass<A>>;

/// A worker's seat at the shared words of a frame: its hand, the entries that it has committed, its refused takes, and
/// room for what a move reads.
#[derive(Drop)]
pub struct Pass<A> {
    pub(crate) hand: Hand,
    pub(crate) log: Log,
    pub(crate) refusals: Refusals,
    pub(crate) room: MoveRoom,
    of: PhantomData<A>,
}

impl<A> Model for Pass<A> {
    ghost use Rattle.ruled_words.specs.Passes.{PassView};
    ghost use Rattle.shared_moves.specs.PassParts.{IsKeptBeside};

    ghost Value = { PassView };

    ghost view = { λ p. p.hand };

    ghost invariant = { λ p. IsKeptBeside p.hand p.log p.refusals p.room.near };
}

impl<A> Pass<A> {
    /// The pass of a hand whose seat is new, with room for `room` entries, as its seat has, and for `near_room` records near
    /// a move. The only error is that memory is refused.
    pub(crate) fn new(
        alloc: Global,
        hand: Hand,
        room: u32,
        near_room: usize,
    ) -> Result<Pass<A>, AllocError>
        requires { IsFresh near_room room hand }
        ensures { IfOk result (λ p. p ≡ hand) }
    {
        Ok(Pass {
            hand,
            log: Log::new(alloc, room)?,
            refusals: Refusals::new(),
            room: MoveRoom::new(alloc, near_room)?,
            of: PhantomData,
        })
    }

    /// The pass's hand, and the entries of its log with its room. It takes no memory.
    pub(crate) fn into_parts(self) -> (Hand, Log)
        ensures hand { (result.0.table ≡ self.table) × (sight_of result.0 ≡ sight_of self) }
        ensures log { result.1 ≡ log_from self }
    {
        (self.hand, self.log)
    }

    /// The entry that the log ends with, once more.
    pub(crate) fn last_entry(&self) -> Entry
        requires { 0 < length self.now.view.log }
        ensures { (earlier : List Item) (c : Command) (e : Entry)
            → self.now.view.log ≡ earlier ++ item_of c e ∷ [] → result ≡ e }
    {
        let entries = self.log.as_slice();
        same_entry(&entries[entries.len() - 1])
    }

    /// How many of the pass's takes were refused.
    pub fn refused_takes(&self) -> u64
        ensures { result ≡ self.now.view.refusals }
    {
        self.refusals.count
    }

    /// The pass's number.
    pub fn number(&self) -> u8
        ensures { result ≡ self.now.number }
    {
        self.hand.number()
    }
}
