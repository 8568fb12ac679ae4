ghost use Rattle.std.specs.Prelude.{◌≡◌, ◌≤◌, IfOk};
ghost use Rattle.entity_recs.specs.declared.limits.TheConstants.{IDS};
ghost use Rattle.ruled_words.specs.Passes.{sight_of};
ghost use Rattle.shared_moves.specs.Closing.{log_from};
ghost use Rattle.region_locks.specs.PassLists.{IsNew};
ghost use Rattle.region_locks.specs.Quitting.{has_command_in_hand};

use core_machine::{Point, Seat};
use entity_recs::{Effect, SLOTS};
use move_journal::Log;
use ruled_words::Hand;
use shared_moves::MoveRoom;
use std::alloc::{AllocError, Global};
use std::marker::{Model, PhantomData};

// What the place at the table has in view is known to clauses alone, so the pass keeps the same in plain values: its seat.
/// A worker's seat at the table.
#[derive(Drop)]
pub struct Pass<A> {
    pub(crate) hand: Hand,
    pub(crate) seat: Seat,
    pub(crate) effect: Option<Effect>,
    pub(crate) room: MoveRoom,
    of: PhantomData<A>,
}

impl<A> Model for Pass<A> {
    ghost use Rattle.ruled_words.specs.Passes.{PassView};
    ghost use Rattle.region_locks.specs.PassLists.{HasItsLists, pass_view};

    ghost Value = { PassView };

    ghost view = { λ p. pass_view p.hand p.seat p.effect };

    ghost invariant = { λ p. HasItsLists p.hand p.seat p.room.near };
}

impl<A> Pass<A> {
    /// The pass of a hand whose seat is new, with room for `room` entries, and from which `made` seats are made: with the
    /// same seat in plain values, and room of its own for what a move reads: for all that it can touch where `records`
    /// records live at the start. The only error is that memory is refused.
    pub(crate) fn new(
        alloc: Global,
        hand: Hand,
        room: u32,
        made: u8,
        records: usize,
    ) -> Result<Pass<A>, AllocError>
        requires new { IsNew records room made hand }
        requires few { records ≤ IDS }
        ensures { IfOk result (λ p. p ≡ hand) }
    {
        Ok(Pass {
            hand,
            seat: Seat::new(alloc, room, made, records)?,
            effect: None,
            room: MoveRoom::new(alloc, SLOTS + records)?,
            of: PhantomData,
        })
    }

    /// The pass's hand, and the entries of its log with its room. It takes no memory.
    pub(crate) fn into_parts(self) -> (Hand, Log)
        ensures hand { (result.0.table ≡ self.table) × (sight_of result.0 ≡ sight_of self) }
        ensures log { result.1 ≡ log_from self }
    {
        (self.hand, self.seat.log.into_entries())
    }

    /// The pass's number.
    pub fn number(&self) -> u8
        ensures { result ≡ self.now.number }
    {
        self.hand.number()
    }

    /// The count of commits that the pass has seen.
    pub fn seen(&self) -> u64
        ensures { result ≡ self.now.view.seen }
    {
        self.seat.seen
    }

    /// Whether the pass has a command in hand, begun or not.
    pub fn has_command(&self) -> bool
        ensures { result ≡ has_command_in_hand self.now }
    {
        self.seat.given.is_some() || !matches!(self.seat.point, Point::Idle)
    }
}
