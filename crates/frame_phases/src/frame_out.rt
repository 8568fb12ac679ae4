ghost use Rattle.std.specs.Prelude.{◌≡◌};
ghost use Rattle.client_ports.specs.Lists.{room_for};
ghost use Rattle.packet_read.specs.declared.arrival.TheConstants.{MOST_ARRIVALS};

use crate::replies::ReplyList;
use crate::slots::SlotList;
use client_ports::Received;
use move_journal::Journal;
use packet_read::MOST_ARRIVALS;
use std::alloc::{AllocError, Global};

// The replies are written before the leaves, from the world after the moves, so nobody needs that world once the
// frame is over, and the printer needs none.
/// What a frame gives out.
#[derive(Drop)]
pub struct FrameOut {
    /// The frame's number, from 0.
    pub frame: u32,
    /// What its packets came to.
    pub received: Received,
    /// Its moves, in the order in which they ran.
    pub journal: Journal,
    /// The live slots after the moves, in rising order: those that leave in the frame are among them.
    pub slots: SlotList,
    /// The snapshot of each of these slots' players, in the same order.
    pub replies: ReplyList,
    ghost lists_fit: { received.room ≡ room_for MOST_ARRIVALS },
    ghost journal_fits: { journal.room ≡ MOST_ARRIVALS },
}

impl FrameOut {
    ghost use Rattle.std.specs.Prelude.{IfOk};
    ghost use Rattle.frame_phases.specs.FrameOuts.{IsEmpty};

    /// Empty lists, with room for all that a frame can give out. The only error is that memory is refused.
    pub fn new(alloc: Global) -> Result<FrameOut, AllocError>
        ensures { IfOk result IsEmpty }
    {
        Ok(FrameOut {
            frame: 0,
            received: Received::new(alloc, MOST_ARRIVALS)?,
            journal: Journal::new(alloc, MOST_ARRIVALS)?,
            slots: SlotList::new(),
            replies: ReplyList::new(alloc)?,
        })
    }

    /// Empties all lists, and keeps their room.
    pub(crate) fn clear(&mut self)
        ensures { IsEmpty self.new }
    {
        self.received.clear();
        self.journal.clear();
        self.slots.clear();
        self.replies.clear();
    }
}
