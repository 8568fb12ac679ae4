ghost use Rattle.std.specs.Prelude.{◌≡◌, IfOk};

use core_seats::LoadedPlayers;
use entity_recs::SLOTS;
use std::alloc::{AllocError, Global};
use world_tree::NearList;

/// Room for what a move reads, which is kept from one move to the next. What is in it before a move doesn't matter.
#[derive(Drop)]
pub struct MoveRoom {
    /// Room for the records near a move.
    pub near: NearList,
    /// Room for the words of the players that a move loads, by slot.
    pub by_slot: Box<LoadedPlayers>,
}

impl MoveRoom {
    /// Room for this many records near a move. The only error is that memory is refused.
    pub fn new(alloc: Global, near_room: usize) -> Result<MoveRoom, AllocError>
        ensures { IfOk result (λ r. r.near.room ≡ near_room) }
    {
        Ok(MoveRoom {
            near: NearList::new(alloc, near_room)?,
            by_slot: Box::new(alloc, [[0; 6]; SLOTS])?,
        })
    }
}
