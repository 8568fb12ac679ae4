ghost use Rattle.std.specs.Prelude.{◌≡◌, ◌<◌, [], ◌∷◌, length, map, IfOk};
ghost use Rattle.entity_recs.specs.Commands.{command_of};
ghost use Rattle.client_ports.specs.Lists.{no_lists, with_moves, with_join, with_refusal, received_view, room_for};

use crate::ports::MOST_MOVES;
use crate::refusal::Refusal;
use entity_recs::{Cmd, SLOTS};
use std::alloc::{AllocError, Global};
use std::marker::Model;

/// The most moves that a frame can have: 512, the most of a client in each slot.
pub const MOST_FRAME_MOVES: usize = MOST_MOVES as usize * SLOTS;

/// A packet that was refused.
#[derive(Clone, Copy, Debug, PartialEq, Eq)]
pub struct Refused {
    /// Its place in the frame, from 0.
    pub place: u32,
    /// The first refusal that holds.
    pub why: Refusal,
}

/// A player that joined.
#[derive(Clone, Copy, Debug, PartialEq, Eq)]
pub struct Joined {
    /// The port that it sends from.
    pub port: u16,
    /// The slot that it got, 0 to 63.
    pub slot: u8,
}

/// What the packets of a frame came to: the accepted moves, the joins and the refusals, each in the order of arrival,
/// with room for what as many packets can give as was said when it was made.
#[derive(Drop)]
pub struct Received {
    moves: Vec<Cmd>,
    joined: Vec<Joined>,
    refused: Vec<Refused>,
    most: u32,
}

// Clauses see the three lists, and the room of each.
impl Model for Received {
    ghost use Rattle.std.specs.Prelude.{map, vec_capacity};
    ghost use Rattle.entity_recs.specs.Commands.{command_of};
    ghost use Rattle.client_ports.specs.Lists.{ReceivedView, lists_of, received_view, room_for};
    ghost use Rattle.client_ports.specs.Rooms.{IsRoomy};

    ghost Value = { ReceivedView };

    ghost view = { λ r. received_view (lists_of (map command_of r.moves.items) r.joined.items r.refused.items)
        (room_for r.most) };

    ghost invariant = { λ r. IsRoomy r.most (vec_capacity r.moves) (vec_capacity r.joined) (vec_capacity r.refused) };
}

impl Received {
    /// Three empty lists, with room for `most` joins, `most` refusals and the lesser of `3 * most` and 512 moves: a packet
    /// has at most 3 commands, and each of 64 players at most 8 moves. The only error is that memory is refused.
    pub fn new(alloc: Global, most: u32) -> Result<Received, AllocError>
        ensures { IfOk result (λ r. r ≡ received_view no_lists (room_for most)) }
    {
        let room = most as usize;
        Ok(Received {
            moves: Vec::with_capacity(alloc, (3 * room).min(MOST_FRAME_MOVES))?,
            joined: Vec::with_capacity(alloc, room)?,
            refused: Vec::with_capacity(alloc, room)?,
            most,
        })
    }

    /// Empties the lists, and keeps their room.
    pub fn clear(&mut self)
        ensures { self.new ≡ received_view no_lists self.old.room }
    {
        self.moves.clear();
        self.joined.clear();
        self.refused.clear();
    }

    /// How many arrivals it has room for where its lists are empty.
    pub fn room(&self) -> u32
        ensures { room_for result ≡ self.now.room }
    {
        self.most
    }

    /// The accepted moves.
    pub fn moves(&self) -> &[Cmd]
        ensures { map command_of result.now ≡ self.now.lists.moves }
    {
        self.moves.as_slice()
    }

    /// The joins.
    pub fn joined(&self) -> &[Joined]
        ensures { result.now ≡ self.now.lists.joined }
    {
        self.joined.as_slice()
    }

    /// The refusals.
    pub fn refused(&self) -> &[Refused]
        ensures { result.now ≡ self.now.lists.refused }
    {
        self.refused.as_slice()
    }

    /// Puts a move last.
    pub(crate) fn accept(&mut self, command: Cmd)
        requires { length self.old.lists.moves < self.old.room.moves }
        ensures { self.new ≡ received_view (with_moves self.old.lists (command_of command ∷ [])) self.old.room }
    {
        self.moves.push_reserved(command);
    }

    /// Puts a join last.
    pub(crate) fn join(&mut self, port: u16, slot: u8)
        requires { length self.old.lists.joined < self.old.room.joined }
        ensures { self.new ≡ received_view (with_join self.old.lists port slot) self.old.room }
    {
        self.joined.push_reserved(Joined { port, slot });
    }

    /// Puts a refusal last.
    pub(crate) fn refuse(&mut self, place: usize, why: Refusal)
        requires place { place < self.old.room.refused }
        requires room { length self.old.lists.refused < self.old.room.refused }
        ensures { self.new ≡ received_view (with_refusal self.old.lists place why) self.old.room }
    {
        self.refused.push_reserved(Refused {
            place: place as u32,
            why,
        });
    }
}
