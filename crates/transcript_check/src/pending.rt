ghost use Rattle.std.specs.Prelude.{◌≡◌, ◌<◌, ◌≤◌, ◌↔◌, [], ◌∷◌, ◌++◌, ◌==◌, false, length, map, position, IsTrue, IfOk};
ghost use Rattle.std.specs.Prelude.{IfSome, None};
ghost use Rattle.std.specs.List.{AllByRecursion};
ghost use Rattle.entity_recs.specs.Commands.{command_of};
ghost use Rattle.plain_server.specs.Moving.{HasSmallNumber};
ghost use Rattle.transcript_check.specs.Moves.{IsNextOf};

use client_ports::MOST_FRAME_MOVES;
use entity_recs::Cmd;
use std::alloc::{AllocError, Global};
use std::marker::Model;

/// The moves of a frame that weren't run yet, in the order of arrival. It has the room for all from the start.
#[derive(Drop)]
pub struct Pending {
    moves: Vec<Cmd>,
}

impl Model for Pending {
    ghost use Rattle.std.specs.Prelude.{List, ◌≤◌, map, vec_capacity};
    ghost use Rattle.entity_recs.specs.Commands.{Command, command_of};
    ghost use Rattle.client_ports.specs.declared.received.TheConstants.{MOST_FRAME_MOVES};

    ghost Value = { List Command };

    ghost view = { λ p. map command_of p.moves.items };

    ghost invariant = { λ p. MOST_FRAME_MOVES ≤ vec_capacity p.moves };
}

/// The place of the first move of a slot.
fn first_of(moves: &[Cmd], slot: u8) -> Option<usize>
    ensures { result ≡ position (λ cmd. cmd.slot == slot) moves.now }
{
    moves.iter().position(|cmd| cmd.slot == slot)
}

impl Pending {
    /// No move. The only error is that memory is refused.
    pub fn new(alloc: Global) -> Result<Pending, AllocError>
        ensures { IfOk result (λ pending. pending ≡ []) }
    {
        Ok(Pending {
            moves: Vec::with_capacity(alloc, MOST_FRAME_MOVES)?,
        })
    }

    /// Puts a move last.
    fn push(&mut self, cmd: Cmd)
        requires { length self.old < MOST_FRAME_MOVES }
        ensures moves { self.new ≡ self.old ++ command_of cmd ∷ [] }
        ensures small { HasSmallNumber (command_of cmd) }
    {
        self.moves.push_reserved(cmd);
    }

    /// Has no move.
    fn clear(&mut self)
        ensures { self.new ≡ [] }
    {
        self.moves.clear();
    }

    /// Has these moves, and no others.
    pub fn set(&mut self, moves: &[Cmd])
        requires { length moves.now ≤ MOST_FRAME_MOVES }
        ensures moves { self.new ≡ map command_of moves.now }
        ensures small { AllByRecursion HasSmallNumber self.new }
    {
        self.clear();
        for cmd in moves {
            self.push(*cmd);
        }
    }

    /// Whether there is none.
    pub fn is_empty(&self) -> bool
        ensures { IsTrue result ↔ (self.now ≡ []) }
    {
        self.moves.is_empty()
    }

    /// Takes out the first move of a slot, if it has one.
    pub fn take_first_of(&mut self, slot: u8) -> Option<Cmd>
        ensures some { IfSome result (λ cmd. IsNextOf self.old (command_of cmd) self.new) }
        ensures slot { IfSome result (λ cmd. cmd.slot ≡ slot) }
        ensures none { result ≡ None → AllByRecursion (λ c. (c.slot == slot) ≡ false) self.old }
    {
        let place = first_of(&self.moves, slot)?;
        Some(self.moves.remove(place))
    }
}
