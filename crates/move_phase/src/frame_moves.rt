ghost use Rattle.std.specs.Prelude.{◌≡◌, ◌≤◌, [], length, Some, None, vec_capacity};
ghost use Rattle.client_ports.specs.declared.received.TheConstants.{MOST_FRAME_MOVES};

use arena_actions::MapAction;
use client_ports::MOST_FRAME_MOVES;
use entity_recs::Cmd;
use shared_moves::Shared;
use std::alloc::{AllocError, Global};

/// What the passes of a frame share: the world, the moves, and how many passes there are. Between two frames it keeps the
/// room for the moves.
#[derive(Drop)]
pub struct FrameMoves<'a> {
    /// None between two frames.
    pub shared: Option<Shared<'a, MapAction>>,
    pub moves: Vec<Cmd>,
    pub workers: u8,
}

impl<'a> FrameMoves<'a> {
    ghost use Rattle.std.specs.Prelude.{◌≡◌, ◌≤◌, length, Some, IfOk, vec_capacity};
    ghost use Rattle.client_ports.specs.declared.received.TheConstants.{MOST_FRAME_MOVES};

    /// No frame, with room for the moves of any. The only error is that memory is refused.
    pub fn none(alloc: Global) -> Result<FrameMoves<'a>, AllocError>
        ensures { IfOk result (λ frame. MOST_FRAME_MOVES ≤ vec_capacity frame.moves) }
    {
        Ok(FrameMoves {
            shared: None,
            moves: Vec::with_capacity(alloc, MOST_FRAME_MOVES)?,
            workers: 0,
        })
    }

    /// Puts a frame in. It takes no memory.
    pub fn put(&mut self, shared: Shared<'a, MapAction>, moves: &[Cmd], workers: u8)
        requires room { length moves.now ≤ vec_capacity self.old.moves }
        ensures shared { self.new.shared ≡ Some shared.entry }
        ensures moves { self.new.moves.items ≡ moves.now }
        ensures workers { self.new.workers ≡ workers }
        ensures room { vec_capacity self.old.moves ≤ vec_capacity self.new.moves }
    {
        self.shared = Some(shared);
        self.moves.clear();
        self.moves.extend_from_slice(moves).unwrap();
        self.workers = workers;
    }
}
