use entity_recs::SLOTS;
use snapshot_write::ReplyBuf;
use std::alloc::{AllocError, Global};
use std::marker::Model;

// The buffers of no reply are in a second list: of a part of a vector that is lent the prover follows no loan.
/// A list of at most [`SLOTS`] replies, each the bytes of a snapshot. It has the room for all of them from the
/// start.
#[derive(Drop)]
pub struct ReplyList {
    replies: Vec<ReplyBuf>,
    /// The buffers that no reply is in.
    spare: Vec<ReplyBuf>,
}

impl Model for ReplyList {
    ghost use Rattle.std.specs.Prelude.{◌≡◌, ℕ, ◌+◌, ◌≤◌, List, vec_len, vec_capacity};

    ghost Value = { List (List ℕ) };

    ghost view = { λ l. l.replies.items };

    ghost invariant = { λ l. (vec_len l.replies + vec_len l.spare ≡ 64)
        × (64 ≤ vec_capacity l.replies) × (64 ≤ vec_capacity l.spare) };
}

impl ReplyList {
    ghost use Rattle.std.specs.Prelude.{◌≡◌, ◌<◌, ◌≤◌, [], ◌∷◌, ◌++◌, length, replicate, IfOk};
    ghost use Rattle.std.specs.Borrow.{sem};
    ghost use Rattle.frame_phases.specs.ReplyLoans.{LendsItems};

    /// No reply, with room for [`SLOTS`]. The only error is that memory is refused.
    pub fn new(alloc: Global) -> Result<ReplyList, AllocError>
        ensures { IfOk result (λ replies. replies ≡ []) }
    {
        let mut spare = Vec::with_capacity(alloc, SLOTS)?;
        for _ in 0..SLOTS {
            spare.push_reserved(ReplyBuf::new(alloc)?);
        }
        Ok(ReplyList {
            replies: Vec::with_capacity(alloc, SLOTS)?,
            spare,
        })
    }

    /// The replies in their order.
    pub fn as_slice(&self) -> &[ReplyBuf]
        ensures value { result.now ≡ self.now }
        ensures bound { length self.now ≤ 64 }
    {
        self.replies.as_slice()
    }

    /// Lends the replies for writing.
    pub fn as_mut_slice(&mut self) -> &mut [ReplyBuf]
        ensures* written { sem 𝓛 (LendsItems self.entry result) }
        ensures value { result.now ≡ self.old }
    {
        self.replies.as_mut_slice()
    }

    /// Puts an empty reply last. It takes no memory.
    fn push_empty(&mut self)
        requires { length self.old < 64 }
        ensures { self.new ≡ self.old ++ [] ∷ [] }
    {
        let mut reply = self.spare.pop().unwrap();
        reply.clear();
        self.replies.push_reserved(reply);
    }

    /// Puts this many empty replies into the empty list. It takes no memory.
    pub(crate) fn fill_empty(&mut self, count: usize)
        requires most { count ≤ 64 }
        requires none { self.old ≡ [] }
        ensures { self.new ≡ replicate count [] }
    {
        for _ in 0..count {
            self.push_empty();
        }
    }

    /// Empties the list, and keeps its room.
    pub(crate) fn clear(&mut self)
        ensures { self.new ≡ [] }
    {
        while let Some(reply) = self.replies.pop() {
            self.spare.push_reserved(reply);
        }
    }
}
