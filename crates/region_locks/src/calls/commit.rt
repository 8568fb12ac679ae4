ghost use Rattle.std.specs.Prelude.{◌≡◌, ◌≤◌, true, IfSome, IsSomeAnd, Some};
ghost use Rattle.entity_recs.specs.Histories.{entry_of};
ghost use Rattle.ruled_words.specs.Passes.{first_effect, IsOwn, next_in, after_in};
ghost use Rattle.ruled_words.specs.Passes.{effect_in_hand};
ghost use Rattle.region_locks.specs.NextCalls.{is_commit_next};

use crate::owed::slot_and_seq;
use crate::pass::Pass;
use crate::table::NodeTable;
use arena_geo::Vec3;
use entity_recs::{Action, Effect, Entry, IdList, Reply};
use move_journal::same_reply;
use ruled_words::WordStep;

/// The reply of the effect, and in place of one that isn't there an empty one.
fn reply_of(effect: &Option<Effect>) -> Reply
    ensures { IfSome effect.now (λ e. result ≡ e.reply) }
{
    match effect {
        Some(e) => same_reply(&e.reply),
        None => Reply {
            origin: Vec3::ZERO,
            got: IdList::new(),
        },
    }
}

/// The reply of the first of two effects that is there.
fn reply_in_hand(kept: &Option<Effect>, in_view: &Option<Effect>) -> Reply
    ensures { IfSome (first_effect kept.now in_view.now) (λ e. result ≡ e.reply) }
{
    match kept {
        Some(e) => same_reply(&e.reply),
        None => reply_of(in_view),
    }
}

impl<'a, A: Action> NodeTable<'a, A> {
    /// Commits, which is the pass's next step: the count grows by one, and the old count is the entry's place.
    pub fn commit(&self, pass: &mut Pass<A>) -> Entry
        requires own { IsOwn A.meaning self.now pass.old }
        requires next { is_commit_next (next_in A.meaning self.now pass.old)
            ≡ true }
        ensures own { IsOwn A.meaning self.now pass.new }
        ensures pass { pass.new ≡ after_in A.meaning self.now result.place pass.old }
        ensures seen { pass.old.view.seen ≤ result.place }
        ensures entry { IsSomeAnd (effect_in_hand pass.old)
            (λ e. result ≡ entry_of result.place pass.old.view.cmd e) }
    {
        let (slot, seq) = slot_and_seq(&pass.seat);
        let reply = reply_in_hand(&pass.effect, &pass.seat.effect);
        let place = self.step_word(pass, 0, WordStep::Count);
        Entry {
            place,
            slot,
            seq,
            reply,
        }
    }
}
