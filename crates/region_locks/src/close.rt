ghost use Rattle.std.specs.Prelude.{◌≡◌, ◌<◌, ◌≤◌, [], map, length, All};
ghost use Rattle.std.specs.List.{range_with_len};
ghost use Rattle.core_steps.specs.declared.sizes.TheConstants.{MOST_SEATS};
ghost use Rattle.world_tree.specs.Worlds.{IsLinked};
ghost use Rattle.ruled_words.specs.Passes.{fixed_in, sight_of, IsPassOf};
ghost use Rattle.ruled_words.specs.Sights.{AreRefusalsServed};
ghost use Rattle.shared_moves.specs.Closing.{tally_of_all, AreRefusalsHeld, HasNoCommand, sight_at_end, log_from, IsClosed};

use crate::table::{NodeTable, PassList};
use entity_recs::Action;
use move_journal::LogList;
use ruled_words::{Hand, SharedWords};
use world_tree::World;

/// Ends the seats of all passes but the first into the first one's, in their order, and puts the entries of each pass's
/// log into the empty list. It takes no memory.
fn end_all<A: Action>(words: &SharedWords<A>, mut passes: PassList<A>, logs: &mut LogList) -> Hand
    requires own { let F = fixed_in A.meaning words.now in
        All (IsPassOf F (length words.now.rooms) words.now.table) passes.items }
    requires numbers { map (λ p. p.number) passes.items ≡ range_with_len 0 (length words.now.rooms) }
    requires rest { All HasNoCommand passes.items }
    requires count { (0 < length passes.items) × (length passes.items ≤ MOST_SEATS) }
    requires logs { logs.old ≡ [] }
    ensures table { result.table ≡ words.now.table }
    ensures sight { sight_of result ≡ sight_at_end passes.items }
    ensures logs { logs.new ≡ map log_from passes.items }
{
    let (mut first, log) = passes.remove(0).into_parts();
    // The list has room for as many logs as there are passes.
    let _ = logs.push(log);
    for pass in passes {
        let (hand, log) = pass.into_parts();
        words.end(&mut first, hand);
        // As above.
        let _ = logs.push(log);
    }
    first
}

impl<'a, A: Action> NodeTable<'a, A> {
    /// Closes the table: all its passes are ended, each one's entries are put into the empty list, by number, and the
    /// records of the world that the table began with are made those of the shared words. It takes no memory.
    pub fn close(self, passes: PassList<A>, world: &mut World, logs: &mut LogList)
        requires own { let F = fixed_in A.meaning self in
            All (IsPassOf F (length self.rooms) self.table) passes.items }
        requires all { map (λ p. p.number) passes.items ≡ range_with_len 0 (length self.rooms) }
        requires none { All HasNoCommand passes.items }
        requires world { world.old ≡ self.world }
        requires logs { logs.old ≡ [] }
        ensures closed { let F = fixed_in A.meaning self.entry in
            IsClosed F (map (λ p. p.view.log) passes.items) world.new }
        ensures refusals { AreRefusalsServed (tally_of_all passes.items) }
        ensures held { AreRefusalsHeld passes.items }
        ensures logs { logs.new ≡ map log_from passes.items }
        ensures tree { world.new.tree ≡ world.old.tree }
        ensures linked { IsLinked world.new }
    {
        let NodeTable { words } = self;
        let first = end_all(&words, passes, logs);
        words.close_into(first, world);
    }
}
