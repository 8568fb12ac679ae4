ghost use Rattle.std.specs.Prelude.{◌≡◌, ◌<◌, ◌≤◌, true, [], map, length, All, IfOk, OnOk};
ghost use Rattle.std.specs.List.{range_with_len};
ghost use Rattle.core_steps.specs.declared.sizes.TheConstants.{MOST_SEATS};
ghost use Rattle.world_tree.specs.Live.{live_in};
ghost use Rattle.world_tree.specs.Worlds.{IsLinked};
ghost use Rattle.ruled_words.specs.Numbers.{HasSmallNumbers};
ghost use Rattle.ruled_words.specs.Passes.{fixed_in, setting_of, sight_of, IsPassOf, IsOwn};
ghost use Rattle.ruled_words.specs.Sights.{AreRefusalsServed};
ghost use Rattle.ruled_words.specs.NewPasses.{new_passes};
ghost use Rattle.shared_moves.specs.Closing.{tally_of_all, AreRefusalsHeld, HasNoCommand, sight_at_end, log_from, IsClosed};
ghost use Rattle.shared_moves.specs.PassParts.{AreFresh};

use crate::pass::{Pass, PassList};
use entity_recs::{Action, SLOTS};
use move_journal::LogList;
use ruled_words::{Hand, SharedWords};
use std::alloc::{AllocError, Global};
use std::marker::Model;
use world_tree::World;

/// A world that moves on threads share: its words under their rule. Each thread runs its moves with a pass of its own.
#[derive(Drop)]
pub struct Shared<'a, A: Action> {
    pub(crate) words: SharedWords<'a, A>,
}

impl<'a, A: Action> Model for Shared<'a, A> {
    ghost use Rattle.ruled_words.specs.Passes.{TableView};
    ghost use Rattle.ruled_words.specs.Rule.{HasSomeRooms};

    ghost Value = { TableView A };

    ghost view = { λ s. s.words };

    ghost invariant = { λ s. HasSomeRooms s.words.rooms };
}

/// A pass for each hand, whose seat is new, with as much room as its seat has, and for `near_room` records near a move.
fn make_passes<A: Action>(
    alloc: Global,
    hands: Vec<Hand>,
    room: &[u32],
    near_room: usize,
) -> Result<PassList<A>, AllocError>
    requires { AreFresh near_room room.now hands.items }
    ensures { IfOk result (λ passes. passes.items ≡ hands.items) }
{
    let mut passes = Vec::with_capacity(alloc, room.len())?;
    for hand in hands {
        passes.push(Pass::new(alloc, hand, room[passes.len()], near_room)?)?;
    }
    Ok(passes)
}

/// Ends the seats of all passes but the first into the first one's, in their order, and puts the entries of each pass's
/// log into the empty list. It takes no memory.
fn end_all<A: Action>(words: &SharedWords<A>, mut passes: PassList<A>, logs: &mut LogList) -> Hand
    requires own { let F = fixed_in A.meaning words.now in
        All (IsPassOf F (length words.now.rooms) words.now.table) passes.items }
    requires numbers { map (λ p. p.number) passes.items ≡ range_with_len 0 (length words.now.rooms) }
    requires rest { All HasNoCommand passes.items }
    requires count { (0 < length passes.items) × (length passes.items ≤ MOST_SEATS) }
    requires logs { logs.old ≡ [] }
    ensures table { result.table ≡ words.now.table }
    ensures sight { sight_of result ≡ sight_at_end passes.items }
    ensures logs { logs.new ≡ map log_from passes.items }
{
    let (mut first, log) = passes.remove(0).into_parts();
    // The list has room for as many logs as there are passes.
    let _ = logs.push(log);
    for pass in passes {
        let (hand, log) = pass.into_parts();
        words.end(&mut first, hand);
        // As above.
        let _ = logs.push(log);
    }
    first
}

impl<'a, A: Action> Shared<'a, A> {
    /// Shares the world, which is only read, among passes numbered from 0: pass i has room for `room[i]` entries, and
    /// runs the commands of the slots that leave i when they are divided by the number of passes.
    pub fn start(
        alloc: Global,
        action: &'a A,
        world: &World,
        room: &[u32],
    ) -> Result<(Shared<'a, A>, PassList<A>), AllocError>
        requires rooms { (0 < length room.now) × (length room.now ≤ MOST_SEATS) }
        requires taken { All (λ r. HasSmallNumbers r → (A.meaning action.now).takes r ≡ true)
            (live_in world.now.records) }
        ensures shared { IfOk result (λ r. (r.0.action ≡ action.now) × (r.0.world ≡ world.now)
            × (r.0.rooms ≡ room.now)) }
        ensures passes { IfOk result (λ r. r.1.items ≡ new_passes r.0.table (setting_of (fixed_in A.meaning r.0)) room.now) }
        ensures own { IfOk result (λ r. All (IsOwn A.meaning r.0) r.1.items) }
        ensures linked { OnOk result (IsLinked world.now) }
    {
        let (words, hands) = SharedWords::open(alloc, action, world, room)?;
        // All players, and all that live at the start.
        let near_room = SLOTS + words.rules().count_records();
        let passes = make_passes(alloc, hands, room, near_room)?;
        Ok((Shared { words }, passes))
    }

    /// Ends all passes and gives what they did: the world after the moves of all, linked anew, and the entries of each
    /// pass by its number. It takes no memory.
    pub fn close(self, passes: PassList<A>, world: &mut World, logs: &mut LogList)
        requires own { let F = fixed_in A.meaning self in
            All (IsPassOf F (length self.rooms) self.table) passes.items }
        requires all { map (λ p. p.number) passes.items ≡ range_with_len 0 (length self.rooms) }
        requires none { All HasNoCommand passes.items }
        requires world { world.old ≡ self.world }
        requires logs { logs.old ≡ [] }
        ensures closed { let F = fixed_in A.meaning self.entry in
            IsClosed F (map (λ p. p.view.log) passes.items) world.new }
        ensures refusals { AreRefusalsServed (tally_of_all passes.items) }
        ensures held { AreRefusalsHeld passes.items }
        ensures logs { logs.new ≡ map log_from passes.items }
        ensures tree { world.new.tree ≡ world.old.tree }
        ensures linked { IsLinked world.new }
    {
        let Shared { words } = self;
        let first = end_all(&words, passes, logs);
        words.close_into(first, world);
    }
}
