ghost use Rattle.std.specs.Prelude.{◌≡◌, ◌<◌, ◌≤◌, true, length, All, IfOk, OnOk};
ghost use Rattle.entity_recs.specs.declared.limits.TheConstants.{IDS};
ghost use Rattle.core_steps.specs.declared.sizes.TheConstants.{MOST_SEATS};
ghost use Rattle.world_tree.specs.Live.{live_in};
ghost use Rattle.world_tree.specs.Worlds.{IsLinked};
ghost use Rattle.ruled_words.specs.Numbers.{HasSmallNumbers};
ghost use Rattle.ruled_words.specs.NewPasses.{new_passes};
ghost use Rattle.ruled_words.specs.Passes.{fixed_in, setting_of, IsOwn};
ghost use Rattle.ruled_words.specs.Starts.{rules_of};
ghost use Rattle.region_locks.specs.PassLists.{AreNew};

use crate::pass::Pass;
use core_seats::Rules;
use entity_recs::Action;
use ruled_words::{Hand, SharedWords};
use std::alloc::{AllocError, Global};
use std::marker::Model;
use world_tree::World;

/// The passes of a table, in rising number.
pub type PassList<A> = Vec<Pass<A>>;

// It borrows the action, which a server keeps from frame to frame; the rule has only its snapshot, and no lifetime.
/// The shared words under their rule.
#[derive(Drop)]
pub struct NodeTable<'a, A: Action> {
    pub(crate) words: SharedWords<'a, A>,
}

impl<'a, A: Action> Model for NodeTable<'a, A> {
    ghost use Rattle.ruled_words.specs.Passes.{TableView};
    ghost use Rattle.ruled_words.specs.Rule.{HasSomeRooms};

    ghost Value = { TableView A };

    ghost view = { λ t. t.words };

    ghost invariant = { λ t. HasSomeRooms t.words.rooms };
}

/// A pass for each hand, whose seat is new and has room for as many entries as is said: the seats of the others are made
/// from that of the first.
fn make_passes<A: Action>(
    alloc: Global,
    hands: Vec<Hand>,
    room: &[u32],
    records: usize,
) -> Result<PassList<A>, AllocError>
    requires new { AreNew records (length room.now) room.now hands.items }
    requires seats { length room.now ≤ MOST_SEATS }
    requires few { records ≤ IDS }
    ensures { IfOk result (λ passes. passes.items ≡ hands.items) }
{
    let mut passes = Vec::with_capacity(alloc, room.len())?;
    let mut made = room.len() as u8;
    for hand in hands {
        passes.push(Pass::new(alloc, hand, room[passes.len()], made, records)?)?;
        made = 0;
    }
    Ok(passes)
}

impl<'a, A: Action> NodeTable<'a, A> {
    /// A table with the words of `world`, which is only read, and its passes, numbered from 0: pass i has room for
    /// `room[i]` entries.
    pub fn new(
        alloc: Global,
        action: &'a A,
        world: &World,
        room: &[u32],
    ) -> Result<(NodeTable<'a, A>, PassList<A>), AllocError>
        requires rooms { (0 < length room.now) × (length room.now ≤ MOST_SEATS) }
        requires taken { All (λ r. HasSmallNumbers r → (A.meaning action.now).takes r ≡ true)
            (live_in world.now.records) }
        ensures table { IfOk result (λ r. (r.0.action ≡ action.now) × (r.0.world ≡ world.now)
            × (r.0.rooms ≡ room.now)) }
        ensures passes { IfOk result (λ r. r.1.items ≡ new_passes r.0.table (setting_of (fixed_in A.meaning r.0)) room.now) }
        ensures own { IfOk result (λ r. All (IsOwn A.meaning r.0) r.1.items) }
        ensures linked { OnOk result (IsLinked world.now) }
    {
        let (words, hands) = SharedWords::open(alloc, action, world, room)?;
        let records = words.rules().count_records();
        let passes = make_passes(alloc, hands, room, records)?;
        Ok((NodeTable { words }, passes))
    }

    /// The rules of the action in the world at the start.
    pub(crate) fn rules(&self) -> &Rules<'a, A>
        ensures { result.now ≡ rules_of self.now.action self.now.world }
    {
        self.words.rules()
    }
}
