ghost use Rattle.std.specs.Prelude.{◌≡◌, ◌-◌, ◌<◌, ◌≤◌, true, [], map, length, slice_index, All, IfOk, IfSome, OnOk};
ghost use Rattle.std.specs.List.{range_with_len};
ghost use Rattle.core_steps.specs.declared.sizes.TheConstants.{TABLE_WORDS};
ghost use Rattle.core_steps.specs.Stands.{IsStart};
ghost use Rattle.world_tree.specs.Live.{live_in};
ghost use Rattle.world_tree.specs.Worlds.{record_of, IsLinked};
ghost use Rattle.ruled_words.specs.Starts.{fixed_by, rules_of};
ghost use Rattle.ruled_words.specs.Numbers.{HasSmallNumbers};
ghost use Rattle.ruled_words.specs.Rule.{first_sight};
ghost use Rattle.ruled_words.specs.Going.{IsAtRest};
ghost use Rattle.areanode.specs.Trees.{IsTreeDepth};
ghost use Rattle.core_seats.specs.Shown.{fixed_of};
ghost use Rattle.ruled_words.specs.Hands.{IsPlain};
ghost use Rattle.ruled_words.specs.NewPasses.{new_passes, other_pass, view_with_made};
ghost use Rattle.ruled_words.specs.Passes.{fixed_in, setting_of, sight_of, IsOwn};
ghost use Rattle.ruled_words.specs.Sights.{no_tally, with_one_made, sight_made};

use crate::hand::Hand;
use crate::rule::key::{Key, TableSeat};
use crate::setting::Setting;
use crate::shared_words::{SharedWords, WordTable};
use arrayvec::ArrayVec;
use atomic_table::Table;
use core_seats::Rules;
use core_steps::MOST_SEATS;
use entity_recs::{Action, IDS, Rec};
use start::words_at_start;
use std::alloc::{AllocError, Global};
use std::snapshot::Snapshot;
use world_tree::World;

mod start;

/// These rooms as a list of at most [`MOST_SEATS`].
fn rooms_of(room: &[u32]) -> ArrayVec<u32, MOST_SEATS>
    requires { length room.now ≤ MOST_SEATS }
    ensures { result.items ≡ room.now }
{
    let mut rooms = ArrayVec::new();
    // There are no more than seats, so they fit.
    let _ = rooms.try_extend_from_slice(room);
    rooms
}

/// The record with this id, if it is live. The numbers of a record that is read are those of their types.
fn read(world: &World, id: u16) -> Option<Rec>
    ensures record { result ≡ record_of world.now id }
    ensures small { IfSome result HasSmallNumbers }
{
    world.get(id)
}

/// The live records of the world, in rising id.
fn live_records(alloc: Global, world: &World) -> Result<Vec<Rec>, AllocError>
    ensures records { IfOk result (λ v. v.items ≡ live_in world.now.records) }
    ensures small { IfOk result (λ v. All HasSmallNumbers v.items) }
    ensures linked { OnOk result (IsLinked world.now) }
{
    let mut records = Vec::with_capacity(alloc, IDS)?;
    for id in world.live_ids() {
        if let Some(r) = read(world, *id) {
            records.push(r)?;
        }
    }
    Ok(records)
}

/// The rules of an action in the world at the start.
fn rules_at_start<'a, A: Action>(
    alloc: Global,
    action: &'a A,
    world: &World,
) -> Result<Rules<'a, A>, AllocError>
    requires taken { All (λ r. HasSmallNumbers r → (A.meaning action.now).takes r ≡ true) (live_in world.now.records) }
    ensures rules { IfOk result (λ r. r ≡ rules_of action.now world.now) }
    ensures start { OnOk result (IsStart (fixed_by A.meaning action.now world.now)) }
    ensures linked { OnOk result (IsLinked world.now) }
{
    let records = live_records(alloc, world)?;
    Rules::new(alloc, action, world.tree(), records.as_slice())
}

/// What the passes of a table with these rules know of it.
fn setting_of<A: Action>(rules: &Rules<A>) -> Setting
    ensures value { result ≡ setting_of (fixed_of A.meaning rules.now) }
    ensures depth { IsTreeDepth result.depth }
{
    Setting {
        depth: rules.depth(),
        records: rules.count_records(),
    }
}

/// A table with the words of the world, under its rule, and the seat of pass 0.
fn lay_table<A: Action>(
    alloc: Global,
    action: &A,
    world: &World,
    room: &[u32],
) -> Result<(WordTable<A>, TableSeat), AllocError>
    requires rooms { (0 < length room.now) × (length room.now ≤ MOST_SEATS) }
    requires start { IsStart (fixed_by A.meaning action.now world.now) }
    requires linked { IsLinked world.now }
    ensures words { IfOk result (λ t. (t.0.shared.table_id.words ≡ TABLE_WORDS) × (t.0.shared.table_id.slots ≡ 0)) }
    ensures key { IfOk result (λ t. (t.0.shared.key.action.value ≡ action.now)
        × (t.0.shared.key.world.value ≡ world.now) × (t.0.shared.key.rooms.items ≡ room.now)) }
    ensures seat { IfOk result (λ t. (t.1.table_id ≡ t.0.shared.table_id)
        × (t.1.me ≡ (first_sight (slice_index room.now 0), []))) }
{
    let words = words_at_start(alloc, world)?;
    let rooms = rooms_of(room);
    let about = Key {
        action: Snapshot::of(action),
        world: Snapshot::of(world),
        rooms,
    };
    Table::of_words(alloc, words.as_slice(), &about)
}

impl<'a, A: Action> SharedWords<'a, A> {
    /// The words of `world`, which is only read, under their rule, and a hand for each room, numbered from 0: the seats of
    /// the others are made from that of the first.
    pub fn open(
        alloc: Global,
        action: &'a A,
        world: &World,
        room: &[u32],
    ) -> Result<(SharedWords<'a, A>, Vec<Hand>), AllocError>
        requires rooms { (0 < length room.now) × (length room.now ≤ MOST_SEATS) }
        requires taken { All (λ r. HasSmallNumbers r → (A.meaning action.now).takes r ≡ true)
            (live_in world.now.records) }
        ensures table { IfOk result (λ r. (r.0.action ≡ action.now) × (r.0.world ≡ world.now)
            × (r.0.rooms ≡ room.now)) }
        ensures hands { IfOk result (λ r. r.1.items ≡ new_passes r.0.table (setting_of (fixed_in A.meaning r.0)) room.now) }
        ensures own { IfOk result (λ r. All (IsOwn A.meaning r.0) r.1.items) }
        ensures linked { OnOk result (IsLinked world.now) }
    {
        let (words, mut first) = SharedWords::new(alloc, action, world, room)?;
        let mut hands = words.make_others(alloc, &mut first, room)?;
        hands.insert(0, first)?;
        Ok((words, hands))
    }

    /// The words of `world`, which is only read, under their rule, and the hand of seat 0: there is a room for each seat,
    /// and that of seat 0 is the first.
    fn new(
        alloc: Global,
        action: &'a A,
        world: &World,
        room: &[u32],
    ) -> Result<(SharedWords<'a, A>, Hand), AllocError>
        requires rooms { (0 < length room.now) × (length room.now ≤ MOST_SEATS) }
        requires taken { All (λ r. HasSmallNumbers r → (A.meaning action.now).takes r ≡ true)
            (live_in world.now.records) }
        ensures table { IfOk result (λ r. (r.0.action ≡ action.now) × (r.0.world ≡ world.now)
            × (r.0.rooms ≡ room.now)) }
        ensures first { IfOk result (λ r. (r.1.table ≡ r.0.table)
            × (sight_of r.1 ≡ first_sight (slice_index room.now 0))) }
        ensures setting { IfOk result (λ r. r.1.setting ≡ setting_of (fixed_in A.meaning r.0)) }
        ensures plain { IfOk result (λ r. IsPlain r.1) }
        ensures linked { OnOk result (IsLinked world.now) }
    {
        let rules = rules_at_start(alloc, action, world)?;
        let (table, place) = lay_table(alloc, action, world, room)?;
        let setting = setting_of(&rules);
        let first = Hand {
            place,
            setting,
            number: 0,
        };
        Ok((SharedWords { rules, table }, first))
    }

    /// The hand of the seat that is made next from seat 0, which rests, with this room.
    fn make(&self, first: &mut Hand, number: u8, room: u32) -> Hand
        requires table { first.old.table ≡ self.now.table }
        requires rests { IsAtRest first.old.view }
        requires first { first.old.number ≡ 0 }
        requires number { number ≡ first.old.view.made }
        requires more { first.old.view.made < length self.now.rooms }
        ensures table { (first.new.table ≡ first.old.table) × (result.table ≡ first.old.table) }
        ensures setting { (first.new.setting ≡ first.old.setting) × (result.setting ≡ first.old.setting) }
        ensures first { sight_of first.new ≡ with_one_made (sight_of first.old) }
        ensures made { sight_of result ≡ sight_made room (sight_of first.old) }
        ensures plain { IsPlain first.new × IsPlain result }
    {
        first.make(&self.table.shared, number, room)
    }

    /// Makes a seat for each room but the first, from seat 0.
    fn make_others(
        &self,
        alloc: Global,
        first: &mut Hand,
        room: &[u32],
    ) -> Result<Vec<Hand>, AllocError>
        requires table { first.old.table ≡ self.now.table }
        requires rooms { (self.now.rooms ≡ room.now) × (0 < length room.now) × (length room.now ≤ MOST_SEATS) }
        requires first { sight_of first.old ≡ first_sight (slice_index room.now 0) }
        requires setting { first.old.setting ≡ setting_of (fixed_in A.meaning self.now) }
        requires plain { IsPlain first.old }
        ensures hands { IfOk result (λ v. v.items
            ≡ map (other_pass self.now.table (setting_of (fixed_in A.meaning self.now)) room.now)
            (range_with_len 1 (length room.now - 1))) }
        ensures first { OnOk result
            (sight_of first.new ≡ record {
              number = 0;
              view = view_with_made (slice_index room.now 0) (length room.now);
              tally = no_tally;
            }) }
        ensures table { first.new.table ≡ first.old.table }
        ensures setting { first.new.setting ≡ first.old.setting }
        ensures plain { IsPlain first.new }
    {
        let mut hands = Vec::with_capacity(alloc, room.len())?;
        for i in 1..room.len() {
            hands.push(self.make(first, i as u8, room[i]))?;
        }
        Ok(hands)
    }
}
