ghost use Rattle.std.specs.Prelude.{◌≡◌, ◌<◌, ◌≤◌, ◌==◌, ◌||◌, ◌&&◌, not, ℕ, true, false, [], nat_lt, map};
ghost use Rattle.std.specs.Prelude.{filter, length};
ghost use Rattle.std.specs.List.{filter_map, range_with_len};
ghost use Rattle.core_seats.specs.NearKept.{near_player};
ghost use Rattle.areanode.specs.Words.{has_bit};
ghost use Rattle.core_steps.specs.Nodes.{has};
ghost use Rattle.entity_recs.specs.declared.rec.Rec.{Rec};

use crate::boxes::{is_inside, touches_region};
use crate::reading::read_record;
use crate::reads::LoadedPlayers;
use crate::rules::Rules;
use crate::thing_bits::{ThingBits, near_things};
use arena_geo::{Aabb, Region};
use entity_recs::{Action, Rec};
use world_tree::NearList;

/// The word with this bit.
pub fn with_slot(word: u64, slot: u16) -> u64
    requires { slot < 64 }
    ensures { (other : ℕ) → other < 64 → has_bit result other ≡ (slot == other) || has_bit word other }
{
    word | 1 << slot
}

/// The word with the bit of this record's slot, where it is a player's.
fn with_player(word: u64, r: &Rec) -> u64
    ensures { (slot : ℕ) → slot < 64 → has_bit result slot ≡ (r.now.id == slot) || has_bit word slot }
{
    if r.id < 64 {
        with_slot(word, r.id)
    } else {
        word
    }
}

/// The slots of the players among these records, a bit for each.
pub fn player_bits(start: &[Rec]) -> u64
    ensures { (slot : ℕ) → slot < 64 → has_bit result slot ≡ has (map (λ (r : Rec). r.id) start.now) slot }
{
    let mut word = 0;
    for r in start {
        word = with_player(word, r);
    }
    word
}

/// How many of these records are players'.
pub fn count_players(start: &[Rec]) -> usize
    ensures count { result ≡ length (filter (λ (r : Rec). nat_lt r.id 64) start.now) }
    ensures few { result ≤ length start.now }
{
    let mut count = 0;
    for r in start {
        if r.id < 64 {
            count += 1;
        }
    }
    count
}

/// The lowest number, 0 to 63, of those whose bit is set.
pub fn lowest_bit(word: u64) -> u8
    requires { 0 < word }
    ensures below { result < 64 }
    ensures there { has_bit word result ≡ true }
    ensures first { (i : ℕ) → i < result → has_bit word i ≡ false }
{
    word.trailing_zeros() as u8
}

/// The word without the bit of this number, 0 to 63.
pub fn without_bit(word: u64, bit: u8) -> u64
    requires { bit < 64 }
    ensures bits { (i : ℕ) → i < 64 → has_bit result i ≡ (has_bit word i && not (i == bit)) }
    ensures less { has_bit word bit ≡ true → result < word }
{
    word & !(1 << bit)
}

/// The record of the words kept of this slot, where it touches a region.
fn near_player(by_slot: &LoadedPlayers, slot: u8, region: &Region) -> Option<Rec>
    requires { slot < 64 }
    ensures { result ≡ near_player region.now by_slot.now slot }
{
    let r = read_record(slot, &by_slot[usize::from(slot)]);
    if touches_region(&r, region) {
        Some(r)
    } else {
        None
    }
}

/// Puts the records of the words kept of these slots that touch a region into an empty list, in rising slot.
fn put_slots(slots: u64, by_slot: &LoadedPlayers, region: &Region, list: &mut NearList)
    requires empty { list.old.items ≡ [] }
    requires room { 64 ≤ list.old.room }
    ensures records { list.new.items ≡ filter_map (near_player region.now by_slot.now)
        (filter (has_bit slots) (range_with_len 0 64)) }
    ensures few { length list.new.items ≤ 64 }
    ensures room { list.new.room ≡ list.old.room }
{
    let mut rest = slots;
    while rest != 0 {
        let slot = lowest_bit(rest);
        if let Some(r) = near_player(by_slot, slot, region) {
            // The list has room for all players.
            let _ = list.push(r);
        }
        rest = without_bit(rest, slot);
    }
}

impl<'a, A: Action> Rules<'a, A> {
    ghost use Rattle.std.specs.Prelude.{◌≡◌, ◌<◌, ◌≤◌, [], length};
    ghost use Rattle.std.specs.Bool.{OnTrue};
    ghost use Rattle.std.specs.List.Sorted.{IsStrictlyIncreasing};
    ghost use Rattle.core_seats.specs.NearKept.{AreThings, players_kept};
    ghost use Rattle.core_seats.specs.ThingStrips.{AreThingBoxes, MarksThings, TouchesAll};
    ghost use Rattle.core_seats.specs.Shown.{fixed_of};

    /// Puts the records of the words kept of live players but this one that touch a region into an empty list, in rising
    /// slot. The list has room for all players.
    pub fn put_players(
        &self,
        seen: u64,
        by_slot: &LoadedPlayers,
        region: &Region,
        slot: u8,
        list: &mut NearList,
    )
        requires slot { slot < 64 }
        requires empty { list.old.items ≡ [] }
        requires room { 64 ≤ list.old.room }
        ensures players { list.new.items
            ≡ players_kept (fixed_of A.meaning self.now) region.now slot seen by_slot.now }
        ensures few { length list.new.items ≤ 64 }
        ensures room { list.new.room ≡ list.old.room }
    {
        put_slots(
            without_bit(seen & self.players, slot),
            by_slot,
            region,
            list,
        );
    }

    /// The things of the map at the start, in rising id.
    pub fn map_things(&self) -> &[Rec]
        ensures things { AreThings (fixed_of A.meaning self.now) result.now }
        ensures rise { IsStrictlyIncreasing (fixed_of A.meaning self.now).start.ids }
    {
        &self.start.as_slice()[self.first_thing..]
    }

    /// The absolute boxes of the things of the map, in rising id.
    pub fn thing_boxes(&self) -> &[Aabb]
        ensures { AreThingBoxes (fixed_of A.meaning self.now) result.now }
    {
        self.boxes.as_slice()
    }

    /// Whether it is known at once that a region touches all things of the map: they lie in one of its boxes.
    pub fn has_all_things(&self, region: &Region) -> bool
        ensures { OnTrue result (TouchesAll (fixed_of A.meaning self.now) region.now) }
    {
        is_inside(&self.area, region)
    }

    /// The bits of the things of the map that touch a region, each by its place among the things; those of others may be
    /// among them.
    pub fn thing_bits(&self, region: &Region) -> ThingBits
        ensures { MarksThings (fixed_of A.meaning self.now) region.now result }
    {
        near_things(&self.index, region)
    }
}
