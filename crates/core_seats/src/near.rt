ghost use Rattle.std.specs.Prelude.{◌≡◌, ◌≤◌, ℕ, [], map, filter, length, slice_index_or, true, false, vec_capacity, None};
ghost use Rattle.core_steps.specs.Reads.{player_at};
ghost use Rattle.std.specs.List.{filter_map};
ghost use Rattle.entity_recs.specs.declared.rec.Rec.{Rec};
ghost use Rattle.entity_recs.specs.Records as records;
ghost use Rattle.core_seats.specs.PlayerReads.{player_read_of};
ghost use Rattle.core_seats.specs.NearRecords as near;

use crate::boxes::touches_region;
use crate::reading::read_record;
use crate::reads::{PlayerRead, player_words, thing_state};
use arena_geo::Region;
use entity_recs::{IDS, NewState, Rec};
use world_tree::NearList;

/// The record, with another state.
fn with_state(r: &Rec, state: u64) -> Rec
    ensures { result ≡ records.with_state r.now state }
{
    Rec { state, ..*r }
}

/// Whether a record is a thing of the map whose absolute box touches a region.
fn is_touched_thing(r: &Rec, region: &Region) -> bool
    ensures { result ≡ near.is_touched_thing region.now r.now }
{
    r.id >= 64 && touches_region(r, region)
}

/// Puts into an empty list the ids of the things of the map among these records whose absolute box touches a region, in
/// the order of the records. It takes no memory.
pub fn put_things(start: &[Rec], region: &Region, ids: &mut Vec<u16>)
    requires empty { ids.old.items ≡ [] }
    requires room { length start.now ≤ vec_capacity ids.old }
    ensures ids { ids.new.items ≡ map (λ (r : Rec). r.id) (filter (near.is_touched_thing region.now) start.now) }
    ensures room { vec_capacity ids.new ≡ vec_capacity ids.old }
{
    for r in start {
        if is_touched_thing(r, region) {
            ids.push_reserved(r.id);
        }
    }
}

/// The record as it was loaded, where it was: a player's as it was loaded last, a thing's with the state that was
/// loaded.
fn loaded_of(r: &Rec, others: &[PlayerRead], states: &[NewState]) -> Option<Rec>
    ensures { result ≡ near.loaded_of (map player_read_of others.now) states.now r.now }
{
    if r.id < 64 {
        match player_words(others, r.id) {
            Some(words) => Some(read_record(r.id as u8, &words)),
            None => None,
        }
    } else {
        match thing_state(states, r.id) {
            Some(state) => Some(with_state(r, state)),
            None => None,
        }
    }
}

/// The record, if there is one and its absolute box touches a region.
fn touching_one(r: Option<Rec>, region: &Region) -> Option<Rec>
    ensures { result ≡ near.touching_one region.now r }
{
    match r {
        Some(r) if touches_region(&r, region) => Some(r),
        _ => None,
    }
}

/// The record as it was loaded, where it was, isn't that of this player, and touches a region.
fn near_one(
    r: &Rec,
    region: &Region,
    slot: u8,
    others: &[PlayerRead],
    states: &[NewState],
) -> Option<Rec>
    ensures { result ≡ near.near_one region.now slot (map player_read_of others.now) states.now r.now }
{
    if r.id == u16::from(slot) {
        None
    } else {
        touching_one(loaded_of(r, others, states), region)
    }
}

/// Which slots have a player of whom something was loaded. To look a slot up here costs less than to search the list.
fn slots_read(others: &[PlayerRead]) -> [bool; IDS]
    ensures { (slot : ℕ) → slice_index_or result slot true ≡ false → player_at (map player_read_of others.now)
        slot ≡ None }
{
    let mut slots = [false; IDS];
    for read in others {
        slots[usize::from(read.slot)] = true;
    }
    slots
}

/// As [`near_one`], where these are the slots of the players that were loaded.
fn near_read(
    r: &Rec,
    region: &Region,
    slot: u8,
    others: &[PlayerRead],
    states: &[NewState],
    slots: &[bool; IDS],
) -> Option<Rec>
    requires { (slot : ℕ) → slice_index_or slots.now slot true ≡ false → player_at (map player_read_of others.now)
        slot ≡ None }
    ensures { result ≡ near.near_one region.now slot (map player_read_of others.now) states.now r.now }
{
    if r.id < 64 && !slots[usize::from(r.id)] {
        None
    } else {
        near_one(r, region, slot, others, states)
    }
}

/// Puts what was loaded of these records but this player's and touches a region into an empty list, in the order of the
/// records.
pub fn put_near(
    start: &[Rec],
    region: &Region,
    slot: u8,
    others: &[PlayerRead],
    states: &[NewState],
    list: &mut NearList,
)
    requires room { length start.now ≤ list.old.room }
    requires empty { list.old.items ≡ [] }
    ensures records { list.new.items
        ≡ filter_map (near.near_one region.now slot (map player_read_of others.now) states.now) start.now }
    ensures room { list.new.room ≡ list.old.room }
{
    let slots = slots_read(others);
    for r in start {
        if let Some(one) = near_read(r, region, slot, others, states, &slots) {
            // The list has room for as many as there are records.
            let _ = list.push(one);
        }
    }
}
