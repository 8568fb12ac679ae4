ghost use Rattle.std.specs.Prelude.{◌≡◌, ℕ, ◌<◌, length, slice_index_or, Some, IfOk, OnOk};
ghost use Rattle.core_steps.specs.declared.sizes.TheConstants.{FIRST_RECORD_WORD, FIRST_STATE_WORD};
ghost use Rattle.core_steps.specs.Stands.{start_words};
ghost use Rattle.ruled_words.specs.Starts.{AreStartWords, first_words, fixed_of_world, home_of};

use areanode::MOST_NODES;
use core_seats::with_top_bit;
use core_steps::{FIRST_LIST_WORD, PlayerWords, TABLE_NODES, TABLE_WORDS, encode};
use entity_recs::{IDS, SLOTS, abs_box};
use std::alloc::{AllocError, Global};
use world_tree::World;

/// The node at which the player of this slot is linked, if it is live.
fn home_at_start(world: &World, slot: u8) -> Option<u8>
    requires slot { slot < 64 }
    ensures home { result ≡ home_of world.now slot }
    ensures in_range { (node : ℕ) → result ≡ Some node → node < MOST_NODES }
{
    match world.get(u16::from(slot)) {
        Some(r) => Some(world.tree().node_of(&abs_box(&r))),
        None => None,
    }
}

/// The list words of the nodes at the start: bit p is set where player p is live and linked there.
fn links_at_start(world: &World) -> [u64; TABLE_NODES]
    ensures size { length result ≡ TABLE_NODES }
    ensures words { (node : ℕ) → node < TABLE_NODES
        → slice_index_or result node 0 ≡ (start_words (fixed_of_world world.now)).links node }
{
    let mut links = [0; TABLE_NODES];
    for slot in 0..SLOTS as u8 {
        if let Some(home) = home_at_start(world, slot) {
            let node = usize::from(home);
            links[node] = with_top_bit(links[node], slot, true);
        }
    }
    links
}

/// A player's five words at the start, all 0 where the player isn't live.
fn body_at_start(world: &World, slot: u8) -> PlayerWords
    requires { slot < 64 }
    ensures five { length result ≡ 5 }
    ensures words { (k : ℕ) → k < 5 → slice_index_or result k 0 ≡ (start_words (fixed_of_world world.now)).body slot k }
{
    match world.get(u16::from(slot)) {
        Some(r) => encode(&r),
        None => [0; 5],
    }
}

/// The state word of an id at the start, 0 where the id isn't live.
fn state_at_start(world: &World, id: u16) -> u64
    ensures { result ≡ (start_words (fixed_of_world world.now)).state id }
{
    match world.get(id) {
        Some(r) => r.state,
        None => 0,
    }
}

/// Puts the words of the players' records last, which come next, player by player.
fn add_bodies(words: &mut Vec<u64>, world: &World) -> Result<(), AllocError>
    requires { words.old.items ≡ first_words world.now FIRST_RECORD_WORD }
    ensures { OnOk result (words.new.items ≡ first_words world.now FIRST_STATE_WORD) }
{
    for slot in 0..SLOTS as u8 {
        words.extend_from_slice(&body_at_start(world, slot))?;
    }
    Ok(())
}

/// Puts the state words last, which come next, id by id.
fn add_states(words: &mut Vec<u64>, world: &World) -> Result<(), AllocError>
    requires { words.old.items ≡ first_words world.now FIRST_STATE_WORD }
    ensures { OnOk result (AreStartWords world.now words.new.items) }
{
    for id in 0..IDS as u16 {
        words.push(state_at_start(world, id))?;
    }
    Ok(())
}

/// The words of the table at the start: of each kind those of all nodes, players or ids, one kind after another.
pub(crate) fn words_at_start(alloc: Global, world: &World) -> Result<Vec<u64>, AllocError>
    ensures { IfOk result (λ v. AreStartWords world.now v.items) }
{
    let mut words = Vec::with_capacity(alloc, TABLE_WORDS)?;
    words.extend_from_slice(&[0; FIRST_LIST_WORD as usize])?;
    words.extend_from_slice(&links_at_start(world))?;
    add_bodies(&mut words, world)?;
    add_states(&mut words, world)?;
    Ok(words)
}
