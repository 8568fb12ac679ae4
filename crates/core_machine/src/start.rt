ghost use Rattle.std.specs.Prelude.{◌≡◌, ℕ, ◌<◌, ◌==◌, ◌&&◌, [], slice_index_or};
ghost use Rattle.core_steps.specs.Encoding.{words_of};
ghost use Rattle.core_steps.specs.Nodes.{home};
ghost use Rattle.core_steps.specs.Stands.{is_player, start_words};
ghost use Rattle.core_seats.specs.Shown.{fixed_of};

use crate::words::Words;
use core_seats::{Rules, with_top_bit};
use core_steps::{PlayerWords, TABLE_NODES, TABLE_STATES, encode};
use entity_recs::{Action, SLOTS};

/// A player's five words at the start, 0 where the player isn't live.
fn body_at_start<A: Action>(rules: &Rules<A>, slot: u8) -> PlayerWords
    ensures { let F = fixed_of A.meaning rules.now in result ≡ words_of (F.start.record_of slot) }
{
    match rules.record(u16::from(slot)) {
        Some(r) => encode(&r),
        None => [0; 5],
    }
}

/// The state word of an id at the start, 0 where the id isn't live.
fn state_at_start<A: Action>(rules: &Rules<A>, id: u16) -> u64
    ensures { let F = fixed_of A.meaning rules.now in result ≡ (F.start.record_of id).state }
{
    match rules.record(id) {
        Some(r) => r.state,
        None => 0,
    }
}

/// Whether the player in this slot is live and linked at the node at the start.
fn is_linked<A: Action>(rules: &Rules<A>, node: u8, slot: u8) -> bool
    requires { slot < 64 }
    ensures { let F = fixed_of A.meaning rules.now in
        result ≡ is_player F slot && (node == home F (F.start.record_of slot)) }
{
    rules.is_ruled();
    rules.is_lawful();
    match rules.record(u16::from(slot)) {
        Some(r) => node == rules.home(&r),
        None => false,
    }
}

/// The list word of a node at the start: bit p is set where player p is live and linked there.
fn links_at_start<A: Action>(rules: &Rules<A>, node: u8) -> u64
    ensures { let F = fixed_of A.meaning rules.now in result ≡ (start_words F).links node }
{
    let mut word = 0;
    for slot in 0..SLOTS as u8 {
        word = with_top_bit(word, slot, is_linked(rules, node, slot));
    }
    word
}

/// Each node's list word at the start.
fn all_links<A: Action>(rules: &Rules<A>) -> [u64; TABLE_NODES]
    ensures { let F = fixed_of A.meaning rules.now in
        (node : ℕ) → node < TABLE_NODES → slice_index_or result node 0 ≡ (start_words F).links node }
{
    let mut links = [0; TABLE_NODES];
    for node in 0..TABLE_NODES as u8 {
        links[usize::from(node)] = links_at_start(rules, node);
    }
    links
}

/// Each player's five words at the start.
fn all_bodies<A: Action>(rules: &Rules<A>) -> [PlayerWords; SLOTS]
    ensures { let F = fixed_of A.meaning rules.now in
        (slot : ℕ) → slot < 64 → slice_index_or result slot [] ≡ words_of (F.start.record_of slot) }
{
    let mut body = [[0; 5]; SLOTS];
    for slot in 0..SLOTS as u8 {
        body[usize::from(slot)] = body_at_start(rules, slot);
    }
    body
}

/// The state word of each id at the start.
fn all_states<A: Action>(rules: &Rules<A>) -> [u64; TABLE_STATES]
    ensures { let F = fixed_of A.meaning rules.now in
        (id : ℕ) → id < TABLE_STATES → slice_index_or result id 0 ≡ (F.start.record_of id).state }
{
    let mut state = [0; TABLE_STATES];
    for id in 0..TABLE_STATES as u16 {
        state[usize::from(id)] = state_at_start(rules, id);
    }
    state
}

impl Words {
    ghost use Rattle.std.specs.Prelude.{◌≡◌};
    ghost use Rattle.core_steps.specs.Stands.{start_words};
    ghost use Rattle.core_machine.specs.Tables.{words_in};
    ghost use Rattle.core_seats.specs.Shown.{fixed_of};

    /// The words at the start: no node is held, each player is linked at its node, and the records are those of the
    /// start.
    pub fn of_start<A: Action>(rules: &Rules<A>) -> Words
        ensures { let F = fixed_of A.meaning rules.now in
            words_in result (start_words F) ≡ start_words F }
    {
        Words {
            commits: 0,
            node: [0; TABLE_NODES],
            links: all_links(rules),
            body: all_bodies(rules),
            state: all_states(rules),
        }
    }
}
